//! The ruling on an access.
ghost use Rattle.std.specs.Prelude.{◌≡◌, ◌<◌, IfOk};
ghost use Rattle.pm_model.specs.Answer.{acting, if_access, accessed, allowed_unless};
ghost use Rattle.pm_model.specs.RightSet.{bit_named, right_bits};
ghost use Rattle.pm_model.specs.Formed.{IsLive, IsUser};

use crate::denials::denial;
use crate::names::look_up;
use pm_model::{ElementId, Name, Reason, Refusal, is_access_right};
use pm_state::Graph;

/// The user for whom a process acts; `UnknownProcess` exactly where it isn't live.
pub fn acting(graph: &Graph, process: u32) -> Result<ElementId, Refusal>
    ensures value { result ≡ acting graph.now process }
    ensures live { IfOk result (IsLive graph.now.elements) }
    ensures user { IfOk result (IsUser graph.now.elements) }
{
    graph.formed();
    match graph.procs().user_of(process) {
        Some(user) => Ok(user),
        None => Err(Refusal::UnknownProcess),
    }
}

fn access_right(graph: &Graph, name: Name) -> Result<u8, Refusal>
    ensures value { result ≡ if_access name (bit_named graph.now.rights name) }
    ensures below { IfOk result (λ bit. bit < right_bits) }
{
    match graph.right(name) {
        None => Err(Refusal::UnknownName { name }),
        Some(bit) => {
            if is_access_right(bit) {
                Ok(bit)
            } else {
                Err(Refusal::UnknownName { name })
            }
        }
    }
}

fn allowed_unless(
    right: Name,
    target: ElementId,
    denial: Option<Reason>,
) -> Result<ElementId, Refusal>
    ensures value { result ≡ allowed_unless right target denial }
    ensures target { IfOk result (λ t. t ≡ target) }
{
    match denial {
        None => Ok(target),
        Some(reason) => Err(Refusal::Denied {
            right,
            target,
            reason,
        }),
    }
}

/// The target of an access, where the user and the process may use the right on it: the right's name,
/// which is one of an access right, and the target's name are looked up in this order; then comes the
/// reason of a denial. It takes no memory.
pub fn authorise_access(
    graph: &Graph,
    user: ElementId,
    process: u32,
    right: Name,
    target: Name,
) -> Result<ElementId, Refusal>
    requires { IsLive graph.now.elements user }
    ensures value { result ≡ accessed graph.now user process right target }
    ensures live { IfOk result (IsLive graph.now.elements) }
{
    let bit = match access_right(graph, right) {
        Ok(bit) => bit,
        Err(why) => return Err(why),
    };
    let element = match look_up(graph, target) {
        Ok(element) => element,
        Err(why) => return Err(why),
    };
    let reason = denial(graph, user, Some(process), bit, element);
    allowed_unless(right, element, reason)
}
