//! The ruling on a command.
ghost use Rattle.std.specs.Prelude.{◌≡◌, Err, IfOk, IsErr, true};
ghost use Rattle.pm_model.specs.Authority.{first_denied, required, ruling};
ghost use Rattle.pm_model.specs.Formed.{IsLive, IsNamed, IsUser};
ghost use Rattle.pm_admin.specs.Resolved.{Finds, IsFound, holds_lists};
ghost use Rattle.pm_admin.specs.Ruled.{IsRuling};

use crate::capabilities::denied_change;
use crate::denials::ROOT;
use crate::names::resolve;
use pm_model::{Change, ChangeError, Command, ElementId, Memory, Refusal};
use pm_state::Graph;

/// Whether something may be done, and if not, why.
#[derive(Drop)]
pub enum Ruling {
    Allowed,
    Refused(Refusal),
}

// The root user has all capabilities that a command may ask for, so nothing is asked for it.
#[tactic(auto, using(crate::proofs::FirstDenied::root_none))]
fn first_denied(
    graph: &Graph,
    user: ElementId,
    process: Option<u32>,
    change: &Change,
) -> Option<Refusal>
    requires user { IsLive graph.now.elements user }
    requires found { IsFound graph.now change.now }
    ensures { result ≡ first_denied graph.now user process (required graph.now change.now) }
{
    if user.number() == ROOT {
        return None;
    }
    denied_change(graph, user, process, change)
}

/// The change that the command names, where the user and the process have each capability that it asks
/// for; else the first name or number that is unknown, or the first capability that is denied. Only
/// the sets of a prohibition and a response take memory.
pub fn permit(
    graph: &Graph,
    user: ElementId,
    process: Option<u32>,
    command: &Command,
) -> Result<Change, ChangeError>
    requires { IsLive graph.now.elements user }
    ensures value { Finds (ruling graph.now user process command.now) result }
    ensures named { IsUser graph.now.elements user → IfOk result (IsNamed graph.now) }
    ensures free { result ≡ Err ChangeError.Memory → holds_lists command.now ≡ true }
{
    graph.formed();
    let change = match resolve(graph, user, command) {
        Ok(change) => change,
        Err(ChangeError::Refused(why)) => return Err(ChangeError::Refused(why)),
        Err(ChangeError::Memory) => return Err(ChangeError::Memory),
    };
    match first_denied(graph, user, process, &change) {
        None => Ok(change),
        Some(why) => Err(ChangeError::Refused(why)),
    }
}

/// Whether the user and the process may give the command: what [`permit`] finds, without the change. It takes memory
/// where that does.
pub fn authorise(
    graph: &Graph,
    user: ElementId,
    process: Option<u32>,
    command: &Command,
) -> Result<Ruling, Memory>
    requires { IsLive graph.now.elements user }
    ensures value { IfOk result (IsRuling (ruling graph.now user process command.now)) }
    ensures free { IsErr result → holds_lists command.now ≡ true }
{
    let _change = match permit(graph, user, process, command) {
        Ok(change) => change,
        Err(ChangeError::Refused(why)) => return Ok(Ruling::Refused(why)),
        Err(ChangeError::Memory) => return Err(Memory),
    };
    Ok(Ruling::Allowed)
}
