//! The capabilities that an obligation asks for where it comes or goes: the first that is denied.
ghost use Rattle.std.specs.Prelude.{◌≡◌, IfSome, unwrap_or};
ghost use Rattle.pm_model.specs.declared.requests.Change.TheVariants as change;
ghost use Rattle.pm_model.specs.Authority.{first_denied, pm, required, watched_at};
ghost use Rattle.pm_model.specs.Formed.{IsLive};
ghost use Rattle.pm_admin.specs.Resolved.{IsFound};

use crate::capabilities::{PM, denied, denied_pair};
use pm_model::{Change, ElementId, Obligation, Pattern, Refusal};
use pm_state::Graph;

// The right on the user of a pattern and that on its target.
const OBLIGE: (u8, u8) = (15, 15);

// The target of a pattern; where it gives none, the policy class of the opening.
pub(crate) fn target_element(graph: &Graph, target: Option<ElementId>) -> ElementId
    requires { IfSome target (IsLive graph.now.elements) }
    ensures value { result ≡ unwrap_or target pm }
    ensures live { IsLive graph.now.elements result }
{
    graph.formed();
    match target {
        Some(id) => id,
        None => PM,
    }
}

fn denied_watch(
    graph: &Graph,
    user: ElementId,
    process: Option<u32>,
    pattern: &Pattern,
) -> Option<Refusal>
    requires user { IsLive graph.now.elements user }
    requires watched { IfSome pattern.now.user (IsLive graph.now.elements) }
    requires target { IfSome pattern.now.target (IsLive graph.now.elements) }
    ensures { result ≡ first_denied graph.now user process (watched_at pattern.now) }
{
    let target = target_element(graph, pattern.target);
    match pattern.user {
        Some(watched) => denied_pair(graph, user, process, OBLIGE, watched, target),
        None => denied(graph, user, process, OBLIGE.1, target),
    }
}

pub(crate) fn denied_oblige(
    graph: &Graph,
    user: ElementId,
    process: Option<u32>,
    item: &Obligation,
) -> Option<Refusal>
    requires user { IsLive graph.now.elements user }
    requires found { IsFound graph.now (change.Oblige item.now) }
    ensures { result ≡ first_denied graph.now user process (required graph.now (change.Oblige item.now)) }
{
    denied_watch(graph, user, process, &item.pattern)
}

pub(crate) fn denied_withdraw(
    graph: &Graph,
    user: ElementId,
    process: Option<u32>,
    index: u32,
) -> Option<Refusal>
    requires user { IsLive graph.now.elements user }
    requires found { IsFound graph.now (change.Withdraw index) }
    ensures { result ≡ first_denied graph.now user process (required graph.now (change.Withdraw index)) }
{
    graph.formed();
    let item = graph.obligations().at(index as usize);
    denied_watch(graph, user, process, &item.pattern)
}
