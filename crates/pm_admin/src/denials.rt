//! Why a right on an element is denied.
ghost use Rattle.std.specs.Prelude.{◌≡◌, ◌<◌, ◌==◌, ◌&&◌};
ghost use Rattle.pm_model.specs.RightSet.{right_bits};
ghost use Rattle.pm_model.specs.State.{root};
ghost use Rattle.pm_model.specs.Authority.{denial_in, forbidding_in, is_administrative, lacking_in, reason_of};
ghost use Rattle.pm_model.specs.Formed.{IsLive};
ghost use Rattle.pm_admin.specs.Verdicts.{reason_by, IsPlaced};

use pm_decide::{Verdict, decide};
use pm_deny::Deny;
use pm_model::{Bars, ElementId, Reason};
use pm_state::Graph;

/// The number of the root user.
pub(crate) const ROOT: u32 = 2;

fn is_administrative(right: u8) -> bool
    ensures { result ≡ is_administrative right }
{
    2 <= right && right <= 16
}

// The root user has each administrative right everywhere.
fn is_roots(user: ElementId, right: u8) -> bool
    ensures { result ≡ (user == root && is_administrative right) }
{
    user.number() == ROOT && is_administrative(right)
}

fn reason_by(deny: &Deny, verdict: Verdict) -> Option<Reason>
    requires { IsPlaced deny.now.items verdict }
    ensures { result ≡ reason_by deny.now.items verdict }
{
    match verdict {
        Verdict::Granted => None,
        Verdict::NoClass(class) => Some(Reason::Class(class)),
        Verdict::Prohibited(i) => Some(Reason::Prohibition(deny.at(i as usize).name)),
    }
}

// Why associations and prohibitions deny the right, if they do.
fn reason(
    graph: &Graph,
    user: ElementId,
    process: Option<u32>,
    right: u8,
    element: ElementId,
) -> Option<Reason>
    requires right { right < right_bits }
    requires user { IsLive graph.now.elements user }
    requires element { IsLive graph.now.elements element }
    ensures { result ≡ reason_of (lacking_in graph.now user right element) (forbidding_in graph.now user process right element) }
{
    let mut reach = graph.reach();
    let assoc = graph.assoc();
    let deny = graph.deny();
    let classes = graph.classes();
    graph.formed();
    assoc.kept();
    let verdict = decide(
        &mut reach, assoc, deny, classes, user, process, right, element,
    );
    reason_by(deny, verdict)
}

/// Why the right on the element is denied to the user and the process, if it is. It takes no memory.
pub(crate) fn denial(
    graph: &Graph,
    user: ElementId,
    process: Option<u32>,
    right: u8,
    element: ElementId,
) -> Option<Reason>
    requires right { right < right_bits }
    requires user { IsLive graph.now.elements user }
    requires element { IsLive graph.now.elements element }
    ensures { result ≡ denial_in graph.now user process right element }
{
    if is_roots(user, right) {
        return None;
    }
    reason(graph, user, process, right, element)
}
