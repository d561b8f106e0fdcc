//! Reviews that are kept, by their names and numbers, and what it takes to keep one.
ghost use Rattle.std.specs.Prelude.{◌≡◌, ◌<◌, IfOk};
ghost use Rattle.pm_model.specs.Authority.{first_denied, required, to_review};
ghost use Rattle.pm_model.specs.Formed.{IsLive};
ghost use Rattle.pm_model.specs.KeptReviews.{subject};
ghost use Rattle.pm_model.specs.Resolve.{look_up_of, look_up_review, resolve};
ghost use Rattle.pm_model.specs.State.{root};
ghost use Rattle.pm_model.specs.declared.requests.Change.TheVariants as change;
ghost use Rattle.pm_model.specs.declared.requests.Command.TheVariants as command;
ghost use Rattle.pm_admin.specs.Resolved.{IsFound};

use crate::capabilities::denied;
use crate::names::look_up;
use pm_model::{Change, ElementId, Name, Refusal, ReviewOf};
use pm_state::Graph;

/// The right to review an element.
pub(crate) const TO_REVIEW: u8 = 16;

/// The element that a review is of.
pub(crate) fn subject(of: ReviewOf<ElementId>) -> ElementId
    ensures { result ≡ subject of }
{
    match of {
        ReviewOf::Caps(user) => user,
        ReviewOf::Entries(element) => element,
    }
}

/// What the kept review of a number is of; `UnknownReview` exactly where none has it.
pub(crate) fn look_up_review(graph: &Graph, review: u32) -> Result<ReviewOf<ElementId>, Refusal>
    ensures { result ≡ look_up_review graph.now review }
{
    match graph.kept().of(review) {
        Some(of) => Ok(of),
        None => Err(Refusal::UnknownReview),
    }
}

fn look_up_of(graph: &Graph, of: ReviewOf<Name>) -> Result<ReviewOf<ElementId>, Refusal>
    ensures { result ≡ look_up_of graph.now of }
{
    match of {
        ReviewOf::Caps(user) => match look_up(graph, user) {
            Ok(user) => Ok(ReviewOf::Caps(user)),
            Err(why) => Err(why),
        },
        ReviewOf::Entries(element) => match look_up(graph, element) {
            Ok(element) => Ok(ReviewOf::Entries(element)),
            Err(why) => Err(why),
        },
    }
}

/// The change of a command to keep a review.
pub(crate) fn keep(graph: &Graph, of: ReviewOf<Name>) -> Result<Change, Refusal>
    ensures { result ≡ resolve graph.now root (command.Keep of) }
{
    match look_up_of(graph, of) {
        Ok(of) => Ok(Change::Keep { of }),
        Err(why) => Err(why),
    }
}

/// The change of a command to drop one.
pub(crate) fn drop_review(graph: &Graph, review: u32) -> Result<Change, Refusal>
    ensures { result ≡ resolve graph.now root (command.DropReview review) }
{
    match look_up_review(graph, review) {
        Ok(_) => Ok(Change::DropReview { review }),
        Err(why) => Err(why),
    }
}

pub(crate) fn denied_keep(
    graph: &Graph,
    user: ElementId,
    process: Option<u32>,
    of: ReviewOf<ElementId>,
) -> Option<Refusal>
    requires user { IsLive graph.now.elements user }
    requires found { IsFound graph.now (change.Keep of) }
    ensures { result ≡ first_denied graph.now user process (required graph.now (change.Keep of)) }
{
    denied(graph, user, process, TO_REVIEW, subject(of))
}

pub(crate) fn denied_drop(
    graph: &Graph,
    user: ElementId,
    process: Option<u32>,
    review: u32,
) -> Option<Refusal>
    requires user { IsLive graph.now.elements user }
    requires found { IsFound graph.now (change.DropReview review) }
    ensures { result ≡ first_denied graph.now user process (required graph.now (change.DropReview review)) }
{
    graph.formed();
    match graph.kept().of(review) {
        Some(of) => denied(graph, user, process, TO_REVIEW, subject(of)),
        None => None,
    }
}
