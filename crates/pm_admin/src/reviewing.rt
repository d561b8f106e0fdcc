//! The ruling on a review.
ghost use Rattle.std.specs.Prelude.{◌≡◌, true, IfOk, Some, Err};
ghost use Rattle.std.specs.List.{list_all};
ghost use Rattle.pm_model.specs.Authority.{first_denied, required_by, subjects_of};
ghost use Rattle.pm_model.specs.Formed.{Each, IsLive};
ghost use Rattle.pm_model.specs.Resolve.{resolve_question};
ghost use Rattle.pm_model.specs.Results.{first_of};
ghost use Rattle.pm_model.specs.Reviews.{is_user_at, review_checks, review_ruling};
ghost use Rattle.pm_admin.specs.Resolved.{Finds, is_survey};

use crate::capabilities::{denied, denied_on};
use crate::keeping::{TO_REVIEW, look_up_review, subject};
use crate::names::look_up;
use crate::prohibiting::look_up_all;
use pm_model::{ChangeError, ElementId, Question, Refusal, Review, UserList};
use pm_state::{Graph, is_user};

// Only a list of users takes memory.
fn resolve_question(graph: &Graph, question: &Question) -> Result<Review, ChangeError>
    ensures value { Finds (resolve_question graph.now question.now) result }
    ensures free { result ≡ Err ChangeError.Memory → is_survey question.now ≡ true }
{
    match question {
        Question::Caps { user } => match look_up(graph, *user) {
            Ok(user) => Ok(Review::Caps { user }),
            Err(why) => Err(ChangeError::Refused(why)),
        },
        Question::Entries { element } => match look_up(graph, *element) {
            Ok(element) => Ok(Review::Entries { element }),
            Err(why) => Err(ChangeError::Refused(why)),
        },
        Question::Survey { users } => match look_up_all(graph, users) {
            Ok(users) => Ok(Review::Survey { users }),
            Err(ChangeError::Refused(why)) => Err(ChangeError::Refused(why)),
            Err(ChangeError::Memory) => Err(ChangeError::Memory),
        },
        Question::Kept { review } => match look_up_review(graph, *review) {
            Ok(of) => Ok(Review::Kept { of }),
            Err(why) => Err(ChangeError::Refused(why)),
        },
        Question::Changes { review } => match look_up_review(graph, *review) {
            Ok(of) => Ok(Review::Changes {
                review: *review,
                of,
            }),
            Err(why) => Err(ChangeError::Refused(why)),
        },
    }
}

fn denied_review(
    graph: &Graph,
    user: ElementId,
    process: Option<u32>,
    review: &Review,
) -> Option<Refusal>
    requires user { IsLive graph.now.elements user }
    requires live { Each (IsLive graph.now.elements) (subjects_of review.now) }
    ensures { result ≡ first_denied graph.now user process (required_by review.now) }
{
    match review {
        Review::Caps { user: of } => denied(graph, user, process, TO_REVIEW, *of),
        Review::Entries { element } => denied(graph, user, process, TO_REVIEW, *element),
        Review::Survey { users } => denied_on(graph, user, process, TO_REVIEW, users),
        Review::Kept { of } | Review::Changes { of, .. } => {
            denied(graph, user, process, TO_REVIEW, subject(*of))
        }
    }
}

fn are_users(graph: &Graph, users: &UserList) -> bool
    requires { Each (IsLive graph.now.elements) users.now }
    ensures { result ≡ list_all (is_user_at graph.now.elements) users.now }
{
    for i in 0..users.len() {
        if !is_user(graph, *users.at(i)) {
            return false;
        }
    }
    true
}

// What isn't met once the capabilities are allowed.
fn unmet(graph: &Graph, review: &Review) -> Option<Refusal>
    requires { Each (IsLive graph.now.elements) (subjects_of review.now) }
    ensures { result ≡ first_of (review_checks graph.now review.now) }
{
    let fits = match review {
        Review::Caps { user } => is_user(graph, *user),
        Review::Entries { .. } | Review::Kept { .. } | Review::Changes { .. } => true,
        Review::Survey { users } => are_users(graph, users),
    };
    if fits {
        return None;
    }
    Some(Refusal::BadKinds)
}

/// The review that a question names, where the user and the process may have it: the first name or number that is unknown,
/// in the order of the fields; then the first capability that is denied, a right to review for each element that the review
/// is of; then `BadKinds`, where what has to be a user isn't one. Only the list of a survey takes memory. What the review
/// is of is live.
pub fn authorise_review(
    graph: &Graph,
    user: ElementId,
    process: u32,
    question: &Question,
) -> Result<Review, ChangeError>
    requires { IsLive graph.now.elements user }
    ensures value { Finds (review_ruling graph.now user (Some process) question.now) result }
    ensures live { IfOk result (λ r. Each (IsLive graph.now.elements) (subjects_of r)) }
    ensures free { result ≡ Err ChangeError.Memory → is_survey question.now ≡ true }
{
    graph.formed();
    let review = match resolve_question(graph, question) {
        Ok(review) => review,
        Err(ChangeError::Refused(why)) => return Err(ChangeError::Refused(why)),
        Err(ChangeError::Memory) => return Err(ChangeError::Memory),
    };
    match denied_review(graph, user, Some(process), &review) {
        Some(why) => return Err(ChangeError::Refused(why)),
        None => {}
    }
    match unmet(graph, &review) {
        Some(why) => Err(ChangeError::Refused(why)),
        None => Ok(review),
    }
}
