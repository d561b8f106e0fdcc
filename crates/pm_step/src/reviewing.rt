//! What a review answers.
ghost use Rattle.std.specs.Prelude.{◌≡◌, IfOk};
ghost use Rattle.pm_model.specs.Authority.{subjects_of};
ghost use Rattle.pm_model.specs.Formed.{Each, IsLive};
ghost use Rattle.pm_model.specs.KeptReviews.{kept_at};
ghost use Rattle.pm_model.specs.Reviews.{last_change, numbers_in, reviewed, rights_in, survey};
ghost use Rattle.pm_step.specs.Asking.{IsOfKept};

use pm_model::{ChangeList, CountList, Memory, Reply, Review, UserList};
use pm_review::bulk;
use pm_state::{Graph, GraphJudge, State, capabilities_of, entries_of, live_elements};
use std::thread::Threads;

// The last change of a kept review.
fn last_change(graph: &Graph, review: u32) -> Result<Reply, Memory>
    ensures { IfOk result (λ reply. reply ≡ last_change (kept_at graph.now.kept review)) }
{
    match graph.kept().last(review) {
        Some((at, changes)) => Ok(Reply::Changes {
            at,
            list: changes.copy()?,
        }),
        None => Ok(Reply::Changes {
            at: 0,
            list: ChangeList::new(graph.classes().allocator()),
        }),
    }
}

// How many pairs of a right and an element each of these users has, in their order.
fn counts<R: Threads + Sync>(rt: &R, graph: &Graph, users: &UserList) -> Result<CountList, Memory>
    requires { Each (IsLive graph.now.elements) users.now }
    ensures { IfOk result (λ counts. counts ≡ survey (rights_in graph.now) (numbers_in graph.now.elements) users.now) }
{
    graph.formed();
    let elements = live_elements(graph)?;
    let judge = GraphJudge::new(graph);
    bulk(
        rt,
        &judge,
        |judge, user, element| judge.rights(user, element),
        &elements,
        users,
    )
}

/// What is answered to a review that is allowed. It asks for the rights of each pair of a user and an element once; of a review
/// that is kept it copies the list that stands in the state. A `survey` may start threads, which end within the call.
pub(crate) fn answer<R: Threads + Sync>(
    rt: &R,
    state: &State,
    review: Review,
) -> Result<Reply, Memory>
    requires live { Each (IsLive state.now.graph.elements) (subjects_of review) }
    requires kept { IsOfKept state.now.graph review }
    ensures { IfOk result (λ reply. reply ≡ reviewed state.now.graph review) }
{
    let graph = state.graph();
    match review {
        Review::Caps { user } => Ok(Reply::Caps {
            list: capabilities_of(graph, user)?,
        }),
        Review::Entries { element } => Ok(Reply::Entries {
            list: entries_of(graph, element)?,
        }),
        Review::Survey { users } => {
            let counts = counts(rt, graph, &users)?;
            Ok(Reply::Survey { users, counts })
        }
        Review::Kept { of } => Ok(Reply::Kept {
            list: state.list(&of).copy()?,
        }),
        Review::Changes { review, .. } => last_change(graph, review),
    }
}
