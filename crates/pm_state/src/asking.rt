//! The lists of reviews, asked for anew.
ghost use Rattle.std.specs.Prelude.{◌≡◌, IfOk};
ghost use Rattle.pm_model.specs.Formed.{IsLive};
ghost use Rattle.pm_model.specs.KeptReviews.{subject};
ghost use Rattle.pm_model.specs.Reviews.{is_user_at, list_of, numbers_in, users_in};

use crate::graph::Graph;
use crate::judging::{ElementJudge, UserJudge};
use pm_model::{ElementId, Kind, Memory, PairList, PlaceList, ReviewOf, UserList};
use pm_review::{capabilities, entries};

/// Whether a live element is a user.
pub fn is_user(graph: &Graph, id: ElementId) -> bool
    requires { IsLive graph.now.elements id }
    ensures { result ≡ is_user_at graph.now.elements id }
{
    matches!(graph.elements().kind(id), Kind::User)
}

/// All live elements, by rising number.
pub fn live_elements(graph: &Graph) -> Result<PlaceList, Memory>
    ensures { IfOk result (λ list. list ≡ numbers_in graph.now.elements) }
{
    graph.elements().numbers()
}

/// All live users, by rising number.
pub(crate) fn live_users(graph: &Graph) -> Result<UserList, Memory>
    ensures { IfOk result (λ list. list ≡ users_in graph.now.elements) }
{
    graph.elements().users()
}

/// The capabilities of a user: its rights on each live element are asked for once.
pub fn capabilities_of(graph: &Graph, user: ElementId) -> Result<PairList, Memory>
    requires { IsLive graph.now.elements user }
    ensures { IfOk result (λ list. list ≡ list_of graph.now (ReviewOf.Caps user)) }
{
    graph.formed();
    let elements = live_elements(graph)?;
    let mut judge = UserJudge::new(graph)?;
    capabilities(&mut judge, &elements, user)
}

/// The entries of an element: the rights of each live user on it are asked for once.
pub fn entries_of(graph: &Graph, element: ElementId) -> Result<PairList, Memory>
    requires { IsLive graph.now.elements element }
    ensures { IfOk result (λ list. list ≡ list_of graph.now (ReviewOf.Entries element)) }
{
    graph.formed();
    let users = live_users(graph)?;
    let mut judge = ElementJudge::new(graph)?;
    entries(&mut judge, &users, element)
}

/// The list of a review that may be kept.
pub(crate) fn list_of(graph: &Graph, of: &ReviewOf<ElementId>) -> Result<PairList, Memory>
    requires { IsLive graph.now.elements (subject of.now) }
    ensures { IfOk result (λ list. list ≡ list_of graph.now of.now) }
{
    match of {
        ReviewOf::Caps(user) => capabilities_of(graph, *user),
        ReviewOf::Entries(element) => entries_of(graph, *element),
    }
}
