//! The lists of kept reviews, made up for a change of the graph.
ghost use Rattle.std.specs.Prelude.{◌≡◌, false, true, IfOk, IfSome, IsOk, IsSome, IsSomeAnd};
ghost use Rattle.std.specs.Option.{option_copied};
ghost use Rattle.pm_model.specs.Formed.{IsNamed};
ghost use Rattle.pm_affect.specs.Affected.{is_of_prohibition, lifted_by};
ghost use Rattle.pm_affect.specs.Lists.{Lists};
ghost use Rattle.pm_state.specs.Leaving.{LeavesReviews, alters, deletes};
ghost use Rattle.pm_state.specs.Listing.{AreListed, keeps};
ghost use Rattle.pm_affect.specs.Counting.{judged_for};
ghost use Rattle.pm_state.specs.Repairs.{IsAsked, IsCharged, IsDue, KeepsWere, is_less};

use crate::asking::{list_of, live_elements, live_users};
use crate::graph::Graph;
use crate::judging::UserJudge;
use pm_affect::{
    KeptLists, Region, list_in_order, lists_right, numbers_rise, region_live, rights_outside,
    touches, update,
};
use pm_model::{Bars, Change, ElementId, Memory, Prohibition, ReviewOf};

/// What a change asks of the lists.
#[derive(Drop)]
pub(crate) enum Repair {
    /// One more, of a review that is kept from now on.
    More(ReviewOf<ElementId>),
    /// One less, of a review that was kept.
    Less(ReviewOf<ElementId>),
    /// The pairs of a region in those that there are.
    Within(Region),
}

/// Whether the change keeps one review more.
fn keeps(change: &Change) -> bool
    ensures { result ≡ keeps change.now }
{
    match change {
        Change::Keep { .. } => true,
        _ => false,
    }
}

/// Whether the change makes or ends an element or a kept review.
fn alters(change: &Change) -> bool
    ensures { result ≡ alters change.now }
{
    match change {
        Change::Create { .. } => true,
        Change::Delete { .. } => true,
        Change::Keep { .. } => true,
        Change::DropReview { .. } => true,
        _ => false,
    }
}

/// Whether the change ends an element.
pub(crate) fn deletes(change: &Change) -> bool
    ensures { result ≡ deletes change.now }
{
    matches!(change, Change::Delete { .. })
}

/// The prohibition that the change lifts, if any.
fn lifted<'a>(graph: &'a Graph, change: &Change) -> Option<&'a Prohibition>
    requires { IsNamed graph.now change.now }
    ensures { option_copied result ≡ lifted_by graph.now change.now }
{
    match change {
        Change::Lift { index } => Some(graph.deny().at(*index as usize)),
        _ => None,
    }
}

/// What a change of the graph will ask of its lists. Only a copy of a prohibition takes memory.
pub(crate) fn repair_of(graph: &Graph, change: &Change) -> Result<Repair, Memory>
    requires { IsNamed graph.now change.now }
    ensures asked { IfOk result (IsAsked graph.now change.now) }
    ensures free { is_of_prohibition change.now ≡ false → IsOk result }
{
    match change {
        Change::Keep { of } => Ok(Repair::More(*of)),
        Change::DropReview { review } => match graph.kept().of(*review) {
            Some(of) => Ok(Repair::Less(of)),
            None => unreachable!(),
        },
        _ => Ok(Repair::Within(Region::of(change, lifted(graph, change))?)),
    }
}

/// Whether the change leaves the kept reviews of the graph, whose lists these are: none is kept before or after it, or its
/// region touches none. Only a copy of a prohibition takes memory.
pub(crate) fn leaves(lists: &KeptLists, graph: &Graph, change: &Change) -> Result<bool, Memory>
    requires named { IsNamed graph.now change.now }
    requires listed { AreListed lists.now graph.now }
    ensures answer { IfOk result (λ yes. yes ≡ true → LeavesReviews graph.now change.now) }
    ensures free { is_of_prohibition change.now ≡ false → IsOk result }
{
    if graph.kept().is_empty() {
        return Ok(!keeps(change));
    }
    if alters(change) {
        return Ok(false);
    }
    graph.formed();
    lists.kept();
    let region = Region::of(change, lifted(graph, change))?;
    let mut reach = graph.reach();
    let touched = touches(lists, &region, &mut reach);
    Ok(!touched)
}

/// Whether the region of the change that has led to the graph may touch a kept review.
fn are_touched(lists: &KeptLists, graph: &Graph, region: &Region) -> bool
    requires { IsDue lists.now graph.now (Repair.Within region.now) }
    ensures listed { result ≡ false → AreListed lists.now graph.now }
    ensures judged { result ≡ false → (due : IsDue lists.now graph.now (Repair.Within region.now)) → judged_for due.before due.change ≡ 0 }
{
    graph.formed();
    lists.kept();
    let mut reach = graph.reach();
    touches(lists, region, &mut reach)
}

/// Asks again for the rights of the pairs that lie in the region and in the scope of a kept review, each once, and charges the
/// lists for them.
fn judge_again(lists: KeptLists, graph: &Graph, region: &Region) -> Result<KeptLists, Memory>
    requires { IsDue lists graph.now (Repair.Within region.now) }
    ensures listed { IfOk result (λ (M : Lists). AreListed M graph.now) }
    ensures charged { IfOk result (λ (M : Lists). IsCharged lists M graph.now (Repair.Within region.now)) }
    ensures were { IfOk result (λ (M : Lists). KeepsWere lists M) }
{
    graph.formed();
    lists.kept();
    lists_right();
    numbers_rise();
    region_live();
    if !are_touched(&lists, graph, region) {
        return Ok(lists);
    }
    let elements = live_elements(graph)?;
    let users = live_users(graph)?;
    let mut reach = graph.reach();
    let mut judge = UserJudge::new(graph)?;
    update(lists, region, &elements, &users, &mut reach, &mut judge)
}

/// Does so, where a review is kept and the region isn't empty.
fn repair_within(lists: KeptLists, graph: &Graph, region: &Region) -> Result<KeptLists, Memory>
    requires { IsDue lists graph.now (Repair.Within region.now) }
    ensures listed { IfOk result (λ (M : Lists). AreListed M graph.now) }
    ensures charged { IfOk result (λ (M : Lists). IsCharged lists M graph.now (Repair.Within region.now)) }
    ensures were { IfOk result (λ (M : Lists). KeepsWere lists M) }
{
    lists.kept();
    if graph.kept().is_empty() {
        return Ok(lists);
    }
    rights_outside();
    match region {
        Region::Nothing => Ok(lists),
        _ => judge_again(lists, graph, region),
    }
}

/// Puts the list of a review among the others.
fn insert(mut lists: KeptLists, graph: &Graph, of: ReviewOf<ElementId>) -> Result<KeptLists, Memory>
    requires { IsDue lists graph.now (Repair.More of) }
    ensures listed { IfOk result (λ (M : Lists). AreListed M graph.now) }
    ensures charged { IfOk result (λ (M : Lists). IsCharged lists M graph.now (Repair.More of)) }
    ensures were { IfOk result (λ (M : Lists). KeepsWere lists M) }
{
    lists.kept();
    graph.formed();
    list_in_order();
    let list = list_of(graph, &of)?;
    lists.insert(of, list)?;
    Ok(lists)
}

/// The lists of the graph to which a change has led that asked for this, made of those before it. On Memory they are dropped,
/// since some may be as they were. One less takes no memory.
fn made_up(mut lists: KeptLists, graph: &Graph, asked: Repair) -> Result<KeptLists, Memory>
    requires { IsDue lists graph.now asked }
    ensures listed { IfOk result (λ (M : Lists). AreListed M graph.now) }
    ensures charged { IfOk result (λ (M : Lists). IsCharged lists M graph.now asked) }
    ensures were { IfOk result (λ (M : Lists). KeepsWere lists M) }
    ensures free { is_less asked ≡ true → IsOk result }
{
    lists.kept();
    match asked {
        Repair::More(of) => insert(lists, graph, of),
        Repair::Less(of) => {
            lists.remove(of);
            Ok(lists)
        }
        Repair::Within(region) => repair_within(lists, graph, &region),
    }
}

/// The lists once they are those of the graph; None where there were none, and where memory is wanting.
pub(crate) fn repaired(lists: Option<KeptLists>, graph: &Graph, asked: Repair) -> Option<KeptLists>
    requires { IfSome lists (λ (L : Lists). IsDue L graph.now asked) }
    ensures listed { IfSome result (λ (L : Lists). AreListed L graph.now) }
    ensures charged { IfSome result (λ (M : Lists). IsSomeAnd lists (λ (L : Lists). IsCharged L M graph.now asked)) }
    ensures were { IfSome result (λ (M : Lists). IsSomeAnd lists (λ (L : Lists). KeepsWere L M)) }
    ensures free { is_less asked ≡ true → IsSome lists → IsSome result }
{
    match made_up(lists?, graph, asked) {
        Ok(lists) => Some(lists),
        Err(Memory) => None,
    }
}
