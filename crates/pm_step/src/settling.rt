//! The last changes of kept reviews, once an entry has led from one state to another.
ghost use Rattle.std.specs.Prelude.{◌≡◌, ◌<◌, true, length, slice_get, slice_set, Some, IfOk, OnOk};
ghost use Rattle.std.specs.List.{list_any};
ghost use Rattle.pm_model.specs.KeptReviews.{KeptReview, is_kept_of, is_same, kept_at};
ghost use Rattle.pm_model.specs.LastChanges.{changes_in, settled_review};
ghost use Rattle.pm_affect.specs.Counting.{Work};
ghost use Rattle.pm_state.specs.Drafted.{done_in};
ghost use Rattle.pm_step.specs.Settling.{is_kept_so, reviews_settled};

use pm_model::{ChangeList, ElementId, Memory, ReviewOf};
use pm_review::{changes, changes_of_rights, lists_rise};
use pm_state::{Draft, Graph, State};

// What differs in the list of a review that is kept in both. Where no element was deleted in the draft, a list that no repair has
// written to isn't looked at, and in others names are asked for only of what has changed.
fn changes_in(before: &State, draft: &Draft, of: &ReviewOf<ElementId>) -> Result<ChangeList, Memory>
    requires before { list_any (is_kept_of of.now) before.now.graph.kept ≡ true }
    requires after { list_any (is_kept_of of.now) draft.now.graph.kept ≡ true }
    requires history { draft.now.history ≡ before.now.history }
    ensures { IfOk result (λ list. list ≡ changes_in before.now.graph draft.now.graph of.now) }
{
    before.graph().formed();
    draft.graph().formed();
    before.replayed();
    lists_rise();
    let old = before.list(of);
    let new = draft.list(of)?;
    let was = before.graph();
    let is = draft.graph();
    if draft.keeps_names() {
        if draft.keeps_list(of) {
            return Ok(ChangeList::new(old.allocator()));
        }
        return changes_of_rights(was, is, old, new);
    }
    changes(was, is, old, new)
}

// Whether both are one review.
fn is_same(one: &ReviewOf<ElementId>, other: &ReviewOf<ElementId>) -> bool
    ensures { result ≡ is_same one.now other.now }
{
    match (one, other) {
        (ReviewOf::Caps(user), ReviewOf::Caps(held)) => user == held,
        (ReviewOf::Entries(element), ReviewOf::Entries(held)) => element == held,
        _ => false,
    }
}

// Whether a review of the same was kept by this number.
fn was_kept(before: &Graph, number: u32, of: &ReviewOf<ElementId>) -> bool
    ensures { result ≡ is_kept_so (kept_at before.now.kept number) of.now }
{
    match before.kept().of(number) {
        Some(kept) => is_same(&kept, of),
        None => false,
    }
}

// Gives the review at a place its last change, where the entry has changed its list.
fn settle_at(before: &State, draft: &mut Draft, place: usize, version: u64) -> Result<(), Memory>
    requires place { place < length draft.old.graph.kept }
    requires history { draft.old.history ≡ before.now.history }
    ensures ok { OnOk result ((k : KeptReview) → slice_get draft.old.graph.kept place ≡ Some k → draft.new.graph ≡ record draft.old.graph { kept = slice_set draft.old.graph.kept place (settled_review before.now.graph draft.old.graph version k) }) }
    ensures history { draft.new.history ≡ draft.old.history }
    ensures done { (w : Work) → done_in draft.new w ≡ done_in draft.old w }
{
    let Some((number, of)) = draft.graph().kept().at(place) else {
        unreachable!()
    };
    if !was_kept(before.graph(), number, &of) {
        return Ok(());
    }
    let changes = changes_in(before, draft, &of)?;
    if changes.len() > 0 {
        draft.set_last(place, version, changes);
    }
    Ok(())
}

/// Gives each kept review of the draft its last change, where the entry of this version has changed its list since this
/// state, from which the draft began. The lists that were written to since are compared with those of the state: that costs their
/// lengths, and asks for no rights, and for names only of what has changed. Where an element was deleted, all are, and their names are
/// asked for. On Memory some reviews may have theirs, and the draft can't be used.
pub(crate) fn settle_reviews(before: &State, draft: &mut Draft, version: u64) -> Result<(), Memory>
    requires { draft.old.history ≡ before.now.history }
    ensures ok { OnOk result (draft.new.graph ≡ reviews_settled before.now.graph version draft.old.graph) }
    ensures history { draft.new.history ≡ draft.old.history }
    ensures done { (w : Work) → done_in draft.new w ≡ done_in draft.old w }
{
    for place in 0..draft.graph().kept().len() {
        settle_at(before, draft, place, version)?;
    }
    Ok(())
}
