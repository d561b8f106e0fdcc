//! Where reviews stand in the list: by number, and of what they are.

ghost use Rattle.std.specs.Prelude.{◌≡◌, ◌<◌, ◌≤◌, IfOk, OnOk, OnErr, length, find, map, insert, slice_get, slice_set, Some};
ghost use Rattle.std.specs.List.{list_any};
ghost use Rattle.std.specs.Option.{option_copied};
ghost use Rattle.pm_model.specs.Formed.{RiseBelow};
ghost use Rattle.pm_model.specs.KeptReviews.{KeptReview, is_kept_as, is_kept_of, max_reviews, reviews, unkept, with_review, without_review, new_review};

use crate::items::{Item, is_same, subject};
use pm_model::{ChangeList, ElementId, Memory, ReviewOf};

/// The review of a number.
pub(crate) fn find(items: &[Item], number: u32) -> Option<&Item>
    ensures { option_copied result ≡ find (is_kept_as number) items.now }
{
    items.iter().find(|item| item.number() == number)
}

/// Whether a review of the same is kept.
pub(crate) fn has(items: &[Item], of: &ReviewOf<ElementId>) -> bool
    ensures { result ≡ list_any (is_kept_of of.now) items.now }
{
    items.iter().any(|item| is_same(of, &item.of()))
}

/// Whether a review is of the element.
pub(crate) fn has_subject(items: &[Item], id: ElementId) -> bool
    ensures { result ≡ list_any (reviews id) items.now }
{
    items.iter().any(|item| subject(item.of()) == id)
}

/// The least number that no review has. As many have the numbers below it, so it is also the place where the review of
/// this number comes to stand.
pub(crate) fn least_number(items: &[Item]) -> usize
    requires { RiseBelow 0 (map (λ (k : KeptReview). k.number) items.now) max_reviews }
    ensures number { result ≡ unkept items.now }
    ensures within { result ≤ length items.now }
{
    for (i, item) in items.iter().enumerate() {
        if item.number() as usize != i {
            return i;
        }
    }
    items.len()
}

/// Puts a review at a place. On Memory the list is as before.
fn put(items: &mut Vec<Item>, place: usize, item: Item) -> Result<(), Memory>
    requires { place ≤ length items.old.items }
    ensures ok { OnOk result (items.new.items ≡ insert items.old.items place item) }
    ensures err { OnErr result (items.new.items ≡ items.old.items) }
{
    match items.insert(place, item) {
        Ok(()) => Ok(()),
        Err(_) => Err(Memory),
    }
}

/// Puts a new review where its number wants it, and tells the number. On Memory the list is as before.
pub(crate) fn insert(items: &mut Vec<Item>, of: ReviewOf<ElementId>) -> Result<u32, Memory>
    requires rising { RiseBelow 0 (map (λ (k : KeptReview). k.number) items.old.items) max_reviews }
    requires room { length items.old.items < max_reviews }
    ensures ok { OnOk result (items.new.items ≡ with_review (new_review (unkept items.old.items) of) items.old.items) }
    ensures number { IfOk result (λ number. number ≡ unkept items.old.items) }
    ensures err { OnErr result (items.new.items ≡ items.old.items) }
    ensures rising { RiseBelow 0 (map (λ (k : KeptReview). k.number) items.new.items) max_reviews }
{
    let place = least_number(items);
    let number = place as u32;
    let alloc = *items.allocator();
    put(items, place, Item::new(alloc, number, of))?;
    Ok(number)
}

/// Makes this the last change of the review at a place.
pub(crate) fn set_at(items: &mut Vec<Item>, i: usize, at: u64, changed: ChangeList)
    requires { i < length items.old.items }
    ensures item { (k : KeptReview) → slice_get items.old.items i ≡ Some k → items.new.items ≡ slice_set items.old.items i (record k { at = at; changed = changed }) }
    ensures numbers { map (λ (k : KeptReview). k.number) items.new.items ≡ map (λ (k : KeptReview). k.number) items.old.items }
{
    let item = &mut items[i];
    item.set_last(at, changed);
}

/// Takes the review of a number out, where there is one.
pub(crate) fn remove(items: &mut Vec<Item>, number: u32)
    ensures { items.new.items ≡ without_review number items.old.items }
{
    items.retain(|item| item.number() != number);
}

/// Lets copies share the list of changes of one review.
fn share_at(items: &mut Vec<Item>, i: usize) -> Result<(), Memory>
    requires { i < length items.old.items }
    ensures { items.new.items ≡ items.old.items }
{
    let item = &mut items[i];
    item.share()
}

/// Lets copies share the lists of changes.
pub(crate) fn share_all(items: &mut Vec<Item>) -> Result<(), Memory>
    ensures { items.new.items ≡ items.old.items }
{
    for i in 0..items.len() {
        share_at(items, i)?;
    }
    Ok(())
}

/// The same reviews once more.
pub(crate) fn copy_all(items: &Vec<Item>) -> Result<Vec<Item>, Memory>
    ensures { IfOk result (λ same. same.items ≡ items.now.items) }
{
    let mut same = Vec::with_capacity(*items.allocator(), items.len())?;
    for item in items {
        let again = item.copy()?;
        same.push(again)?;
    }
    Ok(same)
}
