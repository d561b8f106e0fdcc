//! What is asked of one obligation, and a list of them sought through.

ghost use Rattle.std.specs.Prelude.{◌≡◌, ◌||◌, ◌==◌, ◌<◌, true, Some, List, OnOk, OnErr, IfOk, IfSome, IsOk, length, slice_get};
ghost use Rattle.std.specs.List.{list_any, remove};
ghost use Rattle.pm_model.specs.Obligations.{is_called, place_called, is_given, concerns};
ghost use Rattle.pm_oblig.specs.declared.targets.Targets.{Targets};
ghost use Rattle.pm_oblig.specs.Awaited.{AreKnown};

use pm_model::{ElementId, Memory, Name, Obligation};
use pm_pages::PageList;

/// Whether the obligation has the name.
fn is_called(item: &Obligation, name: Name) -> bool
    ensures { result ≡ is_called name item.now }
{
    name == item.name
}

/// The place of the obligation of the name among those of a page.
fn place_among(items: &[Obligation], name: Name) -> Option<usize>
    ensures value { result ≡ place_called items.now name }
    ensures below { IfSome result (λ i. i < length items.now) }
{
    items.iter().position(|item| is_called(item, name))
}

/// The place of the obligation of the name.
pub(crate) fn place(items: &PageList<Obligation>, name: Name) -> Option<usize>
    ensures value { result ≡ place_called items.now.items name }
    ensures below { IfSome result (λ i. i < length items.now.items) }
{
    let mut begin = 0;
    while begin < items.len() {
        let run = items.run(begin);
        if let Some(i) = place_among(run, name) {
            return Some(begin + i);
        }
        begin += run.len();
    }
    None
}

/// Whether an element is given, and it is this one.
fn is_given(given: Option<ElementId>, id: ElementId) -> bool
    ensures { result ≡ is_given id given }
{
    match given {
        None => false,
        Some(element) => element == id,
    }
}

/// Whether the element is the author or the user of the pattern.
fn is_author_or_user(item: &Obligation, id: ElementId) -> bool
    ensures { result ≡ (item.now.author == id || is_given id item.now.pattern.user) }
{
    item.author == id || is_given(item.pattern.user, id)
}

/// Whether the element is the author or in the pattern.
fn concerns(item: &Obligation, id: ElementId) -> bool
    ensures { result ≡ concerns id item.now }
{
    is_author_or_user(item, id) || is_given(item.pattern.target, id)
}

/// Whether some obligation of a page has the element as its author or in its pattern.
fn is_named_among(items: &[Obligation], id: ElementId) -> bool
    ensures { result ≡ list_any (concerns id) items.now }
{
    items.iter().any(|item| concerns(item, id))
}

/// Whether some obligation has the element as its author or in its pattern.
pub(crate) fn is_named(items: &PageList<Obligation>, id: ElementId) -> bool
    ensures { result ≡ list_any (concerns id) items.now.items }
{
    let mut begin = 0;
    while begin < items.len() {
        let run = items.run(begin);
        if is_named_among(run, id) {
            return true;
        }
        begin += run.len();
    }
    false
}

/// Takes the obligation at a place out. What was known of the others still is.
pub(crate) fn take(items: &mut PageList<Obligation>, i: usize) -> Result<Obligation, Memory>
    requires { i < length items.old.items }
    ensures item { IfOk result (λ item. slice_get items.old.items i ≡ Some item) }
    ensures rest { OnOk result (items.new.items ≡ remove items.old.items i) }
    ensures alone { items.new.alone ≡ items.old.alone }
    ensures sure { items.old.alone ≡ true → IsOk result }
    ensures err { OnErr result (items.new.items ≡ items.old.items) }
    ensures known { (known : List Targets) → AreKnown items.old.items known → AreKnown items.new.items known }
{
    items.own_at(i)?;
    Ok(items.remove(i))
}
