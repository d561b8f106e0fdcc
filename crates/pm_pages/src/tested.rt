//! Pages by what a test says of their items.

ghost use Rattle.std.specs.Prelude.{◌≡◌, ◌<◌, ◌≤◌, ℕ, Bool, true, length, map, filter, not, OnOk, OnErr, IsOk};
ghost use Rattle.std.specs.List.{list_any, list_all};
ghost use Rattle.pm_pages.specs.Paged.{Decides};
ghost use Rattle.pm_pages.specs.Listed.{items_of, listed, all_own, KeepsOwn, edited, is_ready, owned_where, spared, has_items};

use crate::copies::CopyOf;
use crate::pages::{Page, items, spare};
use crate::rows::own_at;
use pm_model::Memory;

/// Whether one of the items passes the test.
fn any_passes<T, F: Fn(&T) -> bool>(items: &[T], test: &F) -> bool
    ghost passes: { T → Bool }
    requires callable { F.IsAlwaysCallable test.now }
    requires decides { Decides F.Fn passes test.now }
    ensures { result ≡ list_any passes items.now }
{
    for item in items {
        if test(item) {
            return true;
        }
    }
    false
}

/// Lets a page be the list's own where an item passes the test.
fn own_passing<T: CopyOf + Drop, F: Fn(&T) -> bool>(
    pages: &mut Vec<Page<T>>,
    k: usize,
    test: &F,
) -> Result<(), Memory>
    ghost passes: { T → Bool }
    requires page { k < length pages.old.items }
    requires callable { F.IsAlwaysCallable test.now }
    requires decides { Decides F.Fn passes test.now }
    ensures pages { OnOk result (pages.new.items ≡ edited (owned_where passes) k pages.old.items) }
    ensures err { OnErr result (pages.new.items ≡ pages.old.items) }
    ensures own { all_own pages.old.items ≡ true → IsOk result }
{
    let page = &pages[k];
    if any_passes(items(page), test) {
        return own_at(pages, k);
    }
    Ok(())
}

/// Lets each page be the list's own where an item passes the test.
pub(crate) fn own_pages<T: CopyOf + Drop, F: Fn(&T) -> bool>(
    pages: &mut Vec<Page<T>>,
    test: &F,
) -> Result<(), Memory>
    ghost passes: { T → Bool }
    requires callable { F.IsAlwaysCallable test.now }
    requires decides { Decides F.Fn passes test.now }
    ensures items { map items_of pages.new.items ≡ map items_of pages.old.items }
    ensures keeps { KeepsOwn pages.old.items pages.new.items }
    ensures ready { OnOk result (list_all (is_ready passes) pages.new.items ≡ true) }
    ensures own { all_own pages.old.items ≡ true → IsOk result }
    ensures stays { all_own pages.old.items ≡ true → all_own pages.new.items ≡ true }
{
    for k in 0..pages.len() {
        own_passing(pages, k, test)?;
    }
    Ok(())
}

/// Takes the items that pass the test out of a page.
fn spare_at<T: Drop, F: Fn(&T) -> bool>(pages: &mut Vec<Page<T>>, k: usize, test: &F)
    ghost passes: { T → Bool }
    requires page { k < length pages.old.items }
    requires callable { F.IsAlwaysCallable test.now }
    requires decides { Decides F.Fn passes test.now }
    ensures { pages.new.items ≡ edited (spared passes) k pages.old.items }
{
    let page = &mut pages[k];
    spare(page, test);
}

/// Takes the items that pass the test out of each page.
fn spare_pages<T: Drop, F: Fn(&T) -> bool>(pages: &mut Vec<Page<T>>, test: &F)
    ghost passes: { T → Bool }
    requires callable { F.IsAlwaysCallable test.now }
    requires decides { Decides F.Fn passes test.now }
    ensures { pages.new.items ≡ map (spared passes) pages.old.items }
{
    for k in 0..pages.len() {
        spare_at(pages, k, test);
    }
}

/// Takes the pages without items out.
fn drop_all_empty<T: Drop>(pages: &mut Vec<Page<T>>)
    ensures { pages.new.items ≡ filter has_items pages.old.items }
{
    pages.retain(|page| !items(page).is_empty());
}

/// Takes the items that pass the test out, and then the pages without items.
pub(crate) fn remove_passing<T: Drop, F: Fn(&T) -> bool>(pages: &mut Vec<Page<T>>, test: &F)
    ghost passes: { T → Bool }
    requires callable { F.IsAlwaysCallable test.now }
    requires decides { Decides F.Fn passes test.now }
    requires ready { list_all (is_ready passes) pages.old.items ≡ true }
    ensures items { listed pages.new.items ≡ filter (λ x. not (passes x)) (listed pages.old.items) }
    ensures pages { length pages.new.items ≤ length pages.old.items }
    ensures stays { all_own pages.old.items ≡ true → all_own pages.new.items ≡ true }
{
    spare_pages(pages, test);
    drop_all_empty(pages);
}
