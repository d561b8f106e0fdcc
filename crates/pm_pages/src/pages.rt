//! A page: its own list's, or shared with copies of the list.

ghost use Rattle.std.specs.Prelude.{◌≡◌, ◌<◌, ◌≤◌, ◌++◌, true, Bool, Some, length, insert, slice_get, OnOk, OnErr, IfOk, IfErr, IsOk};
ghost use Rattle.std.specs.List.{remove};
ghost use Rattle.std.specs.Arc.{arc_value};
ghost use Rattle.std.specs.Borrow.{Lends, sem};
ghost use Rattle.pm_pages.specs.Paged.{Decides};
ghost use Rattle.pm_pages.specs.Listed.{items_of, is_own, with_item, without_item, changed_item, owned, spared};

use crate::blocks::Block;
use crate::copies::CopyOf;
use crate::owned::Owned;
use pm_model::Memory;
use std::alloc::Global;
use std::mem::replace;
use std::sync::Arc;

/// Some items of a list that stand together.
#[derive(Drop)]
pub(crate) enum Page<T> {
    /// No other list has the page.
    Own(Owned<Block<T>>),
    /// Other lists may have the page too.
    Shared(Arc<Block<T>>),
}

impl<T> Page<T> {
    ghost use Rattle.pm_pages.specs.contracts.pages.Page.{the_row};
    ghost use Rattle.pm_pages.specs.contracts.blocks.Block.{the_row as block_row};

    /// The block of a page of its own, to be written.
    fn block_mut(&mut self) -> &mut Block<T>
        requires { is_own self.old ≡ true }
        ensures* writes_back { sem 𝓛 (Lends (the_row T.row) (block_row T.row) self.entry result Page.Own) }
        ensures value { self.old ≡ Page.Own result.now }
    {
        match self {
            Page::Own(block) => block.get_mut(),
            Page::Shared(_) => unreachable!(),
        }
    }

    /// The item at a place of a page of its own, to be written.
    pub(crate) fn item_mut(&mut self, j: usize) -> &mut T
        requires own { is_own self.old ≡ true }
        requires place { j < length (items_of self.old) }
        ensures* writes_back { sem 𝓛 (Lends (the_row T.row) T.row self.entry result (λ x. changed_item j x self.old)) }
        ensures value { slice_get (items_of self.old) j ≡ Some result.now }
    {
        self.block_mut().item_mut(j)
    }
}

/// The items of a page.
pub(crate) fn items<T>(page: &Page<T>) -> &[T]
    ensures { result.now ≡ items_of page.now }
{
    match page {
        Page::Own(block) => block.get().as_slice(),
        Page::Shared(block) => block.as_slice(),
    }
}

/// Whether no other list has the page.
fn is_own<T>(page: &Page<T>) -> bool
    ensures { result ≡ is_own page.now }
{
    matches!(page, Page::Own(_))
}

/// A page of a list's own with these items. On Memory they are dropped.
pub(crate) fn own_of<T: Drop>(alloc: Global, block: Block<T>) -> Result<Page<T>, Memory>
    ensures { IfOk result (λ page. page ≡ Page.Own block) }
{
    Ok(Page::Own(Owned::new(alloc, block)?))
}

/// Takes the item at a place out of a page of its own.
pub(crate) fn remove_from<T: Drop>(page: &mut Page<T>, j: usize) -> T
    requires own { is_own page.old ≡ true }
    requires place { j < length (items_of page.old) }
    ensures page { page.new ≡ without_item j page.old }
    ensures item { slice_get (items_of page.old) j ≡ Some result }
{
    page.block_mut().remove(j)
}

/// Takes the items that pass the test out of a page of its own.
pub(crate) fn spare<T: Drop, F: Fn(&T) -> bool>(page: &mut Page<T>, test: &F)
    ghost passes: { T → Bool }
    requires callable { F.IsAlwaysCallable test.now }
    requires decides { Decides F.Fn passes test.now }
    ensures { page.new ≡ spared passes page.old }
{
    if let Page::Own(block) = page {
        block.get_mut().remove_where(test);
    }
}

/// Puts an item at a place of a page, which is the list's own then. On Memory the page is as before.
pub(crate) fn insert_into<T: CopyOf + Drop>(
    alloc: Global,
    page: &mut Page<T>,
    j: usize,
    item: T,
) -> Result<(), Memory>
    requires { j ≤ length (items_of page.old) }
    ensures page { OnOk result (page.new ≡ with_item j item page.old) }
    ensures err { OnErr result (page.new ≡ page.old) }
{
    if let Page::Own(block) = page {
        return block.get_mut().insert(j, item);
    }
    let block = block_with(alloc, items(page), j, item)?;
    *page = own_of(alloc, block)?;
    Ok(())
}

/// Lets a page be the list's own. On Memory it is as before.
pub(crate) fn own<T: CopyOf + Drop>(alloc: Global, page: &mut Page<T>) -> Result<(), Memory>
    ensures page { OnOk result (page.new ≡ owned page.old) }
    ensures err { OnErr result (page.new ≡ page.old) }
    ensures own { is_own page.old ≡ true → IsOk result }
{
    if is_own(page) {
        return Ok(());
    }
    let block = Block::copy_of(alloc, items(page))?;
    *page = own_of(alloc, block)?;
    Ok(())
}

/// A block to be shared, or given back where there is no memory for it.
fn shared<T: Drop>(alloc: Global, block: Block<T>) -> Result<Arc<Block<T>>, Block<T>>
    ensures ok { IfOk result (λ same. arc_value same ≡ block) }
    ensures err { IfErr result (λ same. same ≡ block) }
{
    match Arc::new(alloc, block) {
        Ok(shared) => Ok(shared),
        Err(failed) => Err(failed.value),
    }
}

/// Lets a page be shared. It takes memory where it wasn't.
pub(crate) fn share<T: Drop>(alloc: Global, page: &mut Page<T>) -> Result<(), Memory>
    ensures { items_of page.new ≡ items_of page.old }
{
    if let Page::Own(own) = page {
        let block = own.get_mut();
        match shared(alloc, replace(block, Block::empty(alloc))) {
            Ok(shared) => *page = Page::Shared(shared),
            Err(same) => {
                *block = same;
                return Err(Memory);
            }
        }
    }
    Ok(())
}

/// A copy of the items with one more.
fn block_with<T: CopyOf + Drop>(
    alloc: Global,
    items: &[T],
    j: usize,
    item: T,
) -> Result<Block<T>, Memory>
    requires { j ≤ length items.now }
    ensures { IfOk result (λ block. block ≡ insert items.now j item) }
{
    let mut block = Block::copy_of(alloc, items)?;
    block.insert(j, item)?;
    Ok(block)
}

/// Copies of the items in two halves, with one more.
pub(crate) fn halves_with<T: CopyOf + Drop>(
    alloc: Global,
    items: &[T],
    j: usize,
    item: T,
) -> Result<(Block<T>, Block<T>), Memory>
    requires { j ≤ length items.now }
    ensures { IfOk result (λ halves. halves.0 ++ halves.1 ≡ insert items.now j item) }
{
    let middle = items.len() / 2;
    let (head, tail) = items.split_at(middle);
    if j <= middle {
        let first = block_with(alloc, head, j, item)?;
        let second = Block::copy_of(alloc, tail)?;
        return Ok((first, second));
    }
    let first = Block::copy_of(alloc, head)?;
    let second = block_with(alloc, tail, j - middle, item)?;
    Ok((first, second))
}

/// The same page once more, which shares its items where they are shared already.
pub(crate) fn copy_page<T: CopyOf + Drop>(page: &Page<T>) -> Result<Page<T>, Memory>
    ensures items { IfOk result (λ same. items_of same ≡ items_of page.now) }
    ensures own { IfOk result (λ same. is_own same ≡ is_own page.now) }
{
    match page {
        Page::Own(block) => own_of(block.get().allocator(), block.get().copy()?),
        Page::Shared(shared) => Ok(Page::Shared(Arc::try_clone(shared)?)),
    }
}
