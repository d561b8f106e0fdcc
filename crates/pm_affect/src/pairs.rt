//! The list of a kept review, which copies share until one changes it.

ghost use Rattle.std.specs.Prelude.{◌≡◌, ◌≤◌, false, nat_lt, filter, length, OnOk, IfOk};
ghost use Rattle.pm_affect.specs.Lists.{IsInOrder, Rise};
ghost use Rattle.pm_affect.specs.Puts.{elements_of, few, is_change, is_worth, place, put, put_all, without_at};
ghost use Rattle.pm_affect.specs.Right.{rights_at};

use crate::merge::{merged, rises};
use pm_model::{ElementId, Memory, Pair, PairList, Rights};
use std::marker::Model;
use std::sync::Arc;

/// So many pairs are always put one by one, though each may move all of a list.
const FEW: usize = 8;

/// A list of pairs. Contracts see the list alone, and not whether other lists share it.
pub(crate) struct Pairs {
    pointer: Arc<PairList>,
}

impl Drop for Pairs {
    fn drop(self) {
        let Pairs { pointer: _ } = self;
    }
}

impl Model for Pairs {
    ghost use Rattle.std.specs.Prelude.{List};
    ghost use Rattle.std.specs.Arc.{arc_value};
    ghost use Rattle.pm_model.specs.declared.reviews.Pair.{Pair};

    ghost Value = { List Pair };

    ghost view = { λ p. arc_value p.pointer };
}

/// How many pairs stand before the place of the element.
fn place_of(pairs: &PairList, element: ElementId) -> usize
    requires { IsInOrder 0 pairs.now }
    ensures value { result ≡ place element (elements_of pairs.now) }
    ensures bound { result ≤ length pairs.now }
{
    let mut low = 0;
    let mut high = pairs.len();
    while low < high {
        let middle = low + (high - low) / 2;
        if pairs.at(middle).element.number() < element.number() {
            low = middle + 1;
        } else {
            high = middle;
        }
    }
    low
}

/// The rights at the place of the element, if the list has it.
fn rights_at(pairs: &PairList, i: usize, element: ElementId) -> Rights
    requires order { IsInOrder 0 pairs.now }
    requires place { i ≡ place element (elements_of pairs.now) }
    ensures { result ≡ rights_at pairs.now element }
{
    if i < pairs.len() && pairs.at(i).element == element {
        return pairs.at(i).rights;
    }
    Rights(0)
}

/// Takes the pair at the place away where it is of the element.
fn take_out(pairs: &mut PairList, i: usize, element: ElementId)
    requires { i ≡ place element (elements_of pairs.old) }
    ensures { pairs.new ≡ without_at element i pairs.old }
{
    if i < pairs.len() && pairs.at(i).element == element {
        let _old = pairs.remove(i);
    }
}

/// Puts the rights of the element at its place, or takes it out where they are empty. On Memory the list is without the
/// element.
fn write(pairs: &mut PairList, i: usize, element: ElementId, rights: Rights) -> Result<(), Memory>
    requires place { i ≡ place element (elements_of pairs.old) }
    requires order { IsInOrder 0 pairs.old }
    ensures ok { OnOk result (pairs.new ≡ put element rights pairs.old) }
    ensures order { IsInOrder 0 pairs.new }
{
    take_out(pairs, i, element);
    if !rights.is_empty() {
        pairs.insert(i, Pair { element, rights })?;
    }
    Ok(())
}

/// The rights that the list has at the element.
fn rights_of(pairs: &PairList, element: ElementId) -> Rights
    requires { IsInOrder 0 pairs.now }
    ensures { result ≡ rights_at pairs.now element }
{
    rights_at(pairs, place_of(pairs, element), element)
}

/// Whether more than a few pairs of the row change the list.
fn changes_more(pairs: &PairList, row: &PairList) -> bool
    requires { IsInOrder 0 pairs.now }
    ensures { result ≡ nat_lt few (length (filter (is_change pairs.now) row.now)) }
{
    let mut changes = 0;
    for n in 0..row.len() {
        let pair = row.at(n);
        if rights_of(pairs, pair.element) != pair.rights {
            changes += 1;
            if changes > FEW {
                return true;
            }
        }
    }
    false
}

/// Whether it pays to write the whole list again in one walk. A pair that is put by itself costs a search by halving, and where
/// it changes the list all that is behind it is moved: that is less for a short row, and for one that is much shorter than the
/// list and changes little of it.
fn is_worth(pairs: &PairList, row: &PairList) -> bool
    requires { IsInOrder 0 pairs.now }
    ensures { result ≡ is_worth pairs.now row.now }
{
    row.len() > FEW && (row.len() > pairs.len() / 8 || changes_more(pairs, row))
}

impl Pairs {
    /// On Memory the list is dropped.
    pub(crate) fn new(list: PairList) -> Result<Pairs, Memory>
        ensures { IfOk result (λ pairs. pairs ≡ list) }
    {
        match Arc::new(list.allocator(), list) {
            Ok(pointer) => Ok(Pairs { pointer }),
            Err(_) => Err(Memory),
        }
    }

    pub(crate) fn list(&self) -> &PairList
        ensures { result.now ≡ self.now }
    {
        &self.pointer
    }

    /// The same list once more, which costs a pointer.
    pub(crate) fn copy(&self) -> Result<Pairs, Memory>
        ensures { IfOk result (λ same. same ≡ self.now) }
    {
        Ok(Pairs {
            pointer: Arc::try_clone(&self.pointer)?,
        })
    }

    /// Makes the list one that nothing else shares, and writes to it.
    fn write(&mut self, i: usize, element: ElementId, rights: Rights) -> Result<(), Memory>
        requires place { i ≡ place element (elements_of self.old) }
        requires order { IsInOrder 0 self.old }
        ensures ok { OnOk result (self.new ≡ put element rights self.old) }
        ensures order { IsInOrder 0 self.new }
    {
        if let Some(list) = Arc::get_mut(&mut self.pointer) {
            return write(list, i, element, rights);
        }
        let mut list = self.pointer.copy()?;
        write(&mut list, i, element, rights)?;
        *self = Pairs::new(list)?;
        Ok(())
    }

    /// Puts the rights of an element at its place by number, or takes it out where they are empty; tells whether that changes the
    /// list. Where it has them already it takes no memory; else a list that is shared is copied first.
    pub(crate) fn put(&mut self, element: ElementId, rights: Rights) -> Result<bool, Memory>
        requires { IsInOrder 0 self.old }
        ensures ok { OnOk result (self.new ≡ put element rights self.old) }
        ensures same { IfOk result (λ changed. changed ≡ false → self.new ≡ self.old) }
        ensures order { IsInOrder 0 self.new }
    {
        let list = self.list();
        let i = place_of(list, element);
        if rights_at(list, i, element) == rights {
            return Ok(false);
        }
        self.write(i, element, rights)?;
        Ok(true)
    }

    /// Puts each pair of a row, one after another.
    fn put_each(&mut self, row: &PairList) -> Result<bool, Memory>
        requires { IsInOrder 0 self.old }
        ensures ok { OnOk result (self.new ≡ put_all row.now self.old) }
        ensures same { IfOk result (λ changed. changed ≡ false → self.new ≡ self.old) }
        ensures order { IsInOrder 0 self.new }
    {
        let mut changed = false;
        for n in 0..row.len() {
            let pair = row.at(n);
            changed |= self.put(pair.element, pair.rights)?;
        }
        Ok(changed)
    }

    /// Puts them in one walk, into a new list. Where that is the same, the old one stays, which others may share.
    fn merge(&mut self, row: &PairList) -> Result<bool, Memory>
        requires order { IsInOrder 0 self.old }
        requires rise { Rise 0 (elements_of row.now) }
        ensures ok { OnOk result (self.new ≡ put_all row.now self.old) }
        ensures same { IfOk result (λ changed. changed ≡ false → self.new ≡ self.old) }
        ensures order { IsInOrder 0 self.new }
    {
        let list = merged(self.list(), row)?;
        if list.as_slice() == self.list().as_slice() {
            return Ok(false);
        }
        *self = Pairs::new(list)?;
        Ok(true)
    }

    /// Puts each pair of a row, in any order: as [`Pairs::put`] does, or all in one walk. Tells whether that changes the list.
    pub(crate) fn put_all(&mut self, row: &PairList) -> Result<bool, Memory>
        requires { IsInOrder 0 self.old }
        ensures ok { OnOk result (self.new ≡ put_all row.now self.old) }
        ensures same { IfOk result (λ changed. changed ≡ false → self.new ≡ self.old) }
        ensures order { IsInOrder 0 self.new }
    {
        if is_worth(self.list(), row) && rises(row) {
            return self.merge(row);
        }
        self.put_each(row)
    }
}
