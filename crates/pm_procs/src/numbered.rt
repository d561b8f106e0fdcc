//! Items by rising number: where one stands, and how one comes or goes.

ghost use Rattle.std.specs.Prelude.{◌≡◌, ◌==◌, true, Some, IfSome, OnOk, IsOk, filter, find, not, position};
ghost use Rattle.std.specs.Option.{option_copied};
ghost use Rattle.pm_pages.specs.Paged.{OwnWhere};
ghost use Rattle.pm_procs.specs.Rising.{AreRising, IsCut};

use pm_model::{Memory, Process, Session};
use pm_pages::{CopyOf, PageList};

/// What has a number.
pub(crate) trait Numbered {
    ghost use Rattle.std.specs.Prelude.{ℕ};

    ghost number: { Self → ℕ };

    /// Its number.
    fn number(&self) -> u32
        ensures { result ≡ number self.now };
}

impl Numbered for Session {
    ghost number = { λ s. s.number };

    fn number(&self) -> u32 {
        self.number
    }
}

impl Numbered for Process {
    ghost number = { λ p. p.number };

    fn number(&self) -> u32 {
        self.number
    }
}

/// How many items have lower numbers: so many that the first are these.
fn count_lower<T: Numbered>(items: &PageList<T>, number: u32) -> usize
    requires { AreRising T.number 0 items.now.items }
    ensures { IsCut T.number number items.now.items result }
{
    let mut low = 0;
    let mut high = items.len();
    while low < high {
        let middle = low + (high - low) / 2;
        if items.at(middle).number() < number {
            low = middle + 1;
        } else {
            high = middle;
        }
    }
    low
}

/// The place of the item of a number, where the numbers from the first to this one have no gaps. It may say None of one that is
/// there.
fn place_without_gaps<T: Numbered>(items: &PageList<T>, number: u32) -> Option<usize>
    requires { AreRising T.number 0 items.now.items }
    ensures { IfSome result (λ i. position (λ x. T.number x == number) items.now.items ≡ Some i) }
{
    let first = items.get(0)?.number();
    let i = number.checked_sub(first)? as usize;
    if items.get(i)?.number() != number {
        return None;
    }
    Some(i)
}

/// The place of the item of a number, by halves.
fn place_by_halves<T: Numbered>(items: &PageList<T>, number: u32) -> Option<usize>
    requires { AreRising T.number 0 items.now.items }
    ensures { result ≡ position (λ x. T.number x == number) items.now.items }
{
    let i = count_lower(items, number);
    if i == items.len() {
        return None;
    }
    if items.at(i).number() != number {
        return None;
    }
    Some(i)
}

/// The place of the item of a number.
pub(crate) fn place<T: Numbered>(items: &PageList<T>, number: u32) -> Option<usize>
    requires { AreRising T.number 0 items.now.items }
    ensures { result ≡ position (λ x. T.number x == number) items.now.items }
{
    match place_without_gaps(items, number) {
        Some(i) => Some(i),
        None => place_by_halves(items, number),
    }
}

/// The item of a number.
pub(crate) fn find<T: Numbered>(items: &PageList<T>, number: u32) -> Option<&T>
    requires { AreRising T.number 0 items.now.items }
    ensures { option_copied result ≡ find (λ x. T.number x == number) items.now.items }
{
    items.get(place(items, number)?)
}

/// Makes ready that the item of a number is taken out, where there is one.
pub(crate) fn own<T: Numbered + CopyOf + Drop>(
    items: &mut PageList<T>,
    number: u32,
) -> Result<(), Memory>
    requires { AreRising T.number 0 items.old.items }
    ensures items { items.new.items ≡ items.old.items }
    ensures alone { items.new.alone ≡ items.old.alone }
    ensures ok { OnOk result (OwnWhere (λ x. T.number x == number) items.new) }
    ensures sure { items.old.alone ≡ true → IsOk result }
{
    match place(items, number) {
        Some(i) => items.own_at(i),
        None => Ok(()),
    }
}

/// Takes the item of a number out, where there is one.
pub(crate) fn remove<T: Numbered + Drop>(items: &mut PageList<T>, number: u32)
    requires rising { AreRising T.number 0 items.old.items }
    requires own { OwnWhere (λ x. T.number x == number) items.old }
    ensures items { items.new.items ≡ filter (λ x. not (T.number x == number)) items.old.items }
    ensures alone { items.new.alone ≡ items.old.alone }
{
    if let Some(i) = place(items, number) {
        let _gone = items.remove(i);
    }
}
