//! All that is contained in an element. It is found once, while a step is made ready, and walked again
//! when the rows follow.

ghost use Rattle.std.specs.Prelude.{◌≡◌, ℕ, ◌<◌, ◌≤◌, ◌*◌, true, false, length, IfOk};
ghost use Rattle.std.specs.Bool.{OnTrue};
ghost use Rattle.pm_reach.specs.Words.{in_row};
ghost use Rattle.pm_reach.specs.Rows.{below, count_of, most};
ghost use Rattle.pm_reach.specs.Passes.{AreContainers, IsRising, Spans};
ghost use Rattle.pm_reach.specs.Inside.{IsInside};
ghost use Rattle.pm_reach.specs.Unions.{AreUnions};

use crate::containers::{Containers, Span, span_of};
use crate::table::RowTable;
use crate::words;
use pm_model::{ElementId, Memory};
use std::alloc::Global;

/// All that is contained in an element.
pub(crate) struct Inside {
    /// The element.
    pub of: ElementId,
    /// The numbers among which all of it is.
    pub span: Span,
    /// It as a row.
    pub row: Vec<u64>,
}

impl Drop for Inside {
    fn drop(self) {
        let Inside {
            of: _,
            span: _,
            row: _,
        } = self;
    }
}

impl Inside {
    /// The least number from z on that is contained in the element; a number behind the span where there
    /// is none.
    pub(crate) fn next(&self, z: u32) -> u32
        requires z { z ≤ most }
        requires high { self.now.span.high ≤ most }
        ensures from { z ≤ result }
        ensures to { result ≤ most }
        ensures none { (p : ℕ) → z ≤ p → p < result → in_row self.now.row.items p ≡ false }
        ensures there { result < self.now.span.high → in_row self.now.row.items result ≡ true }
    {
        words::next(self.row.as_slice(), z, self.span.high)
    }

    /// How many there are.
    pub(crate) fn count(&self) -> u64
        requires order { self.now.span.low ≤ self.now.span.high }
        requires high { self.now.span.high ≤ most }
        requires from { (z : ℕ) → in_row self.now.row.items z ≡ true → self.now.span.low ≤ z }
        requires to { (z : ℕ) → in_row self.now.row.items z ≡ true → z < self.now.span.high }
        ensures { result ≡ count_of (in_row self.now.row.items) most }
    {
        let mut count = 0;
        let mut z = self.next(self.span.low);
        while z < self.span.high {
            count += 1;
            z = self.next(z + 1);
        }
        count
    }
}

/// Whether numbers rise from containers to what is in them, in all that is inside.
pub(crate) fn rises(table: &RowTable, inside: &Inside) -> bool
    requires { IsInside table.now.rows inside.now }
    ensures { OnTrue result (IsRising table.now.rows inside.now.of) }
{
    let mut z = inside.next(inside.span.low);
    while z < inside.span.high {
        if words::meet_above(table.words(z), inside.row.as_slice(), z) {
            return false;
        }
        z = inside.next(z + 1);
    }
    true
}

/// Finds all that is contained in x.
pub(crate) fn inside_of(
    table: &RowTable,
    unions: &RowTable,
    containers: &Containers,
    x: ElementId,
) -> Result<Inside, Memory>
    requires containers { AreContainers table.now.rows containers.now }
    requires unions { AreUnions unions.now.rows table.now.rows }
    ensures of { IfOk result (λ found. found.of ≡ x) }
    ensures inside { IfOk result (λ found. IsInside table.now.rows found) }
{
    let span = span_of(table, containers, x.number());
    let mut row = no_bits(table.alloc(), span.high as usize)?;
    mark_inside(table, unions, x.number(), span, row.as_mut_slice());
    Ok(Inside { of: x, span, row })
}

/// Puts all that is contained in x into an empty row. A page whose union lacks x costs one look.
#[tactic(auto, unfolding(crate::specs::Unions::AreUnions))]
fn mark_inside(table: &RowTable, unions: &RowTable, x: u32, span: Span, row: &mut [u64])
    requires span { Spans table.now.rows x span.low span.high }
    requires unions { AreUnions unions.now.rows table.now.rows }
    requires wide { span.high ≤ 64 * length row.old }
    requires none { (q : ℕ) → in_row row.old q ≡ false }
    ensures { (q : ℕ) → in_row row.new q ≡ below table.now.rows q x }
{
    for k in span.low / 64..(span.high + 63) / 64 {
        if unions.has(k, x) {
            table.mark(k, x, row);
        }
    }
}

/// An empty row with words for so many numbers.
#[tactic(auto, using(crate::proofs::Bits::bit_none))]
fn no_bits(alloc: Global, size: usize) -> Result<Vec<u64>, Memory>
    ensures wide { IfOk result (λ row. size ≤ 64 * length row.items) }
    ensures none { IfOk result (λ row. (q : ℕ) → in_row row.items q ≡ false) }
{
    Ok(vec![in alloc; 0; size / 64 + 1]?)
}
