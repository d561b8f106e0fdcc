//! The unions of pages, a second table: its row k has all that the rows of page k have. A change of x
//! has to find all that is contained in x, and passes by each page whose union lacks x. The unions are
//! a filter: what a row loses stays in the union of its page, so a union may have more than its rows,
//! and never less. They take a row for each page, so at most 256, of 2 KiB each.

ghost use Rattle.std.specs.Prelude.{◌≡◌, ℕ, ◌<◌, ◌/◌, true, false, OnOk};
ghost use Rattle.pm_reach.specs.Words.{in_row};
ghost use Rattle.pm_reach.specs.Rows.{has, below, most};
ghost use Rattle.pm_reach.specs.Unions.{Keeps};

use crate::table::RowTable;
use crate::words::has_all;
use pm_model::Memory;

/// Lets the union of the page of z have what the other row has, too. Where it has that already, it takes
/// no memory, and what is shared stays so.
pub(crate) fn cover(unions: &mut RowTable, z: u32, other: &[u64]) -> Result<(), Memory>
    requires { z < most }
    ensures keeps { Keeps unions.old.rows unions.new.rows }
    ensures covered { OnOk result ((q : ℕ) → in_row other.now q ≡ true → below unions.new.rows (z / 64) q ≡ true) }
{
    let k = z / 64;
    if !unions.has_row(k) {
        return begin(unions, k, other);
    }
    if !has_all(unions.words(k), other) {
        unions.ready(k, other.len())?;
        unions.join(k, other);
    }
    Ok(())
}

/// Gives a page that has no union yet one with what the other row has.
fn begin(unions: &mut RowTable, k: u32, other: &[u64]) -> Result<(), Memory>
    requires few { k < most }
    requires none { has unions.old.rows k ≡ false }
    ensures keeps { Keeps unions.old.rows unions.new.rows }
    ensures covered { OnOk result ((q : ℕ) → in_row other.now q ≡ true → below unions.new.rows k q ≡ true) }
{
    let words = Vec::from_slice(unions.alloc(), other)?;
    let row = unions.ready_new(k, words)?;
    unions.put(k, row);
    Ok(())
}
