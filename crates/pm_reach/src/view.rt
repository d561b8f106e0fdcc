//! Containment as the rows tell it, for whoever asks a `Reach`.

ghost use Rattle.std.specs.Prelude.{◌≡◌, ℕ};
ghost use Rattle.pm_reach.specs.Rows.{below, relation_of};
ghost use Rattle.pm_reach.specs.Words.{in_row};
ghost use Rattle.pm_reach.specs.View.{IsRowOf};

use crate::reach::ReachRows;
use crate::words;
use pm_model::{ElementId, Grant, Reach};
use std::marker::Model;

/// A number that no element has.
const NO_ELEMENT: ElementId = ElementId(u32::MAX);

/// An element and the words of its row.
#[derive(Clone, Copy)]
struct LastRow<'a> {
    x: ElementId,
    words: &'a [u64],
}

impl<'a> LastRow<'a> {
    /// No element's row.
    fn none(rows: &'a ReachRows) -> LastRow<'a>
        ensures { IsRowOf rows.now.rows result }
    {
        LastRow {
            x: NO_ELEMENT,
            words: rows.row(NO_ELEMENT),
        }
    }

    /// The words of the row of x, which is the last from now on.
    fn words_of(&mut self, rows: &'a ReachRows, x: ElementId) -> &'a [u64]
        requires { IsRowOf rows.now.rows self.old }
        ensures row { (y : ℕ) → in_row result.now y ≡ below rows.now.rows x y }
        ensures last { IsRowOf rows.now.rows self.new }
    {
        if self.x != x {
            self.words = rows.row(x);
            self.x = x;
        }
        self.words
    }
}

/// A look at rows. It takes no memory. It remembers where the last row stands of which it told a bit, and that of which it told
/// a word: a further question about the same element costs a look at a word.
pub struct RowsView<'a> {
    rows: &'a ReachRows,
    /// The last row of which a bit was told.
    bits: LastRow<'a>,
    /// The last row of which a word was told.
    whole: LastRow<'a>,
}

impl<'a> Drop for RowsView<'a> {
    fn drop(self) {
        let RowsView {
            rows: _,
            bits: _,
            whole: _,
        } = self;
    }
}

impl<'a> Model for RowsView<'a> {
    ghost use Rattle.pm_reach.specs.Rows.{Readied};
    ghost use Rattle.pm_reach.specs.View.{IsView};

    ghost Value = { Readied };

    ghost view = { λ v. v.rows.now };

    ghost invariant = { IsView };
}

impl ReachRows {
    /// A look at the rows.
    pub fn view(&self) -> RowsView<'_>
        ensures { result ≡ self.now }
    {
        RowsView {
            rows: self,
            bits: LastRow::none(self),
            whole: LastRow::none(self),
        }
    }
}

impl<'a> Reach for RowsView<'a> {
    ghost relation = { relation_of };

    fn contains(&mut self, x: ElementId, y: ElementId) -> bool {
        words::has(self.bits.words_of(self.rows, x), y.number())
    }

    fn above(&mut self, x: ElementId, k: u32) -> u64 {
        words::word(self.whole.words_of(self.rows, x), k)
    }

    fn may_hold(&mut self, y: ElementId, k: u32) -> bool {
        self.rows.may_hold(y, k)
    }

    fn first_on(&mut self, x: ElementId, right: u8, grants: &[Grant]) -> Option<usize> {
        let words = self.bits.words_of(self.rows, x);
        grants.iter().position(|grant| grant.rights.has(right)
            && words::has(words, grant.at.number()))
    }
}
