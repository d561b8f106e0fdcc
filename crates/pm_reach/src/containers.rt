//! The elements in which something else is contained, or once was. In any other there is nothing but
//! itself, so that a change of it writes its own row, and no other has to be looked at.

ghost use Rattle.std.specs.Prelude.{◌≡◌, ℕ, ◌<◌, ◌==◌, ◌||◌, false, length, IfOk, IfSome, OnOk, OnErr};
ghost use Rattle.pm_reach.specs.Words.{in_row};
ghost use Rattle.pm_reach.specs.Rows.{most};
ghost use Rattle.pm_reach.specs.Passes.{AreContainers, Spans, is_given};

use crate::table::RowTable;
use crate::words;
use pm_model::{ElementId, Memory};
use std::alloc::Global;
use std::marker::Model;
use std::sync::Arc;

/// How many words it takes to tell of each number whether it is one of them.
const WORDS: usize = 256;

/// A set of numbers below 16,384, which copies share until a number is put into it. Contracts see it as a row.
pub(crate) struct Containers {
    words: Arc<Vec<u64>>,
}

impl Drop for Containers {
    fn drop(self) {
        let Containers { words: _ } = self;
    }
}

impl Model for Containers {
    ghost use Rattle.std.specs.Prelude.{ℕ, List, ◌≡◌, length};
    ghost use Rattle.std.specs.Arc.{arc_value};

    ghost Value = { List ℕ };

    ghost view = { λ c. (arc_value c.words).items };

    ghost invariant = { λ c. length (arc_value c.words).items ≡ 256 };
}

impl Containers {
    /// The set without numbers.
    pub(crate) fn new(alloc: Global) -> Result<Containers, Memory> {
        let words = vec![in alloc; 0; WORDS]?;
        Ok(Containers {
            words: Arc::new(alloc, words)?,
        })
    }

    /// Whether it has y.
    pub(crate) fn has(&self, y: u32) -> bool
        ensures { result ≡ in_row self.now y }
    {
        words::has(self.words.as_slice(), y)
    }

    /// Puts y into it. It takes memory wherever it hasn't y. On Memory it is as before.
    pub(crate) fn put(&mut self, y: u32) -> Result<(), Memory>
        requires { y < most }
        ensures ok { OnOk result ((q : ℕ) → in_row self.new q ≡ (q == y || in_row self.old q)) }
        ensures err { OnErr result (self.new ≡ self.old) }
    {
        if self.has(y) {
            return Ok(());
        }
        self.put_new(y)
    }

    fn put_new(&mut self, y: u32) -> Result<(), Memory>
        requires { y < most }
        ensures ok { OnOk result ((q : ℕ) → in_row self.new q ≡ (q == y || in_row self.old q)) }
        ensures err { OnErr result (self.new ≡ self.old) }
    {
        let alloc = *self.words.allocator();
        let mut words = Vec::from_slice(alloc, self.words.as_slice())?;
        words::set_bit(words.as_mut_slice(), y);
        self.words = Arc::new(alloc, words)?;
        Ok(())
    }

    /// Puts the container into it, where there is one. On Memory it is as before.
    pub(crate) fn put_given(&mut self, container: Option<ElementId>) -> Result<(), Memory>
        requires { IfSome container (λ y. y < most) }
        ensures ok { OnOk result ((q : ℕ) → in_row self.new q ≡ (is_given container q || in_row self.old q)) }
        ensures err { OnErr result (self.new ≡ self.old) }
    {
        match container {
            Some(y) => self.put(y.number()),
            None => Ok(()),
        }
    }

    /// The same set once more.
    pub(crate) fn copy(&self) -> Result<Containers, Memory>
        ensures { IfOk result (λ same. same ≡ self.now) }
    {
        Ok(Containers {
            words: Arc::try_clone(&self.words)?,
        })
    }
}

/// Numbers from `low` on and below `high`.
#[derive(Clone, Copy)]
pub(crate) struct Span {
    pub low: u32,
    pub high: u32,
}

/// The numbers among which all is that is contained in x: x alone, where nothing else ever was.
#[tactic(auto, using(crate::proofs::Spanning::alone, crate::proofs::Spanning::all))]
pub(crate) fn span_of(table: &RowTable, containers: &Containers, x: u32) -> Span
    requires { AreContainers table.now.rows containers.now }
    ensures { Spans table.now.rows x result.low result.high }
{
    let size = table.len() as u32;
    if x < size && !containers.has(x) {
        return Span {
            low: x,
            high: x + 1,
        };
    }
    Span { low: 0, high: size }
}
