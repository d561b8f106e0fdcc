//! What a run came to, and its text.

ghost use Rattle.std.specs.Prelude.{◌≡◌, ◌++◌, codes, IfOk, OnOk};
ghost use Rattle.pm_generator.specs.Summaries.{answers_text, line, summary_text, work_text};

use itoa::Buffer;
use pm_model::Memory;
use std::alloc::Global;

/// What the requests of a run came to.
#[derive(Clone, Copy, Debug, PartialEq, Eq)]
pub struct Summary {
    /// How many there were.
    pub requests: u64,
    /// How many were accepted.
    pub entries: u64,
    /// How many accesses were granted.
    pub granted: u64,
    /// How many were denied, since a right is lacking.
    pub denied: u64,
    /// How many were refused for another reason.
    pub refused: u64,
    /// How many rows of containment were written.
    pub rows: u64,
    /// The sum over all entries of how many elements were live after it, less the rows that it wrote: so many rows it left as
    /// they were.
    pub shared: u64,
    /// How many rights were judged for kept reviews.
    pub judged: u64,
}

fn put(text: &mut Vec<u8>, bytes: &[u8]) -> Result<(), Memory>
    ensures { OnOk result (text.new.items ≡ text.old.items ++ bytes.now) }
{
    text.extend_from_slice(bytes)?;
    Ok(())
}

// A word and a number, as a line.
fn put_line(text: &mut Vec<u8>, word: &str, number: u64) -> Result<(), Memory>
    ensures { OnOk result (text.new.items ≡ text.old.items ++ line word.now number) }
{
    let mut digits = Buffer::new();
    put(text, word.as_bytes())?;
    put(text, b" ")?;
    put(text, digits.format(number).as_bytes())?;
    put(text, b"\n")
}

impl Summary {
    // How the requests were answered.
    fn put_answers(&self, text: &mut Vec<u8>) -> Result<(), Memory>
        ensures { OnOk result (text.new.items ≡ text.old.items ++ answers_text self.now) }
    {
        put_line(text, "requests", self.requests)?;
        put_line(text, "entries", self.entries)?;
        put_line(text, "granted", self.granted)?;
        put_line(text, "denied", self.denied)?;
        put_line(text, "refused", self.refused)
    }

    // What it took.
    fn put_work(&self, text: &mut Vec<u8>) -> Result<(), Memory>
        ensures { OnOk result (text.new.items ≡ text.old.items ++ work_text self.now) }
    {
        put_line(text, "rows", self.rows)?;
        put_line(text, "shared", self.shared)?;
        put_line(text, "judged", self.judged)
    }

    /// Its text: eight lines, each a word, a space and a number in decimal digits.
    pub fn text(&self, alloc: Global) -> Result<Vec<u8>, Memory>
        ensures { IfOk result (λ text. text.items ≡ summary_text self.now) }
    {
        let mut text = Vec::new(alloc);
        self.put_answers(&mut text)?;
        self.put_work(&mut text)?;
        Ok(text)
    }
}
