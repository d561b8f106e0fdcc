//! What the obligations of one operation give as targets.

ghost use Rattle.std.specs.Prelude.{◌≡◌, ◌<◌, ◌*◌, ◌/◌, ◌+◌, ◌==◌, ◌||◌, ℕ, Some, true, length, OnOk, OnErr, IfSome};
ghost use Rattle.std.specs.Int.{bit_at};
ghost use Rattle.std.specs.List.{position_from};
ghost use Rattle.pm_oblig.specs.Awaited.{is_word_of, in_words, has_target, HasMore};

use pm_model::{ElementId, ItemList, Memory, Name};
use pm_pages::CopyOf;

/// Elements that are given as targets: bit i says whether 64 × `number` + i is one of them.
#[derive(Clone, Copy)]
pub struct TargetWord {
    pub number: u32,
    pub bits: u64,
}

/// What the obligations that wait for one operation give as targets: whether one of them gives none, and so waits for
/// every target, and a word for each 64 numbers of which one is given. It may still tell of obligations that were
/// withdrawn.
pub struct Targets {
    pub operation: Name,
    pub anywhere: bool,
    pub words: ItemList<TargetWord>,
}

impl Drop for Targets {
    fn drop(self) {
        let Targets {
            operation: _,
            anywhere: _,
            words: _,
        } = self;
    }
}

impl CopyOf for Targets {
    fn copied(&self) -> Result<Targets, Memory> {
        Ok(Targets {
            operation: self.operation,
            anywhere: self.anywhere,
            words: self.words.copy()?,
        })
    }
}

/// Whether the word is the one in which the element has its bit.
fn is_word_of(word: &TargetWord, id: ElementId) -> bool
    ensures { result ≡ is_word_of id word.now }
{
    word.number == id.number() / 64
}

/// The place of the element's word.
fn place(words: &[TargetWord], id: ElementId) -> Option<usize>
    ensures value { result ≡ position_from (is_word_of id) 0 words.now }
    ensures below { IfSome result (λ i. i < length words.now) }
{
    words.iter().position(|word| is_word_of(word, id))
}

/// The word of an element alone.
fn word_of(id: ElementId) -> TargetWord
    ensures number { result.number ≡ id / 64 }
    ensures bits { (i : ℕ) → i < 64 → (bit_at result.bits i == 1) ≡ (id == 64 * result.number + i) }
{
    let number = id.number() / 64;
    TargetWord {
        number,
        bits: id.bit_in(number),
    }
}

/// Puts an element into its word, which stands at a place. The new word comes before the old one goes, so that after want
/// of memory all is as before.
fn widen(words: &mut ItemList<TargetWord>, i: usize, id: ElementId) -> Result<(), Memory>
    requires { position_from (is_word_of id) 0 words.old ≡ Some i }
    ensures ok { OnOk result ((n : ℕ) → in_words words.new n ≡ (n == id || in_words words.old n)) }
    ensures err { OnErr result (words.new ≡ words.old) }
{
    let word = *words.at(i);
    let one = word_of(id);
    let bits = word.bits | one.bits;
    let number = word.number;
    words.push(TargetWord { number, bits })?;
    words.remove(i);
    Ok(())
}

/// Puts an element into the words.
fn insert(words: &mut ItemList<TargetWord>, id: ElementId) -> Result<(), Memory>
    ensures ok { OnOk result ((n : ℕ) → in_words words.new n ≡ (n == id || in_words words.old n)) }
    ensures err { OnErr result (words.new ≡ words.old) }
{
    match place(words.as_slice(), id) {
        Some(i) => widen(words, i, id),
        None => words.push(word_of(id)),
    }
}

/// Lets it be told what target an obligation gives, or that it gives none. On Memory all is as before.
pub(crate) fn add_target(targets: &mut Targets, target: Option<ElementId>) -> Result<(), Memory>
    ensures same { targets.new.operation ≡ targets.old.operation }
    ensures more { HasMore targets.old targets.new }
    ensures told { OnOk result (has_target targets.new target ≡ true) }
{
    match target {
        Some(id) => insert(&mut targets.words, id),
        None => {
            targets.anywhere = true;
            Ok(())
        }
    }
}
