//! Words of bits, and rights by number: those are known whose bit is set.

ghost use Rattle.std.specs.Prelude.{◌≡◌, ◌<◌, ◌*◌, ◌≤◌, ◌==◌, ◌||◌, ℕ, length, slice_index, slice_set, IfOk};
ghost use Rattle.pm_given.specs.Told.{is_marked};

use pm_model::{ElementId, Memory, Rights};
use std::alloc::Global;

/// So many words that are empty.
pub(crate) fn zeros(alloc: Global, count: usize) -> Result<Vec<u64>, Memory>
    ensures length { IfOk result (λ v. length v.items ≡ count) }
    ensures empty { IfOk result (λ v. (k : ℕ) → slice_index v.items k ≡ 0) }
{
    Ok(vec![in alloc; 0; count]?)
}

/// Empties the first words.
pub(crate) fn clear(words: &mut [u64], count: usize)
    requires { count ≤ length words.old }
    ensures empty { (k : ℕ) → k < count → slice_index words.new k ≡ 0 }
    ensures rest { (k : ℕ) → count ≤ k → slice_index words.new k ≡ slice_index words.old k }
    ensures length { length words.new ≡ length words.old }
{
    for i in 0..count {
        words[i] = 0;
    }
}

/// Whether the bit of the number is set.
pub(crate) fn is_marked(marks: &[u64], id: ElementId) -> bool
    requires { id < 64 * length marks.now }
    ensures { result ≡ is_marked marks.now id }
{
    let n = id.number();
    (marks[n as usize / 64] >> (n % 64)) & 1 == 1
}

/// Makes these the rights of the number, which are known from now on.
pub(crate) fn learn(found: &mut [u64], known: &mut [u64], id: ElementId, rights: Rights)
    requires within { id < length found.old }
    requires long { length found.old ≡ 64 * length known.old }
    ensures known { (p : ℕ) → is_marked known.new p ≡ (is_marked known.old p || id == p) }
    ensures found { found.new ≡ slice_set found.old id rights }
    ensures length { length known.new ≡ length known.old }
{
    let n = id.number();
    found[n as usize] = rights.0;
    known[n as usize / 64] |= 1 << (n % 64);
}
