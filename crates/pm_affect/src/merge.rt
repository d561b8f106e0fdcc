//! A row of pairs merged with a list, both by rising number.

ghost use Rattle.std.specs.Prelude.{◌≡◌, ◌≤◌, ◌++◌, [], drop, true, IfOk, OnOk};
ghost use Rattle.pm_affect.specs.Lists.{Rise};
ghost use Rattle.pm_affect.specs.Puts.{elements_of, put_all, rises, starts_lower, unless_empty, without_at};

use pm_model::{ElementId, Memory, Pair, PairList};

/// Whether the numbers of the pairs rise.
pub(crate) fn rises(row: &PairList) -> bool
    ensures { result ≡ rises 0 (elements_of row.now) }
{
    let mut low = 0;
    for n in 0..row.len() {
        let number = u64::from(row.at(n).element.number());
        if number < low {
            return false;
        }
        low = number + 1;
    }
    true
}

/// Whether there is a pair at the place, and it is of a lower element.
fn is_lower(pairs: &PairList, i: usize, element: ElementId) -> bool
    ensures { result ≡ starts_lower element (drop i pairs.now) }
{
    i < pairs.len() && pairs.at(i).element.number() < element.number()
}

/// The place behind the pair at this place, where that is of the element.
fn past(pairs: &PairList, i: usize, element: ElementId) -> usize
    ensures rest { drop result pairs.now ≡ without_at element 0 (drop i pairs.now) }
    ensures behind { i ≤ result }
{
    if i < pairs.len() && pairs.at(i).element == element {
        return i + 1;
    }
    i
}

/// Puts a pair at the end, unless its rights are empty.
fn push_some(all: &mut PairList, pair: Pair) -> Result<(), Memory>
    ensures { OnOk result (all.new ≡ all.old ++ unless_empty pair.element pair.rights []) }
{
    if pair.rights.is_empty() {
        return Ok(());
    }
    all.push(pair)
}

/// Puts the pairs from a place on at the end.
fn push_rest(all: &mut PairList, pairs: &PairList, i: usize) -> Result<(), Memory>
    ensures { OnOk result (all.new ≡ all.old ++ drop i pairs.now) }
{
    for k in i..pairs.len() {
        all.push(*pairs.at(k))?;
    }
    Ok(())
}

/// The list with each pair of the row, in one walk along both. Of an element in both the row's rights count, and empty ones
/// leave it out.
pub(crate) fn merged(pairs: &PairList, row: &PairList) -> Result<PairList, Memory>
    requires { Rise 0 (elements_of row.now) }
    ensures { IfOk result (λ all. all ≡ put_all row.now pairs.now) }
{
    let room = pairs.len().max(row.len());
    let mut all = PairList::with_room(pairs.allocator(), room)?;
    let mut i = 0;
    let mut n = 0;
    while n < row.len() {
        let pair = *row.at(n);
        if is_lower(pairs, i, pair.element) {
            all.push(*pairs.at(i))?;
            i += 1;
        } else {
            i = past(pairs, i, pair.element);
            push_some(&mut all, pair)?;
            n += 1;
        }
    }
    push_rest(&mut all, pairs, i)?;
    Ok(all)
}
