//! What differs between two lists, of elements that may have gone, come or changed their rights.

ghost use Rattle.std.specs.Prelude.{◌≡◌, ◌<◌, ◌≤◌, ◌++◌, ◌∷◌, [], length, drop, filter, bytes_eq, unwrap_or, IfOk, OnOk, OnSome, IsTrue};
ghost use Rattle.pm_model.specs.LastChanges.{changed, differs, changes_between};
ghost use Rattle.pm_review.specs.Rising.{AreSame, PairsRiseFrom, AllAlike, AllNamed};
ghost use Rattle.pm_review.specs.declared.differences.Names.{Names};
ghost use Rattle.pm_review.specs.Steps.{lowest, first_rights, after_first, changes_of};

use pm_model::{ChangeList, Changed, ElementId, Memory, Name, NameOf, Pair, PairList, Rights};

const NONE: Rights = Rights(0);

/// What is known of the names of the elements in the old list.
#[derive(Clone, Copy)]
enum Names {
    /// Nothing: a number may have gone from one element to another.
    MayChange,
    /// Each number of the list has one name, before and after.
    Stay,
}

/// The lowest number in two rising lists.
fn lowest(old: &[Pair], new: &[Pair]) -> Option<ElementId>
    ensures { result ≡ lowest old.now new.now }
{
    match (old.first(), new.first()) {
        (Some(was), Some(is)) => {
            let number = was.element.number().min(is.element.number());
            Some(ElementId(number))
        }
        (Some(was), None) => Some(was.element),
        (None, Some(is)) => Some(is.element),
        (None, None) => None,
    }
}

/// The rights of an element, if the list begins with it.
fn first_rights(list: &[Pair], id: ElementId) -> Option<Rights>
    ensures { result ≡ first_rights id list.now }
{
    let first = list.first()?;
    if first.element == id {
        return Some(first.rights);
    }
    None
}

/// What comes after an element, if the list begins with it, else all.
fn after_first(list: &[Pair], id: ElementId) -> &[Pair]
    ensures { result.now ≡ after_first id list.now }
{
    match list.split_first() {
        Some((first, rest)) if first.element == id => rest,
        _ => list,
    }
}

/// Puts the change at the end of the list, if it is one.
fn push_change(list: &mut ChangeList, name: Name, old: Rights, new: Rights) -> Result<(), Memory>
    ensures { OnOk result (list.new ≡ list.old ++ filter differs (changed name old new ∷ [])) }
{
    if old == new {
        return Ok(());
    }
    list.push(Changed { name, old, new })
}

/// Puts at the end of the list what becomes of the element of a number that has these names, or of the two that have had
/// it.
fn push_both(
    list: &mut ChangeList,
    was: Name,
    is: Name,
    old: Rights,
    new: Rights,
) -> Result<(), Memory>
    ensures { OnOk result (list.new ≡ list.old ++ changes_of was is old new) }
{
    if was == is {
        return push_change(list, is, old, new);
    }
    push_change(list, was, old, NONE)?;
    push_change(list, is, NONE, new)
}

/// Puts the change of one element at the end of the list, if it is one: else its name isn't asked for.
fn push_named<A: NameOf>(
    list: &mut ChangeList,
    after: &A,
    id: ElementId,
    old: Rights,
    new: Rights,
) -> Result<(), Memory>
    requires { IsTrue (A.named after.now id) }
    ensures { OnOk result (list.new ≡ list.old ++ filter differs (changed (A.name_at after.now id) old new ∷ [])) }
{
    if old != new {
        return push_change(list, after.name_of(id), old, new);
    }
    Ok(())
}

/// Puts at the end of the list what becomes of the element of a number, with the rights before and after where the lists
/// have it.
fn push_changes<B: NameOf, A: NameOf>(
    list: &mut ChangeList,
    names: Names,
    before: &B,
    after: &A,
    id: ElementId,
    old: Option<Rights>,
    new: Option<Rights>,
) -> Result<(), Memory>
    requires old { OnSome old (IsTrue (B.named before.now id)) }
    requires new { OnSome new (IsTrue (A.named after.now id)) }
    requires names { names ≡ Names.Stay → OnSome old (B.name_at before.now id ≡ A.name_at after.now id) }
    ensures { OnOk result (list.new ≡ list.old ++ changes_of (B.name_at before.now id) (A.name_at after.now id) (unwrap_or old 0) (unwrap_or new 0)) }
{
    match (old, new) {
        (Some(old), Some(new)) => match names {
            Names::MayChange => push_both(list, before.name_of(id), after.name_of(id), old, new),
            Names::Stay => push_named(list, after, id, old, new),
        },
        (Some(old), None) => push_change(list, before.name_of(id), old, NONE),
        (None, Some(new)) => push_change(list, after.name_of(id), NONE, new),
        (None, None) => Ok(()),
    }
}

/// How many pairs both lists begin with that are the same.
fn begin_alike(old: &[Pair], new: &[Pair]) -> usize
    ensures old { result ≤ length old.now }
    ensures new { result ≤ length new.now }
    ensures same { AreSame result old.now new.now }
{
    let mut n = 0;
    while n < old.len() && n < new.len() && old[n] == new[n] {
        n += 1;
    }
    n
}

/// How many pairs at the beginning of both lists tell of no change: those that are the same, where names stay.
fn unchanged(names: Names, old: &[Pair], new: &[Pair]) -> usize
    ensures old { result ≤ length old.now }
    ensures new { result ≤ length new.now }
    ensures same { AreSame result old.now new.now }
    ensures names { 0 < result → names ≡ Names.Stay }
{
    match names {
        Names::MayChange => 0,
        Names::Stay => begin_alike(old, new),
    }
}

/// What comes after so many pairs.
fn skip(list: &[Pair], n: usize) -> &[Pair]
    requires { n ≤ length list.now }
    ensures { result.now ≡ drop n list.now }
{
    &list[n..]
}

/// Walks through both lists together. Where names stay, pairs that are the same in both are passed by behind the first.
fn walk<B: NameOf, A: NameOf>(
    names: Names,
    before: &B,
    after: &A,
    old: &PairList,
    new: &PairList,
) -> Result<ChangeList, Memory>
    requires old_rises { PairsRiseFrom 0 old.now }
    requires new_rises { PairsRiseFrom 0 new.now }
    requires old_named { AllNamed (B.named before.now) old.now }
    requires new_named { AllNamed (A.named after.now) new.now }
    requires names { names ≡ Names.Stay → AllAlike (B.name_at before.now) (A.name_at after.now) old.now }
    ensures { IfOk result (λ list. list ≡ changes_between (B.name_at before.now) (A.name_at after.now) old.now new.now) }
{
    let mut list = ChangeList::new(old.allocator());
    let mut old_rest = old.as_slice();
    let mut new_rest = new.as_slice();
    while let Some(id) = lowest(old_rest, new_rest) {
        let was = first_rights(old_rest, id);
        let is = first_rights(new_rest, id);
        push_changes(&mut list, names, before, after, id, was, is)?;
        old_rest = after_first(old_rest, id);
        new_rest = after_first(new_rest, id);
        let n = unchanged(names, old_rest, new_rest);
        old_rest = skip(old_rest, n);
        new_rest = skip(new_rest, n);
    }
    Ok(list)
}

/// What differs between the list of a review before and after, where elements have the names of the one and of the other:
/// by rising number of the elements; where a number has gone from one element to another, the old one first.
///
/// Its cost is the length of both lists, and the names of the elements in them.
pub fn changes<B: NameOf, A: NameOf>(
    before: &B,
    after: &A,
    old: &PairList,
    new: &PairList,
) -> Result<ChangeList, Memory>
    requires old_rises { PairsRiseFrom 0 old.now }
    requires new_rises { PairsRiseFrom 0 new.now }
    requires old_named { AllNamed (B.named before.now) old.now }
    requires new_named { AllNamed (A.named after.now) new.now }
    ensures { IfOk result (λ list. list ≡ changes_between (B.name_at before.now) (A.name_at after.now) old.now new.now) }
{
    walk(Names::MayChange, before, after, old, new)
}

/// The same, where each number of the old list has one name, before and after. A name is asked for of an element alone whose
/// rights differ: lists that are the same cost their lengths and no more.
pub fn changes_of_rights<B: NameOf, A: NameOf>(
    before: &B,
    after: &A,
    old: &PairList,
    new: &PairList,
) -> Result<ChangeList, Memory>
    requires old_rises { PairsRiseFrom 0 old.now }
    requires new_rises { PairsRiseFrom 0 new.now }
    requires old_named { AllNamed (B.named before.now) old.now }
    requires new_named { AllNamed (A.named after.now) new.now }
    requires names { AllAlike (B.name_at before.now) (A.name_at after.now) old.now }
    ensures { IfOk result (λ list. list ≡ changes_between (B.name_at before.now) (A.name_at after.now) old.now new.now) }
{
    walk(Names::Stay, before, after, old, new)
}
