//! Reviews over a judge of plain numbers, with answers worked out by hand.

ghost use Rattle.std.specs.Prelude.{◌≡◌, ◌-◌, IfOk};

use pm_model::{
    ChangeList, Changed, CountList, ElementId, Judge, Memory, Name, NameOf, Pair, PairList,
    PlaceList, Rights, UserList,
};
use pm_review::{bulk, capabilities, changes, changes_of_rights, entries};
use std::alloc::Global;
use std::process::Abort;
use std::test::Fail;
use std::thread::Threads;

fn more_than(user: ElementId, element: ElementId) -> Rights
    ensures { result ≡ element - user }
{
    Rights(u64::from(element.number().saturating_sub(user.number())))
}

/// Each user has on each element the rights of the number by which the element's is higher: 4 on 7 those of 3, `read` and
/// `write`, and 7 on 4 none.
#[derive(Drop)]
struct Difference {
    asked: u64,
}

impl Judge for Difference {
    ghost use Rattle.std.specs.Prelude.{true, ◌-◌};

    ghost judgement = { λ s. record { live = λ n. true; rights = λ u e. e - u } };

    ghost asked = { λ s. s.asked };

    fn judge(&mut self, user: ElementId, element: ElementId) -> Rights {
        self.asked += 1;
        more_than(user, element)
    }
}

fn places(alloc: Global, numbers: &[u32]) -> Result<PlaceList, Fail> {
    let mut list = PlaceList::new(alloc);
    for number in numbers {
        list.push(ElementId(*number))?;
    }
    Ok(list)
}

fn pair(element: u32, rights: u64) -> Pair
    ensures { result ≡ record { element = element; rights = rights } }
{
    Pair {
        element: ElementId(element),
        rights: Rights(rights),
    }
}

fn pairs_are(rt: &impl Abort, list: &PairList, want: &[Pair]) {
    assert_eq!(rt; list.as_slice(), want);
}

#[test]
fn elements_on_which_a_user_has_rights(rt: HostRuntime) -> Result<(), Fail> {
    let mut judge = Difference { asked: 0 };
    let elements = places(rt.alloc(), &[2, 4, 5, 11])?;
    let list = capabilities(&mut judge, &elements, ElementId(4))?;
    pairs_are(&rt, &list, &[pair(5, 1), pair(11, 7)]);
    assert!(rt; judge.asked == 4);
    Ok(())
}

#[test]
fn users_who_have_rights_on_an_element(rt: HostRuntime) -> Result<(), Fail> {
    let mut judge = Difference { asked: 7 };
    let users = places(rt.alloc(), &[1, 4, 7])?;
    let list = entries(&mut judge, &users, ElementId(5))?;
    pairs_are(&rt, &list, &[pair(1, 4), pair(4, 1)]);
    assert!(rt; judge.asked == 10);
    Ok(())
}

/// The counts of these users over these elements.
fn counts_of(
    rt: &(impl Threads + Abort + Sync),
    elements: &PlaceList,
    users: &UserList,
) -> Result<CountList, Memory> {
    assert!(rt; elements.len() < 10_000, "few elements");
    let judge = Difference { asked: 0 };
    let ask = |_: &Difference, user: ElementId, element: ElementId| more_than(user, element);
    bulk(rt, &judge, ask, elements, users)
}

fn counts_are(rt: &impl Abort, counts: &CountList, want: &[u64]) {
    assert_eq!(rt; counts.as_slice(), want);
}

#[test]
fn rights_of_several_users_are_counted(rt: HostRuntime) -> Result<(), Fail> {
    let elements = places(rt.alloc(), &[2, 4, 5, 11])?;
    let users = places(rt.alloc(), &[4, 7, 2])?;
    let counts = counts_of(&rt, &elements, &users)?;
    counts_are(&rt, &counts, &[4, 1, 5]);
    Ok(())
}

/// Names, of which number 5 has one of its own.
#[derive(Drop)]
struct Names {
    fifth: Name,
    other: Name,
}

impl NameOf for Names {
    ghost use Rattle.std.specs.Prelude.{true, ◌==◌, if◌then◌else◌};

    ghost named = { λ names n. true };

    ghost name_at = { λ names n. if n == 5 then names.fifth else names.other };

    fn name_of(&self, id: ElementId) -> Name {
        if id.number() == 5 {
            self.fifth
        } else {
            self.other
        }
    }
}

fn named(rt: &impl Abort, text: &str) -> Name {
    Name::new(text.as_bytes()).expect(rt, "a name")
}

fn list_of(alloc: Global, pairs: &[Pair]) -> Result<PairList, Memory>
    ensures { IfOk result (λ list. list ≡ pairs.now) }
{
    let mut list = PairList::new(alloc);
    for pair in pairs {
        list.push(*pair)?;
    }
    Ok(list)
}

fn change(name: Name, old: u64, new: u64) -> Changed {
    Changed {
        name,
        old: Rights(old),
        new: Rights(new),
    }
}

fn changes_are(rt: &impl Abort, list: &ChangeList, want: &[Changed]) {
    assert!(rt; list.as_slice() == want);
}

/// Number 5 has this name.
fn names_with(rt: &impl Abort, fifth: &str) -> Names {
    Names {
        fifth: named(rt, fifth),
        other: named(rt, "other"),
    }
}

#[test]
fn what_differs_between_two_lists(rt: HostRuntime) -> Result<(), Fail> {
    let (before, after) = (names_with(&rt, "was"), names_with(&rt, "is"));
    let was = [pair(3, 1), pair(4, 3), pair(5, 1), pair(9, 7)];
    let old = list_of(rt.alloc(), &was)?;
    let is = [pair(2, 8), pair(4, 1), pair(5, 1), pair(9, 7)];
    let new = list_of(rt.alloc(), &is)?;
    let list = changes(&before, &after, &old, &new)?;
    let want = [
        change(before.other, 0, 8),
        change(before.other, 1, 0),
        change(before.other, 3, 1),
        change(before.fifth, 1, 0),
        change(after.fifth, 0, 1),
    ];
    changes_are(&rt, &list, &want);
    Ok(())
}

#[test]
fn what_differs_where_names_stay(rt: HostRuntime) -> Result<(), Fail> {
    let names = names_with(&rt, "fifth");
    let old = list_of(rt.alloc(), &[pair(3, 1), pair(5, 1), pair(9, 7)])?;
    let new = list_of(rt.alloc(), &[pair(2, 8), pair(5, 3), pair(9, 7)])?;
    let list = changes_of_rights(&names, &names, &old, &new)?;
    let want = [
        change(names.other, 0, 8),
        change(names.other, 1, 0),
        change(names.fifth, 1, 3),
    ];
    changes_are(&rt, &list, &want);
    Ok(())
}
