//! Lists beside plain vectors of the same items, under the same changes.

use pm_model::ElementId;
use pm_pages::*;
use std::process::Abort;
use std::test::Fail;

/// How many changes each list goes through.
const CHANGES: usize = 64;

/// A list in pages of 64 items, and its items in a vector.
struct Pair {
    list: PageList<ElementId>,
    plain: Vec<u32>,
}

impl Drop for Pair {
    fn drop(self) {
        let Pair { list: _, plain: _ } = self;
    }
}

fn pair_of(rt: &HostRuntime, count: u32) -> Result<Pair, Fail> {
    let mut list = PageList::new(rt.alloc(), 64);
    let mut plain = Vec::new(rt.alloc());
    for number in 0..count {
        list.push(ElementId(number))?;
        plain.push(number)?;
    }
    Ok(Pair { list, plain })
}

fn copied(rt: &HostRuntime, pair: &mut Pair) -> Result<Pair, Fail> {
    pair.list.share()?;
    Ok(Pair {
        list: pair.list.copy()?,
        plain: Vec::from_slice(rt.alloc(), &pair.plain)?,
    })
}

fn number_at(list: &PageList<ElementId>, i: usize) -> Option<u32> {
    let id = list.get(i)?;
    Some(id.number())
}

/// The list has the items of the vector, one by one and in runs.
fn check(rt: &impl Abort, pair: &Pair) {
    let count = pair.plain.len();
    assert_eq!(rt; pair.list.len(), count);
    assert_eq!(rt; number_at(&pair.list, count), None);
    for (i, number) in pair.plain.iter().enumerate() {
        assert_eq!(rt;
            number_at(&pair.list, i),
            Some(*number),
            "at {i} of {count}"
        );
    }
}

fn check_run(rt: &impl Abort, pair: &Pair, start: usize) {
    if start >= pair.list.len() {
        return;
    }
    for (k, id) in pair.list.run(start).iter().enumerate() {
        assert_eq!(rt;
            pair.plain.get(start.wrapping_add(k)).copied(),
            Some(id.number())
        );
    }
}

fn insert(pair: &mut Pair, at: usize, number: u32) -> Result<(), Fail> {
    if at <= pair.list.len() && at <= pair.plain.len() {
        pair.list.insert(at, ElementId(number))?;
        pair.plain.insert(at, number)?;
    }
    Ok(())
}

fn replace(rt: &impl Abort, pair: &mut Pair, at: usize, number: u32) -> Result<(), Fail> {
    if at < pair.list.len() && at < pair.plain.len() {
        pair.list.own_at(at)?;
        let item = pair.list.edit(at);
        assert_eq!(rt; item.number(), pair.plain[at]);
        *item = ElementId(number);
        pair.plain[at] = number;
    }
    Ok(())
}

fn remove(rt: &impl Abort, pair: &mut Pair, at: usize) -> Result<(), Fail> {
    if at < pair.list.len() && at < pair.plain.len() {
        pair.list.own_at(at)?;
        let gone = pair.list.remove(at);
        assert_eq!(rt; gone.number(), pair.plain.remove(at));
    }
    Ok(())
}

fn push(pair: &mut Pair, number: u32) -> Result<(), Fail> {
    pair.list.push(ElementId(number))?;
    pair.plain.push(number)?;
    Ok(())
}

fn change(rt: &impl Abort, pair: &mut Pair, dice: u64) -> Result<(), Fail> {
    let at = (dice >> 32) as usize % pair.plain.len().saturating_add(1);
    let number = (dice >> 40) as u32;
    match dice >> 62 {
        0 => push(pair, number),
        1 => insert(pair, at, number),
        2 => replace(rt, pair, at, number),
        _ => remove(rt, pair, at),
    }
}

fn change_all(rt: &impl Abort, pair: &mut Pair, seed: u64) -> Result<(), Fail> {
    let mut dice = seed;
    for _ in 0..CHANGES {
        dice = dice
            .wrapping_mul(6364136223846793005)
            .wrapping_add(1442695040888963407);
        change(rt, pair, dice)?;
        check_run(rt, pair, (dice >> 50) as usize);
    }
    check(rt, pair);
    Ok(())
}

#[test]
fn changes_are_those_of_a_vector(rt: HostRuntime) -> Result<(), Fail> {
    for count in [0, 1, 63, 64, 65, 4096, 4097] {
        let mut pair = pair_of(&rt, count)?;
        check(&rt, &pair);
        change_all(&rt, &mut pair, 1)?;
    }
    Ok(())
}

#[test]
fn copies_go_apart(rt: HostRuntime) -> Result<(), Fail> {
    for count in [1, 64, 65, 200] {
        let mut first = pair_of(&rt, count)?;
        let mut second = copied(&rt, &mut first)?;
        let third = copied(&rt, &mut first)?;
        change_all(&rt, &mut first, 2)?;
        change_all(&rt, &mut second, 3)?;
        check(&rt, &first);
        check(&rt, &third);
    }
    Ok(())
}

/// A list in leaves, and its items in a vector.
struct Grown {
    list: LeafList<ElementId>,
    plain: Vec<u32>,
}

impl Drop for Grown {
    fn drop(self) {
        let Grown { list: _, plain: _ } = self;
    }
}

fn grow(grown: &mut Grown, number: u32) -> Result<(), Fail> {
    grown.list.push(ElementId(number))?;
    grown.plain.push(number)?;
    Ok(())
}

fn grown_of(rt: &HostRuntime, count: u32) -> Result<Grown, Fail> {
    let mut grown = Grown {
        list: LeafList::new(rt.alloc()),
        plain: Vec::new(rt.alloc()),
    };
    for number in 0..count {
        grow(&mut grown, number)?;
    }
    Ok(grown)
}

fn grown_copy(rt: &HostRuntime, grown: &mut Grown) -> Result<Grown, Fail> {
    grown.list.share()?;
    Ok(Grown {
        list: grown.list.copy()?,
        plain: Vec::from_slice(rt.alloc(), &grown.plain)?,
    })
}

fn overwrite(grown: &mut Grown, at: usize, number: u32) -> Result<(), Fail> {
    if at < grown.list.len() && at < grown.plain.len() {
        grown.list.own_at(at)?;
        *grown.list.edit(at) = ElementId(number);
        grown.plain[at] = number;
    }
    Ok(())
}

/// Overwrites some items, at the ends of leaves among them, and puts as many behind the others.
fn go_on(grown: &mut Grown, number: u32) -> Result<(), Fail> {
    for at in [0, 15, 16, 17, 31, 511, 512, 513] {
        overwrite(grown, at, number.wrapping_add(at as u32))?;
        grow(grown, number)?;
    }
    Ok(())
}

fn check_grown(rt: &impl Abort, grown: &Grown) {
    let count = grown.plain.len();
    assert_eq!(rt; grown.list.len(), count);
    assert!(rt; grown.list.get(count).is_none());
    for (i, number) in grown.plain.iter().enumerate() {
        let item = grown.list.get(i).expect(rt, "an item");
        assert_eq!(rt; item.number(), *number, "at {i} of {count}");
    }
}

#[test]
fn leaves_grow_and_go_apart(rt: HostRuntime) -> Result<(), Fail> {
    for count in [0, 1, 15, 16, 17, 511, 512, 513] {
        let mut first = grown_of(&rt, count)?;
        let mut second = grown_copy(&rt, &mut first)?;
        let third = grown_copy(&rt, &mut first)?;
        go_on(&mut first, 1000)?;
        go_on(&mut second, 2000)?;
        check_grown(&rt, &first);
        check_grown(&rt, &second);
        check_grown(&rt, &third);
    }
    Ok(())
}

/// Takes each item out whose number has the rest, of both.
fn remove_rest(pair: &mut Pair, rest: u32) -> Result<(), Fail> {
    let has_rest = |id: &ElementId| id.number() % 3 == rest;
    pair.list.own_where(&has_rest)?;
    pair.list.remove_where(&has_rest);
    pair.plain.retain(|number| *number % 3 != rest);
    Ok(())
}

#[test]
fn what_passes_a_test_goes(rt: HostRuntime) -> Result<(), Fail> {
    for count in [0, 1, 63, 64, 65, 4096, 4097] {
        let mut first = pair_of(&rt, count)?;
        let second = copied(&rt, &mut first)?;
        remove_rest(&mut first, 1)?;
        check(&rt, &first);
        change_all(&rt, &mut first, 4)?;
        remove_rest(&mut first, 0)?;
        remove_rest(&mut first, 2)?;
        assert_eq!(&rt; first.list.len(), first.plain.len());
        check(&rt, &second);
    }
    Ok(())
}
