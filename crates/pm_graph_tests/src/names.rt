//! Names beside a plain vector of them, under the same changes.

use pm_model::{ElementId, Name};
use pm_names::*;
use std::alloc::Global;
use std::process::Abort;
use std::test::Fail;

fn named(rt: &impl Abort, number: u32) -> Name {
    let digits = [
        b'n',
        b'0' + (number / 100 % 10) as u8,
        b'0' + (number / 10 % 10) as u8,
        b'0' + (number % 10) as u8,
    ];
    Name::new(&digits).expect(rt, "a name")
}

fn number(names: &Names, name: &Name) -> Option<u32> {
    let id = names.find(name)?;
    Some(id.number())
}

/// The name of each number leads to it, or nowhere where the number was left out.
fn check(rt: &impl Abort, names: &Names, left_out: u32) {
    for k in 0..200 {
        let there = if k % 5 == left_out { None } else { Some(k) };
        assert_eq!(rt; number(names, &named(rt, k)), there, "of {k}");
    }
}

fn insert(rt: &impl Abort, names: &mut Names, k: u32) -> Result<(), Fail> {
    let name = named(rt, k);
    if names.find(&name).is_none() {
        names.insert(name, ElementId(k))?;
    }
    Ok(())
}

/// The numbers from 0 to 199, in no order that counts.
fn filled(rt: &impl Abort, alloc: Global) -> Result<Names, Fail> {
    let mut names = Names::new(alloc);
    for k in 0..200 {
        insert(rt, &mut names, k * 37 % 200)?;
    }
    Ok(names)
}

fn leave_out(rt: &impl Abort, names: &mut Names, rest: u32) -> Result<(), Fail> {
    for k in 0..200 {
        if k % 5 == rest {
            names.remove(&named(rt, k))?;
        }
    }
    Ok(())
}

#[test]
fn each_name_leads_to_its_number(rt: HostRuntime) -> Result<(), Fail> {
    let mut names = filled(&rt, rt.alloc())?;
    check(&rt, &names, 5);
    leave_out(&rt, &mut names, 3)?;
    check(&rt, &names, 3);
    names.remove(&named(&rt, 3))?;
    check(&rt, &names, 3);
    Ok(())
}

#[test]
fn copies_go_apart(rt: HostRuntime) -> Result<(), Fail> {
    let mut first = filled(&rt, rt.alloc())?;
    first.share()?;
    let mut second = first.copy()?;
    leave_out(&rt, &mut first, 1)?;
    leave_out(&rt, &mut second, 2)?;
    check(&rt, &first, 1);
    check(&rt, &second, 2);
    Ok(())
}

/// Nothing but the name `aa`, for 7.
fn long_alone(rt: &(impl Abort + Alloc<A = Global>)) -> Result<Names, Fail> {
    let mut names = Names::new(rt.alloc());
    let long = Name::new(b"aa").expect(rt, "a name");
    if names.find(&long).is_none() {
        names.insert(long, ElementId(7))?;
    }
    Ok(names)
}

static FOUND: &[(&str, Option<u32>)] = &[("a", None), ("aa", Some(7)), ("b", None)];

#[test]
fn bytes_and_length_tell_names_apart(rt: HostRuntime) -> Result<(), Fail> {
    let names = long_alone(&rt)?;
    for (text, want) in FOUND {
        let name = Name::new(text.as_bytes()).expect(&rt, "a name");
        assert_eq!(rt; number(&names, &name), *want, "of {text}");
    }
    Ok(())
}
