//! Which lists of associations have words beside them, and how many.

use pm_model::{ElementId, Grant, GrantList, Memory, Rights};
use std::alloc::Global;
use std::test::Fail;

fn push(list: &mut GrantList, at: u32) -> Result<(), Memory> {
    list.push(Grant {
        rights: Rights(1),
        at: ElementId(at),
    })
}

/// Associations on each number below this one.
fn list_of(alloc: Global, count: u32) -> Result<GrantList, Memory> {
    let mut list = GrantList::new(alloc);
    for at in 0..count {
        push(&mut list, at)?;
    }
    Ok(list)
}

#[test]
fn a_short_list_has_no_words(rt: HostRuntime) -> Result<(), Fail> {
    let short = list_of(rt.alloc(), 15)?;
    assert!(rt; short.places().is_empty());
    Ok(())
}

#[test]
fn a_long_list_has_no_word_without_numbers(rt: HostRuntime) -> Result<(), Fail> {
    let mut long = list_of(rt.alloc(), 16)?;
    assert!(rt; long.places().len() == 1);
    push(&mut long, 64)?;
    push(&mut long, 65)?;
    assert!(rt; long.places().len() == 2);
    long.take_off(ElementId(64));
    long.take_off(ElementId(65));
    assert!(rt; long.places().len() == 1 && long.copy()?.places().len() == 1);
    Ok(())
}
