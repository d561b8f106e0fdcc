//! Tables with answers worked out by hand.

use pm_kept::*;
use pm_model::{ChangeList, Changed, ElementId, Memory, Name, ReviewOf, Rights};
use std::alloc::Global;
use std::process::Abort;
use std::test::Fail;

/// What user 7 may do.
const ANN: ReviewOf<ElementId> = ReviewOf::Caps(ElementId(7));

const BOB: ReviewOf<ElementId> = ReviewOf::Caps(ElementId(8));

/// The list of one change: the element of this name comes with these rights.
fn came(rt: &impl Abort, alloc: Global, text: &str, new: u64) -> Result<ChangeList, Fail> {
    let mut list = ChangeList::new(alloc);
    list.push(Changed {
        name: Name::new(text.as_bytes()).expect(rt, "a name"),
        old: Rights(0),
        new: Rights(new),
    })?;
    Ok(list)
}

/// Keeps a review, which gets this number.
fn keep_as(rt: &impl Abort, table: &mut KeptReviews, of: ReviewOf<ElementId>, number: u32) {
    assert_eq!(rt; table.keep(of), Ok(number));
}

fn set_last(table: &mut KeptReviews, i: usize, version: u64, changes: ChangeList) {
    if i < table.len() {
        table.set_last(i, version, changes);
    }
}

/// The version of the last change of a review, and how many elements it tells of.
fn last(table: &KeptReviews, number: u32) -> Option<(u64, usize)> {
    match table.last(number) {
        Some((at, changes)) => Some((at, changes.len())),
        None => None,
    }
}

fn copy_of(table: &mut KeptReviews) -> Result<KeptReviews, Memory> {
    table.share()?;
    table.copy()
}

/// The reviews of ann and bob, of which version 5 has changed the second.
fn changed(rt: &(impl Abort + Alloc<A = Global>)) -> Result<KeptReviews, Fail> {
    let mut table = KeptReviews::new(rt.alloc());
    keep_as(rt, &mut table, ANN, 0);
    keep_as(rt, &mut table, BOB, 1);
    set_last(&mut table, 1, 5, came(rt, rt.alloc(), "doc", 3)?);
    Ok(table)
}

fn both_last(table: &KeptReviews) -> [Option<(u64, usize)>; 2] {
    [last(table, 0), last(table, 1)]
}

#[test]
fn a_copy_goes_its_own_way(rt: HostRuntime) -> Result<(), Fail> {
    let mut table = changed(&rt)?;
    let mut copy = copy_of(&mut table)?;
    set_last(&mut copy, 1, 6, ChangeList::new(rt.alloc()));
    table.drop_review(0);
    assert_eq!(rt; both_last(&table), [None, Some((5, 1))]);
    assert_eq!(rt; both_last(&copy), [Some((0, 0)), Some((6, 0))]);
    Ok(())
}
