//! The table step by step, with answers worked out by hand.

use pm_assoc::*;
use pm_model::{ElementId, Memory, Rights};
use std::alloc::Global;
use std::test::Fail;

/// A user attribute, the rights that it has, and on what.
type Row = (u32, u64, u32);

/// The table of these associations, made in this order.
fn table_of(alloc: Global, rows: &[Row]) -> Result<Assoc, AssocError> {
    let mut table = Assoc::new(alloc);
    for (ua, rights, at) in rows {
        table.associate(ElementId(*ua), Rights(*rights), ElementId(*at))?;
    }
    Ok(table)
}

/// A table and its copy.
#[derive(Drop)]
struct Both {
    table: Assoc,
    copy: Assoc,
}

fn copied(mut table: Assoc) -> Result<Both, Memory> {
    table.share()?;
    let copy = table.copy()?;
    Ok(Both { table, copy })
}

/// Takes an association from the one table, and gives the copy two others.
fn part(both: &mut Both) -> Result<(), AssocError> {
    both.table.dissociate(ElementId(2), ElementId(9))?;
    both.copy.associate(ElementId(5), Rights(1), ElementId(1))?;
    both.copy.associate(ElementId(2), Rights(3), ElementId(8))
}

#[test]
fn copies_go_apart(rt: HostRuntime) -> Result<(), Fail> {
    let table = table_of(rt.alloc(), &[(2, 1, 9), (2, 6, 4)])?;
    let mut both = copied(table)?;
    part(&mut both)?;
    assert!(rt; both.table.names(ElementId(4)) && !both.table.names(ElementId(9)));
    assert!(rt; both.table.len() == 1 && both.copy.len() == 4);
    Ok(())
}
