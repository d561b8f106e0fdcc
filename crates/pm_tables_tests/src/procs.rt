//! The table step by step, with answers worked out by hand.

ghost use Rattle.std.specs.Prelude.{◌≡◌, ◌+◌, ◌<◌, IfOk, OnOk};

use pm_model::ElementId;
use pm_procs::*;
use std::alloc::Global;
use std::process::Abort;
use std::test::Fail;

const ANN: ElementId = ElementId(7);

/// Opens this many sessions of a user.
fn open_many(table: &mut Procs, user: ElementId, count: u32) -> Result<(), ProcsError>
    requires { table.old.procs.next_session + count < 100000 }
    ensures next { OnOk result (table.new.procs.next_session ≡ table.old.procs.next_session + count) }
    ensures same { table.new.procs.next_process ≡ table.old.procs.next_process }
{
    for _ in 0..count {
        table.open_session(user)?;
    }
    Ok(())
}

/// Starts this many processes of a session.
fn start_many(table: &mut Procs, session: u32, count: u32) -> Result<(), ProcsError>
    requires { table.old.procs.next_process + count < 100000 }
    ensures next { OnOk result (table.new.procs.next_process ≡ table.old.procs.next_process + count) }
    ensures same { table.new.procs.next_session ≡ table.old.procs.next_session }
{
    for _ in 0..count {
        table.start_process(session)?;
    }
    Ok(())
}

/// Two sessions of `ann`: processes 1, 2 and 4 are of the first, 3 is of the second.
fn four_processes(alloc: Global) -> Result<Procs, ProcsError> {
    let mut table = Procs::opening(alloc)?;
    open_many(&mut table, ANN, 2)?;
    start_many(&mut table, 1, 2)?;
    start_many(&mut table, 2, 1)?;
    start_many(&mut table, 1, 1)?;
    Ok(table)
}

#[test]
fn processes_are_those_of_their_session(rt: HostRuntime) -> Result<(), Fail> {
    let table = four_processes(rt.alloc())?;
    let of_one = table.processes_of(1)?;
    assert_eq!(rt; of_one.as_slice(), [1, 2, 4].as_slice());
    Ok(())
}

/// A session of `ann` with two processes, in pages that copies share.
fn two_of_ann(alloc: Global) -> Result<Procs, ProcsError>
    ensures { IfOk result (λ table. table.procs.next_session < 100000) }
{
    let mut table = Procs::opening(alloc)?;
    open_many(&mut table, ANN, 1)?;
    start_many(&mut table, 1, 2)?;
    table.share()?;
    Ok(table)
}

/// Ends the first of the two, and opens another session.
fn go_on(rt: &impl Abort, copy: &mut Procs) -> Result<(), ProcsError>
    requires { copy.old.procs.next_session < 100000 }
{
    copy.end_process(1)?;
    assert_eq!(rt; copy.process_at(1), Some((2, 1)));
    assert!(rt; copy.open_session(ANN) == Ok(2));
    Ok(())
}

#[test]
fn a_copy_is_another_table(rt: HostRuntime) -> Result<(), Fail> {
    let mut table = two_of_ann(rt.alloc())?;
    let mut copy = table.copy()?;
    table.close_session(1)?;
    assert!(rt; !table.has_session(ANN) && !table.process_live(2));
    assert!(rt; copy.has_session(ANN));
    go_on(&rt, &mut copy)?;
    assert!(rt; !table.session_live(2));
    Ok(())
}
