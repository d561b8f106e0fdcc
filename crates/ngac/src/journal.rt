//! A server that goes on from a journal.

ghost use Rattle.std.specs.Prelude.{◌≡◌, ◌<◌, ◌≤◌, IfErr, MatchResult};
ghost use Rattle.ngac.specs.Endings.{IsJournalEnd, status_unrecovered};

use crate::operator::Operator;
use crate::serving::{ended, run_house};
use pm_disk::{FileDisk, FileError, open_file};
use pm_house::{Home, House, Progress, RestoreError, Seats, house_room};
use pm_journal::{Keeper, OpenError, Unopened};
use pm_model::Sink;
use pm_publish::Opened;
use pm_recovery::{RecoverError, recover};
use pm_run::{Status, write_all};
use pm_step::Edition;
use std::alloc::Global;
use std::fs::{File, Files};
use std::marker::Brand;
use std::net::Net;
use std::sync::Wait;
use std::sync::ledger::Blank;
use std::thread::Threads;
use std::time::Clock;

// How many seats the house has, however many workers there are: so that a journal of more workers opens with fewer.
const SEATS: u32 = 32;

// After how many entries a start says again how far it is; one of fewer says nothing.
const STRETCH: u64 = 65_536;

impl<'a, E: Sink> Progress for Operator<'a, E> {
    fn reached(&mut self, taken: u64, all: u64) {
        if all < STRETCH || taken % STRETCH != 0 {
            return;
        }
        if let Ok(line) = format!(in self.alloc;
            "ngac: {taken} of {all} entries of the journal taken\n"
        ) {
            let _ = write_all(self.err, line.as_bytes());
        }
    }
}

// The disk that a file is; or how the program ends.
fn opened_disk<R: Files<File = File>>(rt: &R, path: &str) -> Result<FileDisk, Status>
    ensures { IfErr result IsJournalEnd }
{
    match open_file(rt, path) {
        Ok(disk) => Ok(disk),
        Err(FileError::Busy | FileError::Failed) => Err(Status::JournalFault),
    }
}

// How the program ends where no house goes on from a journal.
fn status_of(error: RecoverError<FileDisk>) -> Status
    ensures exact { result ≡ status_unrecovered error }
    ensures journal { IsJournalEnd result }
{
    match error {
        RecoverError::Unopened(Unopened { disk: _, why }) => match why {
            OpenError::NotJournal => Status::NotJournal,
            OpenError::Damaged { at } => Status::Damaged { at },
            OpenError::Failed => Status::JournalFault,
            OpenError::Memory => Status::Memory,
        },
        RecoverError::Unmade(RestoreError::Illegal { at }) => Status::Illegal { at },
        RecoverError::Unmade(RestoreError::Memory) => Status::Memory,
    }
}

// The house that goes on from the journal of this disk.
fn recovered<H: Home, E: Sink, R: Threads + Wait + Sync>(
    rt: &R,
    alloc: Global,
    opened: Opened,
    blank: Blank,
    disk: FileDisk,
    operator: &mut Operator<'_, E>,
) -> Result<(House<Edition, Keeper<FileDisk>, H>, Seats<Edition, H>), Status>
    requires room { opened ≡ H.book }
    requires ledger { (blank.name ≡ H.name) × (blank.parts ≡ H.parts) }
    requires seats { (H.all ≡ 32) × (H.parts ≡ 32) }
    ensures { IfErr result IsJournalEnd }
{
    match recover::<Edition, FileDisk, H, R, Operator<'_, E>>(
        rt, alloc, opened, blank, disk, SEATS, operator,
    ) {
        Ok(made) => Ok(made),
        Err(error) => Err(status_of(error)),
    }
}

// Serves what comes by the house of a journal.
fn serve_on<
    H: Home + Send + Sync,
    O: Sink,
    E: Sink,
    R: Threads + Wait + Net + Clock + Alloc<A = Global> + Sync,
>(
    rt: &R,
    out: &mut O,
    operator: &mut Operator<'_, E>,
    opened: Opened,
    blank: Blank,
    disk: FileDisk,
    port: u16,
    workers: u16,
) -> Result<Status, Status>
    requires room { opened ≡ H.book }
    requires ledger { (blank.name ≡ H.name) × (blank.parts ≡ H.parts) }
    requires seats { (H.all ≡ 32) × (H.parts ≡ 32) }
    requires workers { (0 < workers) × (workers ≤ 32) }
    ensures { MatchResult result IsJournalEnd IsJournalEnd }
{
    let (house, mut seats) = recovered::<H, E, R>(rt, rt.alloc(), opened, blank, disk, operator)?;
    let served = run_house(
        rt,
        out,
        operator,
        &house,
        &mut seats,
        port,
        u32::from(workers),
    );
    Ok(ended(operator, port, served))
}

// The same by the journal of this disk.
fn serve_opened<O: Sink, E: Sink, R: Threads + Wait + Net + Clock + Alloc<A = Global> + Sync>(
    rt: &R,
    out: &mut O,
    err: &mut E,
    disk: FileDisk,
    port: u16,
    workers: u16,
) -> Status
    requires { (0 < workers) × (workers ≤ 32) }
    ensures { IsJournalEnd result }
{
    let (opened, blank) = house_room(SEATS);
    let mut operator = Operator {
        alloc: rt.alloc(),
        err,
    };
    let served = serve_on::<Brand, O, E, R>(
        rt,
        out,
        &mut operator,
        opened,
        blank,
        disk,
        port,
        workers,
    );
    match served {
        Ok(status) | Err(status) => status,
    }
}

/// The same as `serve`, by a house that goes on from the journal in a file, and whose accepted requests are in it before they
/// are replied to. It comes back where the file can't be read or doesn't have a journal, too. A start on 65,536 entries or more says
/// on `err` how far it is.
pub(crate) fn serve_journal<
    O: Sink,
    E: Sink,
    R: Threads + Wait + Net + Clock + Files<File = File> + Alloc<A = Global> + Sync,
>(rt: &R, out: &mut O, err: &mut E, port: u16, workers: u16, path: &str) -> Status
    requires { (0 < workers) × (workers ≤ 32) }
    ensures { IsJournalEnd result }
{
    match opened_disk(rt, path) {
        Ok(disk) => serve_opened(rt, out, err, disk, port, workers),
        Err(status) => status,
    }
}
