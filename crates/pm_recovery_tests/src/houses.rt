//! Houses of two seats that go on from a file, with classes of three letters made by the seats in turn.

ghost use Rattle.std.specs.Prelude.{◌≡◌};

use crate::lent::Lent;
use pm_disk::MemDisk;
use pm_house::{Home, House, Nobody, RestoreError, Seat, house_room};
use pm_journal::{Keeper, OpenError};
use pm_machine::Version;
use pm_model::{Body, Command, Entry, Name, Reply, Request};
use pm_publish::Opened;
use pm_recovery::{RecoverError, recover};
use pm_step::Edition;
use std::alloc::Global;
use std::cell::RefCell;
use std::marker::Brand;
use std::process::Abort;
use std::sync::Wait;
use std::sync::ledger::Blank;
use std::thread::Threads;

/// With how many entries a house began, and with how many it ended.
#[derive(Clone, Copy, Debug, PartialEq, Eq)]
pub(crate) struct Run {
    pub(crate) from: u64,
    pub(crate) to: u64,
}

/// Why there was none.
#[derive(Clone, Copy, Debug, PartialEq, Eq)]
pub(crate) enum Why {
    NotJournal,
    Damaged(u64),
    Illegal(u64),
    Failed,
    Memory,
}

fn cause_of(error: &RecoverError<Lent<'_>>) -> Why {
    match error {
        RecoverError::Unopened(unopened) => match unopened.why {
            OpenError::NotJournal => Why::NotJournal,
            OpenError::Damaged { at } => Why::Damaged(at),
            OpenError::Failed => Why::Failed,
            OpenError::Memory => Why::Memory,
        },
        RecoverError::Unmade(RestoreError::Illegal { at }) => Why::Illegal(*at),
        RecoverError::Unmade(RestoreError::Memory) => Why::Memory,
    }
}

// The class at each place.
fn letter(at: u64) -> &'static [u8] {
    match at {
        0 => b"a",
        1 => b"b",
        _ => b"c",
    }
}

// The request for it.
fn class(rt: &impl Abort, at: u64) -> Request {
    let name = Name::new(letter(at)).expect(rt, "a name");
    let command = Command::CreatePc { name };
    Request {
        after: None,
        body: Body::Admin {
            process: 0,
            command,
        },
    }
}

// The entry is the class at this place, made by seats 0 and 1 in turn.
fn is_in_turn(entry: &Entry, at: u64) -> bool {
    let Body::Admin {
        process: 0,
        command: Command::CreatePc { name },
    } = &entry.request.body
    else {
        return false;
    };
    u64::from(entry.seat) == at % 2
        && entry.nth == (at / 2).saturating_add(1)
        && name.bytes() == letter(at)
}

// How many entries a seat begins with.
fn begun<H: Home>(rt: &impl Abort, seat: &Seat<Edition, H>) -> u64 {
    let version = seat.shown().version();
    for at in 0..version {
        match seat.shown().entry(at) {
            Some(entry) => assert!(rt; is_in_turn(entry, at)),
            None => panic!(rt; "no entry"),
        }
    }
    version
}

// Whether the class at this place is accepted as the entry there, and so kept.
fn is_kept<H: Home, R: Threads + Wait + Abort + Alloc<A = Global> + Sync>(
    rt: &R,
    house: &House<Edition, Keeper<Lent<'_>>, H>,
    seat: &mut Seat<Edition, H>,
    at: u64,
) -> bool {
    let replied = seat
        .submit(rt, rt.alloc(), house, &class(rt, at))
        .expect(rt, "memory");
    match &replied.reply {
        Reply::Done { .. } => {
            assert_eq!(rt; replied.version, at.saturating_add(1));
            true
        }
        Reply::KeepFault => {
            assert_eq!(rt; replied.version, at);
            false
        }
        _ => panic!(rt; "refused"),
    }
}

// The same by the seat whose turn it is.
fn is_kept_in_turn<H: Home, R: Threads + Wait + Abort + Alloc<A = Global> + Sync>(
    rt: &R,
    house: &House<Edition, Keeper<Lent<'_>>, H>,
    one: &mut Seat<Edition, H>,
    two: &mut Seat<Edition, H>,
    at: u64,
) -> bool {
    if at % 2 == 0 {
        is_kept(rt, house, one, at)
    } else {
        is_kept(rt, house, two, at)
    }
}

// Both make entries up to a version, or to the first that isn't kept when it is asked for twice. It says how many there are then.
fn both_go_on<H: Home, R: Threads + Wait + Abort + Alloc<A = Global> + Sync>(
    rt: &R,
    house: &House<Edition, Keeper<Lent<'_>>, H>,
    one: &mut Seat<Edition, H>,
    two: &mut Seat<Edition, H>,
    from: u64,
    to: u64,
) -> u64 {
    for at in from..to {
        if !is_kept_in_turn(rt, house, one, two, at) && !is_kept_in_turn(rt, house, one, two, at) {
            return at;
        }
    }
    to
}

fn house_over<H: Home, R: Threads + Wait + Abort + Alloc<A = Global> + Sync>(
    rt: &R,
    opened: Opened,
    blank: Blank,
    file: &RefCell<MemDisk>,
    to: u64,
) -> Result<Run, Why>
    requires room { opened ≡ H.book }
    requires ledger { (blank.name ≡ H.name) × (blank.parts ≡ H.parts) }
    requires seats { (H.all ≡ 2) × (H.parts ≡ 2) }
{
    let disk = Lent::new(file);
    match recover::<Edition, Lent<'_>, H, R, Nobody>(
        rt,
        rt.alloc(),
        opened,
        blank,
        disk,
        2,
        &mut Nobody,
    ) {
        Ok((house, mut seats)) => {
            let mut one = seats.seat(0).expect(rt, "seat 0");
            let mut two = seats.seat(1).expect(rt, "seat 1");
            let from = begun(rt, &one);
            assert_eq!(rt; begun(rt, &two), from);
            let to = both_go_on(rt, &house, &mut one, &mut two, from, to);
            Ok(Run { from, to })
        }
        Err(error) => Err(cause_of(&error)),
    }
}

/// A house goes on from the file, up to this version.
pub(crate) fn go_on<R: Threads + Wait + Abort + Alloc<A = Global> + Sync>(
    rt: &R,
    file: &RefCell<MemDisk>,
    to: u64,
) -> Result<Run, Why> {
    let (opened, blank) = house_room(2);
    house_over::<Brand, R>(rt, opened, blank, file, to)
}
