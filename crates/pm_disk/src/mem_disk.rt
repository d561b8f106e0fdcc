//! A file in memory, of which a crash leaves what it may leave of a file on a disk.

ghost use Rattle.std.specs.Prelude.{◌≡◌, ◌≤◌, ◌⊎◌, ◌+◌, ◌-◌, ◌++◌, ◌∷◌, [], length, take, drop, min, IfOk, OnOk, OnErr};
ghost use Rattle.std.proofs.Common.{inl, refl};
ghost use Rattle.pm_model.specs.Causes.{HasCause, raised};
ghost use Rattle.pm_disk.specs.Steps.{FailsTo, MayLeave, MovesTo};
ghost use Rattle.pm_disk.specs.Past.{HadBeen, only_this};

use crate::counts::{Schedule, failed};
use crate::disk::Disk;
use crate::held::{Held, Step, go_on};
use crate::torn::torn;
use pm_model::{Failed, Memory};
use std::alloc::Global;

/// A file in memory. The calls whose numbers it was given fail, and a crash may do what they were to do. Each write past its
/// room fails, and each call behind so many: nothing comes of these. Of the others none fails but for want of memory. It keeps
/// each moment that it has had.
pub struct MemDisk {
    alloc: Global,
    held: Held,
    past: Vec<Held>,
    room: usize,
    schedule: Schedule,
    faults: u64,
}

impl Drop for MemDisk {
    fn drop(self) {
        let MemDisk {
            alloc: _,
            held: _,
            past: _,
            room: _,
            schedule: _,
            faults: _,
        } = self;
    }
}

impl MemDisk {
    /// A file of these bytes, all of them on the disk, with room for so many. The calls of these numbers, from 1 on, are to
    /// fail, and each one behind the first `calls`.
    pub fn new(
        alloc: Global,
        bytes: &[u8],
        room: usize,
        calls: u32,
        failing: &[u64],
    ) -> Result<MemDisk, Memory>
        requires { length bytes.now ≤ room }
        ensures { IfOk result (λ d. d.held.content ≡ bytes.now) }
    {
        let held = Held::new(alloc, bytes)?;
        let schedule = Schedule::new(alloc, failing, calls)?;
        Ok(MemDisk {
            alloc,
            held,
            past: Vec::new(alloc),
            room,
            schedule,
            faults: 0,
        })
    }

    /// What it holds.
    pub fn bytes(&self) -> &[u8]
        ensures { result.now ≡ self.now.held.content }
    {
        self.held.content()
    }

    /// What a crash now leaves, as a file with the same room and number of calls, none of which fails: at 0 what was synced
    /// last, at 1 the content, and else what was synced last with this byte in all that was written since.
    pub fn crash(&self, mix: u8) -> Result<MemDisk, Memory>
        ensures image { IfOk result (λ d. MayLeave self.now.held d.held.content) }
        ensures synced { mix ≡ 0 → IfOk result (λ d. d.held.content ≡ self.now.held.synced) }
        ensures content { mix ≡ 1 → IfOk result (λ d. d.held.content ≡ self.now.held.content) }
    {
        let left = torn(self.alloc, &self.held, mix)?;
        let room = if left.len() <= self.room {
            self.room
        } else {
            left.len()
        };
        MemDisk::new(self.alloc, &left, room, self.schedule.most(), &[])
    }

    // Goes on to this moment.
    fn go_to(&mut self, next: Held) -> Result<(), Failed>
        ensures moment { MovesTo next self.old.held self.old.past.items self.new.held self.new.past.items }
        ensures ok { OnOk result ((self.new.held ≡ next) × (self.new.past.items ≡ self.old.past.items ++ self.old.held ∷ [])) }
        ensures err { OnErr result ((self.new.held ≡ self.old.held) × (self.new.past.items ≡ self.old.past.items)) }
        ensures cause { HasCause self.old.faults self.new.faults result }
    {
        match go_on(&mut self.held, &mut self.past, next) {
            Ok(()) => Ok(()),
            Err(Memory) => Err(failed(&mut self.faults)),
        }
    }

    // Goes on to the moment behind a step that fails, where there is memory for it.
    fn fail(&mut self, step: Step) -> Failed
        ensures moment { FailsTo step self.old.held self.old.past.items self.new.held self.new.past.items }
        ensures more { self.new.faults ≡ raised self.old.faults }
        ensures later { self.old.faults ≤ self.new.faults }
    {
        tear(&mut self.held, &mut self.past, step);
        failed(&mut self.faults)
    }

    fn has_room(&self, at: u64, len: usize) -> bool {
        match at.checked_add(len as u64) {
            Some(end) => end <= self.room as u64,
            None => false,
        }
    }
}

// The step fails: a crash may leave what it was to write.
fn tear(now: &mut Held, past: &mut Vec<Held>, step: Step)
    ensures { FailsTo step now.old past.old.items now.new past.new.items }
{
    match now.failing(step) {
        Ok(next) => {
            let _done = go_on(now, past, next);
        }
        Err(Memory) => {}
    }
}

// The first bytes of the piece, from what stands at this place.
fn copy_out(bytes: &[u8], at: u64, piece: &mut [u8]) -> usize
    ensures size { length piece.new ≡ length piece.old }
    ensures count { result ≡ min (length piece.old) (length bytes.now - at) }
    ensures same { take result piece.new ≡ take result (drop at bytes.now) }
{
    if at >= bytes.len() as u64 {
        return 0;
    }
    let from = &bytes[at as usize..];
    let n = if piece.len() < from.len() {
        piece.len()
    } else {
        from.len()
    };
    piece[..n].copy_from_slice(&from[..n]);
    n
}

impl Disk for MemDisk {
    ghost use Rattle.std.specs.Prelude.{true};

    ghost tells = { true };

    ghost content = { λ m. m.held.content };

    ghost may_leave = { λ m. MayLeave m.held };

    ghost moment = { λ m. length m.past.items };

    ghost left_since = { λ m t c. MayLeave m.held c ⊎ HadBeen (drop t m.past.items) c };

    ghost faults = { λ m. m.faults };

    ghost is_image = { λ m told. inl refl };

    ghost counts_now = { λ m t c told le now. inl now };

    ghost only_now = { λ m c told left. only_this m.past.items m.held c left };

    fn read(&mut self, at: u64, piece: &mut [u8]) -> Result<usize, Failed> {
        if !self.schedule.begin() || self.schedule.fails() {
            return Err(failed(&mut self.faults));
        }
        Ok(copy_out(self.held.content(), at, piece))
    }

    fn write_at(&mut self, at: u64, piece: &[u8]) -> Result<(), Failed> {
        let (at, len) = (at as usize, piece.len());
        if !self.schedule.begin() || !self.has_room(at as u64, len) {
            return Err(failed(&mut self.faults));
        }
        if self.schedule.fails() {
            return Err(self.fail(Step::Write { at, len }));
        }
        match self.held.written(at, piece) {
            Ok(next) => self.go_to(next),
            Err(Memory) => Err(failed(&mut self.faults)),
        }
    }

    fn cut(&mut self, len: u64) -> Result<(), Failed> {
        let len = len as usize;
        if !self.schedule.begin() {
            return Err(failed(&mut self.faults));
        }
        if self.schedule.fails() {
            return Err(self.fail(Step::Cut { len }));
        }
        match self.held.cut(len) {
            Ok(next) => self.go_to(next),
            Err(Memory) => Err(failed(&mut self.faults)),
        }
    }

    fn sync(&mut self) -> Result<(), Failed> {
        if !self.schedule.begin() || self.schedule.fails() {
            return Err(failed(&mut self.faults));
        }
        match self.held.settled() {
            Ok(next) => self.go_to(next),
            Err(Memory) => Err(failed(&mut self.faults)),
        }
    }
}
