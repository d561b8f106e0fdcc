//! The journal.

ghost use Rattle.std.specs.Prelude.{◌≡◌, ◌⊎◌, ◌≤◌, ◌<◌, ◌+◌, ◌++◌, ◌∷◌, [], true, List, ℕ, Option, None, Some, Result, Ok, length, map, IfOk, IfErr, OnOk, OnErr};
ghost use Rattle.pm_model.specs.Answer.{longest_history};
ghost use Rattle.pm_model.specs.Causes.{HasCause, HasKeepCause, Rose};
ghost use Rattle.pm_disk.specs.Disks.{Each, Leaves};
ghost use Rattle.pm_journal.specs.Journals.{IsPiece, noted, StandsFor, StandsForAny, MayBeLost, written};
ghost use Rattle.pm_journal.specs.Notes.{IsLine, Note, body, entry_of};
ghost use Rattle.pm_journal.specs.Heads.{HasStood};
ghost use Rattle.pm_journal.specs.Images.{Stands};
ghost use Rattle.pm_journal.specs.declared.opened.OpenError.{OpenError};
ghost use Rattle.pm_journal.specs.declared.opened.OpenError.TheVariants as open_fault;
ghost use Rattle.pm_journal.specs.Opens.{ComesTo, IsUnopened, LeavesSynced, Tells};

use crate::gates::{stage, turn};
use crate::opened::{OpenError, opened};
use pm_disk::Disk;
use pm_model::{Entry, Failed, ItemList, KeepError, Memory};
use std::alloc::Global;
use std::marker::Model;

/// Entries on a disk, each told as kept only once no crash can take it away. Contracts see its disk; the notes that it
/// keeps; and one that it could not keep, but that a crash may leave.
pub struct Journal<D: Disk + Drop> {
    disk: D,
    end: u64,
    count: u64,
    doubt: u64,
}

impl<D: Disk + Drop> Drop for Journal<D> {
    fn drop(self) {
        let Journal {
            disk: _,
            end: _,
            count: _,
            doubt: _,
        } = self;
    }
}

impl<D: Disk + Drop> Model for Journal<D> {
    ghost use Rattle.std.specs.Prelude.{◌≡◌, ◌+◌, true, take, drop};
    ghost use Rattle.pm_journal.specs.Journals.{Journaled, kept_in, lost_in, IsSound, IsPlaced};

    ghost Value = { Journaled D };

    ghost view = { λ j. record { disk = j.disk; kept = kept_in j.count (take j.end (D.content j.disk)); lost = lost_in j.doubt (drop (j.end + 1) (D.content j.disk)); count = j.count } };

    ghost invariant = { λ j. IsPlaced j.end j.count j.doubt × (D.tells ≡ true → IsSound (D.content j.disk) (D.may_leave j.disk) j.end j.count j.doubt) };
}

/// Why a journal was not opened, with its disk.
#[derive(Drop)]
pub struct Unopened<D: Disk + Drop> {
    pub disk: D,
    pub why: OpenError,
}

impl<D: Disk + Drop> Journal<D> {
    /// The journal of a disk, and its entries: those that the disk stood for, none where it was empty. What stands behind them
    /// is cut off. What the bytes come to is told, but where the disk fails or there is no memory. At any moment a crash leaves
    /// what it might have left before; and from the first sync on, what stands for the entries, whatever a crash might have left
    /// before that. Each error hands the disk back.
    pub fn open(alloc: Global, disk: D) -> Result<(Journal<D>, ItemList<Entry>), Unopened<D>>
        ensures stood { D.tells ≡ true → IfOk result (λ r. HasStood r.0.kept (D.content disk)) }
        ensures entries { D.tells ≡ true → IfOk result (λ r. r.1 ≡ map entry_of r.0.kept) }
        ensures lost { IfOk result (λ r. r.0.lost ≡ None) }
        ensures unopened { D.tells ≡ true → IfErr result (λ u. IsUnopened (D.content disk) (D.content u.disk) u.why) }
        ensures exactly { D.tells ≡ true → (out : Result (List Note) OpenError) → ComesTo (D.content disk) out → IfOk result (λ r. out ≡ Ok r.0.kept) }
        ensures told { D.tells ≡ true → (out : Result (List Note) OpenError) → ComesTo (D.content disk) out → IfErr result (λ u. Tells out u.why) }
        ensures failed { IfErr result (λ u. u.why ≡ open_fault.Failed → Rose (D.faults disk) (D.faults u.disk)) }
        ensures synced { D.tells ≡ true → (notes : List Note) → Stands notes (D.content disk) → IfOk result (λ r. LeavesSynced D.moment D.left_since disk r.0.disk (Stands notes)) }
        ensures err_synced { D.tells ≡ true → (notes : List Note) → Stands notes (D.content disk) → IfErr result (λ u. LeavesSynced D.moment D.left_since disk u.disk (Stands notes)) }
        ensures any_moment { D.tells ≡ true → (kept : List Note) (lost : Option Note) → Each (D.may_leave disk) (StandsFor kept lost) → IfOk result (λ r. Leaves D.moment D.left_since disk r.0.disk (StandsFor kept lost)) }
        ensures err_moment { D.tells ≡ true → (kept : List Note) (lost : Option Note) → Each (D.may_leave disk) (StandsFor kept lost) → IfErr result (λ u. Leaves D.moment D.left_since disk u.disk (StandsFor kept lost)) }
    {
        let mut disk = disk;
        match opened(alloc, &mut disk) {
            Ok((entries, end)) => {
                let count = entries.len() as u64;
                let journal = Journal {
                    disk,
                    end,
                    count,
                    doubt: 0,
                };
                Ok((journal, entries))
            }
            Err(why) => Err(Unopened { disk, why }),
        }
    }

    /// A crash now leaves what is kept, or that and the one that was lost.
    pub fn stands(&self)
        ensures still { D.tells ≡ true → Leaves D.moment D.left_since self.now.disk self.now.disk (StandsFor self.now.kept self.now.lost) }
        ensures images { D.tells ≡ true → Each (D.may_leave self.now.disk) (StandsFor self.now.kept self.now.lost) }
        ensures count { D.tells ≡ true → self.now.count ≡ length self.now.kept }
    {
        let _disk = &self.disk;
    }

    /// Its disk.
    pub fn disk(&self) -> &D
        ensures { result.now ≡ self.now.disk }
    {
        &self.disk
    }

    /// How many entries it keeps.
    pub fn count(&self) -> u64
        ensures { result ≡ self.now.count }
    {
        self.count
    }

    // Closes a gate that is in doubt.
    fn settle(&mut self) -> Result<(), Failed>
        ensures kept { D.tells ≡ true → self.new.kept ≡ self.old.kept }
        ensures count { self.new.count ≡ self.old.count }
        ensures ok { OnOk result (self.new.lost ≡ None) }
        ensures err { D.tells ≡ true → OnErr result (self.new.lost ≡ self.old.lost) }
        ensures any_moment { D.tells ≡ true → Leaves D.moment D.left_since self.old.disk self.new.disk (StandsFor self.old.kept self.old.lost) }
        ensures cause { HasCause (D.faults self.old.disk) (D.faults self.new.disk) result }
    {
        if self.doubt == 0 {
            return Ok(());
        }
        turn(&mut self.disk, self.end, 0)?;
        self.doubt = 0;
        Ok(())
    }

    // Puts a record behind the last one, whose gate is closed.
    fn enter(&mut self, piece: &[u8]) -> Result<(), Failed>
        requires settled { self.old.lost ≡ None }
        requires room { self.old.count < longest_history }
        requires piece { IsPiece piece.now }
        requires short { length piece.now ≤ 8209 }
        ensures ok { D.tells ≡ true → OnOk result ((self.new.kept ≡ self.old.kept ++ noted piece.now ∷ []) × (self.new.lost ≡ None)) }
        ensures err { D.tells ≡ true → OnErr result ((self.new.kept ≡ self.old.kept) × ((self.new.lost ≡ None) ⊎ (self.new.lost ≡ Some (noted piece.now)))) }
        ensures count { OnOk result (self.new.count ≡ self.old.count + 1) }
        ensures same { OnErr result (self.new.count ≡ self.old.count) }
        ensures any_moment { D.tells ≡ true → Leaves D.moment D.left_since self.old.disk self.new.disk (StandsFor self.old.kept (Some (noted piece.now))) }
        ensures cause { HasCause (D.faults self.old.disk) (D.faults self.new.disk) result }
    {
        stage(&mut self.disk, self.end, piece)?;
        match turn(&mut self.disk, self.end, 1) {
            Ok(()) => {
                self.end += piece.len() as u64;
                self.count += 1;
                Ok(())
            }
            Err(Failed) => {
                self.doubt = piece.len() as u64;
                Err(Failed)
            }
        }
    }

    /// Keeps an entry behind those that are kept, by its seat, its number and the line of its request. It is kept only once no
    /// crash can take it away. After an error all is kept as before, and a crash may leave one entry more, which could not be
    /// kept; the next call first makes sure that it won't.
    pub fn append(
        &mut self,
        alloc: Global,
        seat: u32,
        nth: u64,
        line: &[u8],
    ) -> Result<(), KeepError>
        requires line { IsLine line.now }
        requires room { self.old.count < longest_history }
        ensures ok { D.tells ≡ true → OnOk result ((self.new.kept ≡ self.old.kept ++ written seat nth line.now ∷ []) × (self.new.lost ≡ None)) }
        ensures err { D.tells ≡ true → OnErr result ((self.new.kept ≡ self.old.kept) × MayBeLost self.old.lost (written seat nth line.now) self.new.lost) }
        ensures any_moment { D.tells ≡ true → Leaves D.moment D.left_since self.old.disk self.new.disk (StandsForAny self.old.kept self.old.lost (written seat nth line.now)) }
        ensures cause { HasKeepCause (D.faults self.old.disk) (D.faults self.new.disk) result }
    {
        let Ok(piece) = piece_of(alloc, seat, nth, line) else {
            self.stands();
            return Err(KeepError::Memory);
        };
        match self.settle() {
            Ok(()) => {}
            Err(Failed) => return Err(KeepError::Failed),
        }
        match self.enter(&piece) {
            Ok(()) => Ok(()),
            Err(Failed) => Err(KeepError::Failed),
        }
    }
}

// The bytes of a record but its gate, and a closed gate.
fn piece_of(alloc: Global, seat: u32, nth: u64, line: &[u8]) -> Result<Vec<u8>, Memory>
    requires { length line.now ≤ 8192 }
    ensures { IfOk result (λ p. p.items ≡ body (written seat nth line.now) ++ 0 ∷ []) }
{
    let mut piece = Vec::with_capacity(alloc, 17 + line.len())?;
    piece.extend_from_slice(&(line.len() as u32).to_be_bytes())?;
    piece.extend_from_slice(&seat.to_be_bytes())?;
    piece.extend_from_slice(&nth.to_be_bytes())?;
    piece.extend_from_slice(line)?;
    piece.push(0)?;
    Ok(piece)
}
