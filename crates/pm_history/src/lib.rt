//! The history: the accepted requests, in order. Copies share the entries, and whole leaves of them.
#![tactic(auto)]

ghost use Rattle.std.specs.Prelude.{◌≡◌, ◌≤◌, ◌<◌, [], ◌∷◌, ◌++◌, OnOk, OnErr, IfErr, IfOk, length, slice_get, take, ◌+◌, ◌-◌};
ghost use Rattle.std.specs.Option.{option_copied};
ghost use Rattle.pm_model.specs.Answer.{longest_history};

mod shared;

use crate::shared::SharedEntry;
use pm_model::{Entry, Memory};
use pm_pages::LeafList;
use std::alloc::Global;
use std::marker::Model;
use thiserror::Error;

/// After how many entries the leaves are shared in any case.
const SHARED: usize = 1024;

/// Why an entry was not put into the history. The history is as before, and the entry is dropped.
#[derive(Clone, Copy, Debug, PartialEq, Eq, Error)]
pub enum HistoryError {
    #[error("there are as many entries as the limit says")]
    Full,
    #[error("out of memory")]
    Memory,
}

/// Accepted requests, in order, up to a limit. A copy shares the entries, and neither sees what the
/// other gets or lets go from then on. An entry is freed with the last history that has it; one that
/// was taken back out is freed at the next push at the latest.
pub struct History {
    /// Behind the first `count` there may be entries that were taken back.
    entries: LeafList<SharedEntry>,
    count: usize,
    limit: u64,
}

impl Drop for History {
    fn drop(self) {
        let History {
            entries: _,
            count: _,
            limit: _,
        } = self;
    }
}

impl Model for History {
    ghost use Rattle.pm_history.specs.Kept.{Limited, limited_of, IsKept};

    ghost Value = { Limited };

    ghost view = { limited_of };

    ghost invariant = { IsKept };
}

/// Puts an entry behind the first ones, in the place of one that was taken back if there is one.
fn put(entries: &mut LeafList<SharedEntry>, count: usize, entry: SharedEntry) -> Result<(), Memory>
    requires { count ≤ length entries.old.items }
    ensures ok { OnOk result (take (count + 1) entries.new.items ≡ take count entries.old.items ++ entry ∷ []) }
    ensures held { OnOk result (count < length entries.new.items) }
    ensures err { OnErr result (entries.new.items ≡ entries.old.items) }
{
    if count < entries.len() {
        entries.own_at(count)?;
        *entries.edit(count) = entry;
        return Ok(());
    }
    entries.push(entry)
}

/// Lets copies share the leaves after each so many entries, when all leaves are full.
fn share_full(entries: &mut LeafList<SharedEntry>, count: usize) -> Result<(), Memory>
    ensures { entries.new.items ≡ entries.old.items }
{
    if count % SHARED == 0 {
        return entries.share();
    }
    Ok(())
}

/// Makes an entry that histories share, and puts it behind the first ones.
fn put_new(entries: &mut LeafList<SharedEntry>, count: usize, entry: Entry) -> Result<(), Memory>
    requires { count ≤ length entries.old.items }
    ensures ok { OnOk result (take (count + 1) entries.new.items ≡ take count entries.old.items ++ entry ∷ []) }
    ensures held { OnOk result (count < length entries.new.items) }
    ensures err { OnErr result (entries.new.items ≡ entries.old.items) }
{
    let shared = SharedEntry::new(entries.allocator(), entry)?;
    share_full(entries, count)?;
    put(entries, count, shared)
}

impl History {
    /// The empty history, which may have this many entries. It takes no memory: the places grow with
    /// the entries.
    pub fn new(alloc: Global, limit: u64) -> History
        requires { limit ≤ longest_history }
        ensures { result ≡ record { entries = []; limit = limit } }
    {
        History {
            entries: LeafList::new(alloc),
            count: 0,
            limit,
        }
    }

    /// How many entries it has.
    pub fn len(&self) -> u64
        ensures value { result ≡ length self.now.entries }
        ensures within { result ≤ self.now.limit }
    {
        self.count as u64
    }

    /// How many entries it may have.
    pub fn limit(&self) -> u64
        ensures value { result ≡ self.now.limit }
        ensures most { result ≤ longest_history }
    {
        self.limit
    }

    /// The entry at a place, from 0 in order of acceptance; None exactly where there is none.
    pub fn get(&self, i: u64) -> Option<&Entry>
        ensures { option_copied result ≡ slice_get self.now.entries i }
    {
        if i >= self.count as u64 {
            return None;
        }
        let shared = self.entries.at(i as usize);
        Some(shared.entry())
    }

    /// Puts an entry at the end. `Full` exactly where there are as many entries as the limit says; the
    /// only other error is `Memory`. It takes memory for the entry, now and then for more places, and
    /// for up to 16 places and a page of 32 leaves where copies share the last leaf. Of each 1,024 entries
    /// the leaves are shared from the next push on.
    pub fn push(&mut self, entry: Entry) -> Result<(), HistoryError>
        ensures room { OnOk result (length self.old.entries < self.old.limit) }
        ensures ok { OnOk result (self.new ≡ record self.old { entries = self.old.entries ++ entry ∷ [] }) }
        ensures full { IfErr result (λ e. e ≡ HistoryError.Full → self.old.limit ≤ length self.old.entries) }
        ensures memory { IfErr result (λ e. e ≡ HistoryError.Memory → length self.old.entries < self.old.limit) }
        ensures err { OnErr result (self.new ≡ self.old) }
    {
        if self.count as u64 >= self.limit {
            return Err(HistoryError::Full);
        }
        match put_new(&mut self.entries, self.count, entry) {
            Ok(()) => {
                self.count += 1;
                Ok(())
            }
            Err(_) => Err(HistoryError::Memory),
        }
    }

    /// Takes the last entry back out. It takes no memory. Copies that have the entry keep it.
    pub fn take_back(&mut self)
        requires { 0 < length self.old.entries }
        ensures { self.new ≡ record self.old { entries = take (length self.old.entries - 1) self.old.entries } }
    {
        self.count -= 1;
    }

    /// Lets copies share all leaves, so that a copy costs 40 bytes for each 512 entries. It takes
    /// memory for each leaf that no copy shares. On Memory some leaves may be shared.
    pub fn share(&mut self) -> Result<(), Memory>
        ensures { self.new ≡ self.old }
    {
        self.entries.share()
    }

    /// The same history once more, with the same limit. It takes memory for the places of pages of leaves,
    /// and for those of the last entries where no `share` came before, of 8 bytes each: but for the last
    /// 1,024 at most, leaves are shared in any case. `Memory` comes where there is none, or where an entry
    /// or a leaf has as many owners as can be counted.
    pub fn copy(&self) -> Result<History, Memory>
        ensures { IfOk result (λ same. same ≡ self.now) }
    {
        Ok(History {
            entries: self.entries.copy()?,
            count: self.count,
            limit: self.limit,
        })
    }
}
