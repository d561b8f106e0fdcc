//! Versions of a machine that many callers share.

ghost use Rattle.std.specs.Prelude.{◌≡◌, ◌≤◌, length, slice_get, is_some, IfOk, IsOk, OnErr, true};
ghost use Rattle.std.specs.Option.{option_copied};
ghost use Rattle.std.specs.Thread.{IsSync};
ghost use Rattle.pm_model.specs.Answer.{longest_history};
ghost use Rattle.pm_model.specs.Formed.{IsWellFormed};
ghost use Rattle.pm_model.specs.History.{IsReplayed, Machine, opening_machine, state_of};
ghost use Rattle.pm_model.specs.Sizes.{size_of};
ghost use Rattle.pm_model.specs.State.{element_at, name_numbered};
ghost use Rattle.pm_machine.specs.Answered.{HasAnswered, IsStep};
ghost use Rattle.pm_machine.specs.Asking.{asks_freely};
ghost use Rattle.pm_machine.specs.Glances.{IsGlanced};

use crate::glances::Glance;
use pm_model::{Entry, Grows, Memory, NameOf, Reply, Request, Table};
use std::alloc::Global;
use std::thread::Threads;

/// What a step from a version comes to.
#[derive(Drop)]
pub enum Stepped<V> {
    /// The request is an entry: the version after it, and the reply.
    Accepted(V, Reply),
    /// It is none, and the version stays: the reply.
    Answered(Reply),
}

/// A version of the machine, however it is kept. It stands for its history, and stays as it is once it is shared.
pub trait Version: Grows + NameOf + Drop + Sized {
    /// Its graph, and the history that led to it.
    ghost machine: { Self → Machine };

    /// The version before any request.
    fn opening(alloc: Global) -> Result<Self, Memory>
        ensures { IfOk result (λ v. machine v ≡ opening_machine) };

    /// How many entries were accepted.
    fn version(&self) -> u64
        ensures version { result ≡ length (machine self.now).history }
        ensures most { result ≤ longest_history };

    /// The entry at a place, from 0; None exactly where there is none.
    fn entry(&self, i: u64) -> Option<&Entry>
        ensures { option_copied result ≡ slice_get (machine self.now).history i };

    /// How many there are of what has a limit, which [`Table::limit`] tells. It looks at none of them.
    fn size(&self, table: Table) -> u64
        ensures { result ≡ size_of (state_of (machine self.now)) table };

    /// What each version keeps: it is the replay of its history, its graph is well formed, and it names the live elements.
    fn known(&self)
        ensures replayed { IsReplayed (machine self.now) }
        ensures formed { IsWellFormed (machine self.now).graph }
        ensures named { Self.named self.now ≡ (λ n. is_some (element_at (machine self.now).graph.elements n)) }
        ensures names { Self.name_at self.now ≡ name_numbered (machine self.now).graph.elements };

    /// Lets the versions after it share what it has. On Memory some may be shared.
    fn share(&mut self) -> Result<(), Memory>
        ensures { machine self.new ≡ machine self.old };

    /// The machine's answer to a request at this version, which stays, as the entry of this seat with this number where it
    /// is accepted. It costs little once what the version has is shared. A `survey` may start threads, which end within the
    /// call.
    fn step<R: Threads + Sync>(
        &self,
        rt: &R,
        seat: u32,
        nth: u64,
        request: &Request,
    ) -> Result<Stepped<Self>, Memory>
        requires { IsSync R.row }
        ensures { IfOk result (IsStep machine (machine self.now) (record { seat = seat; nth = nth; request = request.now })) };

    /// The machine's answer to a request, by which this version goes on, as the entry of this seat with this number where it
    /// is accepted. It is for whoever holds the only version: what it shares with others is copied first. On Memory, and
    /// where the request isn't accepted, all is as before. A `survey` may start threads, which end within the call.
    fn advance<R: Threads + Sync>(
        &mut self,
        rt: &R,
        seat: u32,
        nth: u64,
        request: &Request,
    ) -> Result<Reply, Memory>
        requires { IsSync R.row }
        ensures ok { IfOk result (HasAnswered (machine self.old) (machine self.new) (record { seat = seat; nth = nth; request = request.now })) }
        ensures err { OnErr result (machine self.new ≡ machine self.old) };

    /// What a request comes to at this version, which stays. It needs the desk exactly where it is a command, of
    /// sessions and processes too, or an access that is granted, whose `after` isn't above the version, and to
    /// which some obligation responds. Else it gets the machine's reply. `version` and an access take no memory. A
    /// `survey` may start threads, which end within the call.
    fn glance<R: Threads + Sync>(&self, rt: &R, request: &Request) -> Result<Glance, Memory>
        requires { IsSync R.row }
        ensures ok { IfOk result (IsGlanced (state_of (machine self.now)) request.now) }
        ensures free { asks_freely request.now.body ≡ true → IsOk result };

    ghost lists_history: { (v : Self) → Self.list v ≡ (machine v).history };
}
