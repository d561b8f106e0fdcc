//! A machine with one caller.

ghost use Rattle.std.specs.Prelude.{◌≡◌, ◌≤◌, length, IfOk, IsOk, OnErr, true};
ghost use Rattle.std.specs.Thread.{IsSync};
ghost use Rattle.pm_model.specs.Answer.{longest_history, proposed};
ghost use Rattle.pm_model.specs.History.{Machine, opening_machine, state_of};
ghost use Rattle.pm_model.specs.Nameable.{IsNameable};
ghost use Rattle.pm_model.specs.State.{name_numbered};
ghost use Rattle.pm_machine.specs.Answered.{Tells};
ghost use Rattle.pm_machine.specs.Asking.{asks_freely, none_responded};

use pm_model::{Memory, NameOf, Reply, Request};
use std::alloc::Global;
use std::thread::Threads;

/// A machine with one caller, whose seat is 0, however it is kept.
pub trait Answerer: NameOf + Sized {
    /// Its graph, and the history that led to it.
    ghost machine: { Self → Machine };

    /// The machine before any request.
    fn opening(alloc: Global) -> Result<Self, Memory>
        ensures { IfOk result (λ m. machine m ≡ opening_machine) };

    /// How many entries were accepted.
    fn version(&self) -> u64
        ensures version { result ≡ length (machine self.now).history }
        ensures most { result ≤ longest_history };

    /// The machine's answer to a request, as the next entry of seat 0 where it is accepted, and the
    /// version after it. Each element that the reply names is live. On Memory all is as before; `version`
    /// never answers it, nor does an access to which no obligation responds. A `survey` may start threads, which
    /// end within the call.
    fn ask<R: Threads + Sync>(&mut self, rt: &R, request: &Request) -> Result<(Reply, u64), Memory>
        requires { IsSync R.row }
        ensures ok { IfOk result (Tells (machine self.old) (machine self.new) request.now) }
        ensures named { IfOk result (λ t. IsNameable (Self.named self.new) t.0) }
        ensures names { Self.name_at self.new ≡ name_numbered (machine self.new).graph.elements }
        ensures err { OnErr result (machine self.new ≡ machine self.old) }
        ensures free { asks_freely request.now.body ≡ true → none_responded (proposed (state_of (machine self.old)) request.now).reply ≡ true → IsOk result };
}
