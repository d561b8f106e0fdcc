//! A run of the requests of a generated policy by one caller.

ghost use Rattle.std.specs.Prelude.{◌≡◌, ◌↔◌, ◌≤◌, ◌<◌, ◌+◌, ◌^◌, List, [], if◌then◌else◌, IsSome, IfSome, IfOk, OnOk};
ghost use Rattle.pm_model.specs.Effect.{max_elements};
ghost use Rattle.pm_model.specs.declared.requests.Request.{Request};
ghost use Rattle.pm_generator.specs.Generated.{generated};
ghost use Rattle.pm_generator.specs.Runs.{IsAsked, IsRunning, IsWithin, shared_since};
ghost use Rattle.pm_generator.specs.Summaries.{is_denial, is_grant, is_other_refusal, summary};

use crate::laws::requests_counted;
use crate::policy::Generated;
use crate::summary::Summary;
use pm_model::{Memory, Refusal, Reply, Request};
use pm_tally::Tally;
use std::alloc::Global;
use std::thread::Threads;

/// How many replies of each kind there were.
#[derive(Clone, Copy)]
struct Replies {
    granted: u64,
    denied: u64,
    refused: u64,
}

impl Replies {
    // One reply more.
    fn count(&mut self, reply: &Reply)
        requires { (self.old.granted < 2 ^ 32) × (self.old.denied < 2 ^ 32) × (self.old.refused < 2 ^ 32) }
        ensures granted { self.new.granted ≡ self.old.granted + (if is_grant reply.now then 1 else 0) }
        ensures denied { self.new.denied ≡ self.old.denied + (if is_denial reply.now then 1 else 0) }
        ensures refused { self.new.refused ≡ self.old.refused + (if is_other_refusal reply.now then 1 else 0) }
    {
        match reply {
            Reply::Granted { .. } => self.granted += 1,
            Reply::Refused(Refusal::Denied { .. }) => self.denied += 1,
            Reply::Bad(_)
            | Reply::Ahead
            | Reply::Refused(_)
            | Reply::ResponseRefused { .. }
            | Reply::KeepFault => self.refused += 1,
            _ => {}
        }
    }
}

/// What was counted of the requests so far.
#[derive(Clone, Copy)]
struct Counts {
    requests: u64,
    replies: Replies,
    shared: u64,
}

// What the machine's last answer has left as it was, where these were its version and its count of rows before.
fn shared_since<M: Tally>(machine: &M, version: u64, rows: u64) -> u64
    ensures value { result ≡ shared_since (M.machine machine.now) version rows }
    ensures few { result ≤ max_elements }
{
    if machine.version() <= version {
        return 0;
    }
    machine
        .live()
        .saturating_sub(machine.written().saturating_sub(rows))
}

impl Counts {
    fn new() -> Counts
        ensures { (rs : List Request) → IsRunning rs rs [] result }
    {
        let replies = Replies {
            granted: 0,
            denied: 0,
            refused: 0,
        };
        Counts {
            requests: 0,
            replies,
            shared: 0,
        }
    }

    // Asks one request more, and counts it.
    fn ask<M: Tally, R: Threads + Sync>(
        &mut self,
        rt: &R,
        machine: &mut M,
        request: &Request,
    ) -> Result<(), Memory>
        requires within { IsWithin self.old }
        requires few { self.old.requests < 2 ^ 32 }
        ensures asked { OnOk result (IsAsked (M.machine machine.old).history (M.machine machine.new).history self.old self.new request.now) }
        ensures within { OnOk result (IsWithin self.new) }
    {
        let version = machine.version();
        let rows = machine.written();
        machine.replayed();
        let told = machine.ask(rt, request)?;
        machine.replayed();
        self.requests += 1;
        self.replies.count(&told.0);
        self.shared += shared_since(machine, version, rows);
        Ok(())
    }

    // What it came to.
    fn summary<M: Tally>(&self, machine: &M) -> Summary
        ensures { (all : List Request) → IsRunning all [] (M.machine machine.now).history self.now → result ≡ summary all }
    {
        Summary {
            requests: self.requests,
            entries: machine.version(),
            granted: self.replies.granted,
            denied: self.replies.denied,
            refused: self.replies.refused,
            rows: machine.written(),
            shared: self.shared,
            judged: machine.asked(),
        }
    }
}

/// Runs the requests of a generated policy of this size on a machine of its own, and tells what they came to; None exactly where
/// there is no policy of the size. Its only error is want of memory. It may start threads, which end within the call: the
/// machine's answers may, and these requests ask for none.
pub fn generate<M: Tally + Drop, R: Threads + Sync>(
    rt: &R,
    alloc: Global,
    size: u16,
) -> Result<Option<Summary>, Memory>
    ensures value { IfOk result (λ ran. IfSome ran (λ s. s ≡ summary (generated size))) }
    ensures sizes { IfOk result (λ ran. IsSome ran ↔ ((0 < size) × (size ≤ 200))) }
{
    let Some(mut requests) = Generated::new(size) else {
        return Ok(None);
    };
    requests_counted();
    let mut machine = M::opening(alloc)?;
    let mut counts = Counts::new();
    while let Some(request) = requests.next(alloc)? {
        counts.ask(rt, &mut machine, &request)?;
    }
    Ok(Some(counts.summary(&machine)))
}
