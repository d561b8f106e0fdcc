//! One request as a step: in place, or from one state to the next.
ghost use Rattle.std.specs.Prelude.{◌≡◌, length, nat_lt, None, Some, IfOk, IsOk, OnOk, OnErr, true};
ghost use Rattle.pm_model.specs.Answer.{entered, granted, proposed};
ghost use Rattle.pm_model.specs.Events.{responders};
ghost use Rattle.pm_model.specs.Formed.{IsNamed};
ghost use Rattle.pm_model.specs.History.{state_of};
ghost use Rattle.pm_model.specs.declared.requests.Entry.{Entry};
ghost use Rattle.pm_affect.specs.Counting.{Work, work_by, work_entered, work_for, work_granted};
ghost use Rattle.pm_pattern.specs.Live.{IsEventLive};
ghost use Rattle.pm_state.specs.Containing.{relation_in};
ghost use Rattle.pm_state.specs.Leaving.{LeavesReviews};
ghost use Rattle.pm_machine.specs.Answered.{HasAnswered};
ghost use Rattle.pm_step.specs.Counted.{HasCounted, HasCountedFrom};
ghost use Rattle.pm_step.specs.Steps.{IsStepFrom};
ghost use Rattle.pm_machine.specs.Asking.{asks_freely, none_responded};
ghost use Rattle.pm_step.specs.Proposed.{event_by, IsActorLive};

use crate::entries::{any_responds, awaited, enter_in_draft, respond_to_access, respond_to_change};
use crate::proposals::{Actor, Proposal, propose};
use crate::replies::done;
use pm_machine::Stepped;
use pm_model::{Change, ChangeError, Entry, Event, Memory, Reply, Request};
use pm_state::State;
use std::thread::Threads;

// Makes the change in place, or refuses it. Nothing responds to it, and it leaves the kept reviews.
fn enter(state: &mut State, change: &Change, entry: Entry) -> Result<Reply, Memory>
    requires leaves { LeavesReviews state.old.graph change.now }
    requires named { IsNamed state.old.graph change.now }
    requires asked { proposed (state_of state.old) entry.request ≡ entered (state_of state.old) None change.now }
    requires work { (w : Work) → work_by w (state_of state.old) entry.request ≡ work_for w state.old.graph change.now }
    ensures ok { IfOk result (HasAnswered state.old state.new entry) }
    ensures err { OnErr result (state.new ≡ state.old) }
{
    match state.enter(change, entry) {
        Ok(made) => Ok(done(0, made)),
        Err(ChangeError::Refused(why)) => Ok(Reply::Refused(why)),
        Err(ChangeError::Memory) => Err(Memory),
    }
}

// Takes a step from this state.
fn go_on(state: &mut State, stepped: Stepped<State>) -> Reply
    ensures { (entry : Entry) → IsStepFrom state.old entry stepped → HasAnswered state.old state.new entry result }
{
    match stepped {
        Stepped::Accepted(next, reply) => {
            *state = next;
            reply
        }
        Stepped::Answered(reply) => reply,
    }
}

// The answer to a request that comes to this change, to which nothing responds: in place, where it leaves the kept reviews.
fn enter_alone(state: &mut State, change: &Change, entry: Entry) -> Result<Reply, Memory>
    requires named { IsNamed state.old.graph change.now }
    requires asked { proposed (state_of state.old) entry.request ≡ entered (state_of state.old) None change.now }
    requires work { (w : Work) → work_by w (state_of state.old) entry.request ≡ work_for w state.old.graph change.now }
    ensures ok { IfOk result (HasAnswered state.old state.new entry) }
    ensures err { OnErr result (state.new ≡ state.old) }
{
    if state.leaves_reviews(change)? {
        return enter(state, change, entry);
    }
    state.share()?;
    let stepped = enter_in_draft(state, change, entry)?;
    Ok(go_on(state, stepped))
}

// The answer to a request that comes to this change: in place, where nothing responds and it leaves the kept reviews. It stands by
// itself, so that an access doesn't pay for its locals.
#[inline(never)]
fn enter_by(
    state: &mut State,
    change: &Change,
    by: Option<Actor>,
    entry: Entry,
) -> Result<Reply, Memory>
    requires named { IsNamed state.old.graph change.now }
    requires by { IsActorLive state.old.graph by }
    requires asked { proposed (state_of state.old) entry.request ≡ entered (state_of state.old) (event_by state.old.graph by change.now) change.now }
    requires work { (w : Work) → work_by w (state_of state.old) entry.request ≡ work_entered w (state_of state.old) (event_by state.old.graph by change.now) change.now }
    ensures ok { IfOk result (HasAnswered state.old state.new entry) }
    ensures err { OnErr result (state.new ≡ state.old) }
{
    match awaited(state.graph(), by, change) {
        None => enter_alone(state, change, entry),
        Some(event) => {
            state.share()?;
            let stepped = respond_to_change(state, change, &event, entry)?;
            Ok(go_on(state, stepped))
        }
    }
}

// The answer to a request whose access is granted, and to which some obligation responds.
fn enter_access(state: &mut State, event: &Event, entry: Entry) -> Result<Reply, Memory>
    requires live { IsEventLive (relation_in state.old.graph) event.now }
    requires some { nat_lt 0 (length (responders state.old.graph state.old.graph.obligations (Some event.now))) ≡ true }
    requires asked { proposed (state_of state.old) entry.request ≡ granted (state_of state.old) event.now }
    requires work { (w : Work) → work_by w (state_of state.old) entry.request ≡ work_granted w (state_of state.old) event.now }
    ensures ok { IfOk result (HasAnswered state.old state.new entry) }
    ensures err { OnErr result (state.new ≡ state.old) }
{
    state.share()?;
    let stepped = respond_to_access(state, event, entry)?;
    Ok(go_on(state, stepped))
}

// The same, of this request from this seat with this number; by itself for the same reason.
#[inline(never)]
fn enter_access_of(
    state: &mut State,
    event: &Event,
    seat: u32,
    nth: u64,
    request: &Request,
) -> Result<Reply, Memory>
    requires live { IsEventLive (relation_in state.old.graph) event.now }
    requires some { nat_lt 0 (length (responders state.old.graph state.old.graph.obligations (Some event.now))) ≡ true }
    requires asked { proposed (state_of state.old) request.now ≡ granted (state_of state.old) event.now }
    requires work { (w : Work) → work_by w (state_of state.old) request.now ≡ work_granted w (state_of state.old) event.now }
    ensures ok { IfOk result (HasAnswered state.old state.new (record { seat = seat; nth = nth; request = request.now })) }
    ensures err { OnErr result (state.new ≡ state.old) }
{
    let request = request.copy()?;
    enter_access(state, event, Entry { seat, nth, request })
}

// The answer to a request whose access is granted: an entry exactly where some obligation responds.
fn grant(
    state: &mut State,
    event: &Event,
    seat: u32,
    nth: u64,
    request: &Request,
) -> Result<Reply, Memory>
    requires live { IsEventLive (relation_in state.old.graph) event.now }
    requires asked { proposed (state_of state.old) request.now ≡ granted (state_of state.old) event.now }
    requires work { (w : Work) → work_by w (state_of state.old) request.now ≡ work_granted w (state_of state.old) event.now }
    ensures ok { IfOk result (HasAnswered state.old state.new (record { seat = seat; nth = nth; request = request.now })) }
    ensures err { OnErr result (state.new ≡ state.old) }
    ensures free { none_responded (granted (state_of state.old) event.now).reply ≡ true → IsOk result }
{
    if any_responds(state.graph(), event) {
        return enter_access_of(state, event, seat, nth, request);
    }
    Ok(Reply::Granted { fired: 0 })
}

// The answer to a request, by which the state goes on.
#[tactic(auto, using(crate::proofs::Glancing::free_asks))]
fn answered<R: Threads + Sync>(
    rt: &R,
    state: &mut State,
    seat: u32,
    nth: u64,
    request: &Request,
) -> Result<Reply, Memory>
    ensures ok { IfOk result (HasAnswered state.old state.new (record { seat = seat; nth = nth; request = request.now })) }
    ensures err { OnErr result (state.new ≡ state.old) }
    ensures free { asks_freely request.now.body ≡ true → none_responded (proposed (state_of state.old) request.now).reply ≡ true → IsOk result }
{
    match propose(rt, state, request) {
        Ok(Proposal::Told(reply)) => Ok(reply),
        Ok(Proposal::Granted(event)) => grant(state, &event, seat, nth, request),
        Ok(Proposal::Change { change, by }) => {
            let request = request.copy()?;
            enter_by(state, &change, by, Entry { seat, nth, request })
        }
        Err(Memory) => Err(Memory),
    }
}

/// The machine's answer to a request in this state, which goes on by it. Where the request is accepted, the
/// state has it as the entry of this seat with this number. Where it isn't, and on Memory, the state is as
/// before; `version` never answers Memory, nor does an access to which no obligation responds. A `survey` may
/// start threads, which end within the call.
///
/// What it adds to the counts of rights judged for kept reviews and of rows written is the work of the changes of its entry.
pub fn advance<R: Threads + Sync>(
    rt: &R,
    state: &mut State,
    seat: u32,
    nth: u64,
    request: &Request,
) -> Result<Reply, Memory>
    ensures ok { IfOk result (HasAnswered state.old state.new (record { seat = seat; nth = nth; request = request.now })) }
    ensures work { OnOk result (HasCounted state.old state.new request.now) }
    ensures err { OnErr result (state.new ≡ state.old) }
    ensures free { asks_freely request.now.body ≡ true → none_responded (proposed (state_of state.old) request.now).reply ≡ true → IsOk result }
{
    state.replayed();
    answered(rt, state, seat, nth, request)
}

/// The machine's answer to a request in this state, which stays: [`advance`] on a copy of it. The copy shares
/// the pages and entries that the state lets copies share, so that it costs little once `State::share` was
/// called. A `survey` may start threads, which end within the call.
pub fn step<R: Threads + Sync>(
    rt: &R,
    state: &State,
    seat: u32,
    nth: u64,
    request: &Request,
) -> Result<Stepped<State>, Memory>
    ensures ok { IfOk result (IsStepFrom state.now (record { seat = seat; nth = nth; request = request.now })) }
    ensures work { IfOk result (HasCountedFrom state.now request.now) }
{
    state.replayed();
    let mut next = state.copy()?;
    let reply = advance(rt, &mut next, seat, nth, request)?;
    if next.version() == state.version() {
        return Ok(Stepped::Answered(reply));
    }
    Ok(Stepped::Accepted(next, reply))
}
