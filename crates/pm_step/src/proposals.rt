//! What the machine makes of a request in a state, before anything is changed.
ghost use Rattle.std.specs.Prelude.{◌≡◌, length, IfOk, IsOk, Some, None, true, false};
ghost use Rattle.pm_model.specs.Answer.{accessed, acting, administered, answer_access, answer_review, entered, is_ahead, or_refused, proposed};
ghost use Rattle.pm_model.specs.Authority.{ruling};
ghost use Rattle.pm_model.specs.Events.{event, raised};
ghost use Rattle.pm_model.specs.History.{state_of};
ghost use Rattle.pm_model.specs.Resolve.{look_up};
ghost use Rattle.pm_affect.specs.Counting.{Work, count_on, work_by, work_entered, work_granted};
ghost use Rattle.pm_machine.specs.Asking.{asks_freely};
ghost use Rattle.pm_step.specs.Asking.{only_asks, proposal_of, IsReply, IsTold, IsAskedFor};
ghost use Rattle.pm_machine.specs.Glances.{accessed_event};
ghost use Rattle.pm_step.specs.Proposed.{answer_by, work_by_proposal, IsPossible};

use crate::reviewing::answer;
use pm_admin::{acting, authorise_access, authorise_review, look_up, permit};
use pm_model::{
    Body, Change, ChangeError, Command, ElementId, Event, Memory, Name, Question, Refusal, Reply,
    Request, Shown,
};
use pm_state::State;
use std::thread::Threads;

/// The user who gives a command, and the process.
#[derive(Clone, Copy)]
pub(crate) struct Actor {
    pub(crate) user: ElementId,
    pub(crate) process: u32,
}

/// What a request comes to, and who raises an event by it. The event of a change is left to be made, since
/// mostly nothing waits for one.
#[derive(Drop)]
pub(crate) enum Proposal {
    /// A reply that leaves the state.
    Told(Reply),
    /// A change to be made as an entry.
    Change { change: Change, by: Option<Actor> },
    /// An access that is granted, and its event.
    Granted(Event),
}

fn is_ahead(after: Option<u64>, version: u64) -> bool
    ensures { result ≡ is_ahead after version }
{
    match after {
        None => false,
        Some(after) => version < after,
    }
}

fn refused(why: Refusal) -> Proposal
    ensures { result ≡ Proposal.Told (Reply.Refused why) }
{
    Proposal::Told(Reply::Refused(why))
}

// A change that no process gives.
fn alone(change: Change) -> Proposal
    ensures { result ≡ Proposal.Change change None }
{
    Proposal::Change { change, by: None }
}

fn open_session(state: &State, user: Name) -> Proposal
    ensures answer { answer_by (state_of state.now) result ≡ or_refused (look_up state.now.graph user) (λ u. entered (state_of state.now) None (Change.OpenSession u)) }
    ensures work { (w : Work) → work_by_proposal w (state_of state.now) result ≡ count_on (look_up state.now.graph user) (λ u. work_entered w (state_of state.now) None (Change.OpenSession u)) }
    ensures possible { IsPossible (state_of state.now) result }
{
    state.given();
    let _version = state.version();
    match look_up(state.graph(), user) {
        Ok(user) => alone(Change::OpenSession { user }),
        Err(why) => refused(why),
    }
}

fn start_process(state: &State, session: u32) -> Proposal
    ensures answer { answer_by (state_of state.now) result ≡ entered (state_of state.now) None (Change.StartProcess session) }
    ensures work { (w : Work) → work_by_proposal w (state_of state.now) result ≡ work_entered w (state_of state.now) None (Change.StartProcess session) }
    ensures possible { IsPossible (state_of state.now) result }
{
    state.given();
    let _version = state.version();
    alone(Change::StartProcess { session })
}

// This and reviews stand by themselves: a function clears its locals at entry, and those of what is made a part of it, for which an
// access would pay.
#[inline(never)]
fn administer(state: &State, process: u32, command: &Command) -> Result<Proposal, Memory>
    ensures answer { IfOk result (λ p. answer_by (state_of state.now) p ≡ or_refused (acting state.now.graph process) (λ u. administered (state_of state.now) u process (ruling state.now.graph u (Some process) command.now))) }
    ensures work { (w : Work) → IfOk result (λ p. work_by_proposal w (state_of state.now) p ≡ count_on (acting state.now.graph process) (λ u. count_on (ruling state.now.graph u (Some process) command.now) (λ c. work_entered w (state_of state.now) (raised state.now.graph u process c) c))) }
    ensures possible { IfOk result (IsPossible (state_of state.now)) }
{
    let graph = state.graph();
    let user = match acting(graph, process) {
        Ok(user) => user,
        Err(why) => return Ok(refused(why)),
    };
    match permit(graph, user, Some(process), command) {
        Ok(change) => Ok(Proposal::Change {
            change,
            by: Some(Actor { user, process }),
        }),
        Err(ChangeError::Refused(why)) => Ok(refused(why)),
        Err(ChangeError::Memory) => Err(Memory),
    }
}

fn access(state: &State, process: u32, right: Name, target: Name) -> Proposal
    ensures answer { answer_by (state_of state.now) result ≡ or_refused (acting state.now.graph process) (λ u. answer_access (state_of state.now) u process right target) }
    ensures work { (w : Work) → work_by_proposal w (state_of state.now) result ≡ count_on (acting state.now.graph process) (λ u. count_on (accessed state.now.graph u process right target) (λ t. work_granted w (state_of state.now) (event u process right t))) }
    ensures possible { IsPossible (state_of state.now) result }
    ensures told { IsTold result }
    ensures value { result ≡ proposal_of (accessed_event state.now.graph process right target) }
{
    let graph = state.graph();
    let user = match acting(graph, process) {
        Ok(user) => user,
        Err(why) => return refused(why),
    };
    match authorise_access(graph, user, process, right, target) {
        Ok(target) => Proposal::Granted(Event {
            user,
            process,
            operation: right,
            target,
        }),
        Err(why) => refused(why),
    }
}

#[inline(never)]
fn review<R: Threads + Sync>(
    rt: &R,
    state: &State,
    process: u32,
    question: &Question,
) -> Result<Proposal, Memory>
    ensures answer { IfOk result (λ p. answer_by (state_of state.now) p ≡ or_refused (acting state.now.graph process) (λ u. answer_review (state_of state.now) u process question.now)) }
    ensures possible { IfOk result (IsPossible (state_of state.now)) }
    ensures told { IfOk result IsTold }
    ensures reply { IfOk result IsReply }
    ensures work { (w : Work) → IfOk result (λ p. work_by_proposal w (state_of state.now) p ≡ 0) }
{
    let graph = state.graph();
    let user = match acting(graph, process) {
        Ok(user) => user,
        Err(why) => return Ok(refused(why)),
    };
    match authorise_review(graph, user, process, question) {
        Ok(review) => Ok(Proposal::Told(answer(rt, state, review)?)),
        Err(ChangeError::Refused(why)) => Ok(refused(why)),
        Err(ChangeError::Memory) => Err(Memory),
    }
}

/// What the machine makes of a request. Its only error is want of memory: for the sets of a prohibition, a
/// response, or the lists of a review. A `survey` may start threads, which end within the call.
pub(crate) fn propose<R: Threads + Sync>(
    rt: &R,
    state: &State,
    request: &Request,
) -> Result<Proposal, Memory>
    ensures answer { IfOk result (λ p. answer_by (state_of state.now) p ≡ proposed (state_of state.now) request.now) }
    ensures work { (w : Work) → IfOk result (λ p. work_by_proposal w (state_of state.now) p ≡ work_by w (state_of state.now) request.now) }
    ensures possible { IfOk result (IsPossible (state_of state.now)) }
    ensures asked { only_asks request.now.body ≡ true → IfOk result IsTold }
    ensures free { asks_freely request.now.body ≡ true → IsOk result }
    ensures ahead { is_ahead request.now.after (length state.now.history) ≡ true → IfOk result (λ p. p ≡ Proposal.Told Reply.Ahead) }
    ensures reached { is_ahead request.now.after (length state.now.history) ≡ false → IfOk result (IsAskedFor state.now.graph request.now.body) }
{
    if is_ahead(request.after, state.version()) {
        return Ok(Proposal::Told(Reply::Ahead));
    }
    match &request.body {
        Body::Version => Ok(Proposal::Told(Reply::Done {
            fired: 0,
            shown: Shown::Nothing,
        })),
        Body::OpenSession { user } => Ok(open_session(state, *user)),
        Body::CloseSession { session } => Ok(alone(Change::CloseSession { session: *session })),
        Body::StartProcess { session } => Ok(start_process(state, *session)),
        Body::EndProcess { process } => Ok(alone(Change::EndProcess { process: *process })),
        Body::Access {
            process,
            right,
            target,
        } => Ok(access(state, *process, *right, *target)),
        Body::Admin { process, command } => administer(state, *process, command),
        Body::Review { process, question } => review(rt, state, *process, question),
    }
}
