//! Entries that are made in a draft, and are the next state or nothing: those to which obligations respond, and those that may
//! touch a kept review.
ghost use Rattle.std.specs.Prelude.{◌≡◌, ◌≤◌, ◌<◌, ◌+◌, [], length, nat_lt, None, Some, Result, Ok, All, IfOk, IfErr, IfSome, true};
ghost use Rattle.pm_model.specs.Answer.{entered, granted, proposed, responded, settled, told};
ghost use Rattle.pm_model.specs.Events.{names_in, obliging, responders};
ghost use Rattle.pm_model.specs.Formed.{IsNamed};
ghost use Rattle.pm_model.specs.History.{state_of};
ghost use Rattle.pm_model.specs.LastChanges.{with_changes};
ghost use Rattle.pm_model.specs.Obligations.{max_obligations};
ghost use Rattle.pm_model.specs.Responses.{Stopped, responses};
ghost use Rattle.pm_affect.specs.Counting.{Work, capped, work_by, work_entered, work_for, work_granted, work_in, work_responded, work_responses};
ghost use Rattle.pm_runner.specs.Outcomes.{IsStop};
ghost use Rattle.pm_pattern.specs.Live.{IsEventLive};
ghost use Rattle.pm_state.specs.Containing.{relation_in};
ghost use Rattle.pm_state.specs.Drafted.{done_in};
ghost use Rattle.pm_runner.specs.Standing.{StandAt, without};
ghost use Rattle.pm_step.specs.Steps.{IsStepFrom};
ghost use Rattle.pm_step.specs.Proposed.{event_by, IsActorLive};
ghost use Rattle.pm_step.specs.Responders.{AreResponders, items_at, withdrawn};

use crate::proposals::Actor;
use crate::replies::done;
use crate::responding::respond;
use crate::settling::settle_reviews;
use pm_admin::{names_in, patterns_live, raised};
use pm_history::HistoryError;
use pm_machine::Stepped;
use pm_model::{Change, ChangeError, Entry, Event, Memory, Refusal, Reply, Table};
use pm_runner::{PositionList, RunError, any_matches, matching, matching_without};
use pm_state::{Draft, Graph, State};

/// Whether some obligation matches the event. It takes no memory.
pub(crate) fn any_responds(graph: &Graph, event: &Event) -> bool
    requires { IsEventLive (relation_in graph.now) event.now }
    ensures { result ≡ nat_lt 0 (length (responders graph.now graph.now.obligations (Some event.now))) }
{
    patterns_live(graph);
    let mut reach = graph.reach();
    any_matches(graph.obligations(), event, &mut reach)
}

// The event that the change raises, where some user gives it.
fn event_of(graph: &Graph, by: Option<Actor>, change: &Change) -> Option<Event>
    requires named { IsNamed graph.now change.now }
    requires by { IsActorLive graph.now by }
    ensures value { result ≡ event_by graph.now by change.now }
    ensures live { IfSome result (IsEventLive (relation_in graph.now)) }
{
    match by {
        None => None,
        Some(by) => raised(graph, by.user, by.process, change),
    }
}

/// The event of the change, where some obligation matches it. It takes no memory, and where there are no
/// obligations no event is made.
pub(crate) fn awaited(graph: &Graph, by: Option<Actor>, change: &Change) -> Option<Event>
    requires named { IsNamed graph.now change.now }
    requires by { IsActorLive graph.now by }
    ensures none { result ≡ None → responders graph.now (obliging graph.now change.now) (event_by graph.now by change.now) ≡ [] }
    ensures some { IfSome result (λ e. event_by graph.now by change.now ≡ Some e) }
    ensures live { IfSome result (IsEventLive (relation_in graph.now)) }
{
    if graph.obligations().len() == 0 {
        return None;
    }
    let event = event_of(graph, by, change)?;
    if any_responds(graph, &event) {
        return Some(event);
    }
    None
}

// The place of the obligation that the change takes away.
fn withdrawn(change: &Change) -> Option<u32>
    ensures { result ≡ withdrawn change.now }
{
    match change {
        Change::Withdraw { index } => Some(*index),
        _ => None,
    }
}

// The places of those that respond to the event, of which one may be left out.
fn places_of(graph: &Graph, event: &Event, left_out: Option<u32>) -> Result<PositionList, Memory>
    requires { IsEventLive (relation_in graph.now) event.now }
    ensures places { IfOk result (λ places. StandAt graph.now.obligations places (responders graph.now (without left_out graph.now.obligations) (Some event.now))) }
    ensures below { IfOk result (λ places. All (λ place. place < length graph.now.obligations) places) }
    ensures few { IfOk result (λ places. length places ≤ max_obligations) }
{
    patterns_live(graph);
    let alloc = graph.classes().allocator();
    let mut reach = graph.reach();
    match left_out {
        None => matching(alloc, graph.obligations(), event, &mut reach),
        Some(index) => matching_without(alloc, graph.obligations(), event, &mut reach, index),
    }
}

// The draft as the next state, with the last changes of its kept reviews; or a full history.
fn finish(
    state: &State,
    mut draft: Draft,
    reply: Reply,
    entry: Entry,
) -> Result<Stepped<State>, Memory>
    requires history { draft.history ≡ state.now.history }
    requires asked { proposed (state_of state.now) entry.request ≡ record { reply = reply; next = Some (record { graph = with_changes state.now.graph (length state.now.history + 1) draft.graph; version = length state.now.history + 1 }) } }
    requires done { (w : Work) → capped (done_in draft w) ≡ capped (work_in w state.now.history + work_by w (state_of state.now) entry.request) }
    ensures { IfOk result (IsStepFrom state.now entry) }
{
    state.replayed();
    settle_reviews(state, &mut draft, state.version() + 1)?;
    match draft.finish(entry) {
        Ok(next) => Ok(Stepped::Accepted(next, reply)),
        Err(HistoryError::Full) => {
            let why = Refusal::Full(Table::History);
            Ok(Stepped::Answered(Reply::Refused(why)))
        }
        Err(HistoryError::Memory) => Err(Memory),
    }
}

// The draft once the obligations at these places have responded to the event.
fn run_in(
    graph: &Graph,
    draft: Draft,
    event: &Event,
    places: &PositionList,
    version: u64,
) -> Result<Draft, RunError>
    requires standing { AreResponders graph.now.obligations places.now draft.graph }
    requires few { length places.now ≤ max_obligations }
    requires live { IsEventLive (relation_in graph.now) event.now }
    ensures ok { IfOk result (λ d. responses (names_in graph.now event.now) version draft.graph (items_at graph.now.obligations places.now) ≡ Ok d.graph) }
    ensures history { IfOk result (λ d. d.history ≡ draft.history) }
    ensures done { (w : Work) → IfOk result (λ d. capped (done_in d w) ≡ capped (done_in draft w + work_responses w (names_in graph.now event.now) version draft.graph (items_at graph.now.obligations places.now))) }
    ensures stopped { IfErr result (IsStop (responses (names_in graph.now event.now) version draft.graph (items_at graph.now.obligations places.now))) }
{
    let obligations = graph.obligations();
    respond(draft, obligations, places, names_in(graph, event), version)
}

// What is told of a response that stopped.
fn stopped(error: RunError) -> Result<Reply, Memory>
    ensures { (M : State) (done : Reply) (came : Result Graph Stopped) → IsStop came error → IfOk result (λ reply. settled (state_of M) done came ≡ told reply) }
{
    match error {
        RunError::ResponseRefused {
            obligation,
            action,
            why,
        } => Ok(Reply::ResponseRefused {
            obligation,
            action,
            why,
        }),
        RunError::Memory => Err(Memory),
    }
}

// Runs the responses of the obligations at these places in the draft, and enters it.
fn settle(
    state: &State,
    draft: Draft,
    event: &Event,
    places: &PositionList,
    reply: Reply,
    entry: Entry,
) -> Result<Stepped<State>, Memory>
    requires history { draft.history ≡ state.now.history }
    requires standing { AreResponders state.now.graph.obligations places.now draft.graph }
    requires few { length places.now ≤ max_obligations }
    requires live { IsEventLive (relation_in state.now.graph) event.now }
    requires asked { proposed (state_of state.now) entry.request ≡ settled (state_of state.now) reply (responded (state_of state.now) (Some event.now) (items_at state.now.graph.obligations places.now) draft.graph) }
    requires done { (w : Work) → capped (done_in draft w + work_responded w (state_of state.now) (Some event.now) (items_at state.now.graph.obligations places.now) draft.graph) ≡ capped (work_in w state.now.history + work_by w (state_of state.now) entry.request) }
    ensures { IfOk result (IsStepFrom state.now entry) }
{
    let version = state.version() + 1;
    match run_in(state.graph(), draft, event, places, version) {
        Ok(draft) => finish(state, draft, reply, entry),
        Err(error) => Ok(Stepped::Answered(stopped(error)?)),
    }
}

/// The step by a request that comes to this change, to which nothing responds. The state stays.
pub(crate) fn enter_in_draft(
    state: &State,
    change: &Change,
    entry: Entry,
) -> Result<Stepped<State>, Memory>
    requires named { IsNamed state.now.graph change.now }
    requires asked { proposed (state_of state.now) entry.request ≡ entered (state_of state.now) None change.now }
    requires work { (w : Work) → work_by w (state_of state.now) entry.request ≡ work_for w state.now.graph change.now }
    ensures { IfOk result (IsStepFrom state.now entry) }
{
    let mut draft = state.draft()?;
    match draft.change(change) {
        Ok(made) => finish(state, draft, done(0, made), entry),
        Err(ChangeError::Refused(why)) => Ok(Stepped::Answered(Reply::Refused(why))),
        Err(ChangeError::Memory) => Err(Memory),
    }
}

/// The step by a request that comes to this change, and raises this event: obligations that match it
/// respond, but for the one that the change withdraws. The state stays.
pub(crate) fn respond_to_change(
    state: &State,
    change: &Change,
    event: &Event,
    entry: Entry,
) -> Result<Stepped<State>, Memory>
    requires named { IsNamed state.now.graph change.now }
    requires live { IsEventLive (relation_in state.now.graph) event.now }
    requires asked { proposed (state_of state.now) entry.request ≡ entered (state_of state.now) (Some event.now) change.now }
    requires work { (w : Work) → work_by w (state_of state.now) entry.request ≡ work_entered w (state_of state.now) (Some event.now) change.now }
    ensures { IfOk result (IsStepFrom state.now entry) }
{
    let places = places_of(state.graph(), event, withdrawn(change))?;
    let mut draft = state.draft()?;
    let made = match draft.change(change) {
        Ok(made) => made,
        Err(ChangeError::Refused(why)) => return Ok(Stepped::Answered(Reply::Refused(why))),
        Err(ChangeError::Memory) => return Err(Memory),
    };
    let reply = done(places.len() as u32, made);
    settle(state, draft, event, &places, reply, entry)
}

/// The step by a request whose access is granted, and to which some obligation responds. The state stays.
pub(crate) fn respond_to_access(
    state: &State,
    event: &Event,
    entry: Entry,
) -> Result<Stepped<State>, Memory>
    requires live { IsEventLive (relation_in state.now.graph) event.now }
    requires some { nat_lt 0 (length (responders state.now.graph state.now.graph.obligations (Some event.now))) ≡ true }
    requires asked { proposed (state_of state.now) entry.request ≡ granted (state_of state.now) event.now }
    requires work { (w : Work) → work_by w (state_of state.now) entry.request ≡ work_granted w (state_of state.now) event.now }
    ensures { IfOk result (IsStepFrom state.now entry) }
{
    let places = places_of(state.graph(), event, None)?;
    let draft = state.draft()?;
    let fired = places.len() as u32;
    settle(
        state,
        draft,
        event,
        &places,
        Reply::Granted { fired },
        entry,
    )
}
