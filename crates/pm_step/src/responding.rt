//! The responses of obligations, run in a draft.
ghost use Rattle.std.specs.Prelude.{◌≡◌, ◌+◌, ◌≤◌, length, Ok, OnOk, IfOk, IfErr};
ghost use Rattle.pm_model.specs.Formed.{IsUser};
ghost use Rattle.pm_model.specs.Obligations.{max_obligations};
ghost use Rattle.pm_model.specs.Responses.{acted, commanded, responses};
ghost use Rattle.pm_affect.specs.Counting.{Work, capped, work_acted, work_commanded, work_responses};
ghost use Rattle.pm_runner.specs.Outcomes.{IsLeft, IsRefusal, IsStop, wants_memory};
ghost use Rattle.pm_state.specs.Drafted.{done_in};
ghost use Rattle.pm_step.specs.Responders.{AreResponders, items_at};

use pm_admin::{all_hold, permit};
use pm_model::{Action, ChangeError, Command, ElementId, EventNames, Memory, Place};
use pm_oblig::{Obligations, bind, fresh_name};
use pm_runner::{ActError, Acts, PositionList, RunError, run_responses};
use pm_state::Draft;
use std::marker::Model;

/// Has the command done, where the user may give it. No process gives it. After want of memory it may be done.
fn give(draft: &mut Draft, author: ElementId, command: &Command) -> Result<(), ActError>
    requires { IsUser draft.old.graph.elements author }
    ensures ok { OnOk result (commanded draft.old.graph author command.now ≡ Ok draft.new.graph) }
    ensures refused { IfErr result (IsRefusal (commanded draft.old.graph author command.now)) }
    ensures err { IfErr result (IsLeft draft.old.graph draft.new.graph (commanded draft.old.graph author command.now)) }
    ensures history { draft.new.history ≡ draft.old.history }
    ensures done { (w : Work) → OnOk result (done_in draft.new w ≡ capped (done_in draft.old w + work_commanded w draft.old.graph author command.now)) }
{
    let change = match permit(draft.graph(), author, None, command) {
        Ok(change) => change,
        Err(ChangeError::Refused(why)) => return Err(ActError::Refused(why)),
        Err(ChangeError::Memory) => return Err(ActError::Memory),
    };
    match draft.change(&change) {
        Ok(_) => Ok(()),
        Err(ChangeError::Refused(why)) => Err(ActError::Refused(why)),
        Err(ChangeError::Memory) => Err(ActError::Memory),
    }
}

/// Has the action done by the author's authority, where its guards hold.
fn act_by(
    draft: &mut Draft,
    author: ElementId,
    action: &Action,
    names: &EventNames,
    version: u64,
    place: Place,
) -> Result<(), ActError>
    requires { IsUser draft.old.graph.elements author }
    ensures ok { OnOk result (acted names.now version draft.old.graph author place action.now ≡ Ok draft.new.graph) }
    ensures refused { IfErr result (IsRefusal (acted names.now version draft.old.graph author place action.now)) }
    ensures err { IfErr result (IsLeft draft.old.graph draft.new.graph (acted names.now version draft.old.graph author place action.now)) }
    ensures history { draft.new.history ≡ draft.old.history }
    ensures done { (w : Work) → OnOk result (capped (done_in draft.new w) ≡ capped (done_in draft.old w + work_acted w names.now version draft.old.graph author place action.now)) }
{
    let fresh = fresh_name(place, version);
    match all_hold(draft.graph(), names, fresh, action.guards.as_slice()) {
        Ok(true) => {}
        Ok(false) => return Ok(()),
        Err(why) => return Err(ActError::Refused(why)),
    }
    match bind(action, names, place, version) {
        Ok(command) => give(draft, author, &command),
        Err(Memory) => Err(ActError::Memory),
    }
}

fn wants_memory(done: &Result<(), ActError>) -> bool
    ensures { result ≡ wants_memory done.now }
{
    matches!(done, Err(ActError::Memory))
}

/// A draft in which the obligations at these places respond. They stand in its graph, since no action
/// withdraws one: so each author is a live user. Contracts see what they respond to, and the draft.
struct Responding<'a> {
    draft: Draft,
    obligations: &'a Obligations,
    places: &'a PositionList,
    /// What the event's user and target were called before the request.
    names: EventNames,
    /// The version that the entry will have.
    version: u64,
    /// Whether memory was wanting for an action.
    short: bool,
}

impl<'a> Drop for Responding<'a> {
    fn drop(self) {
        let Responding {
            draft: _,
            obligations: _,
            places: _,
            names: _,
            version: _,
            short: _,
        } = self;
    }
}

impl<'a> Model for Responding<'a> {
    ghost use Rattle.pm_step.specs.Responders.{Underway, AreResponders, items_at};

    ghost Value = { Underway };

    ghost view = { λ s. record { occasion = record { names = s.names; version = s.version; obligations = items_at s.obligations.now.items s.places.now }; draft = s.draft; short = s.short } };

    ghost invariant = { λ s. AreResponders s.obligations.now.items s.places.now s.draft.graph };
}

impl<'a> Responding<'a> {
    fn into_draft(self) -> Draft
        ensures { result ≡ self.entry.draft }
    {
        let Responding {
            draft,
            obligations: _,
            places: _,
            names: _,
            version: _,
            short: _,
        } = self;
        draft
    }
}

impl<'a> Acts for Responding<'a> {
    ghost use Rattle.pm_state.specs.Drafted.{done_in};

    ghost occasion = { λ s. s.occasion };

    ghost graph = { λ s. s.draft.graph };

    ghost history = { λ s. s.draft.history };

    ghost done = { λ s. done_in s.draft };

    ghost short = { λ s. s.short };

    fn act(&mut self, place: Place) -> Result<(), ActError> {
        self.draft.graph().formed();
        let at = *self.places.at(place.obligation as usize - 1);
        let obligation = self.obligations.at(at as usize);
        let actions = obligation.response.actions();
        let action = actions.at(place.action as usize - 1);
        let done = act_by(
            &mut self.draft,
            obligation.author,
            action,
            &self.names,
            self.version,
            place,
        );
        self.short = self.short || wants_memory(&done);
        done
    }
}

/// The draft once the obligations at these places have responded to an event of these names, by an entry
/// that will have this version.
pub(crate) fn respond(
    draft: Draft,
    obligations: &Obligations,
    places: &PositionList,
    names: EventNames,
    version: u64,
) -> Result<Draft, RunError>
    requires standing { AreResponders obligations.now.items places.now draft.graph }
    requires few { length places.now ≤ max_obligations }
    ensures ok { IfOk result (λ d. responses names version draft.graph (items_at obligations.now.items places.now) ≡ Ok d.graph) }
    ensures history { IfOk result (λ d. d.history ≡ draft.history) }
    ensures done { (w : Work) → IfOk result (λ d. capped (done_in d w) ≡ capped (done_in draft w + work_responses w names version draft.graph (items_at obligations.now.items places.now))) }
    ensures stopped { IfErr result (IsStop (responses names version draft.graph (items_at obligations.now.items places.now))) }
{
    let mut acts = Responding {
        draft,
        obligations,
        places,
        names,
        version,
        short: false,
    };
    match run_responses(&mut acts, obligations, places) {
        Ok(()) => Ok(acts.into_draft()),
        Err(error) => Err(error),
    }
}
