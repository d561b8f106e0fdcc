//! Requests that are answered by a look at a state alone.
ghost use Rattle.std.specs.Prelude.{◌≡◌, length, nat_lt, if◌then◌else◌, Some, IfOk, IsOk, true};
ghost use Rattle.pm_model.specs.Events.{responders};
ghost use Rattle.pm_model.specs.History.{state_of};
ghost use Rattle.pm_pattern.specs.Live.{IsEventLive};
ghost use Rattle.pm_state.specs.Containing.{relation_in};
ghost use Rattle.pm_machine.specs.Asking.{asks_freely};
ghost use Rattle.pm_step.specs.Asking.{only_asks};
ghost use Rattle.pm_machine.specs.Glances.{IsGlanced};

use crate::entries::any_responds;
use crate::proposals::{Proposal, propose};
use pm_machine::Glance;
use pm_model::{Body, Event, Memory, Reply, Request};
use pm_state::State;
use std::thread::Threads;

fn only_asks(body: &Body) -> bool
    ensures { result ≡ only_asks body.now }
{
    matches!(
        body,
        Body::Version | Body::Access { .. } | Body::Review { .. }
    )
}

// An access that is granted: the desk's, where some obligation responds to it.
fn at_grant(state: &State, event: &Event) -> Glance
    requires { IsEventLive (relation_in state.now.graph) event.now }
    ensures { result ≡ (if nat_lt 0 (length (responders state.now.graph state.now.graph.obligations (Some event.now))) then Glance.NeedsDesk else Glance.Answer (Reply.Granted 0)) }
{
    if any_responds(state.graph(), event) {
        return Glance::NeedsDesk;
    }
    Glance::Answer(Reply::Granted { fired: 0 })
}

/// What a request comes to in this state, which stays. It needs the desk exactly where it is a command, of
/// sessions and processes too, or an access that is granted, whose `after` isn't above the version, and to
/// which some obligation responds. Else it gets the machine's reply. `version` and an access take no memory. A
/// `survey` may start threads, which end within the call.
#[tactic(auto, using(crate::proofs::Glancing::desk_needed, crate::proofs::Glancing::told_glanced, crate::proofs::Glancing::granted_glanced))]
pub fn glance<R: Threads + Sync>(rt: &R, state: &State, request: &Request) -> Result<Glance, Memory>
    ensures ok { IfOk result (IsGlanced (state_of state.now) request.now) }
    ensures free { asks_freely request.now.body ≡ true → IsOk result }
{
    if !only_asks(&request.body) {
        return Ok(Glance::NeedsDesk);
    }
    match propose(rt, state, request) {
        Ok(Proposal::Told(reply)) => Ok(Glance::Answer(reply)),
        Ok(Proposal::Granted(event)) => Ok(at_grant(state, &event)),
        Ok(
            Proposal::Change {
                change: _change,
                by: _by,
            },
        ) => Ok(Glance::NeedsDesk),
        Err(Memory) => Err(Memory),
    }
}
