//! The responses to an event, one action after another.

ghost use Rattle.std.specs.Prelude.{◌≡◌, ◌+◌, ◌<◌, ◌≤◌, ◌||◌, length, All, OnOk, OnErr, IfErr, IsOk, Ok};
ghost use Rattle.pm_model.specs.Obligations.{max_obligations};
ghost use Rattle.pm_runner.specs.Standing.{StandAt};
ghost use Rattle.pm_affect.specs.Counting.{Work, capped};
ghost use Rattle.pm_runner.specs.Turns.{IsTurn, IsDue, IsPartOf, IsPartway, acted_or_stopped, obliged, responded, work_acted_at, work_obliged, work_responded};
ghost use Rattle.pm_runner.specs.Outcomes.{IsStop, MayBeDone, run_wants_memory};

use crate::acts::Acts;
use crate::errors::{ActError, RunError};
use crate::matched::PositionList;
use pm_model::{Obligation, Place};
use pm_oblig::Obligations;

/// Has the action at the place done, which is one of this obligation.
fn act_at<A: Acts>(acts: &mut A, obligation: &Obligation, place: Place) -> Result<(), RunError>
    requires { IsTurn (A.occasion acts.old) (A.graph acts.old) place }
    ensures ok { OnOk result (acted_or_stopped (A.occasion acts.old) (A.graph acts.old) place obligation.now ≡ Ok (A.graph acts.new)) }
    ensures stopped { IfErr result (IsStop (acted_or_stopped (A.occasion acts.old) (A.graph acts.old) place obligation.now)) }
    ensures same { A.occasion acts.new ≡ A.occasion acts.old }
    ensures history { A.history acts.new ≡ A.history acts.old }
    ensures done { (w : Work) → OnOk result (capped (A.done acts.new w) ≡ capped (A.done acts.old w + work_acted_at w (A.occasion acts.old) (A.graph acts.old) place)) }
    ensures short { A.short acts.new ≡ (A.short acts.old || run_wants_memory result) }
    ensures err { OnErr result (MayBeDone (A.graph acts.old) (A.graph acts.new) (acted_or_stopped (A.occasion acts.old) (A.graph acts.old) place obligation.now)) }
{
    match acts.act(place) {
        Ok(()) => Ok(()),
        Err(ActError::Refused(why)) => Err(RunError::ResponseRefused {
            obligation: obligation.name,
            action: place.action,
            why,
        }),
        Err(ActError::Memory) => Err(RunError::Memory),
    }
}

/// Has the actions of the obligation done, which stands at this place, from 0, among those that match.
fn run_obligation<A: Acts>(
    acts: &mut A,
    obligation: &Obligation,
    index: u32,
) -> Result<(), RunError>
    requires few { index < max_obligations }
    requires due { IsDue (A.occasion acts.old) (A.graph acts.old) index obligation.now }
    ensures ok { OnOk result (obliged (A.occasion acts.old) obligation.now (index + 1) (A.graph acts.old) obligation.now.response ≡ Ok (A.graph acts.new)) }
    ensures stopped { IfErr result (IsStop (obliged (A.occasion acts.old) obligation.now (index + 1) (A.graph acts.old) obligation.now.response)) }
    ensures same { A.occasion acts.new ≡ A.occasion acts.old }
    ensures history { A.history acts.new ≡ A.history acts.old }
    ensures done { (w : Work) → OnOk result (capped (A.done acts.new w) ≡ capped (A.done acts.old w + work_obliged w (A.occasion acts.old) obligation.now (index + 1) (A.graph acts.old) obligation.now.response)) }
    ensures short { A.short acts.new ≡ (A.short acts.old || run_wants_memory result) }
    ensures err { OnErr result (IsPartOf (A.occasion acts.old) obligation.now index (A.graph acts.old) (A.graph acts.new)) }
{
    let actions = obligation.response.actions();
    for i in 0..actions.len() as u32 {
        let place = Place {
            obligation: index + 1,
            action: i + 1,
        };
        act_at(acts, obligation, place)?;
    }
    Ok(())
}

/// Runs the responses of the obligations at these places, each action in its order, and stops at the first that is
/// refused or finds no memory: those before it have been done then, and none behind it. So after an error the graph is
/// what the first actions, in order, have made of it, and no others.
///
/// It takes no memory of its own: it finds none only where an action did.
pub fn run_responses<A: Acts>(
    acts: &mut A,
    obligations: &Obligations,
    places: &PositionList,
) -> Result<(), RunError>
    requires places { StandAt obligations.now.items places.now (A.occasion acts.old).obligations }
    requires below { All (λ place. place < length obligations.now.items) places.now }
    requires few { length places.now ≤ max_obligations }
    ensures ok { OnOk result (responded (A.occasion acts.old) (A.graph acts.old) ≡ Ok (A.graph acts.new)) }
    ensures stopped { IfErr result (IsStop (responded (A.occasion acts.old) (A.graph acts.old))) }
    ensures same { A.occasion acts.new ≡ A.occasion acts.old }
    ensures history { A.history acts.new ≡ A.history acts.old }
    ensures done { (w : Work) → OnOk result (capped (A.done acts.new w) ≡ capped (A.done acts.old w + work_responded w (A.occasion acts.old) (A.graph acts.old))) }
    ensures short { A.short acts.new ≡ (A.short acts.old || run_wants_memory result) }
    ensures err { OnErr result (IsPartway (A.occasion acts.old) (A.graph acts.old) (A.graph acts.new)) }
    ensures none { length places.now ≡ 0 → IsOk result }
{
    for i in 0..places.len() as u32 {
        let place = *places.at(i as usize);
        run_obligation(acts, obligations.at(place as usize), i)?;
    }
    Ok(())
}
