ghost use Rattle.std.specs.Prelude.{◌≡◌, ◌∷◌, [], IfOk};
ghost use Rattle.pm_runner.specs.Worked.{passed_by, obligation_of, occasion_of};

use super::*;
use pm_runner::{ActError, Acts, PositionList, run_responses};

/// A machine on which each action is passed by. It notes the places that it is asked for, and whether memory was
/// wanting for one.
#[derive(Drop)]
struct Noting {
    first: Name,
    second: Name,
    asked: Vec<Place>,
    short: bool,
}

impl Acts for Noting {
    ghost use Rattle.std.specs.Prelude.{[]};
    ghost use Rattle.pm_model.specs.State.{opening_graph};
    ghost use Rattle.pm_runner.specs.Worked.{occasion_of};

    ghost occasion = { λ s. occasion_of s.first s.second };

    ghost graph = { λ s. opening_graph };

    ghost history = { λ s. [] };

    ghost done = { λ s w. 0 };

    ghost short = { λ s. s.short };

    #[tactic(auto, using(crate::proofs::WorkedTurns::passed_by, crate::proofs::WorkedTurns::none_done, crate::proofs::WorkedTurns::still_short, crate::proofs::WorkedTurns::now_short))]
    fn act(&mut self, place: Place) -> Result<(), ActError> {
        if self.asked.push(place).is_err() {
            self.short = true;
            return Err(ActError::Memory);
        }
        Ok(())
    }
}

/// An action that is passed by, since no user is out of itself.
fn passed_by(alloc: Global) -> Result<Action, Memory>
    ensures { IfOk result (λ action. action ≡ passed_by) }
{
    let mut guards = GuardList::new(alloc);
    guards.push(Guard {
        within: false,
        inner: Term::EventUser,
        outer: Term::EventUser,
    })?;
    Ok(Action {
        guards,
        act: Act::Delete {
            name: Term::EventUser,
        },
    })
}

fn response(alloc: Global) -> Result<Response, Fail>
    ensures { IfOk result (λ response. response ≡ passed_by ∷ passed_by ∷ []) }
{
    let mut actions = ActionList::new(alloc);
    actions.push(passed_by(alloc)?)?;
    actions.push(passed_by(alloc)?)?;
    match Response::new(actions) {
        Ok(response) => Ok(response),
        Err(_) => Err("a response".into()),
    }
}

pub(super) fn obligation_of(alloc: Global, name: Name) -> Result<Obligation, Fail>
    ensures { IfOk result (λ obligation. obligation ≡ obligation_of name) }
{
    let response = response(alloc)?;
    Ok(Obligation {
        name,
        author: ElementId(2),
        pattern: Pattern {
            on: name,
            user: None,
            target: None,
        },
        response,
    })
}

fn two(alloc: Global, first: Name, second: Name) -> Result<Obligations, Fail>
    ensures { IfOk result (λ list. list.items ≡ (occasion_of first second).obligations) }
{
    let mut list = Obligations::new(alloc);
    list.oblige(obligation_of(alloc, first)?)?;
    list.oblige(obligation_of(alloc, second)?)?;
    Ok(list)
}

fn two_places(alloc: Global) -> Result<PositionList, Memory>
    ensures { IfOk result (λ places. places ≡ 0 ∷ 1 ∷ []) }
{
    let mut places = PositionList::new(alloc);
    places.push(0)?;
    places.push(1)?;
    Ok(places)
}

fn place(obligation: u32, action: u32) -> Place {
    Place { obligation, action }
}

#[test]
fn all_are_done_in_order(rt: HostRuntime) -> Result<(), Fail> {
    let mut noting = Noting {
        first: named(&rt, "first"),
        second: named(&rt, "second"),
        asked: Vec::new(rt.alloc()),
        short: false,
    };
    let obligations = two(rt.alloc(), noting.first, noting.second)?;
    let places = two_places(rt.alloc())?;
    assert!(rt; run_responses(&mut noting, &obligations, &places).is_ok());
    let want = [place(1, 1), place(1, 2), place(2, 1), place(2, 2)];
    assert_eq!(rt; noting.asked.as_slice(), want.as_slice());
    Ok(())
}
