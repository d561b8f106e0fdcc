//! Whether a line can ask for the actions of a response.

ghost use Rattle.std.specs.Prelude.{◌≤◌, IsTrue, length};
ghost use Rattle.pm_model.specs.Formed.{Each};
ghost use Rattle.pm_print.specs.Askable.{AreActions, AreBars, AreRights, IsAct, IsAction, IsGiven, IsGuard, IsProcessTerm, IsSubject, IsTerm};

use crate::askable::{are_few, are_rights, is_contained, is_named, is_short};
use pm_model::{Act, Action, Guard, NameList, ProcessTerm, Response, Subject, Term, TermList};

const MOST_GUARDS: usize = 4;

fn is_term(term: &Term) -> bool
    ensures only { IsTrue result → IsTerm term.now }
    ensures all { IsTerm term.now → IsTrue result }
{
    match term {
        Term::Named(name) => is_named(name),
        Term::EventUser | Term::EventTarget => true,
        Term::Fresh => false,
    }
}

fn both_terms(one: &Term, other: &Term) -> bool
    ensures only { IsTrue result → IsTerm one.now × IsTerm other.now }
    ensures all { IsTerm one.now × IsTerm other.now → IsTrue result }
{
    is_term(one) && is_term(other)
}

fn are_terms(terms: &[Term]) -> bool
    ensures only { IsTrue result → Each IsTerm terms.now }
    ensures all { Each IsTerm terms.now → IsTrue result }
{
    for i in 0..terms.len() {
        if !is_term(&terms[i]) {
            return false;
        }
    }
    true
}

// What may be given to what is made.
fn is_given(term: &Term) -> bool
    ensures only { IsTrue result → IsGiven term.now }
    ensures all { IsGiven term.now → IsTrue result }
{
    match term {
        Term::Named(name) => is_named(name),
        Term::Fresh => true,
        Term::EventUser | Term::EventTarget => false,
    }
}

fn is_process(term: &ProcessTerm) -> bool
    ensures only { IsTrue result → IsProcessTerm term.now }
    ensures all { IsProcessTerm term.now → IsTrue result }
{
    match term {
        ProcessTerm::Number(n) => is_short(*n),
        ProcessTerm::EventProcess => true,
    }
}

fn is_subject(subject: &Subject<Term, ProcessTerm>) -> bool
    ensures only { IsTrue result → IsSubject IsTerm IsProcessTerm subject.now }
    ensures all { IsSubject IsTerm IsProcessTerm subject.now → IsTrue result }
{
    match subject {
        Subject::User(term) => is_term(term),
        Subject::Ua(term) => is_term(term),
        Subject::Process(process) => is_process(process),
    }
}

fn is_guard(guard: &Guard) -> bool
    ensures only { IsTrue result → IsGuard guard.now }
    ensures all { IsGuard guard.now → IsTrue result }
{
    both_terms(&guard.inner, &guard.outer)
}

fn are_guards(guards: &[Guard]) -> bool
    ensures only { IsTrue result → Each IsGuard guards.now }
    ensures all { Each IsGuard guards.now → IsTrue result }
{
    for i in 0..guards.len() {
        if !is_guard(&guards[i]) {
            return false;
        }
    }
    true
}

fn are_bars(
    name: &Term,
    subject: &Subject<Term, ProcessTerm>,
    rights: &NameList,
    inc: &TermList,
    exc: &TermList,
) -> bool
    ensures only { IsTrue result → AreBars AreRights name.now subject.now rights.now inc.now exc.now }
    ensures all { AreBars AreRights name.now subject.now rights.now inc.now exc.now → IsTrue result }
{
    is_given(name)
        && is_subject(subject)
        && are_rights(rights)
        && are_terms(inc.as_slice())
        && are_terms(exc.as_slice())
        && are_few(inc.len(), exc.len())
}

fn is_act(act: &Act) -> bool
    ensures only { IsTrue result → IsAct AreRights act.now }
    ensures all { IsAct AreRights act.now → IsTrue result }
{
    match act {
        Act::Create { kind, name, into } => {
            is_contained(*kind) && is_given(name) && is_term(into)
        }
        Act::Delete { name } => is_term(name),
        Act::Assign { from, to } => both_terms(from, to),
        Act::Deassign { from, to } => both_terms(from, to),
        Act::Associate { ua, rights, at } => are_rights(rights) && both_terms(ua, at),
        Act::Dissociate { ua, at } => both_terms(ua, at),
        Act::Prohibit {
            name,
            subject,
            rights,
            inc,
            exc,
            mode: _,
        } => are_bars(name, subject, rights, inc, exc),
        Act::Lift { name } => is_named(name),
    }
}

fn is_action(action: &Action) -> bool
    ensures only { IsTrue result → IsAction AreRights action.now }
    ensures all { IsAction AreRights action.now → IsTrue result }
{
    action.guards.len() <= MOST_GUARDS
        && are_guards(action.guards.as_slice())
        && is_act(&action.act)
}

fn each_action(actions: &[Action]) -> bool
    ensures only { IsTrue result → Each (IsAction AreRights) actions.now }
    ensures all { Each (IsAction AreRights) actions.now → IsTrue result }
{
    for i in 0..actions.len() {
        if !is_action(&actions[i]) {
            return false;
        }
    }
    true
}

/// Whether a line can give the response.
#[tactic(auto, using(crate::proofs::ItemByItem::response_fits))]
pub(crate) fn are_actions(response: &Response) -> bool
    ensures only { IsTrue result → AreActions response.now }
    ensures all { AreActions response.now → IsTrue result }
{
    let actions = response.actions();
    each_action(actions.as_slice())
}
