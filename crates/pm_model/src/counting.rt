//! How many names an action holds, for the limit of a response. The counts are `u128`, since a sum of lengths may
//! have no room in `usize`.

ghost use Rattle.std.specs.Prelude.{◌≡◌, ◌<◌, ◌≤◌, ◌^◌, length};
ghost use Rattle.pm_model.specs.Actions.{max_actions, names_in_subject, names_in_act, names_in_action, names_in_actions};

use crate::actions::{Act, Action, ProcessTerm, Term};
use crate::prohibitions::Subject;

fn names_in_subject(subject: &Subject<Term, ProcessTerm>) -> u128
    ensures names { result ≡ names_in_subject subject.now }
    ensures few { result ≤ 1 }
{
    match subject {
        Subject::Process(ProcessTerm::Number(_)) => 0,
        _ => 1,
    }
}

fn names_in_act(act: &Act) -> u128
    ensures names { result ≡ names_in_act act.now }
    ensures few { result < 2 ^ 70 }
{
    match act {
        Act::Create { .. } | Act::Assign { .. } | Act::Deassign { .. } | Act::Dissociate { .. } =>
            2,
        Act::Delete { .. } | Act::Lift { .. } => 1,
        Act::Associate { rights, .. } => 2 + rights.len() as u128,
        Act::Prohibit {
            subject,
            rights,
            inc,
            exc,
            ..
        } => {
            let listed = rights.len() as u128 + inc.len() as u128 + exc.len() as u128;
            1 + names_in_subject(subject) + listed
        }
    }
}

fn names_in_action(action: &Action) -> u128
    ensures names { result ≡ names_in_action action.now }
    ensures few { result < 2 ^ 71 }
{
    2 * action.guards.len() as u128 + names_in_act(&action.act)
}

pub(crate) fn names_in_actions(actions: &[Action]) -> u128
    requires { length actions.now ≤ max_actions }
    ensures { result ≡ names_in_actions actions.now }
{
    let mut names = 0;
    for action in actions {
        names += names_in_action(action);
    }
    names
}
