//! Forms of an obligation's response: a function for each act, the act of a word, and lists of actions.
ghost use Rattle.std.specs.Prelude.{◌≡◌, IfOk, map, option_and_then};
ghost use Rattle.serde_json.specs.Find.{as_str};
ghost use Rattle.serde_json.specs.View.{view, items_view};
ghost use Rattle.pm_model.specs.Actions.{response_refusal};
ghost use Rattle.pm_model.specs.Forms.{list_of, looking, mode_form};
ghost use Rattle.pm_model.specs.ResponseForms.{act_as_set, act_of, action_form, as_set, assign_act, associate_act, both_at, create_act, deassign_act, delete_act, dissociate_act, do_form, formed, if_allowed, lift_act, prohibit_act, rights_listed, subject_term, term_sets, terms_form};
ghost use Rattle.pm_read.specs.Rows.{FindsAct, IsNoneOf, act_words};

use crate::forms::{MOST_IN_SETS, distinct, list, listed, mode, name, subject};
use crate::terms::{given_name, guards_if, term_at};
use pm_model::{
    Act, Action, ActionList, Key, Kind, Memory, Mode, NameList, ProcessTerm, Response, Subject,
    Term, TermList,
};
use serde_json::Value;
use std::alloc::Global;

fn create(kind: Kind, value: &Value) -> Option<Act>
    ensures { result ≡ create_act (looking (view value.now)) kind }
{
    let name = given_name(value)?;
    let into = term_at(Key::Into, value)?;
    Some(Act::Create { kind, name, into })
}

fn delete(value: &Value) -> Option<Act>
    ensures { result ≡ delete_act (looking (view value.now)) }
{
    let name = term_at(Key::Name, value)?;
    Some(Act::Delete { name })
}

// What stands for two elements.
fn both_at(first: Key, second: Key, value: &Value) -> Option<(Term, Term)>
    ensures { result ≡ both_at (looking (view value.now)) first second }
{
    let a = term_at(first, value)?;
    let b = term_at(second, value)?;
    Some((a, b))
}

fn assign(value: &Value) -> Option<Act>
    ensures { result ≡ assign_act (looking (view value.now)) }
{
    let (from, to) = both_at(Key::From, Key::To, value)?;
    Some(Act::Assign { from, to })
}

fn deassign(value: &Value) -> Option<Act>
    ensures { result ≡ deassign_act (looking (view value.now)) }
{
    let (from, to) = both_at(Key::From, Key::To, value)?;
    Some(Act::Deassign { from, to })
}

// The rights as they stand, repeats too.
fn rights(alloc: Global, value: &Value) -> Result<Option<NameList>, Memory>
    ensures { IfOk result (λ o. o ≡ rights_listed (looking (view value.now))) }
{
    match value.get(Key::Rights.text()) {
        None => Ok(None),
        Some(found) => listed(alloc, found),
    }
}

fn associate(alloc: Global, value: &Value) -> Result<Option<Act>, Memory>
    ensures { IfOk result (λ o. o ≡ associate_act (looking (view value.now))) }
{
    let Some((ua, at)) = both_at(Key::Ua, Key::At, value) else {
        return Ok(None);
    };
    match rights(alloc, value)? {
        None => Ok(None),
        Some(rights) => Ok(Some(Act::Associate { ua, rights, at })),
    }
}

fn dissociate(value: &Value) -> Option<Act>
    ensures { result ≡ dissociate_act (looking (view value.now)) }
{
    let (ua, at) = both_at(Key::Ua, Key::At, value)?;
    Some(Act::Dissociate { ua, at })
}

fn subject_at(value: &Value) -> Option<Subject<Term, ProcessTerm>>
    ensures { result ≡ subject_term (looking (view value.now)) }
{
    let found = value.get(Key::Subject.text())?;
    subject(found)
}

fn terms_at(alloc: Global, key: Key, value: &Value) -> Result<Option<TermList>, Memory>
    ensures { IfOk result (λ o. o ≡ formed (looking (view value.now)) key terms_form) }
{
    match value.get(key.text()) {
        None => Ok(None),
        Some(found) => list(alloc, found),
    }
}

// The sets `inc` and `exc`.
fn sets(alloc: Global, value: &Value) -> Result<Option<(TermList, TermList)>, Memory>
    ensures { IfOk result (λ o. o ≡ term_sets (looking (view value.now))) }
{
    let Some(inc) = terms_at(alloc, Key::Inc, value)? else {
        return Ok(None);
    };
    let Some(exc) = terms_at(alloc, Key::Exc, value)? else {
        return Ok(None);
    };
    if inc.len().saturating_add(exc.len()) > MOST_IN_SETS {
        return Ok(None);
    }
    Ok(Some((inc, exc)))
}

fn mode_at(value: &Value) -> Option<Mode>
    ensures { result ≡ formed (looking (view value.now)) Key.Mode mode_form }
{
    value.get(Key::Mode.text()).and_then(mode)
}

fn prohibit(alloc: Global, value: &Value) -> Result<Option<Act>, Memory>
    ensures { IfOk result (λ o. o ≡ prohibit_act (looking (view value.now))) }
{
    let (Some(name), Some(subject), Some(mode)) = (
        given_name(value),
        subject_at(value),
        mode_at(value),
    ) else {
        return Ok(None);
    };
    let Some(rights) = rights(alloc, value)? else {
        return Ok(None);
    };
    let Some((inc, exc)) = sets(alloc, value)? else {
        return Ok(None);
    };
    Ok(Some(Act::Prohibit {
        name,
        subject,
        rights,
        inc,
        exc,
        mode,
    }))
}

fn lift(value: &Value) -> Option<Act>
    ensures { result ≡ lift_act (looking (view value.now)) }
{
    let name = value.get(Key::Name.text()).and_then(name)?;
    Some(Act::Lift { name })
}

// The act of a word of elements.
#[tactic(auto, unfolding(pm_model::specs::Words::word_text))]
fn element_act(word: &str, value: &Value) -> Option<Option<Act>>
    ensures { FindsAct act_words word.now (act_of (looking (view value.now)) word.now) result }
{
    match word {
        "create_user" => Some(create(Kind::User, value)),
        "create_ua" => Some(create(Kind::Ua, value)),
        "create_oa" => Some(create(Kind::Oa, value)),
        "create_object" => Some(create(Kind::Object, value)),
        "delete" => Some(delete(value)),
        "assign" => Some(assign(value)),
        "deassign" => Some(deassign(value)),
        _ => None,
    }
}

// The act of another word.
#[tactic(auto, unfolding(pm_model::specs::Words::word_text))]
fn rule_act(alloc: Global, word: &str, value: &Value) -> Result<Option<Act>, Memory>
    requires { IsNoneOf act_words word.now }
    ensures { IfOk result (λ o. o ≡ act_of (looking (view value.now)) word.now) }
{
    match word {
        "associate" => associate(alloc, value),
        "dissociate" => Ok(dissociate(value)),
        "prohibit" => prohibit(alloc, value),
        "lift" => Ok(lift(value)),
        _ => Ok(None),
    }
}

fn act_of(alloc: Global, word: &str, value: &Value) -> Result<Option<Act>, Memory>
    ensures { IfOk result (λ o. o ≡ act_of (looking (view value.now)) word.now) }
{
    match element_act(word, value) {
        Some(act) => Ok(act),
        None => rule_act(alloc, word, value),
    }
}

// The act of an action's word.
fn act(alloc: Global, value: &Value) -> Result<Option<Act>, Memory>
    ensures { IfOk result (λ o. o ≡ option_and_then (act_of (looking (view value.now))) (formed (looking (view value.now)) Key.Cmd as_str)) }
{
    match value.get(Key::Cmd.text()).and_then(Value::as_str) {
        None => Ok(None),
        Some(word) => act_of(alloc, word, value),
    }
}

fn action(alloc: Global, value: &Value) -> Result<Option<Action>, Memory>
    ensures { IfOk result (λ o. o ≡ action_form (view value.now)) }
{
    let Some(guards) = guards_if(alloc, value.get(Key::If.text()))? else {
        return Ok(None);
    };
    match act(alloc, value)? {
        None => Ok(None),
        Some(act) => Ok(Some(Action { guards, act })),
    }
}

fn actions_of(alloc: Global, items: &[Value]) -> Result<Option<ActionList>, Memory>
    ensures { IfOk result (λ o. o ≡ list_of action_form (items_view items.now)) }
{
    let mut actions = ActionList::new(alloc);
    for value in items {
        match action(alloc, value)? {
            None => return Ok(None),
            Some(action) => actions.push(action)?,
        }
    }
    Ok(Some(actions))
}

fn act_as_set(alloc: Global, act: &Act) -> Result<Act, Memory>
    ensures { IfOk result (λ a. a ≡ act_as_set act.now) }
{
    match act {
        Act::Associate { ua, rights, at } => Ok(Act::Associate {
            ua: *ua,
            rights: distinct(alloc, rights.as_slice())?,
            at: *at,
        }),
        Act::Prohibit {
            name,
            subject,
            rights,
            inc,
            exc,
            mode,
        } => Ok(Act::Prohibit {
            name: *name,
            subject: *subject,
            rights: distinct(alloc, rights.as_slice())?,
            inc: inc.copy()?,
            exc: exc.copy()?,
            mode: *mode,
        }),
        other => other.copy(),
    }
}

// The same actions, with their rights as sets.
fn as_sets(alloc: Global, actions: &[Action]) -> Result<ActionList, Memory>
    ensures { IfOk result (λ l. l ≡ map as_set actions.now) }
{
    let mut sets = ActionList::new(alloc);
    for action in actions {
        let guards = action.guards.copy()?;
        let act = act_as_set(alloc, &action.act)?;
        sets.push(Action { guards, act })?;
    }
    Ok(sets)
}

// The response of these actions, where they are within its limits with their rights as they stand. Sets of
// rights have no more names, so that the second response is refused nothing.
#[tactic(auto, using(crate::proofs::Limits::sets_fit))]
fn within_limits(alloc: Global, actions: ActionList) -> Result<Option<Response>, Memory>
    ensures { IfOk result (λ o. o ≡ if_allowed (response_refusal actions) actions) }
{
    let Ok(listed) = Response::new(actions) else {
        return Ok(None);
    };
    let sets = as_sets(alloc, listed.actions().as_slice())?;
    match Response::new(sets) {
        Ok(response) => Ok(Some(response)),
        Err(_) => Ok(None),
    }
}

/// A response, as a line gives it: a list of 1 to 32 actions with at most 100 names, where a right that is
/// listed twice counts twice. Each action is an object with the word of a command, what the command takes, and
/// where it has guards a list of them at `if`. What stands at other keys is ignored. The lists of rights that
/// come out are sets.
pub(crate) fn response(alloc: Global, value: &Value) -> Result<Option<Response>, Memory>
    ensures { IfOk result (λ o. o ≡ do_form (view value.now)) }
{
    let Some(items) = value.as_array() else {
        return Ok(None);
    };
    match actions_of(alloc, items)? {
        None => Ok(None),
        Some(actions) => within_limits(alloc, actions),
    }
}
