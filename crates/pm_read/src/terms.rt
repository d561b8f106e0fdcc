//! Forms of an obligation's line: the events that it waits for, what stands for a name, and guards.
ghost use Rattle.std.specs.Prelude.{◌≡◌, IfOk, option_and_then, option_map};
ghost use Rattle.serde_json.specs.View.{view, items_view};
ghost use Rattle.pm_model.specs.Forms.{if_name, looking};
ghost use Rattle.pm_model.specs.ResponseForms.{event_process_of, formed, given_form, given_of, guard_form, guard_of, guards_if, name_if, process_form, term_at, term_form, term_of, when_form, within_of};
ghost use Rattle.pm_model.specs.declared.actions.Term.TheVariants.{Named};

use crate::forms::{Form, list, name, short};
use pm_model::{Guard, GuardList, Key, Memory, Name, ProcessTerm, Term, When};
use serde_json::Value;
use std::alloc::Global;

/// How many guards an action may have.
const MOST_GUARDS: usize = 4;

fn name_if(found: Option<&Value>) -> Option<Option<Name>>
    ensures { result ≡ name_if (option_map (λ v. view v.now) found.entry) }
{
    match found {
        None => Some(None),
        Some(value) => Some(Some(name(value)?)),
    }
}

/// Which events an obligation waits for, as a line gives it: an object with the name of an operation at
/// `on`, and a name at `user` and at `target` where they are there. What stands at other keys is ignored.
pub(crate) fn when(value: &Value) -> Option<When>
    ensures { result ≡ when_form (view value.now) }
{
    let on = value.get(Key::On.text()).and_then(name)?;
    let user = name_if(value.get(Key::User.text()))?;
    let target = name_if(value.get(Key::Target.text()))?;
    Some(When { on, user, target })
}

fn named(text: &str) -> Option<Term>
    ensures { result ≡ option_map Named (if_name text.now) }
{
    Name::new(text.as_bytes()).map(Term::Named)
}

fn term_of(text: &str) -> Option<Term>
    ensures { result ≡ term_of text.now }
{
    match text {
        "$user" => Some(Term::EventUser),
        "$target" => Some(Term::EventTarget),
        _ => named(text),
    }
}

fn term(value: &Value) -> Option<Term>
    ensures { result ≡ term_form (view value.now) }
{
    value.as_str().and_then(term_of)
}

impl Form for Term {
    ghost form = { term_form };

    fn read(value: &Value) -> Option<Term> {
        term(value)
    }
}

/// What stands for an element at the key.
pub(crate) fn term_at(key: Key, value: &Value) -> Option<Term>
    ensures { result ≡ term_at (looking (view value.now)) key }
{
    value.get(key.text()).and_then(term)
}

fn given_of(text: &str) -> Option<Term>
    ensures { result ≡ given_of text.now }
{
    match text {
        "$fresh" => Some(Term::Fresh),
        _ => named(text),
    }
}

fn given(value: &Value) -> Option<Term>
    ensures { result ≡ given_form (view value.now) }
{
    value.as_str().and_then(given_of)
}

/// What stands for the name of what is made.
pub(crate) fn given_name(value: &Value) -> Option<Term>
    ensures { result ≡ formed (looking (view value.now)) Key.Name given_form }
{
    value.get(Key::Name.text()).and_then(given)
}

fn event_process(text: &str) -> Option<ProcessTerm>
    ensures { result ≡ event_process_of text.now }
{
    match text {
        "$process" => Some(ProcessTerm::EventProcess),
        _ => None,
    }
}

fn process(value: &Value) -> Option<ProcessTerm>
    ensures { result ≡ process_form (view value.now) }
{
    match short(value) {
        Some(n) => Some(ProcessTerm::Number(n)),
        None => value.as_str().and_then(event_process),
    }
}

impl Form for ProcessTerm {
    ghost form = { process_form };

    fn read(value: &Value) -> Option<ProcessTerm> {
        process(value)
    }
}

fn within(text: &str) -> Option<bool>
    ensures { result ≡ within_of text.now }
{
    match text {
        "in" => Some(true),
        "not_in" => Some(false),
        _ => None,
    }
}

fn guard_of(items: &[Value]) -> Option<Guard>
    ensures { result ≡ guard_of (items_view items.now) }
{
    match items {
        [within_word, inner, outer] => {
            let within = within_word.as_str().and_then(within)?;
            let inner = term(inner)?;
            let outer = term(outer)?;
            Some(Guard {
                within,
                inner,
                outer,
            })
        }
        _ => None,
    }
}

fn guard(value: &Value) -> Option<Guard>
    ensures { result ≡ guard_form (view value.now) }
{
    match value.as_array() {
        None => None,
        Some(items) => guard_of(items),
    }
}

impl Form for Guard {
    ghost form = { guard_form };

    fn read(value: &Value) -> Option<Guard> {
        guard(value)
    }
}

/// The guards of an action, which may be left out.
pub(crate) fn guards_if(alloc: Global, found: Option<&Value>) -> Result<Option<GuardList>, Memory>
    ensures { IfOk result (λ o. o ≡ guards_if (option_map (λ v. view v.now) found.entry)) }
{
    let Some(value) = found else {
        return Ok(Some(GuardList::new(alloc)));
    };
    let guards: Option<GuardList> = list(alloc, value)?;
    match guards {
        None => Ok(None),
        Some(guards) => {
            if guards.len() > MOST_GUARDS {
                return Ok(None);
            }
            Ok(Some(guards))
        }
    }
}
