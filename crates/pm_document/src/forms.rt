//! What a JSON value says as a document.

ghost use Rattle.std.specs.Prelude.{◌≡◌, Option, option_map, bytes_eq, IfOk};
ghost use Rattle.std.specs.List.{list_any};
ghost use Rattle.serde_json.specs.Data.{Data};
ghost use Rattle.serde_json.specs.View.{view, items_view};
ghost use Rattle.pm_model.specs.Forms.{distinct, list_form, list_of, listed_form, mode_form, mode_of, name_form, one_subject, rights_form, short_form, subject_form};
ghost use Rattle.pm_document.specs.Forms.{assignment_form, assignment_of, association_form, association_of, at_key, element_form, element_of, items_form, kind_form, kind_of, list_at, policy_form, prohibition_form, sets_form};
ghost use Rattle.pm_model.specs.declared.words.Key.{Key};
ghost use Rattle.pm_document.specs.Reads.{Reads};

use crate::errors::DocumentError;
use pm_model::{ItemList, Key, Kind, Memory, Mode, Name, NameList, Subject, Word};
use pm_policy::{DocAssignment, DocAssociation, DocElement, DocProhibition, Policy};
use serde_json::Value;
use std::alloc::Global;

/// How many rights a set may list, repeats included.
const MOST_LISTED: usize = 32;

/// How many names the two sets of a prohibition may list together, repeats included.
const MOST_IN_SETS: usize = 32;

/// What a value can be read as.
trait Form: Sized + Drop {
    /// What a value reads as, where it has the form.
    ghost form: { Data → Option Self };

    /// What the value reads as; Refused exactly where it hasn't the form.
    fn read(alloc: Global, value: &Value) -> Result<Self, DocumentError>
        ensures { Reads result (form (view value.now)) };
}

fn required<T: Drop>(found: Option<T>) -> Result<T, DocumentError>
    ensures { Reads result found }
{
    match found {
        None => Err(DocumentError::Refused),
        Some(value) => Ok(value),
    }
}

fn name(value: &Value) -> Option<Name>
    ensures { result ≡ name_form (view value.now) }
{
    let text = value.as_str()?;
    Name::new(text.as_bytes())
}

impl Form for Name {
    ghost form = { name_form };

    fn read(_alloc: Global, value: &Value) -> Result<Name, DocumentError> {
        required(name(value))
    }
}

// The items, of which the first that hasn't the form refuses.
fn list_of<T: Form>(alloc: Global, items: &[Value]) -> Result<ItemList<T>, DocumentError>
    ensures { Reads result (list_of T.form (items_view items.now)) }
{
    let mut list = ItemList::with_room(alloc, items.len())?;
    for value in items {
        let item = T::read(alloc, value)?;
        list.push(item)?;
    }
    Ok(list)
}

fn items<T: Form>(alloc: Global, value: &Value) -> Result<ItemList<T>, DocumentError>
    ensures { Reads result (items_form T.form (view value.now)) }
{
    match value.as_array() {
        None => Err(DocumentError::Refused),
        Some(items) => list_of(alloc, items),
    }
}

fn names(alloc: Global, value: &Value) -> Result<NameList, DocumentError>
    ensures { Reads result (list_form (view value.now)) }
{
    items(alloc, value)
}

fn contains(list: &[Name], name: &Name) -> bool
    ensures { result ≡ list_any (bytes_eq name.now) list.now }
{
    list.iter().any(|n| name.bytes() == n.bytes())
}

/// The names in order, each at its first place alone.
fn distinct(alloc: Global, names: &[Name]) -> Result<NameList, Memory>
    ensures { IfOk result (λ l. l ≡ distinct names.now) }
{
    let mut list = NameList::new(alloc);
    for name in names {
        if !contains(list.as_slice(), name) {
            list.push(*name)?;
        }
    }
    Ok(list)
}

fn listed(alloc: Global, value: &Value) -> Result<NameList, DocumentError>
    ensures { Reads result (listed_form (view value.now)) }
{
    let names = names(alloc, value)?;
    if names.len() == 0 || names.len() > MOST_LISTED {
        return Err(DocumentError::Refused);
    }
    Ok(names)
}

fn rights(alloc: Global, value: &Value) -> Result<NameList, DocumentError>
    ensures { Reads result (rights_form (view value.now)) }
{
    let names = listed(alloc, value)?;
    Ok(distinct(alloc, names.as_slice())?)
}

fn kind_named(word: &str) -> Option<Kind>
    ensures { result ≡ kind_of word.now }
{
    match word {
        "user" => Some(Kind::User),
        "ua" => Some(Kind::Ua),
        "object" => Some(Kind::Object),
        "oa" => Some(Kind::Oa),
        "pc" => Some(Kind::Pc),
        _ => None,
    }
}

fn kind(value: &Value) -> Option<Kind>
    ensures { result ≡ kind_form (view value.now) }
{
    value.as_str().and_then(kind_named)
}

fn element_of(items: &[Value]) -> Option<DocElement>
    ensures { result ≡ element_of (items_view items.now) }
{
    match items {
        [kind_word, name_text] => {
            let kind = kind(kind_word)?;
            let name = name(name_text)?;
            Some(DocElement { kind, name })
        }
        _ => None,
    }
}

fn element(value: &Value) -> Option<DocElement>
    ensures { result ≡ element_form (view value.now) }
{
    match value.as_array() {
        None => None,
        Some(items) => element_of(items),
    }
}

impl Form for DocElement {
    ghost form = { element_form };

    fn read(_alloc: Global, value: &Value) -> Result<DocElement, DocumentError> {
        required(element(value))
    }
}

fn assignment_of(items: &[Value]) -> Option<DocAssignment>
    ensures { result ≡ assignment_of (items_view items.now) }
{
    match items {
        [from_text, to_text] => {
            let from = name(from_text)?;
            let to = name(to_text)?;
            Some(DocAssignment { from, to })
        }
        _ => None,
    }
}

fn assignment(value: &Value) -> Option<DocAssignment>
    ensures { result ≡ assignment_form (view value.now) }
{
    match value.as_array() {
        None => None,
        Some(items) => assignment_of(items),
    }
}

impl Form for DocAssignment {
    ghost form = { assignment_form };

    fn read(_alloc: Global, value: &Value) -> Result<DocAssignment, DocumentError> {
        required(assignment(value))
    }
}

fn association_of(alloc: Global, items: &[Value]) -> Result<DocAssociation, DocumentError>
    ensures { Reads result (association_of (items_view items.now)) }
{
    match items {
        [ua_text, listed, at_text] => {
            let ua = required(name(ua_text))?;
            let rights = rights(alloc, listed)?;
            let at = required(name(at_text))?;
            Ok(DocAssociation { ua, rights, at })
        }
        _ => Err(DocumentError::Refused),
    }
}

impl Form for DocAssociation {
    ghost form = { association_form };

    fn read(alloc: Global, value: &Value) -> Result<DocAssociation, DocumentError> {
        match value.as_array() {
            None => Err(DocumentError::Refused),
            Some(items) => association_of(alloc, items),
        }
    }
}

fn short(value: &Value) -> Option<u32>
    ensures { result ≡ short_form (view value.now) }
{
    let number = value.as_u64()?;
    u32::try_from(number).ok()
}

fn one_subject(
    user: Option<&Value>,
    ua: Option<&Value>,
    process: Option<&Value>,
) -> Option<Subject<Name, u32>>
    ensures { result ≡ one_subject name_form short_form (option_map (λ v. view v.now) user.entry) (option_map (λ v. view v.now) ua.entry) (option_map (λ v. view v.now) process.entry) }
{
    match (user, ua, process) {
        (Some(user), None, None) => Some(Subject::User(name(user)?)),
        (None, Some(ua), None) => Some(Subject::Ua(name(ua)?)),
        (None, None, Some(process)) => Some(Subject::Process(short(process)?)),
        _ => None,
    }
}

fn subject(value: &Value) -> Option<Subject<Name, u32>>
    ensures { result ≡ subject_form (view value.now) }
{
    let user = value.get(Key::User.text());
    let ua = value.get(Key::Ua.text());
    let process = value.get(Key::Process.text());
    one_subject(user, ua, process)
}

#[tactic(auto, unfolding(pm_model::specs::Words::word_text))]
fn mode_named(word: &str) -> Option<Mode>
    ensures { result ≡ mode_of word.now }
{
    match word {
        "all" => Some(Mode::All),
        "any" => Some(Mode::Any),
        _ => None,
    }
}

fn mode(value: &Value) -> Option<Mode>
    ensures { result ≡ mode_form (view value.now) }
{
    value.as_str().and_then(mode_named)
}

fn names_at(alloc: Global, key: Key, value: &Value) -> Result<NameList, DocumentError>
    ensures { Reads result (at_key list_form key (view value.now)) }
{
    match value.get(key.text()) {
        None => Err(DocumentError::Refused),
        Some(found) => names(alloc, found),
    }
}

fn rights_in(alloc: Global, value: &Value) -> Result<NameList, DocumentError>
    ensures { Reads result (at_key rights_form Key.Rights (view value.now)) }
{
    match value.get(Key::Rights.text()) {
        None => Err(DocumentError::Refused),
        Some(found) => rights(alloc, found),
    }
}

fn sets(alloc: Global, value: &Value) -> Result<(NameList, NameList), DocumentError>
    ensures { Reads result (sets_form (view value.now)) }
{
    let inc = names_at(alloc, Key::Inc, value)?;
    let exc = names_at(alloc, Key::Exc, value)?;
    if inc.len().saturating_add(exc.len()) > MOST_IN_SETS {
        return Err(DocumentError::Refused);
    }
    Ok((inc, exc))
}

impl Form for DocProhibition {
    ghost form = { prohibition_form };

    fn read(alloc: Global, value: &Value) -> Result<DocProhibition, DocumentError> {
        let name = required(value.get(Key::Name.text()).and_then(name))?;
        let subject = required(value.get(Key::Subject.text()).and_then(subject))?;
        let rights = rights_in(alloc, value)?;
        let (inc, exc) = sets(alloc, value)?;
        let mode = required(value.get(Key::Mode.text()).and_then(mode))?;
        Ok(DocProhibition {
            name,
            subject,
            rights,
            inc,
            exc,
            mode,
        })
    }
}

fn list_at<T: Form>(alloc: Global, word: Word, value: &Value) -> Result<ItemList<T>, DocumentError>
    ensures { Reads result (list_at T.form word (view value.now)) }
{
    match value.get(word.text()) {
        None => Err(DocumentError::Refused),
        Some(found) => items(alloc, found),
    }
}

/// The five lists of a value that is an object with them; its other keys are ignored.
pub(crate) fn policy(alloc: Global, value: &Value) -> Result<Policy, DocumentError>
    ensures { Reads result (policy_form (view value.now)) }
{
    let rights = list_at(alloc, Word::Rights, value)?;
    let elements = list_at(alloc, Word::Elements, value)?;
    let assignments = list_at(alloc, Word::Assignments, value)?;
    let associations = list_at(alloc, Word::Associations, value)?;
    let prohibitions = list_at(alloc, Word::Prohibitions, value)?;
    Ok(Policy {
        rights,
        elements,
        assignments,
        associations,
        prohibitions,
    })
}
