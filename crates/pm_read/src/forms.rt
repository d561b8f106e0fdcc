//! Forms of fields: names, numbers, lists, subjects and modes, by themselves and at a line's keys.
ghost use Rattle.std.specs.Prelude.{◌≡◌, Option, option_map, option_and_then, bytes_eq, IfOk};
ghost use Rattle.std.specs.List.{list_any};
ghost use Rattle.serde_json.specs.Data.{Data};
ghost use Rattle.serde_json.specs.Find.{as_array};
ghost use Rattle.serde_json.specs.View.{view, items_view};
ghost use Rattle.pm_model.specs.Forms.{distinct, list_form, list_of, listed_form, looking, mode_form, mode_of, name_form, one_subject, rights_form, short_form, subject_by, whole_form};
ghost use Rattle.pm_model.specs.Asked.{exc_at, mode_at, name_at, number_at, optional, process_of, required, rights_at, sets_of, subject_at, users_at};
ghost use Rattle.pm_model.specs.Words.{key_text};
ghost use Rattle.pm_read.specs.Reads.{Reads};

use crate::errors::ReadError;
use pm_model::{BadLine, ItemList, Key, Memory, Mode, Name, NameList, Subject};
use serde_json::Value;
use std::alloc::Global;

/// How many rights or users a line may list, repeats included.
const MOST_LISTED: usize = 32;

/// How many names the two sets of a prohibition may list together, repeats included.
pub(crate) const MOST_IN_SETS: usize = 32;

/// What a value can be read as.
pub(crate) trait Form: Sized {
    /// What a value reads as, where it has the form.
    ghost form: { Data → Option Self };

    /// What the value reads as.
    fn read(value: &Value) -> Option<Self>
        ensures { result ≡ form (view value.now) };
}

impl Form for Name {
    ghost form = { name_form };

    fn read(value: &Value) -> Option<Name> {
        name(value)
    }
}

impl Form for u32 {
    ghost form = { short_form };

    fn read(value: &Value) -> Option<u32> {
        short(value)
    }
}

/// A text that is a name.
pub(crate) fn name(value: &Value) -> Option<Name>
    ensures { result ≡ name_form (view value.now) }
{
    let text = value.as_str()?;
    Name::new(text.as_bytes())
}

/// The name at the key.
pub(crate) fn name_at(key: Key, value: &Value) -> Result<Name, BadLine>
    ensures { result ≡ name_at (looking (view value.now)) key }
{
    match value.get(key.text()).and_then(name) {
        None => Err(BadLine::BadField(key)),
        Some(name) => Ok(name),
    }
}

/// A whole number of 32 bits.
pub(crate) fn short(value: &Value) -> Option<u32>
    ensures { result ≡ short_form (view value.now) }
{
    let number = value.as_u64()?;
    u32::try_from(number).ok()
}

/// The number of 32 bits at the key, where one is there.
fn short_if(key: Key, value: &Value) -> Option<u32>
    ensures { result ≡ option_and_then short_form (looking (view value.now) (key_text key)) }
{
    value.get(key.text()).and_then(short)
}

/// The number of 32 bits at the key.
pub(crate) fn number_at(key: Key, value: &Value) -> Result<u32, BadLine>
    ensures { result ≡ number_at (looking (view value.now)) key }
{
    match short_if(key, value) {
        None => Err(BadLine::BadField(key)),
        Some(n) => Ok(n),
    }
}

/// The process that asks.
pub(crate) fn process(value: &Value) -> Result<u32, BadLine>
    ensures { result ≡ process_of (looking (view value.now)) }
{
    number_at(Key::Proc, value)
}

/// The number of 64 bits that was found, which may be left out.
pub(crate) fn optional_whole(key: Key, found: Option<&Value>) -> Result<Option<u64>, BadLine>
    ensures { result ≡ optional key (option_map (λ v. view v.now) found.entry) whole_form }
{
    match found {
        None => Ok(None),
        Some(value) => match value.as_u64() {
            None => Err(BadLine::BadField(key)),
            Some(n) => Ok(Some(n)),
        },
    }
}

fn list_of<T: Form + Drop>(alloc: Global, items: &[Value]) -> Result<Option<ItemList<T>>, Memory>
    ensures { IfOk result (λ o. o ≡ list_of T.form (items_view items.now)) }
{
    let mut list = ItemList::new(alloc);
    for value in items {
        match T::read(value) {
            None => return Ok(None),
            Some(item) => list.push(item)?,
        }
    }
    Ok(Some(list))
}

/// A list of what has a form.
pub(crate) fn list<T: Form + Drop>(
    alloc: Global,
    value: &Value,
) -> Result<Option<ItemList<T>>, Memory>
    ensures { IfOk result (λ o. o ≡ option_and_then (list_of T.form) (as_array (view value.now))) }
{
    match value.as_array() {
        None => Ok(None),
        Some(items) => list_of(alloc, items),
    }
}

fn list_at(alloc: Global, key: Key, value: &Value) -> Result<NameList, ReadError>
    ensures { Reads result (required key (option_and_then list_form (looking (view value.now) (key_text key)))) }
{
    let Some(found) = value.get(key.text()) else {
        return Err(ReadError::Bad(BadLine::BadField(key)));
    };
    match list(alloc, found)? {
        None => Err(ReadError::Bad(BadLine::BadField(key))),
        Some(names) => Ok(names),
    }
}

fn contains(list: &[Name], name: &Name) -> bool
    ensures { result ≡ list_any (bytes_eq name.now) list.now }
{
    list.iter().any(|n| name.bytes() == n.bytes())
}

/// The names in order, each at its first place alone.
pub(crate) fn distinct(alloc: Global, names: &[Name]) -> Result<NameList, Memory>
    ensures { IfOk result (λ l. l ≡ distinct names.now) }
{
    let mut list = NameList::new(alloc);
    for name in names {
        if !contains(list.as_slice(), name) {
            list.push(*name)?;
        }
    }
    Ok(list)
}

/// A list of rights or users as it stands, repeats too.
pub(crate) fn listed(alloc: Global, value: &Value) -> Result<Option<NameList>, Memory>
    ensures { IfOk result (λ o. o ≡ listed_form (view value.now)) }
{
    let names: Option<NameList> = list(alloc, value)?;
    match names {
        None => Ok(None),
        Some(names) => {
            if names.len() == 0 || names.len() > MOST_LISTED {
                return Ok(None);
            }
            Ok(Some(names))
        }
    }
}

fn rights(alloc: Global, value: &Value) -> Result<Option<NameList>, Memory>
    ensures { IfOk result (λ o. o ≡ rights_form (view value.now)) }
{
    match listed(alloc, value)? {
        None => Ok(None),
        Some(names) => Ok(Some(distinct(alloc, names.as_slice())?)),
    }
}

/// The set of rights.
pub(crate) fn rights_at(alloc: Global, value: &Value) -> Result<NameList, ReadError>
    ensures { Reads result (rights_at (looking (view value.now))) }
{
    let Some(found) = value.get(Key::Rights.text()) else {
        return Err(ReadError::Bad(BadLine::BadField(Key::Rights)));
    };
    match rights(alloc, found)? {
        None => Err(ReadError::Bad(BadLine::BadField(Key::Rights))),
        Some(list) => Ok(list),
    }
}

/// The users of a survey.
pub(crate) fn users_at(alloc: Global, value: &Value) -> Result<NameList, ReadError>
    ensures { Reads result (users_at (looking (view value.now))) }
{
    let Some(found) = value.get(Key::Users.text()) else {
        return Err(ReadError::Bad(BadLine::BadField(Key::Users)));
    };
    match listed(alloc, found)? {
        None => Err(ReadError::Bad(BadLine::BadField(Key::Users))),
        Some(list) => Ok(list),
    }
}

fn exc_at(alloc: Global, inc: &NameList, value: &Value) -> Result<NameList, ReadError>
    ensures { Reads result (exc_at (looking (view value.now)) inc.now) }
{
    let exc = list_at(alloc, Key::Exc, value)?;
    if inc.len().saturating_add(exc.len()) > MOST_IN_SETS {
        return Err(ReadError::Bad(BadLine::BadField(Key::Exc)));
    }
    Ok(exc)
}

/// The fields `inc` and `exc`.
pub(crate) fn sets(alloc: Global, value: &Value) -> Result<(NameList, NameList), ReadError>
    ensures { Reads result (sets_of (looking (view value.now))) }
{
    let inc = list_at(alloc, Key::Inc, value)?;
    let exc = exc_at(alloc, &inc, value)?;
    Ok((inc, exc))
}

fn one_subject<N: Form, P: Form>(
    user: Option<&Value>,
    ua: Option<&Value>,
    process: Option<&Value>,
) -> Option<Subject<N, P>>
    ensures { result ≡ one_subject N.form P.form (option_map (λ v. view v.now) user.entry) (option_map (λ v. view v.now) ua.entry) (option_map (λ v. view v.now) process.entry) }
{
    match (user, ua, process) {
        (Some(user), None, None) => Some(Subject::User(N::read(user)?)),
        (None, Some(ua), None) => Some(Subject::Ua(N::read(ua)?)),
        (None, None, Some(process)) => Some(Subject::Process(P::read(process)?)),
        _ => None,
    }
}

/// A user, a user attribute or a process, of which exactly one is there.
pub(crate) fn subject<N: Form, P: Form>(value: &Value) -> Option<Subject<N, P>>
    ensures { result ≡ subject_by N.form P.form (view value.now) }
{
    let user = value.get(Key::User.text());
    let ua = value.get(Key::Ua.text());
    let process = value.get(Key::Process.text());
    one_subject(user, ua, process)
}

/// Whom a prohibition denies.
pub(crate) fn subject_at(value: &Value) -> Result<Subject<Name, u32>, BadLine>
    ensures { result ≡ subject_at (looking (view value.now)) }
{
    let Some(found) = value.get(Key::Subject.text()) else {
        return Err(BadLine::BadField(Key::Subject));
    };
    match subject(found) {
        None => Err(BadLine::BadField(Key::Subject)),
        Some(subject) => Ok(subject),
    }
}

#[tactic(auto, unfolding(pm_model::specs::Words::word_text))]
fn mode_named(word: &str) -> Option<Mode>
    ensures { result ≡ mode_of word.now }
{
    match word {
        "all" => Some(Mode::All),
        "any" => Some(Mode::Any),
        _ => None,
    }
}

/// A word for how sets make a range.
pub(crate) fn mode(value: &Value) -> Option<Mode>
    ensures { result ≡ mode_form (view value.now) }
{
    value.as_str().and_then(mode_named)
}

/// How the sets of a prohibition make its range.
pub(crate) fn mode_at(value: &Value) -> Result<Mode, BadLine>
    ensures { result ≡ mode_at (looking (view value.now)) }
{
    match value.get(Key::Mode.text()).and_then(mode) {
        None => Err(BadLine::BadField(Key::Mode)),
        Some(mode) => Ok(mode),
    }
}
