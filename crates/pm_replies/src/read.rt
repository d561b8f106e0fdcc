//! What a reply's line says.
ghost use Rattle.std.specs.Prelude.{◌≡◌, ◌<◌, ◌^◌, ◌++◌, ℕ, List, Option, Err, codes, IfOk, option_map};
ghost use Rattle.serde_json.specs.View.{view};
ghost use Rattle.pm_model.specs.Forms.{looking};
ghost use Rattle.pm_model.specs.Text.{text};
ghost use Rattle.pm_model.specs.declared.replies.Reply.{Reply};
ghost use Rattle.pm_replies.specs.ByNames.{CanBeTold, IsTextOf, by_names};
ghost use Rattle.pm_replies.specs.Replied.{changes, chosen, fired, list_at, made, ok_texts, pair_form, count_form, replied, reply_text};
ghost use Rattle.pm_replies.specs.declared.texts.ReplyText.TheVariants as text_of;

use crate::confirm::confirmed;
use crate::items::list_at;
use crate::members::{short_at, text_at, whole_at};
use crate::refusals::no_text;
use crate::texts::{ReplyError, ReplyLine, ReplyText};
use pm_model::{Key, Memory, Shown};
use serde_json::Value;
use std::alloc::Global;

fn fired(value: &Value) -> u32
    ensures { result ≡ fired (looking (view value.now)) }
{
    short_at(Key::Fired, value).unwrap_or(0)
}

fn shown(value: &Value) -> Shown
    ensures { result ≡ made (looking (view value.now)) }
{
    if let Some(n) = short_at(Key::Process, value) {
        return Shown::Process(n);
    }
    if let Some(n) = short_at(Key::Review, value) {
        return Shown::Review(n);
    }
    match short_at(Key::Session, value) {
        Some(n) => Shown::Session(n),
        None => Shown::Nothing,
    }
}

fn done(value: &Value) -> ReplyText
    ensures { result ≡ text_of.Done (fired (looking (view value.now))) (made (looking (view value.now))) }
{
    let fired = fired(value);
    let shown = shown(value);
    ReplyText::Done { fired, shown }
}

fn caps(alloc: Global, value: &Value) -> Result<Option<ReplyText>, Memory>
    ensures { IfOk result (λ o. o ≡ option_map text_of.Caps (list_at (looking (view value.now)) Key.List pair_form)) }
{
    match list_at(alloc, Key::List, value)? {
        None => Ok(None),
        Some(list) => Ok(Some(ReplyText::Caps { list })),
    }
}

fn entries(alloc: Global, value: &Value) -> Result<Option<ReplyText>, Memory>
    ensures { IfOk result (λ o. o ≡ option_map text_of.Entries (list_at (looking (view value.now)) Key.List pair_form)) }
{
    match list_at(alloc, Key::List, value)? {
        None => Ok(None),
        Some(list) => Ok(Some(ReplyText::Entries { list })),
    }
}

fn kept(alloc: Global, value: &Value) -> Result<Option<ReplyText>, Memory>
    ensures { IfOk result (λ o. o ≡ option_map text_of.Kept (list_at (looking (view value.now)) Key.List pair_form)) }
{
    match list_at(alloc, Key::List, value)? {
        None => Ok(None),
        Some(list) => Ok(Some(ReplyText::Kept { list })),
    }
}

fn survey(alloc: Global, value: &Value) -> Result<Option<ReplyText>, Memory>
    ensures { IfOk result (λ o. o ≡ option_map text_of.Survey (list_at (looking (view value.now)) Key.Counts count_form)) }
{
    match list_at(alloc, Key::Counts, value)? {
        None => Ok(None),
        Some(list) => Ok(Some(ReplyText::Survey { list })),
    }
}

fn changes(alloc: Global, value: &Value) -> Result<Option<ReplyText>, Memory>
    ensures { IfOk result (λ o. o ≡ changes (looking (view value.now))) }
{
    let Some(at) = whole_at(Key::At, value) else {
        return Ok(None);
    };
    match list_at(alloc, Key::List, value)? {
        None => Ok(None),
        Some(list) => Ok(Some(ReplyText::Changes { at, list })),
    }
}

// What the line says whose member `ok` is this word.
#[tactic(auto, unfolding(pm_model::specs::Words::word_text))]
fn ok_text(alloc: Global, word: &str, value: &Value) -> Result<Option<ReplyText>, Memory>
    ensures { IfOk result (λ o. o ≡ chosen (ok_texts (looking (view value.now))) word.now) }
{
    match word {
        "done" => Ok(Some(done(value))),
        "granted" => Ok(Some(ReplyText::Granted {
            fired: fired(value),
        })),
        "caps" => caps(alloc, value),
        "entries" => entries(alloc, value),
        "survey" => survey(alloc, value),
        "kept" => kept(alloc, value),
        "changes" => changes(alloc, value),
        _ => Ok(None),
    }
}

fn reply_text(alloc: Global, value: &Value) -> Result<Option<ReplyText>, Memory>
    ensures { IfOk result (λ o. o ≡ reply_text (looking (view value.now))) }
{
    if let Some(word) = text_at(Key::No, value) {
        return Ok(no_text(word, value));
    }
    match text_at(Key::Ok, value) {
        None => Ok(None),
        Some(word) => ok_text(alloc, word, value),
    }
}

/// What the members say, where they say something: any line with the text of a reply says that reply, and others may
/// say one too.
pub(crate) fn replied(alloc: Global, value: &Value) -> Result<Option<ReplyLine>, Memory>
    ensures { IfOk result (λ o. o ≡ replied (looking (view value.now))) }
{
    let Some(text) = reply_text(alloc, value)? else {
        return Ok(None);
    };
    match whole_at(Key::V, value) {
        None => Ok(None),
        Some(version) => Ok(Some(ReplyLine {
            id: whole_at(Key::Id, value),
            version,
            text,
        })),
    }
}

/// What the line of a reply says, the line being without its line feed. Each reply has one spelling: NotReply comes
/// exactly where the line is the text of no reply, as with white space, with another order of keys, with a further key,
/// or with a zero before a number or a set of rights. Memory comes where there is no memory for what
/// is read, and for a list of more than 2^32 items.
pub fn read_reply(alloc: Global, line: &[u8]) -> Result<ReplyLine, ReplyError>
    ensures said { IfOk result (λ said. IsTextOf line.now said) }
    ensures one { (id : Option ℕ) (version : ℕ) (names : ℕ → List ℕ) (reply : Reply) → CanBeTold id version names reply
        → text id version names reply ≡ line.now ++ codes "\n"
        → IfOk result (λ said. said ≡ record { id = id; version = version; text = by_names names reply }) }
    ensures none { result ≡ Err ReplyError.NotReply → (id : Option ℕ) (version : ℕ) (names : ℕ → List ℕ) (reply : Reply)
        → CanBeTold id version names reply → text id version names reply ≡ line.now ++ codes "\n" → ⊥ }
{
    match Value::from_slice(alloc, line) {
        Err(error) => {
            if error.is_memory() {
                Err(ReplyError::Memory)
            } else {
                Err(ReplyError::NotReply)
            }
        }
        Ok(value) => match confirmed(alloc, &value, line) {
            Err(_) => Err(ReplyError::Memory),
            Ok(None) => Err(ReplyError::NotReply),
            Ok(Some(said)) => Ok(said),
        },
    }
}
