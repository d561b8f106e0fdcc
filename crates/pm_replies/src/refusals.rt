//! What a reply's line says under `no`.
ghost use Rattle.std.specs.Prelude.{◌≡◌, option_map};
ghost use Rattle.serde_json.specs.View.{view};
ghost use Rattle.pm_model.specs.Forms.{looking};
ghost use Rattle.pm_print.specs.Spelt.{beside, keys, spelt, table_words};
ghost use Rattle.pm_replies.specs.Replied.{bad_field, bad_lines, chosen, denial, no_text_by, other_texts, reason_by, refusal_words, refused, response_refused, unrefused_by, name_at};
ghost use Rattle.pm_replies.specs.declared.texts.RefusalText.TheVariants as text_of;
ghost use Rattle.pm_replies.specs.declared.texts.RefusalWord.TheVariants as bare;

use crate::members::{name_at, short_at, text_at};
use crate::texts::{ReasonText, RefusalText, RefusalWord, ReplyText};
use pm_model::{BadLine, Key, Table, Word};
use serde_json::Value;

/// The words of refusals.
const REFUSALS: [(Word, RefusalWord); 16] = [
    (Word::UnknownProcess, RefusalWord::UnknownProcess),
    (Word::UnknownSession, RefusalWord::UnknownSession),
    (Word::UnknownReview, RefusalWord::UnknownReview),
    (Word::UnknownName, RefusalWord::UnknownName),
    (Word::Denied, RefusalWord::Denied),
    (Word::BadKinds, RefusalWord::BadKinds),
    (Word::NameTaken, RefusalWord::NameTaken),
    (Word::Already, RefusalWord::Already),
    (Word::Absent, RefusalWord::Absent),
    (Word::Cycle, RefusalWord::Cycle),
    (Word::Occupied, RefusalWord::Occupied),
    (Word::InUse, RefusalWord::InUse),
    (Word::LastContainer, RefusalWord::LastContainer),
    (Word::Builtin, RefusalWord::Builtin),
    (Word::EmptyRange, RefusalWord::EmptyRange),
    (Word::Full, RefusalWord::Full),
];

/// The words of what has a limit.
const TABLES: [(Word, Table); 10] = [
    (Word::Elements, Table::Elements),
    (Word::Assignments, Table::Assignments),
    (Word::Associations, Table::Associations),
    (Word::Prohibitions, Table::Prohibitions),
    (Word::Obligations, Table::Obligations),
    (Word::Sessions, Table::Sessions),
    (Word::Processes, Table::Processes),
    (Word::Reviews, Table::Reviews),
    (Word::Rights, Table::Rights),
    (Word::History, Table::History),
];

/// The keys, each of which a bad field may be told by.
const KEYS: [Key; 42] = [
    Key::Action,
    Key::After,
    Key::At,
    Key::Class,
    Key::Cmd,
    Key::Counts,
    Key::Do,
    Key::Element,
    Key::Exc,
    Key::Field,
    Key::Fired,
    Key::From,
    Key::Id,
    Key::If,
    Key::Inc,
    Key::Into,
    Key::Kind,
    Key::List,
    Key::Mode,
    Key::Name,
    Key::No,
    Key::Obligation,
    Key::Of,
    Key::Ok,
    Key::On,
    Key::Proc,
    Key::Process,
    Key::Prohibition,
    Key::Review,
    Key::Right,
    Key::Rights,
    Key::Session,
    Key::Subject,
    Key::Table,
    Key::Target,
    Key::To,
    Key::Ua,
    Key::User,
    Key::Users,
    Key::V,
    Key::When,
    Key::Why,
];

// What stands beside the word in the table.
fn beside<T: Copy>(table: &[(Word, T)], text: &str) -> Option<T>
    ensures { result ≡ beside table.now text.now }
{
    for entry in table {
        if text == entry.0.text() {
            return Some(entry.1);
        }
    }
    None
}

// The first of the keys that is spelt so.
fn spelt(all: &[Key], text: &str) -> Option<Key>
    ensures { result ≡ spelt all.now text.now }
{
    for key in all {
        if text == key.text() {
            return Some(*key);
        }
    }
    None
}

fn key_of(text: &str) -> Option<Key>
    ensures { result ≡ spelt keys text.now }
{
    spelt(&KEYS, text)
}

fn table_of(text: &str) -> Option<Table>
    ensures { result ≡ beside table_words text.now }
{
    beside(&TABLES, text)
}

fn refusal_of(text: &str) -> Option<RefusalWord>
    ensures { result ≡ beside refusal_words text.now }
{
    beside(&REFUSALS, text)
}

fn bad_field(value: &Value) -> Option<BadLine>
    ensures { result ≡ bad_field (looking (view value.now)) }
{
    let key = text_at(Key::Field, value).and_then(key_of)?;
    Some(BadLine::BadField(key))
}

#[tactic(auto, unfolding(pm_model::specs::Words::word_text))]
fn bad_line(word: &str, value: &Value) -> Option<BadLine>
    ensures { result ≡ chosen (bad_lines (looking (view value.now))) word.now }
{
    match word {
        "too_long" => Some(BadLine::TooLong),
        "not_json" => Some(BadLine::NotJson),
        "not_request" => Some(BadLine::NotRequest),
        "unknown_command" => Some(BadLine::UnknownCommand),
        "bad_field" => bad_field(value),
        _ => None,
    }
}

fn reason(value: &Value) -> Option<ReasonText>
    ensures { result ≡ reason_by (name_at (looking (view value.now)) Key.Class) (name_at (looking (view value.now)) Key.Prohibition) }
{
    match name_at(Key::Class, value) {
        Some(class) => Some(ReasonText::Class(class)),
        None => Some(ReasonText::Prohibition(name_at(Key::Prohibition, value)?)),
    }
}

fn denied(value: &Value) -> Option<RefusalText>
    ensures { result ≡ denial (looking (view value.now)) }
{
    let right = name_at(Key::Right, value)?;
    let target = name_at(Key::Target, value)?;
    let reason = reason(value)?;
    Some(RefusalText::Denied {
        right,
        target,
        reason,
    })
}

fn unknown_name(value: &Value) -> Option<RefusalText>
    ensures { result ≡ option_map text_of.UnknownName (name_at (looking (view value.now)) Key.Name) }
{
    let name = name_at(Key::Name, value)?;
    Some(RefusalText::UnknownName { name })
}

fn full(value: &Value) -> Option<RefusalText>
    ensures { result ≡ refused (looking (view value.now)) bare.Full }
{
    let table = text_at(Key::Table, value).and_then(table_of)?;
    Some(RefusalText::Full(table))
}

fn refused(word: RefusalWord, value: &Value) -> Option<RefusalText>
    ensures { result ≡ refused (looking (view value.now)) word }
{
    match word {
        RefusalWord::UnknownProcess => Some(RefusalText::UnknownProcess),
        RefusalWord::UnknownSession => Some(RefusalText::UnknownSession),
        RefusalWord::UnknownReview => Some(RefusalText::UnknownReview),
        RefusalWord::UnknownName => unknown_name(value),
        RefusalWord::Denied => denied(value),
        RefusalWord::BadKinds => Some(RefusalText::BadKinds),
        RefusalWord::NameTaken => Some(RefusalText::NameTaken),
        RefusalWord::Already => Some(RefusalText::Already),
        RefusalWord::Absent => Some(RefusalText::Absent),
        RefusalWord::Cycle => Some(RefusalText::Cycle),
        RefusalWord::Occupied => Some(RefusalText::Occupied),
        RefusalWord::InUse => Some(RefusalText::InUse),
        RefusalWord::LastContainer => Some(RefusalText::LastContainer),
        RefusalWord::Builtin => Some(RefusalText::Builtin),
        RefusalWord::EmptyRange => Some(RefusalText::EmptyRange),
        RefusalWord::Full => full(value),
    }
}

fn response_refused(value: &Value) -> Option<ReplyText>
    ensures { result ≡ response_refused (looking (view value.now)) }
{
    let obligation = name_at(Key::Obligation, value)?;
    let action = short_at(Key::Action, value)?;
    let why = text_at(Key::Why, value).and_then(refusal_of)?;
    Some(ReplyText::ResponseRefused {
        obligation,
        action,
        why,
    })
}

#[tactic(auto, unfolding(pm_model::specs::Words::word_text))]
fn other_text(word: &str, value: &Value) -> Option<ReplyText>
    ensures { result ≡ chosen (other_texts (looking (view value.now))) word.now }
{
    match word {
        "ahead" => Some(ReplyText::Ahead),
        "response_refused" => response_refused(value),
        "keep_fault" => Some(ReplyText::KeepFault),
        _ => None,
    }
}

fn unrefused(word: &str, value: &Value) -> Option<ReplyText>
    ensures { result ≡ unrefused_by (looking (view value.now)) (chosen (bad_lines (looking (view value.now))) word.now) word.now }
{
    match bad_line(word, value) {
        Some(bad) => Some(ReplyText::Bad(bad)),
        None => other_text(word, value),
    }
}

/// What the line says whose member `no` is this word.
pub(crate) fn no_text(word: &str, value: &Value) -> Option<ReplyText>
    ensures { result ≡ no_text_by (looking (view value.now)) (beside refusal_words word.now) word.now }
{
    match refusal_of(word) {
        Some(why) => Some(ReplyText::Refused(refused(why, value)?)),
        None => unrefused(word, value),
    }
}
