//! A function for each row of the table of commands, and the row of a word.
ghost use Rattle.std.specs.Prelude.{Result, Ok, ◌≡◌};
ghost use Rattle.serde_json.specs.View.{view};
ghost use Rattle.pm_model.specs.Forms.{kind_of, looking};
ghost use Rattle.pm_model.specs.Results.{and_then};
ghost use Rattle.pm_model.specs.Asked.{access_of, admin_of, assign_of, associate_of, caps_of, changes_of, close_session_of, create_of, create_pc_of, deassign_of, define_right_of, delete_of, dissociate_of, do_at, drop_review_of, end_process_of, ends_of, entries_of, keep_of, kept_of, lift_of, mode_at, name_at, oblige_of, open_session_of, prohibit_of, required, review_of, row_of, sets_of, start_process_of, survey_of, when_at, withdraw_of};
ghost use Rattle.pm_model.specs.declared.lines.BadLine.{BadLine};
ghost use Rattle.pm_model.specs.declared.requests.Command.{Command};
ghost use Rattle.pm_model.specs.declared.requests.Command.TheVariants.{Keep, Prohibit};
ghost use Rattle.pm_model.specs.declared.requests.Question.{Question};
ghost use Rattle.pm_read.specs.Reads.{Reads, ReadsRow};
ghost use Rattle.pm_read.specs.Rows.{FindsRow, element_words, review_words, rule_words, session_words};

use crate::errors::ReadError;
use crate::forms::{mode_at, name_at, number_at, process, rights_at, sets, subject_at, users_at};
use crate::responses::response;
use crate::terms::when;
use pm_model::{
    Awaited, BadLine, Body, Command, Key, Kind, Name, NameList, Question, Response, ReviewOf,
    Subject,
};
use serde_json::Value;
use std::alloc::Global;

fn open_session(value: &Value) -> Result<Body, ReadError>
    ensures { Reads result (open_session_of (looking (view value.now))) }
{
    let user = name_at(Key::User, value)?;
    Ok(Body::OpenSession { user })
}

fn close_session(value: &Value) -> Result<Body, ReadError>
    ensures { Reads result (close_session_of (looking (view value.now))) }
{
    let session = number_at(Key::Session, value)?;
    Ok(Body::CloseSession { session })
}

fn start_process(value: &Value) -> Result<Body, ReadError>
    ensures { Reads result (start_process_of (looking (view value.now))) }
{
    let session = number_at(Key::Session, value)?;
    Ok(Body::StartProcess { session })
}

fn end_process(value: &Value) -> Result<Body, ReadError>
    ensures { Reads result (end_process_of (looking (view value.now))) }
{
    let process = number_at(Key::Process, value)?;
    Ok(Body::EndProcess { process })
}

fn create_pc(value: &Value) -> Result<Command, BadLine>
    ensures { result ≡ create_pc_of (looking (view value.now)) }
{
    let name = name_at(Key::Name, value)?;
    Ok(Command::CreatePc { name })
}

fn create(kind: Kind, value: &Value) -> Result<Command, BadLine>
    ensures { result ≡ create_of (looking (view value.now)) kind }
{
    let name = name_at(Key::Name, value)?;
    let into = name_at(Key::Into, value)?;
    Ok(Command::Create { kind, name, into })
}

fn delete(value: &Value) -> Result<Command, BadLine>
    ensures { result ≡ delete_of (looking (view value.now)) }
{
    let name = name_at(Key::Name, value)?;
    Ok(Command::Delete { name })
}

// The fields `from` and `to`.
fn ends(value: &Value) -> Result<(Name, Name), BadLine>
    ensures { result ≡ ends_of (looking (view value.now)) }
{
    let from = name_at(Key::From, value)?;
    let to = name_at(Key::To, value)?;
    Ok((from, to))
}

fn assign(value: &Value) -> Result<Command, BadLine>
    ensures { result ≡ assign_of (looking (view value.now)) }
{
    let (from, to) = ends(value)?;
    Ok(Command::Assign { from, to })
}

fn deassign(value: &Value) -> Result<Command, BadLine>
    ensures { result ≡ deassign_of (looking (view value.now)) }
{
    let (from, to) = ends(value)?;
    Ok(Command::Deassign { from, to })
}

fn associate(alloc: Global, value: &Value) -> Result<Command, ReadError>
    ensures { Reads result (associate_of (looking (view value.now))) }
{
    let ua = name_at(Key::Ua, value)?;
    let rights = rights_at(alloc, value)?;
    let at = name_at(Key::At, value)?;
    Ok(Command::Associate { ua, rights, at })
}

fn dissociate(value: &Value) -> Result<Command, BadLine>
    ensures { result ≡ dissociate_of (looking (view value.now)) }
{
    let ua = name_at(Key::Ua, value)?;
    let at = name_at(Key::At, value)?;
    Ok(Command::Dissociate { ua, at })
}

// The same, once its first three fields were read.
fn prohibit_with(
    name: Name,
    subject: Subject<Name, u32>,
    rights: NameList,
    value: &Value,
) -> Result<Command, ReadError>
    ensures { Reads result (and_then (sets_of (looking (view value.now))) (λ sets. and_then (mode_at (looking (view value.now))) (λ mode. Ok (Prohibit name subject rights sets.0 sets.1 mode)))) }
{
    let alloc = rights.allocator();
    let (inc, exc) = sets(alloc, value)?;
    let mode = mode_at(value)?;
    Ok(Command::Prohibit {
        name,
        subject,
        rights,
        inc,
        exc,
        mode,
    })
}

fn prohibit(alloc: Global, value: &Value) -> Result<Command, ReadError>
    ensures { Reads result (prohibit_of (looking (view value.now))) }
{
    let name = name_at(Key::Name, value)?;
    let subject = subject_at(value)?;
    let rights = rights_at(alloc, value)?;
    prohibit_with(name, subject, rights, value)
}

fn lift(value: &Value) -> Result<Command, BadLine>
    ensures { result ≡ lift_of (looking (view value.now)) }
{
    let name = name_at(Key::Name, value)?;
    Ok(Command::Lift { name })
}

fn define_right(value: &Value) -> Result<Command, BadLine>
    ensures { result ≡ define_right_of (looking (view value.now)) }
{
    let name = name_at(Key::Name, value)?;
    Ok(Command::DefineRight { name })
}

fn when_at(alloc: Global, value: &Value) -> Result<Awaited, ReadError>
    ensures { Reads result (when_at (looking (view value.now))) }
{
    match value.get(Key::When.text()).and_then(when) {
        None => Err(ReadError::Bad(BadLine::BadField(Key::When))),
        Some(when) => Ok(Awaited::new(alloc, when)?),
    }
}

fn do_at(alloc: Global, value: &Value) -> Result<Response, ReadError>
    ensures { Reads result (do_at (looking (view value.now))) }
{
    let Some(found) = value.get(Key::Do.text()) else {
        return Err(ReadError::Bad(BadLine::BadField(Key::Do)));
    };
    match response(alloc, found)? {
        None => Err(ReadError::Bad(BadLine::BadField(Key::Do))),
        Some(response) => Ok(response),
    }
}

fn oblige(alloc: Global, value: &Value) -> Result<Command, ReadError>
    ensures { Reads result (oblige_of (looking (view value.now))) }
{
    let name = name_at(Key::Name, value)?;
    let when = when_at(alloc, value)?;
    let response = do_at(alloc, value)?;
    Ok(Command::Oblige {
        name,
        when,
        response,
    })
}

fn withdraw(value: &Value) -> Result<Command, BadLine>
    ensures { result ≡ withdraw_of (looking (view value.now)) }
{
    let name = name_at(Key::Name, value)?;
    Ok(Command::Withdraw { name })
}

// With the word of what is kept.
#[tactic(auto, unfolding(pm_model::specs::Words::word_text))]
fn keep_named(word: &str, value: &Value) -> Result<Command, BadLine>
    ensures { result ≡ and_then (required Key.Kind (kind_of word.now)) (λ kind. and_then (name_at (looking (view value.now)) Key.Of) (λ name. Ok (Keep (kind name)))) }
{
    match word {
        "caps" => {
            let user = name_at(Key::Of, value)?;
            let of = ReviewOf::Caps(user);
            Ok(Command::Keep { of })
        }
        "entries" => {
            let element = name_at(Key::Of, value)?;
            let of = ReviewOf::Entries(element);
            Ok(Command::Keep { of })
        }
        _ => Err(BadLine::BadField(Key::Kind)),
    }
}

fn keep(value: &Value) -> Result<Command, BadLine>
    ensures { result ≡ keep_of (looking (view value.now)) }
{
    match value.get(Key::Kind.text()).and_then(Value::as_str) {
        None => Err(BadLine::BadField(Key::Kind)),
        Some(word) => keep_named(word, value),
    }
}

fn drop_review(value: &Value) -> Result<Command, BadLine>
    ensures { result ≡ drop_review_of (looking (view value.now)) }
{
    let review = number_at(Key::Review, value)?;
    Ok(Command::DropReview { review })
}

fn access(value: &Value) -> Result<Body, ReadError>
    ensures { Reads result (access_of (looking (view value.now))) }
{
    let process = process(value)?;
    let right = name_at(Key::Right, value)?;
    let target = name_at(Key::Target, value)?;
    Ok(Body::Access {
        process,
        right,
        target,
    })
}

fn admin(command: Result<Command, ReadError>, value: &Value) -> Result<Body, ReadError>
    ensures { (c : Result Command BadLine) → Reads command c → Reads result (admin_of (looking (view value.now)) c) }
{
    let process = process(value)?;
    let command = command?;
    Ok(Body::Admin { process, command })
}

// The same, of a command whose reading takes no memory.
fn plain_admin(command: Result<Command, BadLine>, value: &Value) -> Result<Body, ReadError>
    ensures { Reads result (admin_of (looking (view value.now)) command) }
{
    match command {
        Ok(command) => admin(Ok(command), value),
        Err(bad) => admin(Err(ReadError::Bad(bad)), value),
    }
}

fn caps(value: &Value) -> Result<Question, BadLine>
    ensures { result ≡ caps_of (looking (view value.now)) }
{
    let user = name_at(Key::User, value)?;
    Ok(Question::Caps { user })
}

fn entries(value: &Value) -> Result<Question, BadLine>
    ensures { result ≡ entries_of (looking (view value.now)) }
{
    let element = name_at(Key::Element, value)?;
    Ok(Question::Entries { element })
}

fn survey(alloc: Global, value: &Value) -> Result<Question, ReadError>
    ensures { Reads result (survey_of (looking (view value.now))) }
{
    let users = users_at(alloc, value)?;
    Ok(Question::Survey { users })
}

fn kept(value: &Value) -> Result<Question, BadLine>
    ensures { result ≡ kept_of (looking (view value.now)) }
{
    let review = number_at(Key::Review, value)?;
    Ok(Question::Kept { review })
}

fn changes(value: &Value) -> Result<Question, BadLine>
    ensures { result ≡ changes_of (looking (view value.now)) }
{
    let review = number_at(Key::Review, value)?;
    Ok(Question::Changes { review })
}

fn review(question: Result<Question, ReadError>, value: &Value) -> Result<Body, ReadError>
    ensures { (q : Result Question BadLine) → Reads question q → Reads result (review_of (looking (view value.now)) q) }
{
    let process = process(value)?;
    let question = question?;
    Ok(Body::Review { process, question })
}

// The same, of a question whose reading takes no memory.
fn plain_review(question: Result<Question, BadLine>, value: &Value) -> Result<Body, ReadError>
    ensures { Reads result (review_of (looking (view value.now)) question) }
{
    match question {
        Ok(question) => review(Ok(question), value),
        Err(bad) => review(Err(ReadError::Bad(bad)), value),
    }
}

// The row of the version, of an access, or of a word of sessions and processes.
#[tactic(auto, unfolding(pm_model::specs::Words::word_text))]
fn session_row(word: &str, value: &Value) -> Option<Result<Body, ReadError>>
    ensures { FindsRow session_words word.now (row_of (looking (view value.now)) word.now) result }
{
    match word {
        "version" => Some(Ok(Body::Version)),
        "access" => Some(access(value)),
        "open_session" => Some(open_session(value)),
        "close_session" => Some(close_session(value)),
        "start_process" => Some(start_process(value)),
        "end_process" => Some(end_process(value)),
        _ => None,
    }
}

// The row of a word of elements.
#[inline(never)]
#[tactic(auto, unfolding(pm_model::specs::Words::word_text))]
fn element_row(word: &str, value: &Value) -> Option<Result<Body, ReadError>>
    ensures { FindsRow element_words word.now (row_of (looking (view value.now)) word.now) result }
{
    match word {
        "create_pc" => Some(plain_admin(create_pc(value), value)),
        "create_user" => Some(plain_admin(create(Kind::User, value), value)),
        "create_ua" => Some(plain_admin(create(Kind::Ua, value), value)),
        "create_oa" => Some(plain_admin(create(Kind::Oa, value), value)),
        "create_object" => Some(plain_admin(create(Kind::Object, value), value)),
        "delete" => Some(plain_admin(delete(value), value)),
        "assign" => Some(plain_admin(assign(value), value)),
        "deassign" => Some(plain_admin(deassign(value), value)),
        _ => None,
    }
}

// The row of a word of what gives rights, takes them or acts.
#[inline(never)]
#[tactic(auto, unfolding(pm_model::specs::Words::word_text))]
fn rule_row(alloc: Global, word: &str, value: &Value) -> Option<Result<Body, ReadError>>
    ensures { FindsRow rule_words word.now (row_of (looking (view value.now)) word.now) result }
{
    match word {
        "associate" => Some(admin(associate(alloc, value), value)),
        "dissociate" => Some(plain_admin(dissociate(value), value)),
        "prohibit" => Some(admin(prohibit(alloc, value), value)),
        "lift" => Some(plain_admin(lift(value), value)),
        "define_right" => Some(plain_admin(define_right(value), value)),
        "oblige" => Some(admin(oblige(alloc, value), value)),
        "withdraw" => Some(plain_admin(withdraw(value), value)),
        _ => None,
    }
}

// The row of a word of reviews.
#[inline(never)]
#[tactic(auto, unfolding(pm_model::specs::Words::word_text))]
fn review_row(alloc: Global, word: &str, value: &Value) -> Option<Result<Body, ReadError>>
    ensures { FindsRow review_words word.now (row_of (looking (view value.now)) word.now) result }
{
    match word {
        "keep" => Some(plain_admin(keep(value), value)),
        "drop_review" => Some(plain_admin(drop_review(value), value)),
        "caps" => Some(plain_review(caps(value), value)),
        "entries" => Some(plain_review(entries(value), value)),
        "survey" => Some(review(survey(alloc, value), value)),
        "kept" => Some(plain_review(kept(value), value)),
        "changes" => Some(plain_review(changes(value), value)),
        _ => None,
    }
}

/// The row of the word, where it is one. The version and an access come first. The other groups stand by themselves, since a function
/// clears its locals at entry, and those of what is made a part of it.
pub(crate) fn row(alloc: Global, word: &str, value: &Value) -> Option<Result<Body, ReadError>>
    ensures { ReadsRow result (row_of (looking (view value.now)) word.now) }
{
    if let Some(row) = session_row(word, value) {
        return Some(row);
    }
    if let Some(row) = element_row(word, value) {
        return Some(row);
    }
    if let Some(row) = rule_row(alloc, word, value) {
        return Some(row);
    }
    review_row(alloc, word, value)
}
