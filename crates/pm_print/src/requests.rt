//! The line of a request, a function for each row of the table of requests.
ghost use Rattle.std.specs.Prelude.{◌≡◌, ◌++◌, ◌≤◌, ◌+◌, codes, length, vec_len, vec_capacity, OnOk, OnErr, IsOk, Some};
ghost use Rattle.json.specs.Print.{quoted};
ghost use Rattle.pm_model.specs.Object.{texted, whole_if};
ghost use Rattle.pm_model.specs.Words.{key_text, word_text};
ghost use Rattle.pm_print.specs.Growth.{Adds};
ghost use Rattle.pm_print.specs.Members.{keyed, leading_all, trailing, trailing_all};
ghost use Rattle.pm_print.specs.Requested.{awaited_back, barred_back, body_at, body_back, body_front, body_word, command_at, command_back, command_word, ends_back, keep_back, named_back, question_back, question_word, request_text, review_back, session_back, sets_back};

use crate::actions::{add_cmd, add_when, mode_word, word_to_create};
use crate::behind::{Member, add_list_behind, add_members, add_name, add_number, add_number_if};
use crate::print::whole_or_none;
use crate::put::{add_decimal, add_key, add_quoted, put};
use crate::terms::add_subject;
use pm_model::{
    Action, Awaited, Body, Command, Key, Kind, Memory, Mode, Name, Question, Request, Response,
    ReviewOf, Subject, Word,
};

fn command_word(command: &Command) -> Word
    ensures { result ≡ command_word command.now }
{
    match command {
        Command::CreatePc { .. } => Word::CreatePc,
        Command::Create { kind, .. } => word_to_create(*kind),
        Command::Delete { .. } => Word::Delete,
        Command::Assign { .. } => Word::Assign,
        Command::Deassign { .. } => Word::Deassign,
        Command::Associate { .. } => Word::Associate,
        Command::Dissociate { .. } => Word::Dissociate,
        Command::Prohibit { .. } => Word::Prohibit,
        Command::Lift { .. } => Word::Lift,
        Command::DefineRight { .. } => Word::DefineRight,
        Command::Oblige { .. } => Word::Oblige,
        Command::Withdraw { .. } => Word::Withdraw,
        Command::Keep { .. } => Word::Keep,
        Command::DropReview { .. } => Word::DropReview,
    }
}

fn question_word(question: &Question) -> Word
    ensures { result ≡ question_word question.now }
{
    match question {
        Question::Caps { .. } => Word::Caps,
        Question::Entries { .. } => Word::Entries,
        Question::Survey { .. } => Word::Survey,
        Question::Kept { .. } => Word::Kept,
        Question::Changes { .. } => Word::Changes,
    }
}

fn body_word(body: &Body) -> Word
    ensures { result ≡ body_word body.now }
{
    match body {
        Body::Version => Word::Version,
        Body::OpenSession { .. } => Word::OpenSession,
        Body::CloseSession { .. } => Word::CloseSession,
        Body::StartProcess { .. } => Word::StartProcess,
        Body::EndProcess { .. } => Word::EndProcess,
        Body::Access { .. } => Word::Access,
        Body::Admin { command, .. } => command_word(command),
        Body::Review { question, .. } => question_word(question),
    }
}

// ---- before `cmd`

#[tactic(auto, unfolding(crate::specs::Members::trailing))]
fn add_after(out: &mut Vec<u8>, after: u64) -> Result<(), Memory>
    ensures { Adds out.old out.new (trailing (key_text Key.After) (whole_if (Some after))) result }
{
    add_key(out, Key::After)?;
    add_decimal(out, after)?;
    put(out, b",")
}

#[tactic(auto, unfolding(crate::specs::Members::trailing))]
fn add_after_if(out: &mut Vec<u8>, after: Option<u64>) -> Result<(), Memory>
    ensures { Adds out.old out.new (trailing (key_text Key.After) (whole_if after)) result }
{
    match after {
        None => Ok(()),
        Some(after) => add_after(out, after),
    }
}

#[tactic(auto, unfolding(crate::specs::Members::trailing))]
fn add_at(out: &mut Vec<u8>, at: &Name) -> Result<(), Memory>
    ensures { Adds out.old out.new (trailing (key_text Key.At) (texted at.now)) result }
{
    add_key(out, Key::At)?;
    add_quoted(out, at.bytes())?;
    put(out, b",")
}

#[tactic(auto, unfolding(crate::specs::Members::trailing))]
fn add_command_at(out: &mut Vec<u8>, command: &Command) -> Result<(), Memory>
    ensures { Adds out.old out.new (trailing (key_text Key.At) (command_at command.now)) result }
{
    match command {
        Command::Associate { at, .. } | Command::Dissociate { at, .. } => add_at(out, at),
        _ => Ok(()),
    }
}

#[tactic(auto, unfolding(crate::specs::Members::trailing))]
fn add_body_at(out: &mut Vec<u8>, body: &Body) -> Result<(), Memory>
    ensures { Adds out.old out.new (trailing (key_text Key.At) (body_at body.now)) result }
{
    match body {
        Body::Admin { command, .. } => add_command_at(out, command),
        _ => Ok(()),
    }
}

fn add_front(out: &mut Vec<u8>, after: Option<u64>, body: &Body) -> Result<(), Memory>
    ensures { Adds out.old out.new (codes "{" ++ trailing_all (body_front after body.now)) result }
{
    put(out, b"{")?;
    add_after_if(out, after)?;
    add_body_at(out, body)
}

// ---- behind `cmd`

fn add_session(out: &mut Vec<u8>, id: Option<u64>, session: u32) -> Result<(), Memory>
    ensures { Adds out.old out.new (leading_all (session_back id session)) result }
{
    add_members(
        out,
        &[
            Member::NumberIf(Key::Id, id),
            Member::Number(Key::Session, u64::from(session)),
        ],
    )
}

fn add_named(out: &mut Vec<u8>, id: Option<u64>, process: u32, name: &Name) -> Result<(), Memory>
    ensures { Adds out.old out.new (leading_all (named_back id process name.now)) result }
{
    add_members(
        out,
        &[
            Member::NumberIf(Key::Id, id),
            Member::Name(Key::Name, name),
            Member::Number(Key::Proc, u64::from(process)),
        ],
    )
}

fn add_creation<'a>(
    out: &mut Vec<u8>,
    id: Option<u64>,
    process: u32,
    kind: Kind,
    name: &'a Name,
    into: &'a Name,
) -> Result<(), Memory>
    ensures { Adds out.old out.new (leading_all (command_back id process (Command.Create kind name.now into.now))) result }
{
    add_members(
        out,
        &[
            Member::NumberIf(Key::Id, id),
            Member::Name(Key::Into, into),
            Member::Name(Key::Name, name),
            Member::Number(Key::Proc, u64::from(process)),
        ],
    )
}

fn add_ends<'a>(
    out: &mut Vec<u8>,
    id: Option<u64>,
    process: u32,
    from: &'a Name,
    to: &'a Name,
) -> Result<(), Memory>
    ensures { Adds out.old out.new (leading_all (ends_back id process from.now to.now)) result }
{
    add_members(
        out,
        &[
            Member::Name(Key::From, from),
            Member::NumberIf(Key::Id, id),
            Member::Number(Key::Proc, u64::from(process)),
            Member::Name(Key::To, to),
        ],
    )
}

fn add_association<'a>(
    out: &mut Vec<u8>,
    id: Option<u64>,
    process: u32,
    ua: &'a Name,
    rights: &'a [Name],
    at: &'a Name,
) -> Result<(), Memory>
    ensures { Adds out.old out.new (leading_all (command_back id process (Command.Associate ua.now rights.now at.now))) result }
{
    add_members(
        out,
        &[
            Member::NumberIf(Key::Id, id),
            Member::Number(Key::Proc, u64::from(process)),
            Member::Names(Key::Rights, rights),
            Member::Name(Key::Ua, ua),
        ],
    )
}

fn add_dissociation(
    out: &mut Vec<u8>,
    id: Option<u64>,
    process: u32,
    ua: &Name,
    at: &Name,
) -> Result<(), Memory>
    ensures { Adds out.old out.new (leading_all (command_back id process (Command.Dissociate ua.now at.now))) result }
{
    add_members(
        out,
        &[
            Member::NumberIf(Key::Id, id),
            Member::Number(Key::Proc, u64::from(process)),
            Member::Name(Key::Ua, ua),
        ],
    )
}

fn add_sets<'a>(
    out: &mut Vec<u8>,
    id: Option<u64>,
    inc: &'a [Name],
    exc: &'a [Name],
    mode: Mode,
) -> Result<(), Memory>
    ensures { Adds out.old out.new (leading_all (sets_back id inc.now exc.now mode)) result }
{
    add_members(
        out,
        &[
            Member::Names(Key::Exc, exc),
            Member::NumberIf(Key::Id, id),
            Member::Names(Key::Inc, inc),
            Member::Word(Key::Mode, mode_word(mode)),
        ],
    )
}

fn add_barred(
    out: &mut Vec<u8>,
    process: u32,
    name: &Name,
    rights: &[Name],
    subject: &Subject<Name, u32>,
) -> Result<(), Memory>
    ensures { Adds out.old out.new (leading_all (barred_back process name.now rights.now subject.now)) result }
{
    add_name(out, Key::Name, name)?;
    add_number(out, Key::Proc, u64::from(process))?;
    add_list_behind(out, Key::Rights, rights)?;
    add_subject(out, subject)
}

fn add_awaited(out: &mut Vec<u8>, process: u32, name: &Name, when: &Awaited) -> Result<(), Memory>
    ensures { Adds out.old out.new (leading_all (awaited_back process name.now when.now)) result }
{
    add_name(out, Key::Name, name)?;
    add_number(out, Key::Proc, u64::from(process))?;
    add_when(out, when.when())
}

fn add_obligation(
    out: &mut Vec<u8>,
    id: Option<u64>,
    process: u32,
    name: &Name,
    when: &Awaited,
    actions: &[Action],
) -> Result<(), Memory>
    ensures { Adds out.old out.new (leading_all (command_back id process (Command.Oblige name.now when.now actions.now))) result }
{
    add_list_behind(out, Key::Do, actions)?;
    add_number_if(out, Key::Id, id)?;
    add_awaited(out, process, name, when)
}

fn add_kept(
    out: &mut Vec<u8>,
    id: Option<u64>,
    process: u32,
    kind: Word,
    name: &Name,
) -> Result<(), Memory>
    ensures { Adds out.old out.new (leading_all (keep_back id process kind name.now)) result }
{
    add_members(
        out,
        &[
            Member::NumberIf(Key::Id, id),
            Member::Word(Key::Kind, kind),
            Member::Name(Key::Of, name),
            Member::Number(Key::Proc, u64::from(process)),
        ],
    )
}

fn add_keep(
    out: &mut Vec<u8>,
    id: Option<u64>,
    process: u32,
    of: &ReviewOf<Name>,
) -> Result<(), Memory>
    ensures { Adds out.old out.new (leading_all (command_back id process (Command.Keep of.now))) result }
{
    match of {
        ReviewOf::Caps(name) => add_kept(out, id, process, Word::Caps, name),
        ReviewOf::Entries(name) => add_kept(out, id, process, Word::Entries, name),
    }
}

fn add_review(out: &mut Vec<u8>, id: Option<u64>, process: u32, review: u32) -> Result<(), Memory>
    ensures { Adds out.old out.new (leading_all (review_back id process review)) result }
{
    add_members(
        out,
        &[
            Member::NumberIf(Key::Id, id),
            Member::Number(Key::Proc, u64::from(process)),
            Member::Number(Key::Review, u64::from(review)),
        ],
    )
}

fn add_command(
    out: &mut Vec<u8>,
    id: Option<u64>,
    process: u32,
    command: &Command,
) -> Result<(), Memory>
    ensures { Adds out.old out.new (leading_all (command_back id process command.now)) result }
{
    match command {
        Command::CreatePc { name }
        | Command::Delete { name }
        | Command::Lift { name }
        | Command::DefineRight { name }
        | Command::Withdraw { name } => add_named(out, id, process, name),
        Command::Create { kind, name, into } => add_creation(out, id, process, *kind, name, into),
        Command::Assign { from, to } | Command::Deassign { from, to } => {
            add_ends(out, id, process, from, to)
        }
        Command::Associate { ua, rights, at } => {
            add_association(out, id, process, ua, rights.as_slice(), at)
        }
        Command::Dissociate { ua, at } => add_dissociation(out, id, process, ua, at),
        Command::Prohibit {
            name,
            subject,
            rights,
            inc,
            exc,
            mode,
        } => {
            add_sets(out, id, inc.as_slice(), exc.as_slice(), *mode)?;
            add_barred(out, process, name, rights.as_slice(), subject)
        }
        Command::Oblige {
            name,
            when,
            response,
        } => add_obligation(out, id, process, name, when, response.actions().as_slice()),
        Command::Keep { of } => add_keep(out, id, process, of),
        Command::DropReview { review } => add_review(out, id, process, *review),
    }
}

fn add_caps(out: &mut Vec<u8>, id: Option<u64>, process: u32, user: &Name) -> Result<(), Memory>
    ensures { Adds out.old out.new (leading_all (question_back id process (Question.Caps user.now))) result }
{
    add_members(
        out,
        &[
            Member::NumberIf(Key::Id, id),
            Member::Number(Key::Proc, u64::from(process)),
            Member::Name(Key::User, user),
        ],
    )
}

fn add_entries(
    out: &mut Vec<u8>,
    id: Option<u64>,
    process: u32,
    element: &Name,
) -> Result<(), Memory>
    ensures { Adds out.old out.new (leading_all (question_back id process (Question.Entries element.now))) result }
{
    add_members(
        out,
        &[
            Member::Name(Key::Element, element),
            Member::NumberIf(Key::Id, id),
            Member::Number(Key::Proc, u64::from(process)),
        ],
    )
}

fn add_survey(
    out: &mut Vec<u8>,
    id: Option<u64>,
    process: u32,
    users: &[Name],
) -> Result<(), Memory>
    ensures { Adds out.old out.new (leading_all (question_back id process (Question.Survey users.now))) result }
{
    add_members(
        out,
        &[
            Member::NumberIf(Key::Id, id),
            Member::Number(Key::Proc, u64::from(process)),
            Member::Names(Key::Users, users),
        ],
    )
}

fn add_question(
    out: &mut Vec<u8>,
    id: Option<u64>,
    process: u32,
    question: &Question,
) -> Result<(), Memory>
    ensures { Adds out.old out.new (leading_all (question_back id process question.now)) result }
{
    match question {
        Question::Caps { user } => add_caps(out, id, process, user),
        Question::Entries { element } => add_entries(out, id, process, element),
        Question::Survey { users } => add_survey(out, id, process, users.as_slice()),
        Question::Kept { review } | Question::Changes { review } => {
            add_review(out, id, process, *review)
        }
    }
}

fn add_user(out: &mut Vec<u8>, id: Option<u64>, user: &Name) -> Result<(), Memory>
    ensures { Adds out.old out.new (leading_all (body_back id (Body.OpenSession user.now))) result }
{
    add_members(
        out,
        &[Member::NumberIf(Key::Id, id), Member::Name(Key::User, user)],
    )
}

fn add_process(out: &mut Vec<u8>, id: Option<u64>, process: u32) -> Result<(), Memory>
    ensures { Adds out.old out.new (leading_all (body_back id (Body.EndProcess process))) result }
{
    add_members(
        out,
        &[
            Member::NumberIf(Key::Id, id),
            Member::Number(Key::Process, u64::from(process)),
        ],
    )
}

fn add_access<'a>(
    out: &mut Vec<u8>,
    id: Option<u64>,
    process: u32,
    right: &'a Name,
    target: &'a Name,
) -> Result<(), Memory>
    ensures { Adds out.old out.new (leading_all (body_back id (Body.Access process right.now target.now))) result }
{
    add_members(
        out,
        &[
            Member::NumberIf(Key::Id, id),
            Member::Number(Key::Proc, u64::from(process)),
            Member::Name(Key::Right, right),
            Member::Name(Key::Target, target),
        ],
    )
}

fn add_back(out: &mut Vec<u8>, id: Option<u64>, body: &Body) -> Result<(), Memory>
    ensures { Adds out.old out.new (leading_all (body_back id body.now)) result }
{
    match body {
        Body::Version => add_number_if(out, Key::Id, id),
        Body::OpenSession { user } => add_user(out, id, user),
        Body::CloseSession { session } | Body::StartProcess { session } => {
            add_session(out, id, *session)
        }
        Body::EndProcess { process } => add_process(out, id, *process),
        Body::Access {
            process,
            right,
            target,
        } => add_access(out, id, *process, right, target),
        Body::Admin { process, command } => add_command(out, id, *process, command),
        Body::Review { process, question } => add_question(out, id, *process, question),
    }
}

// ---- the line

fn add_parts(out: &mut Vec<u8>, id: Option<u64>, request: &Request) -> Result<(), Memory>
    ensures { Adds out.old out.new (codes "{" ++ (trailing_all (body_front request.now.after request.now.body) ++ (keyed (key_text Key.Cmd) ++ (quoted (word_text (body_word request.now.body)) ++ (leading_all (body_back id request.now.body) ++ codes "}\n"))))) result }
{
    add_front(out, request.after, &request.body)?;
    add_cmd(out, body_word(&request.body))?;
    add_back(out, id, &request.body)?;
    put(out, b"}\n")
}

fn add_line(out: &mut Vec<u8>, id: Option<u64>, request: &Request) -> Result<(), Memory>
    ensures { Adds out.old out.new (request_text id request.now) result }
{
    add_parts(out, id, request)
}

/// Appends the line of the request, its line feed included: one object with its keys in alphabetical order, in which nothing
/// stands that need not. On Memory `out` is as before; with room for the line it is Ok.
pub fn print_request(id: Option<u64>, request: &Request, out: &mut Vec<u8>) -> Result<(), Memory>
    ensures ok { OnOk result (out.new.items ≡ out.old.items ++ request_text id request.now) }
    ensures err { OnErr result (out.new.items ≡ out.old.items) }
    ensures room { vec_len out.old + length (request_text id request.now) ≤ vec_capacity out.old → IsOk result }
    ensures capacity { vec_capacity out.old ≤ vec_capacity out.new }
{
    let before = out.len();
    let written = add_line(out, id, request);
    whole_or_none(out, before, written)
}
