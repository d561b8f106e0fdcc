//! Whether a line can ask for a request: what its types don't say of it.

ghost use Rattle.std.specs.Prelude.{◌≡◌, ◌+◌, ◌≤◌, ◌<◌, ◌^◌, IsTrue, IfSome, bytes_eq, length};
ghost use Rattle.std.specs.List.{list_any};
ghost use Rattle.pm_model.specs.Formed.{Each};
ghost use Rattle.pm_model.specs.Forms.{distinct};
ghost use Rattle.pm_print.specs.Askable.{AreListed, AreNamed, AreRights, AreSets, IsAskable, IsBody, IsCommand, IsContained, IsKept, IsNamed, IsQuestion, IsShort, IsSubject, IsWhen};

use crate::actions::are_actions;
use pm_model::{Body, Command, Kind, Name, NameList, Question, Request, ReviewOf, Subject, When};

const MOST_LISTED: usize = 32;

/// A name has a name's form.
pub(crate) fn is_named(name: &Name) -> bool
    ensures only { IsTrue result → IsNamed name.now }
    ensures all { IsNamed name.now → IsTrue result }
{
    let bytes = name.bytes();
    !bytes.is_empty()
}

fn named_if(name: &Option<Name>) -> bool
    ensures only { IsTrue result → IfSome name.now IsNamed }
    ensures all { IfSome name.now IsNamed → IsTrue result }
{
    match name {
        None => true,
        Some(name) => is_named(name),
    }
}

fn both_named(one: &Name, other: &Name) -> bool
    ensures only { IsTrue result → IsNamed one.now × IsNamed other.now }
    ensures all { IsNamed one.now × IsNamed other.now → IsTrue result }
{
    is_named(one) && is_named(other)
}

fn are_named(names: &[Name]) -> bool
    ensures only { IsTrue result → AreNamed names.now }
    ensures all { AreNamed names.now → IsTrue result }
{
    for i in 0..names.len() {
        if !is_named(&names[i]) {
            return false;
        }
    }
    true
}

/// A number has 32 bits.
pub(crate) fn is_short(n: u32) -> bool
    ensures only { IsTrue result → IsShort n }
    ensures all { IsShort n → IsTrue result }
{
    n <= u32::MAX
}

fn are_listed(names: &NameList) -> bool
    ensures only { IsTrue result → AreListed names.now }
    ensures all { AreListed names.now → IsTrue result }
{
    0 < names.len() && names.len() <= MOST_LISTED && are_named(names.as_slice())
}

fn contains(names: &[Name], name: &Name) -> bool
    ensures { result ≡ list_any (bytes_eq name.now) names.now }
{
    names.iter().any(|n| name.bytes() == n.bytes())
}

fn is_distinct(names: &[Name]) -> bool
    ensures only { IsTrue result → distinct names.now ≡ names.now }
    ensures all { distinct names.now ≡ names.now → IsTrue result }
{
    for i in 0..names.len() {
        if contains(&names[..i], &names[i]) {
            return false;
        }
    }
    true
}

/// A list of rights has 1 to 32 names, each once.
pub(crate) fn are_rights(names: &NameList) -> bool
    ensures only { IsTrue result → AreRights names.now }
    ensures all { AreRights names.now → IsTrue result }
{
    are_listed(names) && is_distinct(names.as_slice())
}

/// What is made in a container is no class.
pub(crate) fn is_contained(kind: Kind) -> bool
    ensures only { IsTrue result → IsContained kind }
    ensures all { IsContained kind → IsTrue result }
{
    match kind {
        Kind::User | Kind::Ua | Kind::Object | Kind::Oa => true,
        Kind::Pc => false,
    }
}

/// Two lists have at most 32 items together.
pub(crate) fn are_few(one: usize, other: usize) -> bool
    ensures only { IsTrue result → one + other ≤ 32 }
    ensures all { one + other ≤ 32 → IsTrue result }
{
    one <= MOST_LISTED && other <= MOST_LISTED - one
}

fn is_subject(subject: &Subject<Name, u32>) -> bool
    ensures only { IsTrue result → IsSubject IsNamed IsShort subject.now }
    ensures all { IsSubject IsNamed IsShort subject.now → IsTrue result }
{
    match subject {
        Subject::User(name) => is_named(name),
        Subject::Ua(name) => is_named(name),
        Subject::Process(process) => is_short(*process),
    }
}

fn are_sets(
    name: &Name,
    subject: &Subject<Name, u32>,
    rights: &NameList,
    inc: &NameList,
    exc: &NameList,
) -> bool
    ensures only { IsTrue result → AreSets name.now subject.now rights.now inc.now exc.now }
    ensures all { AreSets name.now subject.now rights.now inc.now exc.now → IsTrue result }
{
    is_named(name)
        && is_subject(subject)
        && are_rights(rights)
        && are_named(inc.as_slice())
        && are_named(exc.as_slice())
        && are_few(inc.len(), exc.len())
}

fn is_when(when: &When) -> bool
    ensures only { IsTrue result → IsWhen when.now }
    ensures all { IsWhen when.now → IsTrue result }
{
    is_named(&when.on) && named_if(&when.user) && named_if(&when.target)
}

fn is_kept(of: &ReviewOf<Name>) -> bool
    ensures only { IsTrue result → IsKept of.now }
    ensures all { IsKept of.now → IsTrue result }
{
    match of {
        ReviewOf::Caps(name) => is_named(name),
        ReviewOf::Entries(name) => is_named(name),
    }
}

fn is_command(command: &Command) -> bool
    ensures only { IsTrue result → IsCommand command.now }
    ensures all { IsCommand command.now → IsTrue result }
{
    match command {
        Command::CreatePc { name } => is_named(name),
        Command::Create { kind, name, into } => is_contained(*kind) && both_named(name, into),
        Command::Delete { name } => is_named(name),
        Command::Assign { from, to } => both_named(from, to),
        Command::Deassign { from, to } => both_named(from, to),
        Command::Associate { ua, rights, at } => are_rights(rights) && both_named(ua, at),
        Command::Dissociate { ua, at } => both_named(ua, at),
        Command::Prohibit {
            name,
            subject,
            rights,
            inc,
            exc,
            mode: _,
        } => are_sets(name, subject, rights, inc, exc),
        Command::Lift { name } => is_named(name),
        Command::DefineRight { name } => is_named(name),
        Command::Oblige {
            name,
            when,
            response,
        } => is_named(name) && is_when(when.when()) && are_actions(response),
        Command::Withdraw { name } => is_named(name),
        Command::Keep { of } => is_kept(of),
        Command::DropReview { review } => is_short(*review),
    }
}

fn is_question(question: &Question) -> bool
    ensures only { IsTrue result → IsQuestion question.now }
    ensures all { IsQuestion question.now → IsTrue result }
{
    match question {
        Question::Caps { user } => is_named(user),
        Question::Entries { element } => is_named(element),
        Question::Survey { users } => are_listed(users),
        Question::Kept { review } => is_short(*review),
        Question::Changes { review } => is_short(*review),
    }
}

fn is_body(body: &Body) -> bool
    ensures only { IsTrue result → IsBody body.now }
    ensures all { IsBody body.now → IsTrue result }
{
    match body {
        Body::Version => true,
        Body::OpenSession { user } => is_named(user),
        Body::CloseSession { session } => is_short(*session),
        Body::StartProcess { session } => is_short(*session),
        Body::EndProcess { process } => is_short(*process),
        Body::Access {
            process,
            right,
            target,
        } => is_short(*process) && both_named(right, target),
        Body::Admin { process, command } => is_short(*process) && is_command(command),
        Body::Review { process, question } => is_short(*process) && is_question(question),
    }
}

fn is_whole_if(n: Option<u64>) -> bool
    ensures only { IsTrue result → IfSome n (λ m. m < 2 ^ 64) }
    ensures all { IfSome n (λ m. m < 2 ^ 64) → IsTrue result }
{
    match n {
        None => true,
        Some(n) => n <= u64::MAX,
    }
}

/// Whether a line can ask for the request.
pub(crate) fn is_askable(request: &Request) -> bool
    ensures only { IsTrue result → IsAskable request.now }
    ensures all { IsAskable request.now → IsTrue result }
{
    is_whole_if(request.after) && is_body(&request.body)
}
