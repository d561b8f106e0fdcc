//! What stands for names in actions, and what is made of it: subjects and guards.
ghost use Rattle.std.specs.Prelude.{◌≡◌, ◌∷◌, IsTrue, length, Some};
ghost use Rattle.json.specs.Print.{quoted};
ghost use Rattle.serde_json.specs.Data.{number, string, unsigned};
ghost use Rattle.serde_json.specs.Written.{compact_text};
ghost use Rattle.pm_model.specs.Name.{is_name};
ghost use Rattle.pm_model.specs.Words.{key_text};
ghost use Rattle.pm_print.specs.Actions.{event_process_text, guard_told, only, process_told, subject_told, term_subject_told, term_text, term_told, within_text};
ghost use Rattle.pm_print.specs.Growth.{Adds};
ghost use Rattle.pm_print.specs.Members.{leading};

use crate::behind::{Item, add_key_behind};
use crate::put::{add_decimal, add_key, add_quoted, put};
use pm_model::{Guard, Key, Memory, Name, ProcessTerm, Subject, Term};

// Appends the name, or the word for one, in quotes.
#[tactic(auto, unfolding(crate::specs::Actions::term_text))]
fn add_term_text(out: &mut Vec<u8>, term: &Term) -> Result<(), Memory>
    ensures { Adds out.old out.new (quoted (term_text term.now)) result }
{
    match term {
        Term::Named(name) => add_quoted(out, name.bytes()),
        Term::EventUser => put(out, b"\"$user\""),
        Term::EventTarget => put(out, b"\"$target\""),
        Term::Fresh => put(out, b"\"$fresh\""),
    }
}

impl Item for Term {
    ghost told = { term_told };

    fn add(&self, out: &mut Vec<u8>) -> Result<(), Memory> {
        add_term_text(out, self)
    }
}

/// Appends a comma and a member that is a name or the word for one.
#[tactic(auto, unfolding(crate::specs::Members::leading))]
pub(crate) fn add_term(out: &mut Vec<u8>, key: Key, term: &Term) -> Result<(), Memory>
    ensures { Adds out.old out.new (leading (key_text key) (Some (term_told term.now))) result }
{
    add_key_behind(out, key)?;
    add_term_text(out, term)
}

fn add_event_process(out: &mut Vec<u8>) -> Result<(), Memory>
    ensures { Adds out.old out.new (quoted event_process_text) result }
{
    put(out, b"\"$process\"")
}

fn add_process(out: &mut Vec<u8>, process: ProcessTerm) -> Result<(), Memory>
    ensures { Adds out.old out.new (compact_text (process_told process)) result }
{
    match process {
        ProcessTerm::Number(n) => add_decimal(out, u64::from(n)),
        ProcessTerm::EventProcess => add_event_process(out),
    }
}

// Objects of one member.

#[tactic(auto, unfolding(crate::specs::Members::keyed))]
fn add_only_name(out: &mut Vec<u8>, key: Key, name: &Name) -> Result<(), Memory>
    ensures { Adds out.old out.new (compact_text (only key (string name.now))) result }
{
    put(out, b"{")?;
    add_key(out, key)?;
    add_quoted(out, name.bytes())?;
    put(out, b"}")
}

#[tactic(auto, unfolding(crate::specs::Members::keyed))]
fn add_only_number(out: &mut Vec<u8>, key: Key, n: u64) -> Result<(), Memory>
    ensures { Adds out.old out.new (compact_text (only key (number (unsigned n)))) result }
{
    put(out, b"{")?;
    add_key(out, key)?;
    add_decimal(out, n)?;
    put(out, b"}")
}

#[tactic(auto, unfolding(crate::specs::Members::keyed))]
fn add_only_term(out: &mut Vec<u8>, key: Key, term: &Term) -> Result<(), Memory>
    ensures { Adds out.old out.new (compact_text (only key (term_told term.now))) result }
{
    put(out, b"{")?;
    add_key(out, key)?;
    add_term_text(out, term)?;
    put(out, b"}")
}

#[tactic(auto, unfolding(crate::specs::Members::keyed))]
fn add_only_process(out: &mut Vec<u8>, key: Key, process: ProcessTerm) -> Result<(), Memory>
    ensures { Adds out.old out.new (compact_text (only key (process_told process))) result }
{
    put(out, b"{")?;
    add_key(out, key)?;
    add_process(out, process)?;
    put(out, b"}")
}

fn add_subject_value(out: &mut Vec<u8>, subject: &Subject<Name, u32>) -> Result<(), Memory>
    ensures { Adds out.old out.new (compact_text (subject_told subject.now)) result }
{
    match subject {
        Subject::User(name) => add_only_name(out, Key::User, name),
        Subject::Ua(name) => add_only_name(out, Key::Ua, name),
        Subject::Process(n) => add_only_number(out, Key::Process, u64::from(*n)),
    }
}

fn add_term_subject_value(
    out: &mut Vec<u8>,
    subject: &Subject<Term, ProcessTerm>,
) -> Result<(), Memory>
    ensures { Adds out.old out.new (compact_text (term_subject_told subject.now)) result }
{
    match subject {
        Subject::User(term) => add_only_term(out, Key::User, term),
        Subject::Ua(term) => add_only_term(out, Key::Ua, term),
        Subject::Process(process) => add_only_process(out, Key::Process, *process),
    }
}

/// Appends a comma and a command's subject.
#[tactic(auto, unfolding(crate::specs::Members::leading))]
pub(crate) fn add_subject(out: &mut Vec<u8>, subject: &Subject<Name, u32>) -> Result<(), Memory>
    ensures { Adds out.old out.new (leading (key_text Key.Subject) (Some (subject_told subject.now))) result }
{
    add_key_behind(out, Key::Subject)?;
    add_subject_value(out, subject)
}

/// Appends a comma and an action's subject.
#[tactic(auto, unfolding(crate::specs::Members::leading))]
pub(crate) fn add_term_subject(
    out: &mut Vec<u8>,
    subject: &Subject<Term, ProcessTerm>,
) -> Result<(), Memory>
    ensures { Adds out.old out.new (leading (key_text Key.Subject) (Some (term_subject_told subject.now))) result }
{
    add_key_behind(out, Key::Subject)?;
    add_term_subject_value(out, subject)
}

// The word of a guard.
#[tactic(auto, unfolding(crate::specs::Actions::within_text))]
fn within_text(within: bool) -> &'static str
    ensures text { result.now ≡ within_text within }
    ensures named { IsTrue (is_name result.now) }
{
    if within {
        return "in";
    }
    "not_in"
}

// Appends it in quotes, behind the bracket that opens the guard.
fn add_within(out: &mut Vec<u8>, within: bool) -> Result<(), Memory>
    ensures { Adds out.old out.new (91 ∷ quoted (within_text within)) result }
{
    put(out, b"[")?;
    add_quoted(out, within_text(within).as_bytes())
}

// Appends a comma and a term.
fn add_term_behind(out: &mut Vec<u8>, term: &Term) -> Result<(), Memory>
    ensures { Adds out.old out.new (44 ∷ quoted (term_text term.now)) result }
{
    put(out, b",")?;
    add_term_text(out, term)
}

impl Item for Guard {
    ghost told = { guard_told };

    fn add(&self, out: &mut Vec<u8>) -> Result<(), Memory> {
        add_within(out, self.within)?;
        add_term_behind(out, &self.inner)?;
        add_term_behind(out, &self.outer)?;
        put(out, b"]")
    }
}
