//! What an obligation's request has beside its name: which events it waits for, and its actions.
ghost use Rattle.std.specs.Prelude.{◌≡◌, ◌++◌, codes, length, Some};
ghost use Rattle.json.specs.Print.{quoted};
ghost use Rattle.serde_json.specs.Written.{compact_text};
ghost use Rattle.pm_model.specs.Events.{word_to_create};
ghost use Rattle.pm_model.specs.Words.{key_text, word_text};
ghost use Rattle.pm_print.specs.Actions.{act_at, act_back, act_barred, act_ends, act_front, act_sets, act_word, action_told, guards_told, mode_word, term_told, when_back, when_told};
ghost use Rattle.pm_print.specs.Growth.{Adds};
ghost use Rattle.pm_print.specs.Members.{keyed, leading, leading_all, trailing, trailing_all};

use crate::behind::{Item, add_key_behind, add_list_behind, add_name, add_name_if, add_word};
use crate::put::{add_key, add_quoted, put};
use crate::terms::{add_term, add_term_subject};
use pm_model::{
    Act, Action, Guard, Key, Kind, Memory, Mode, Name, ProcessTerm, Subject, Term, When, Word,
};

/// The word of a command that makes an element of the kind.
pub(crate) fn word_to_create(kind: Kind) -> Word
    ensures { result ≡ word_to_create kind }
{
    match kind {
        Kind::User => Word::CreateUser,
        Kind::Ua => Word::CreateUa,
        Kind::Oa => Word::CreateOa,
        Kind::Object => Word::CreateObject,
        Kind::Pc => Word::CreatePc,
    }
}

/// The word of a mode.
pub(crate) fn mode_word(mode: Mode) -> Word
    ensures { result ≡ mode_word mode }
{
    match mode {
        Mode::All => Word::All,
        Mode::Any => Word::Any,
    }
}

/// Appends the member `cmd`, with no comma.
#[tactic(auto, using(crate::proofs::Texts::word_name))]
pub(crate) fn add_cmd(out: &mut Vec<u8>, word: Word) -> Result<(), Memory>
    ensures { Adds out.old out.new (keyed (key_text Key.Cmd) ++ quoted (word_text word)) result }
{
    add_key(out, Key::Cmd)?;
    add_quoted(out, word.text().as_bytes())
}

// The pattern up to its member `on`.
fn add_on(out: &mut Vec<u8>, on: &Name) -> Result<(), Memory>
    ensures { Adds out.old out.new (codes "{" ++ (keyed (key_text Key.On) ++ quoted on.now)) result }
{
    put(out, b"{")?;
    add_key(out, Key::On)?;
    add_quoted(out, on.bytes())
}

fn add_when_back(out: &mut Vec<u8>, when: &When) -> Result<(), Memory>
    ensures { Adds out.old out.new (leading_all (when_back when.now)) result }
{
    add_name_if(out, Key::Target, &when.target)?;
    add_name_if(out, Key::User, &when.user)
}

fn add_when_parts(out: &mut Vec<u8>, when: &When) -> Result<(), Memory>
    ensures { Adds out.old out.new (codes "{" ++ (keyed (key_text Key.On) ++ (quoted when.now.on ++ (leading_all (when_back when.now) ++ codes "}")))) result }
{
    add_on(out, &when.on)?;
    add_when_back(out, when)?;
    put(out, b"}")
}

fn add_when_value(out: &mut Vec<u8>, when: &When) -> Result<(), Memory>
    ensures { Adds out.old out.new (compact_text (when_told when.now)) result }
{
    add_when_parts(out, when)
}

/// Appends a comma and the pattern.
#[tactic(auto, unfolding(crate::specs::Members::leading))]
pub(crate) fn add_when(out: &mut Vec<u8>, when: &When) -> Result<(), Memory>
    ensures { Adds out.old out.new (leading (key_text Key.When) (Some (when_told when.now))) result }
{
    add_key_behind(out, Key::When)?;
    add_when_value(out, when)
}

// The guards of an action, where it has some.
#[tactic(auto, unfolding(crate::specs::Members::leading))]
fn add_guards(out: &mut Vec<u8>, guards: &[Guard]) -> Result<(), Memory>
    ensures { Adds out.old out.new (leading (key_text Key.If) (guards_told guards.now)) result }
{
    if guards.len() == 0 {
        return Ok(());
    }
    add_list_behind(out, Key::If, guards)
}

fn act_word(act: &Act) -> Word
    ensures { result ≡ act_word act.now }
{
    match act {
        Act::Create { kind, .. } => word_to_create(*kind),
        Act::Delete { .. } => Word::Delete,
        Act::Assign { .. } => Word::Assign,
        Act::Deassign { .. } => Word::Deassign,
        Act::Associate { .. } => Word::Associate,
        Act::Dissociate { .. } => Word::Dissociate,
        Act::Prohibit { .. } => Word::Prohibit,
        Act::Lift { .. } => Word::Lift,
    }
}

// The member before `cmd`, and its comma.
#[tactic(auto, unfolding(crate::specs::Members::trailing))]
fn add_at_term(out: &mut Vec<u8>, at: &Term) -> Result<(), Memory>
    ensures { Adds out.old out.new (trailing (key_text Key.At) (Some (term_told at.now))) result }
{
    add_key(out, Key::At)?;
    at.add(out)?;
    put(out, b",")
}

#[tactic(auto, unfolding(crate::specs::Members::trailing))]
fn add_act_at(out: &mut Vec<u8>, act: &Act) -> Result<(), Memory>
    ensures { Adds out.old out.new (trailing (key_text Key.At) (act_at act.now)) result }
{
    match act {
        Act::Associate { at, .. } | Act::Dissociate { at, .. } => add_at_term(out, at),
        Act::Create { .. }
        | Act::Delete { .. }
        | Act::Assign { .. }
        | Act::Deassign { .. }
        | Act::Prohibit { .. }
        | Act::Lift { .. } => Ok(()),
    }
}

// An action up to its member `cmd`.
fn add_open(out: &mut Vec<u8>, act: &Act) -> Result<(), Memory>
    ensures { Adds out.old out.new (codes "{" ++ trailing_all (act_front act.now)) result }
{
    put(out, b"{")?;
    add_act_at(out, act)
}

fn add_creation(
    out: &mut Vec<u8>,
    guards: &[Guard],
    kind: Kind,
    name: &Term,
    into: &Term,
) -> Result<(), Memory>
    ensures { Adds out.old out.new (leading_all (act_back (guards_told guards.now) (Act.Create kind name.now into.now))) result }
{
    add_guards(out, guards)?;
    add_term(out, Key::Into, into)?;
    add_term(out, Key::Name, name)
}

fn add_deletion(out: &mut Vec<u8>, guards: &[Guard], name: &Term) -> Result<(), Memory>
    ensures { Adds out.old out.new (leading_all (act_back (guards_told guards.now) (Act.Delete name.now))) result }
{
    add_guards(out, guards)?;
    add_term(out, Key::Name, name)
}

fn add_ends(out: &mut Vec<u8>, guards: &[Guard], from: &Term, to: &Term) -> Result<(), Memory>
    ensures { Adds out.old out.new (leading_all (act_ends (guards_told guards.now) from.now to.now)) result }
{
    add_term(out, Key::From, from)?;
    add_guards(out, guards)?;
    add_term(out, Key::To, to)
}

fn add_association(
    out: &mut Vec<u8>,
    guards: &[Guard],
    ua: &Term,
    rights: &[Name],
    at: &Term,
) -> Result<(), Memory>
    ensures { Adds out.old out.new (leading_all (act_back (guards_told guards.now) (Act.Associate ua.now rights.now at.now))) result }
{
    add_guards(out, guards)?;
    add_list_behind(out, Key::Rights, rights)?;
    add_term(out, Key::Ua, ua)
}

fn add_dissociation(out: &mut Vec<u8>, guards: &[Guard], ua: &Term, at: &Term) -> Result<(), Memory>
    ensures { Adds out.old out.new (leading_all (act_back (guards_told guards.now) (Act.Dissociate ua.now at.now))) result }
{
    add_guards(out, guards)?;
    add_term(out, Key::Ua, ua)
}

fn add_barred(
    out: &mut Vec<u8>,
    name: &Term,
    rights: &[Name],
    subject: &Subject<Term, ProcessTerm>,
) -> Result<(), Memory>
    ensures { Adds out.old out.new (leading_all (act_barred name.now rights.now subject.now)) result }
{
    add_term(out, Key::Name, name)?;
    add_list_behind(out, Key::Rights, rights)?;
    add_term_subject(out, subject)
}

// The two sets and the mode of a prohibition, with the guards between them.
fn add_sets(
    out: &mut Vec<u8>,
    guards: &[Guard],
    inc: &[Term],
    exc: &[Term],
    mode: Mode,
) -> Result<(), Memory>
    ensures { Adds out.old out.new (leading_all (act_sets (guards_told guards.now) inc.now exc.now mode)) result }
{
    add_list_behind(out, Key::Exc, exc)?;
    add_guards(out, guards)?;
    add_list_behind(out, Key::Inc, inc)?;
    add_word(out, Key::Mode, mode_word(mode))
}

fn add_lifting(out: &mut Vec<u8>, guards: &[Guard], name: &Name) -> Result<(), Memory>
    ensures { Adds out.old out.new (leading_all (act_back (guards_told guards.now) (Act.Lift name.now))) result }
{
    add_guards(out, guards)?;
    add_name(out, Key::Name, name)
}

// The members behind `cmd`.
fn add_act(out: &mut Vec<u8>, guards: &[Guard], act: &Act) -> Result<(), Memory>
    ensures { Adds out.old out.new (leading_all (act_back (guards_told guards.now) act.now)) result }
{
    match act {
        Act::Create { kind, name, into } => add_creation(out, guards, *kind, name, into),
        Act::Delete { name } => add_deletion(out, guards, name),
        Act::Assign { from, to } | Act::Deassign { from, to } => add_ends(out, guards, from, to),
        Act::Associate { ua, rights, at } => {
            add_association(out, guards, ua, rights.as_slice(), at)
        }
        Act::Dissociate { ua, at } => add_dissociation(out, guards, ua, at),
        Act::Prohibit {
            name,
            subject,
            rights,
            inc,
            exc,
            mode,
        } => {
            add_sets(out, guards, inc.as_slice(), exc.as_slice(), *mode)?;
            add_barred(out, name, rights.as_slice(), subject)
        }
        Act::Lift { name } => add_lifting(out, guards, name),
    }
}

// An action, by its member `cmd`.
fn add_action_parts(out: &mut Vec<u8>, action: &Action) -> Result<(), Memory>
    ensures { Adds out.old out.new (codes "{" ++ (trailing_all (act_front action.now.act) ++ (keyed (key_text Key.Cmd) ++ (quoted (word_text (act_word action.now.act)) ++ (leading_all (act_back (guards_told action.now.guards) action.now.act) ++ codes "}"))))) result }
{
    add_open(out, &action.act)?;
    add_cmd(out, act_word(&action.act))?;
    add_act(out, action.guards.as_slice(), &action.act)?;
    put(out, b"}")
}

fn add_action(out: &mut Vec<u8>, action: &Action) -> Result<(), Memory>
    ensures { Adds out.old out.new (compact_text (action_told action.now)) result }
{
    add_action_parts(out, action)
}

impl Item for Action {
    ghost told = { action_told };

    fn add(&self, out: &mut Vec<u8>) -> Result<(), Memory> {
        add_action(out, self)
    }
}
