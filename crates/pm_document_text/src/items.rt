//! The items of a policy, as their values in JSON.
ghost use Rattle.std.specs.Prelude.{◌≡◌, ◌++◌, ◌∷◌, codes, map, Some, true};
ghost use Rattle.std.specs.List.{list_all};
ghost use Rattle.json.specs.Print.{quoted};
ghost use Rattle.serde_json.specs.Written.{compact_text};
ghost use Rattle.pm_document_text.specs.Text.{kind_text, mode_told, prohibition_back, prohibition_told};
ghost use Rattle.pm_model.specs.Name.{is_name_byte};
ghost use Rattle.pm_model.specs.Words.{key_text};
ghost use Rattle.pm_print.specs.Actions.{mode_word, name_told, names_told, subject_told};
ghost use Rattle.pm_print.specs.Growth.{Adds};
ghost use Rattle.pm_print.specs.Members.{keyed, leading, leading_all};
ghost use Rattle.pm_model.specs.Object.{listed, texted};

use crate::put::{add_decimal, add_quoted, put};
use crate::told::{Told, add_first, add_member, add_only, add_pair, add_triple};
use pm_model::{Key, Kind, Memory, Mode, Name, Subject, Word};
use pm_policy::{DocAssignment, DocAssociation, DocElement, DocProhibition};

// ---- names and fixed texts

fn add_name(out: &mut Vec<u8>, name: &Name) -> Result<(), Memory>
    ensures { Adds out.old out.new (quoted name.now) result }
{
    add_quoted(out, name.bytes())
}

impl Told for Name {
    ghost told = { name_told };

    fn add(&self, out: &mut Vec<u8>) -> Result<(), Memory> {
        add_name(out, self)
    }
}

// The kind as documents spell it, which needs no escape.
#[tactic(auto, unfolding(crate::specs::Text::kind_text))]
fn kind_text(kind: Kind) -> &'static str
    ensures text { result.now ≡ kind_text kind }
    ensures plain { list_all is_name_byte result.now ≡ true }
{
    match kind {
        Kind::User => "user",
        Kind::Ua => "ua",
        Kind::Object => "object",
        Kind::Oa => "oa",
        Kind::Pc => "pc",
    }
}

impl Told for Kind {
    ghost use Rattle.pm_document_text.specs.Text.{kind_told};

    ghost told = { kind_told };

    fn add(&self, out: &mut Vec<u8>) -> Result<(), Memory> {
        add_quoted(out, kind_text(*self).as_bytes())
    }
}

fn mode_word(mode: Mode) -> Word
    ensures { result ≡ mode_word mode }
{
    match mode {
        Mode::All => Word::All,
        Mode::Any => Word::Any,
    }
}

impl Told for Mode {
    ghost use Rattle.pm_document_text.specs.Text.{mode_told};

    ghost told = { mode_told };

    fn add(&self, out: &mut Vec<u8>) -> Result<(), Memory> {
        add_quoted(out, mode_word(*self).text().as_bytes())
    }
}

// ---- elements, assignments and associations

impl Told for DocElement {
    ghost use Rattle.pm_document_text.specs.Text.{element_told};

    ghost told = { element_told };

    fn add(&self, out: &mut Vec<u8>) -> Result<(), Memory> {
        add_pair(out, &self.kind, &self.name)
    }
}

impl Told for DocAssignment {
    ghost use Rattle.pm_document_text.specs.Text.{assignment_told};

    ghost told = { assignment_told };

    fn add(&self, out: &mut Vec<u8>) -> Result<(), Memory> {
        add_pair(out, &self.from, &self.to)
    }
}

impl Told for DocAssociation {
    ghost use Rattle.pm_document_text.specs.Text.{association_told};

    ghost told = { association_told };

    fn add(&self, out: &mut Vec<u8>) -> Result<(), Memory> {
        add_triple(out, &self.ua, &self.rights, &self.at)
    }
}

// ---- prohibitions

// The number of a process, which no prohibition of a sound document has.
impl Told for u32 {
    ghost use Rattle.serde_json.specs.Data.{number, unsigned};

    ghost told = { λ n. number (unsigned n) };

    fn add(&self, out: &mut Vec<u8>) -> Result<(), Memory> {
        add_decimal(out, u64::from(*self))
    }
}

fn add_subject(out: &mut Vec<u8>, subject: &Subject<Name, u32>) -> Result<(), Memory>
    ensures { Adds out.old out.new (compact_text (subject_told subject.now)) result }
{
    match subject {
        Subject::User(name) => add_only(out, Key::User, name),
        Subject::Ua(name) => add_only(out, Key::Ua, name),
        Subject::Process(number) => add_only(out, Key::Process, number),
    }
}

impl Told for Subject<Name, u32> {
    ghost told = { subject_told };

    fn add(&self, out: &mut Vec<u8>) -> Result<(), Memory> {
        add_subject(out, self)
    }
}

// The two sets, behind the opening brace.
fn add_sets(out: &mut Vec<u8>, prohibition: &DocProhibition) -> Result<(), Memory>
    ensures { Adds out.old out.new (123 ∷ (keyed (key_text Key.Exc) ++ (compact_text (listed (map name_told prohibition.now.exc)) ++ leading (key_text Key.Inc) (names_told prohibition.now.inc)))) result }
{
    add_first(out, Key::Exc.text(), &prohibition.exc)?;
    add_member(out, Key::Inc.text(), &prohibition.inc)
}

fn add_mode_and_name(out: &mut Vec<u8>, prohibition: &DocProhibition) -> Result<(), Memory>
    ensures { Adds out.old out.new (leading (key_text Key.Mode) (Some (mode_told prohibition.now.mode)) ++ leading (key_text Key.Name) (texted prohibition.now.name)) result }
{
    add_member(out, Key::Mode.text(), &prohibition.mode)?;
    add_member(out, Key::Name.text(), &prohibition.name)
}

fn add_rights_and_subject(out: &mut Vec<u8>, prohibition: &DocProhibition) -> Result<(), Memory>
    ensures { Adds out.old out.new (leading (key_text Key.Rights) (names_told prohibition.now.rights) ++ leading (key_text Key.Subject) (Some (subject_told prohibition.now.subject))) result }
{
    add_member(out, Key::Rights.text(), &prohibition.rights)?;
    add_member(out, Key::Subject.text(), &prohibition.subject)
}

fn add_prohibition_parts(out: &mut Vec<u8>, prohibition: &DocProhibition) -> Result<(), Memory>
    ensures { Adds out.old out.new (123 ∷ (keyed (key_text Key.Exc) ++ (compact_text (listed (map name_told prohibition.now.exc)) ++ (leading_all (prohibition_back prohibition.now) ++ codes "}")))) result }
{
    add_sets(out, prohibition)?;
    add_mode_and_name(out, prohibition)?;
    add_rights_and_subject(out, prohibition)?;
    put(out, b"}")
}

fn add_prohibition(out: &mut Vec<u8>, prohibition: &DocProhibition) -> Result<(), Memory>
    ensures { Adds out.old out.new (compact_text (prohibition_told prohibition.now)) result }
{
    add_prohibition_parts(out, prohibition)
}

impl Told for DocProhibition {
    ghost told = { prohibition_told };

    fn add(&self, out: &mut Vec<u8>) -> Result<(), Memory> {
        add_prohibition(out, self)
    }
}
