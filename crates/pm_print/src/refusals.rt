//! The members of a refusal's line.
ghost use Rattle.std.specs.Prelude.{◌≡◌, ◌+◌, ◌*◌, IsTrue};
ghost use Rattle.pm_model.specs.Nameable.{IsReasonNameable, IsRefusalNameable};
ghost use Rattle.pm_model.specs.Text.{no_front, unknown_front, full_front, denied_front, capability_front, refusal_front, refusal_word, class_of, prohibition_of, table_word};
ghost use Rattle.pm_model.specs.Words.{key_text};
ghost use Rattle.pm_print.specs.Growth.{Appended, front_most, number_most, text_most};
ghost use Rattle.pm_print.specs.Members.{trailing, trailing_all};

use crate::put::{put_name, put_number_if, put_word};
use pm_model::{ElementId, Head, Key, Memory, Name, NameOf, Reason, Refusal, Table, Word};

fn table_word(table: Table) -> Word
    ensures { result ≡ table_word table }
{
    match table {
        Table::Elements => Word::Elements,
        Table::Assignments => Word::Assignments,
        Table::Associations => Word::Associations,
        Table::Prohibitions => Word::Prohibitions,
        Table::Obligations => Word::Obligations,
        Table::Sessions => Word::Sessions,
        Table::Processes => Word::Processes,
        Table::Reviews => Word::Reviews,
        Table::Rights => Word::Rights,
        Table::History => Word::History,
    }
}

/// The word of the refusal.
pub(crate) fn refusal_word(why: &Refusal) -> Word
    ensures { result ≡ refusal_word why.now }
{
    match why {
        Refusal::UnknownProcess => Word::UnknownProcess,
        Refusal::UnknownSession => Word::UnknownSession,
        Refusal::UnknownReview => Word::UnknownReview,
        Refusal::UnknownName { .. } => Word::UnknownName,
        Refusal::Denied { .. } => Word::Denied,
        Refusal::BadKinds => Word::BadKinds,
        Refusal::NameTaken => Word::NameTaken,
        Refusal::Already => Word::Already,
        Refusal::Absent => Word::Absent,
        Refusal::Cycle => Word::Cycle,
        Refusal::Occupied => Word::Occupied,
        Refusal::InUse => Word::InUse,
        Refusal::LastContainer => Word::LastContainer,
        Refusal::Builtin => Word::Builtin,
        Refusal::EmptyRange => Word::EmptyRange,
        Refusal::Full(_) => Word::Full,
    }
}

/// Appends `id` and `no`.
pub(crate) fn put_no(out: &mut Vec<u8>, head: &Head, why: Word) -> Result<(), Memory>
    ensures { Appended out.old out.new (trailing_all (no_front head.now why)) (number_most + text_most) result }
{
    put_number_if(out, Key::Id, head.id)?;
    put_word(out, Key::No, why)
}

fn put_unknown_name(out: &mut Vec<u8>, head: &Head, name: &Name) -> Result<(), Memory>
    ensures { Appended out.old out.new (trailing_all (unknown_front head.now name.now)) front_most result }
{
    put_number_if(out, Key::Id, head.id)?;
    put_name(out, Key::Name, name)?;
    put_word(out, Key::No, Word::UnknownName)
}

fn put_full(out: &mut Vec<u8>, head: &Head, table: Table) -> Result<(), Memory>
    ensures { Appended out.old out.new (trailing_all (full_front head.now table)) front_most result }
{
    put_number_if(out, Key::Id, head.id)?;
    put_word(out, Key::No, Word::Full)?;
    put_word(out, Key::Table, table_word(table))
}

// The class of a denial, where it is one.
#[tactic(auto, unfolding(crate::specs::Members::trailing))]
fn put_class<N: NameOf>(out: &mut Vec<u8>, names: &N, reason: &Reason) -> Result<(), Memory>
    requires { IsReasonNameable (N.named names.now) reason.now }
    ensures { Appended out.old out.new (trailing (key_text Key.Class) (class_of (N.name_at names.now) reason.now)) text_most result }
{
    match reason {
        Reason::Class(class) => put_name(out, Key::Class, &names.name_of(*class)),
        Reason::Prohibition(_) => Ok(()),
    }
}

// The prohibition of a denial, where it is one.
#[tactic(auto, unfolding(crate::specs::Members::trailing))]
fn put_prohibition(out: &mut Vec<u8>, reason: &Reason) -> Result<(), Memory>
    ensures { Appended out.old out.new (trailing (key_text Key.Prohibition) (prohibition_of reason.now)) text_most result }
{
    match reason {
        Reason::Class(_) => Ok(()),
        Reason::Prohibition(name) => put_name(out, Key::Prohibition, name),
    }
}

// What is denied, behind the prohibition that denies it.
fn put_capability(
    out: &mut Vec<u8>,
    reason: &Reason,
    right: &Name,
    target: &Name,
) -> Result<(), Memory>
    ensures { Appended out.old out.new (trailing_all (capability_front reason.now right.now target.now)) (3 * text_most) result }
{
    put_prohibition(out, reason)?;
    put_name(out, Key::Right, right)?;
    put_name(out, Key::Target, target)
}

fn put_denied<N: NameOf>(
    out: &mut Vec<u8>,
    head: &Head,
    names: &N,
    right: &Name,
    target: ElementId,
    reason: &Reason,
) -> Result<(), Memory>
    requires target { IsTrue (N.named names.now target) }
    requires reason { IsReasonNameable (N.named names.now) reason.now }
    ensures { Appended out.old out.new (trailing_all (denied_front head.now (N.name_at names.now) right.now target reason.now)) front_most result }
{
    put_class(out, names, reason)?;
    put_number_if(out, Key::Id, head.id)?;
    put_word(out, Key::No, Word::Denied)?;
    put_capability(out, reason, right, &names.name_of(target))
}

/// Appends the members of the refusal.
pub(crate) fn put_refusal<N: NameOf>(
    out: &mut Vec<u8>,
    head: &Head,
    names: &N,
    why: &Refusal,
) -> Result<(), Memory>
    requires { IsRefusalNameable (N.named names.now) why.now }
    ensures { Appended out.old out.new (trailing_all (refusal_front head.now (N.name_at names.now) why.now)) front_most result }
{
    match why {
        Refusal::UnknownProcess => put_no(out, head, Word::UnknownProcess),
        Refusal::UnknownSession => put_no(out, head, Word::UnknownSession),
        Refusal::UnknownReview => put_no(out, head, Word::UnknownReview),
        Refusal::UnknownName { name } => put_unknown_name(out, head, name),
        Refusal::Denied {
            right,
            target,
            reason,
        } => put_denied(out, head, names, right, *target, reason),
        Refusal::BadKinds => put_no(out, head, Word::BadKinds),
        Refusal::NameTaken => put_no(out, head, Word::NameTaken),
        Refusal::Already => put_no(out, head, Word::Already),
        Refusal::Absent => put_no(out, head, Word::Absent),
        Refusal::Cycle => put_no(out, head, Word::Cycle),
        Refusal::Occupied => put_no(out, head, Word::Occupied),
        Refusal::InUse => put_no(out, head, Word::InUse),
        Refusal::LastContainer => put_no(out, head, Word::LastContainer),
        Refusal::Builtin => put_no(out, head, Word::Builtin),
        Refusal::EmptyRange => put_no(out, head, Word::EmptyRange),
        Refusal::Full(table) => put_full(out, head, *table),
    }
}
