//! The names of rights from the opening on, and the words of commands.

ghost use Rattle.std.specs.Prelude.{◌≡◌, true, IfOk, map, bytes_eq};
ghost use Rattle.std.specs.List.{list_any, list_all};
ghost use Rattle.pm_model.specs.Name.{is_name};
ghost use Rattle.pm_model.specs.RightSet.{opening_rights, command_words};
ghost use Rattle.pm_model.specs.Words.{word_text};

use pm_model::{Memory, Name, Word};
use std::alloc::Global;

/// The names of the rights that stand from the opening on, by bit.
const OPENING_RIGHTS: [&str; 17] = [
    "read",
    "write",
    "create_user",
    "create_ua",
    "create_oa",
    "create_object",
    "delete",
    "assign",
    "assign_to",
    "deassign",
    "deassign_from",
    "associate",
    "associate_to",
    "prohibit",
    "prohibit_to",
    "oblige",
    "review",
];

/// The commands, also those that are yet to come.
const COMMANDS: [Word; 28] = [
    Word::Version,
    Word::OpenSession,
    Word::CloseSession,
    Word::StartProcess,
    Word::EndProcess,
    Word::CreatePc,
    Word::CreateUser,
    Word::CreateUa,
    Word::CreateOa,
    Word::CreateObject,
    Word::Delete,
    Word::Assign,
    Word::Deassign,
    Word::Associate,
    Word::Dissociate,
    Word::Prohibit,
    Word::Lift,
    Word::DefineRight,
    Word::Oblige,
    Word::Withdraw,
    Word::Keep,
    Word::DropReview,
    Word::Access,
    Word::Caps,
    Word::Entries,
    Word::Kept,
    Word::Changes,
    Word::Survey,
];

/// Whether one of the words is spelt so.
fn is_any_of(words: &[Word], bytes: &[u8]) -> bool
    ensures { result ≡ list_any (λ word. bytes_eq bytes.now (word_text word)) words.now }
{
    words.iter().any(|word| bytes == word.text().as_bytes())
}

/// Whether these bytes are the word of a command.
pub(crate) fn is_command_word(bytes: &[u8]) -> bool
    ensures { result ≡ list_any (bytes_eq bytes.now) command_words }
{
    is_any_of(&COMMANDS, bytes)
}

/// The name of these bytes, which have a name's form.
fn name_of_bytes(bytes: &[u8]) -> Name
    requires { is_name bytes.now ≡ true }
    ensures { result ≡ bytes.now }
{
    Name::new(bytes).unwrap()
}

/// The names of these texts, which have a name's form.
fn names_of(alloc: Global, texts: &[&str]) -> Result<Vec<Name>, Memory>
    requires { list_all (λ text. is_name text.now) texts.now ≡ true }
    ensures { IfOk result (λ names. names.items ≡ map (λ text. text.now) texts.now) }
{
    let mut names = Vec::new(alloc);
    for text in texts {
        names.push(name_of_bytes(text.as_bytes()))?;
    }
    Ok(names)
}

/// The names of the rights that stand from the opening on.
pub(crate) fn opening_names(alloc: Global) -> Result<Vec<Name>, Memory>
    ensures { IfOk result (λ names. names.items ≡ opening_rights) }
{
    names_of(alloc, &OPENING_RIGHTS)
}
