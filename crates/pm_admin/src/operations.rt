//! The operations that an obligation can wait for.
ghost use Rattle.std.specs.Prelude.{◌≡◌, bytes_eq};
ghost use Rattle.std.specs.List.{list_any};
ghost use Rattle.pm_model.specs.Operations.{is_access_bit, is_event_command, is_operation};
ghost use Rattle.pm_model.specs.Resolve.{look_up_operation};
ghost use Rattle.pm_model.specs.RightSet.{bit_named};
ghost use Rattle.pm_model.specs.Words.{word_text};

use pm_model::{Name, Refusal, Word, is_access_right};
use pm_state::Graph;

/// The commands that raise events.
const EVENT_COMMANDS: [Word; 15] = [
    Word::CreatePc,
    Word::CreateUser,
    Word::CreateUa,
    Word::CreateOa,
    Word::CreateObject,
    Word::Delete,
    Word::Assign,
    Word::Deassign,
    Word::Associate,
    Word::Dissociate,
    Word::Prohibit,
    Word::Lift,
    Word::DefineRight,
    Word::Oblige,
    Word::Withdraw,
];

/// Whether one of the words is spelt so.
fn is_any_of(words: &[Word], bytes: &[u8]) -> bool
    ensures { result ≡ list_any (λ word. bytes_eq bytes.now (word_text word)) words.now }
{
    words.iter().any(|word| bytes == word.text().as_bytes())
}

fn is_event_command(name: Name) -> bool
    ensures { result ≡ is_event_command name }
{
    is_any_of(&EVENT_COMMANDS, name.bytes())
}

fn is_access_right_name(graph: &Graph, name: Name) -> bool
    ensures { result ≡ is_access_bit (bit_named graph.now.rights name) }
{
    match graph.right(name) {
        None => false,
        Some(bit) => is_access_right(bit),
    }
}

fn is_operation(graph: &Graph, name: Name) -> bool
    ensures { result ≡ is_operation graph.now.rights name }
{
    is_access_right_name(graph, name) || is_event_command(name)
}

/// The name, where it is that of an access right or the word of a command that raises events; else
/// `UnknownName`.
pub(crate) fn look_up_operation(graph: &Graph, name: Name) -> Result<Name, Refusal>
    ensures { result ≡ look_up_operation graph.now name }
{
    if is_operation(graph, name) {
        Ok(name)
    } else {
        Err(Refusal::UnknownName { name })
    }
}
