//! The text of a whole policy.
ghost use Rattle.std.specs.Prelude.{◌≡◌, ◌++◌, ◌∷◌, codes, length, map, take, OnOk};
ghost use Rattle.serde_json.specs.Written.{compact_text};
ghost use Rattle.pm_document_text.specs.Text.{assignment_told, association_told, document_text, element_told, list_told, policy_back, prohibition_told};
ghost use Rattle.pm_model.specs.Object.{listed};
ghost use Rattle.pm_model.specs.Words.{word_text};
ghost use Rattle.pm_print.specs.Actions.{names_told};
ghost use Rattle.pm_print.specs.Growth.{Adds};
ghost use Rattle.pm_print.specs.Members.{keyed, leading, leading_all};

use crate::put::put;
use crate::told::{add_first, add_member};
use pm_model::{Memory, Word};
use pm_policy::Policy;

fn add_relations(out: &mut Vec<u8>, policy: &Policy) -> Result<(), Memory>
    ensures { Adds out.old out.new (123 ∷ (keyed (word_text Word.Assignments) ++ (compact_text (listed (map assignment_told policy.now.assignments)) ++ leading (word_text Word.Associations) (list_told association_told policy.now.associations)))) result }
{
    add_first(out, Word::Assignments.text(), &policy.assignments)?;
    add_member(out, Word::Associations.text(), &policy.associations)
}

fn add_others(out: &mut Vec<u8>, policy: &Policy) -> Result<(), Memory>
    ensures { Adds out.old out.new (leading (word_text Word.Elements) (list_told element_told policy.now.elements) ++ (leading (word_text Word.Prohibitions) (list_told prohibition_told policy.now.prohibitions) ++ leading (word_text Word.Rights) (names_told policy.now.rights))) result }
{
    add_member(out, Word::Elements.text(), &policy.elements)?;
    add_member(out, Word::Prohibitions.text(), &policy.prohibitions)?;
    add_member(out, Word::Rights.text(), &policy.rights)
}

fn add_parts(out: &mut Vec<u8>, policy: &Policy) -> Result<(), Memory>
    ensures { Adds out.old out.new (123 ∷ (keyed (word_text Word.Assignments) ++ (compact_text (listed (map assignment_told policy.now.assignments)) ++ (leading_all (policy_back policy.now) ++ codes "}\n")))) result }
{
    add_relations(out, policy)?;
    add_others(out, policy)?;
    put(out, b"}\n")
}

fn add_document(out: &mut Vec<u8>, policy: &Policy) -> Result<(), Memory>
    ensures { Adds out.old out.new (document_text policy.now) result }
{
    add_parts(out, policy)
}

/// Appends the text of the policy: its five lists as they stand, on one line with its line feed. On Memory some of
/// the text may stand behind what stood.
pub fn write_document(policy: &Policy, out: &mut Vec<u8>) -> Result<(), Memory>
    ensures ok { OnOk result (out.new.items ≡ out.old.items ++ document_text policy.now) }
    ensures front { take (length out.old.items) out.new.items ≡ out.old.items }
{
    add_document(out, policy)
}
