//! Laws of documents, over what reads them and what makes them.
#![tactic(auto)]

ghost use Rattle.std.specs.Prelude.{◌≡◌, ◌≤◌, ℕ, List, length, None, Some};
ghost use Rattle.pm_document.specs.Forms.{policy_of};
ghost use Rattle.pm_making.specs.Accepted.{Make};
ghost use Rattle.pm_model.specs.Formed.{Each};
ghost use Rattle.pm_model.specs.Lines.{longest_line};
ghost use Rattle.pm_policy.specs.Requests.{requests};
ghost use Rattle.pm_policy.specs.Sound.{IsSound};
ghost use Rattle.pm_policy.specs.declared.policy.Policy.{Policy};
ghost use Rattle.pm_print.specs.Askable.{IsAskable};
ghost use Rattle.pm_print.specs.Requested.{request_text};

/// Each request of a sound document that a text says can be asked for by a line: its names are names, its sets of rights have 1 to
/// 32 rights, each once, and the two sets of a prohibition at most 32 names.
pub fn requests_are_askable()
    ensures { (bytes : List ℕ) (D : Policy) → policy_of bytes ≡ Some D → IsSound D → Each IsAskable (requests D) }
{}

/// Each request line of a document that a text says, sound or not, has at most 8,192 bytes with its line feed, so that no server
/// refuses it as too long.
pub fn request_lines_are_short()
    ensures { (bytes : List ℕ) (D : Policy) → policy_of bytes ≡ Some D → Each (λ request. length (request_text None request) ≤ longest_line) (requests D) }
{}

/// A sound document that a text says is made by its lines: given to a machine with one caller they are all accepted from the
/// opening state on, and the state after them has the document's policy.
pub fn document_is_made()
    ensures { (bytes : List ℕ) (D : Policy) → policy_of bytes ≡ Some D → IsSound D → (lines : List (List ℕ)) × Make D lines }
{}
