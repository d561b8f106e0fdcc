//! Sound documents.

ghost use Rattle.std.specs.Prelude.{◌≡◌, Some, Err, IfOk};
ghost use Rattle.pm_policy.specs.Sound.{IsSound};
ghost use Rattle.pm_policy.specs.declared.policy.Policy.{Policy};
ghost use Rattle.pm_document.specs.Forms.{policy_of};
ghost use Rattle.pm_document.specs.declared.errors.DocumentError.{DocumentError};

use crate::errors::DocumentError;
use crate::read::read_policy;
use pm_policy::Policy;
use pm_sound::{SoundError, check_sound};
use std::alloc::Global;
use std::marker::Model;

/// A sound document: its requests are accepted one after another from the opening state. Contracts see its
/// five lists.
pub struct Document {
    policy: Policy,
}

impl Drop for Document {
    fn drop(self) {
        let Document { policy: _ } = self;
    }
}

impl Model for Document {
    ghost use Rattle.pm_policy.specs.Sound.{IsSound};
    ghost use Rattle.pm_policy.specs.declared.policy.Policy.{Policy};

    ghost Value = { Policy };

    ghost view = { λ d. d.policy };

    ghost invariant = { λ d. IsSound d.policy };
}

impl Document {
    /// Its five lists, which are sound.
    pub fn policy(&self) -> &Policy
        ensures lists { result.now ≡ self.now }
        ensures sound { IsSound self.now }
    {
        &self.policy
    }
}

/// The document that the bytes say. Refused comes exactly where they are no JSON of a document's form, or
/// what they say breaks a rule: names that are used stand, in the document or in the opening state, and are of
/// fitting kinds; nothing stands twice; with the opening's assignments there is no cycle, and each element but
/// a class has a container; no count is above its limit.
pub fn read_document(alloc: Global, bytes: &[u8]) -> Result<Document, DocumentError>
    ensures ok { IfOk result (λ d. policy_of bytes.now ≡ Some d) }
    ensures refused { result ≡ Err DocumentError.Refused → (p : Policy) → policy_of bytes.now ≡ Some p → IsSound p → ⊥ }
{
    let policy = read_policy(alloc, bytes)?;
    match check_sound(alloc, &policy) {
        Ok(()) => Ok(Document { policy }),
        Err(SoundError::Unsound) => Err(DocumentError::Refused),
        Err(SoundError::Memory) => Err(DocumentError::Memory),
    }
}
