//! What a text says as a document.

ghost use Rattle.pm_document.specs.Forms.{policy_of};
ghost use Rattle.pm_document.specs.Reads.{Reads};

use crate::errors::DocumentError;
use crate::forms::policy;
use pm_policy::Policy;
use serde_json::Value;
use std::alloc::Global;

/// The five lists that the bytes say, sound or not. Refused comes exactly where they are no JSON of a
/// document's form.
pub fn read_policy(alloc: Global, bytes: &[u8]) -> Result<Policy, DocumentError>
    ensures { Reads result (policy_of bytes.now) }
{
    match Value::from_slice(alloc, bytes) {
        Ok(value) => policy(alloc, &value),
        Err(error) => {
            if error.is_memory() {
                Err(DocumentError::Memory)
            } else {
                Err(DocumentError::Refused)
            }
        }
    }
}
