//! An entry that histories share.

ghost use Rattle.std.specs.Prelude.{◌≡◌, IfOk};

use pm_model::{Entry, Memory};
use pm_pages::CopyOf;
use std::alloc::Global;
use std::marker::Model;
use std::sync::Arc;

/// An entry behind a pointer. Contracts see the entry alone.
pub(crate) struct SharedEntry {
    pointer: Arc<Entry>,
}

impl Drop for SharedEntry {
    fn drop(self) {
        let SharedEntry { pointer: _ } = self;
    }
}

impl Model for SharedEntry {
    ghost use Rattle.std.specs.Arc.{arc_value};
    ghost use Rattle.pm_model.specs.declared.requests.Entry.{Entry};

    ghost Value = { Entry };

    ghost view = { λ s. arc_value s.pointer };
}

impl SharedEntry {
    pub(crate) fn new(alloc: Global, entry: Entry) -> Result<SharedEntry, Memory>
        ensures { IfOk result (λ s. s ≡ entry) }
    {
        match Arc::new(alloc, entry) {
            Ok(pointer) => Ok(SharedEntry { pointer }),
            Err(_) => Err(Memory),
        }
    }

    pub(crate) fn entry(&self) -> &Entry
        ensures { result.now ≡ self.now }
    {
        &self.pointer
    }
}

impl CopyOf for SharedEntry {
    fn copied(&self) -> Result<SharedEntry, Memory> {
        Ok(SharedEntry {
            pointer: Arc::try_clone(&self.pointer)?,
        })
    }
}
