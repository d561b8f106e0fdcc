//! A list of changes that tables share.

ghost use Rattle.std.specs.Prelude.{◌≡◌, IfOk, IfErr};
ghost use Rattle.pm_kept.specs.Held.{list_held};

use pm_model::{ChangeList, Memory};
use std::marker::Model;
use std::mem::replace;
use std::sync::Arc;

#[derive(Drop)]
pub(crate) enum Held {
    /// No other table has the list.
    Own(ChangeList),
    /// Other tables may have the list too.
    Shared(Arc<ChangeList>),
}

/// A list of changes. Contracts see the list alone, and not whether other tables have it too.
pub(crate) struct Changes {
    held: Held,
}

impl Drop for Changes {
    fn drop(self) {
        let Changes { held: _ } = self;
    }
}

impl Model for Changes {
    ghost use Rattle.std.specs.Prelude.{List};
    ghost use Rattle.pm_model.specs.declared.reviews.Changed.{Changed};

    ghost Value = { List Changed };

    ghost use Rattle.pm_kept.specs.Held.{list_held};

    ghost view = { λ c. list_held c.held };
}

/// The list to be shared. It takes memory where it wasn't.
fn shared(held: Held) -> Result<Held, Held>
    ensures ok { IfOk result (λ same. list_held same ≡ list_held held) }
    ensures err { IfErr result (λ same. same ≡ held) }
{
    match held {
        Held::Own(list) => match Arc::new(list.allocator(), list) {
            Ok(pointer) => Ok(Held::Shared(pointer)),
            Err(failed) => Err(Held::Own(failed.value)),
        },
        Held::Shared(pointer) => Ok(Held::Shared(pointer)),
    }
}

impl Changes {
    pub(crate) fn new(list: ChangeList) -> Changes
        ensures { result ≡ list }
    {
        Changes {
            held: Held::Own(list),
        }
    }

    pub(crate) fn list(&self) -> &ChangeList
        ensures { result.now ≡ self.now }
    {
        match &self.held {
            Held::Own(list) => list,
            Held::Shared(pointer) => pointer,
        }
    }

    /// The same list once more, which takes memory only where the list isn't shared and not empty.
    pub(crate) fn copy(&self) -> Result<Changes, Memory>
        ensures { IfOk result (λ same. same ≡ self.now) }
    {
        let held = match &self.held {
            Held::Own(list) => Held::Own(list.copy()?),
            Held::Shared(pointer) => Held::Shared(Arc::try_clone(pointer)?),
        };
        Ok(Changes { held })
    }

    /// Lets copies share the list. It takes memory where they didn't.
    pub(crate) fn share(&mut self) -> Result<(), Memory>
        ensures { self.new ≡ self.old }
    {
        let empty = ChangeList::new(self.list().allocator());
        match shared(replace(&mut self.held, Held::Own(empty))) {
            Ok(same) => {
                self.held = same;
                Ok(())
            }
            Err(same) => {
                self.held = same;
                Err(Memory)
            }
        }
    }
}
