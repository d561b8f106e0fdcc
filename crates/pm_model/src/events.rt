//! Events, and the patterns that say which of them an obligation waits for.

ghost use Rattle.std.specs.Prelude.{◌≡◌, IfOk};

use crate::elements::ElementId;
use crate::memory::Memory;
use crate::names::Name;
use std::alloc::Global;
use std::marker::Model;

/// What a granted access or an accepted command raises: the user who acted, by which process, what was done
/// (the name of the access right or the word of the command), and the element that it was done to. Source: the
/// standard's events.
#[derive(Drop)]
pub struct Event {
    pub user: ElementId,
    pub process: u32,
    pub operation: Name,
    pub target: ElementId,
}

/// Which events an obligation waits for: those of an operation, by the user, or someone in the user attribute,
/// where one is given, and on the target, or something in it, where one is given. Source: the standard's event
/// patterns; that they have these three parts is the project's own.
#[derive(Drop)]
pub struct Pattern {
    pub on: Name,
    pub user: Option<ElementId>,
    pub target: Option<ElementId>,
}

/// The same by names, as a line gives it.
#[derive(Clone, Copy, PartialEq, Eq)]
pub struct When {
    pub on: Name,
    pub user: Option<Name>,
    pub target: Option<Name>,
}

/// The same, kept apart from what it stands in, which so stays small. Contracts see what is kept.
pub struct Awaited {
    when: Box<When>,
}

impl Drop for Awaited {
    fn drop(self) {
        let Awaited { when: _ } = self;
    }
}

impl Model for Awaited {
    ghost use Rattle.pm_model.specs.declared.events.When.{When};

    ghost Value = { When };

    ghost view = { λ a. a.when.value };
}

impl Awaited {
    /// Keeps this.
    pub fn new(alloc: Global, when: When) -> Result<Awaited, Memory>
        ensures { IfOk result (λ kept. kept ≡ when) }
    {
        let when = Box::new(alloc, when)?;
        Ok(Awaited { when })
    }

    /// What is kept.
    pub fn when(&self) -> &When
        ensures { result.now ≡ self.now }
    {
        &self.when
    }

    /// The same once more.
    pub fn copy(&self) -> Result<Awaited, Memory>
        ensures { IfOk result (λ same. same ≡ self.now) }
    {
        let when = Box::new(*Box::allocator(&self.when), *self.when)?;
        Ok(Awaited { when })
    }
}

impl Pattern {
    /// The same pattern once more.
    pub fn copy(&self) -> Pattern
        ensures { result ≡ self.now }
    {
        Pattern {
            on: self.on,
            user: self.user,
            target: self.target,
        }
    }
}

/// What an event's user and target were called before the request that raised it, and its process.
#[derive(Drop)]
pub struct EventNames {
    pub user: Name,
    pub target: Name,
    pub process: u32,
}
