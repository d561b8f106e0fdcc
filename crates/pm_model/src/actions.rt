//! Actions: commands in which words may stand for names.

ghost use Rattle.std.specs.Prelude.{◌≡◌, IfOk};

use crate::elements::Kind;
use crate::lists::{ItemList, NameList};
use crate::memory::Memory;
use crate::names::Name;
use crate::prohibitions::{Mode, Subject};
use std::alloc::Global;

/// What stands for a name in an action: a name itself, the event's user or target, or a name that is new.
#[derive(Clone, Copy, PartialEq, Eq)]
pub enum Term {
    Named(Name),
    EventUser,
    EventTarget,
    /// Made of the version, the obligation's place and the action's number. It stands only where a name is
    /// given to what is made.
    Fresh,
}

/// What stands for a process in an action: its number, or the event's process.
#[derive(Clone, Copy, Debug, PartialEq, Eq)]
pub enum ProcessTerm {
    Number(u32),
    EventProcess,
}

/// What has to hold when an action's turn comes: that `inner` is contained in `outer`, or, where `within` is
/// false, that it isn't.
#[derive(Clone, Copy, PartialEq, Eq)]
pub struct Guard {
    pub within: bool,
    pub inner: Term,
    pub outer: Term,
}

/// A list of what stands for names.
pub type TermList = ItemList<Term>;

/// A list of guards.
pub type GuardList = ItemList<Guard>;

/// What an action does: an administrative command, with what stands for its names. The kind of what is made isn't
/// `Pc`.
#[derive(Drop)]
pub enum Act {
    Create {
        kind: Kind,
        name: Term,
        into: Term,
    },
    Delete {
        name: Term,
    },
    Assign {
        from: Term,
        to: Term,
    },
    Deassign {
        from: Term,
        to: Term,
    },
    Associate {
        ua: Term,
        rights: NameList,
        at: Term,
    },
    Dissociate {
        ua: Term,
        at: Term,
    },
    Prohibit {
        name: Term,
        subject: Subject<Term, ProcessTerm>,
        rights: NameList,
        inc: TermList,
        exc: TermList,
        mode: Mode,
    },
    Lift {
        name: Name,
    },
}

impl Act {
    /// The same once more.
    pub fn copy(&self) -> Result<Act, Memory>
        ensures { IfOk result (λ same. same ≡ self.now) }
    {
        Ok(match self {
            Act::Create { kind, name, into } => Act::Create {
                kind: *kind,
                name: *name,
                into: *into,
            },
            Act::Delete { name } => Act::Delete { name: *name },
            Act::Assign { from, to } => Act::Assign {
                from: *from,
                to: *to,
            },
            Act::Deassign { from, to } => Act::Deassign {
                from: *from,
                to: *to,
            },
            Act::Associate { ua, rights, at } => Act::Associate {
                ua: *ua,
                rights: rights.copy()?,
                at: *at,
            },
            Act::Dissociate { ua, at } => Act::Dissociate { ua: *ua, at: *at },
            Act::Prohibit {
                name,
                subject,
                rights,
                inc,
                exc,
                mode,
            } => Act::Prohibit {
                name: *name,
                subject: *subject,
                rights: rights.copy()?,
                inc: inc.copy()?,
                exc: exc.copy()?,
                mode: *mode,
            },
            Act::Lift { name } => Act::Lift { name: *name },
        })
    }
}

/// A part of a response: what is done where each of the guards holds. At most 4 guards.
pub struct Action {
    pub guards: GuardList,
    pub act: Act,
}

impl Drop for Action {
    fn drop(self) {
        let Action { guards: _, act: _ } = self;
    }
}

impl Action {
    /// The same action once more.
    pub fn copy(&self) -> Result<Action, Memory>
        ensures { IfOk result (λ same. same ≡ self.now) }
    {
        let guards = self.guards.copy()?;
        let act = self.act.copy()?;
        Ok(Action { guards, act })
    }
}

/// A list of actions.
pub type ActionList = ItemList<Action>;

/// The same actions once more.
pub(crate) fn copied(alloc: Global, actions: &[Action]) -> Result<ActionList, Memory>
    ensures { IfOk result (λ same. same ≡ actions.now) }
{
    let mut same = ActionList::with_room(alloc, actions.len())?;
    for action in actions {
        same.push(action.copy()?)?;
    }
    Ok(same)
}
