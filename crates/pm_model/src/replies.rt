//! What the machine answers, and why it refuses.

ghost use Rattle.std.specs.Prelude.{◌≡◌, ◌≤◌};
ghost use Rattle.pm_model.specs.Answer.{longest_history};
ghost use Rattle.pm_model.specs.Sizes.{limit_of};

use crate::elements::ElementId;
use crate::lines::BadLine;
use crate::lists::UserList;
use crate::names::Name;
use crate::reviews::{ChangeList, CountList, PairList};

/// What has a limit.
#[derive(Clone, Copy, Debug, PartialEq, Eq)]
pub enum Table {
    /// 16,384 live elements.
    Elements,
    /// 131,072 assignments.
    Assignments,
    /// 65,536 associations.
    Associations,
    /// 4,096 prohibitions.
    Prohibitions,
    /// 1,024 obligations.
    Obligations,
    /// 4,096 live sessions.
    Sessions,
    /// 16,384 live processes.
    Processes,
    /// 256 kept reviews.
    Reviews,
    /// 64 rights with a name.
    Rights,
    /// 262,144 accepted entries.
    History,
}

impl Table {
    /// How many there may be.
    pub fn limit(self) -> u64
        ensures value { result ≡ limit_of self }
        ensures most { result ≤ longest_history }
    {
        match self {
            Table::Elements | Table::Processes => 16384,
            Table::Assignments => 131072,
            Table::Associations => 65536,
            Table::Prohibitions | Table::Sessions => 4096,
            Table::Obligations => 1024,
            Table::Reviews => 256,
            Table::Rights => 64,
            Table::History => 262144,
        }
    }
}

/// Why a capability is denied.
#[derive(Clone, Copy, PartialEq, Eq)]
pub enum Reason {
    /// The first class that contains the target and in which no association gives the right.
    Class(ElementId),
    /// Where there is no such class: the first prohibition, in order of creation, that applies to the
    /// user or the process and covers the right on the target.
    Prohibition(Name),
}

/// Why a request is refused. The machine's state stays.
#[derive(Drop)]
pub enum Refusal {
    /// No live process has the number.
    UnknownProcess,
    /// No live session has the number.
    UnknownSession,
    /// No kept review has the number.
    UnknownReview,
    /// No live element, no right that is meant there, or no prohibition has the name.
    UnknownName {
        name: Name,
    },
    /// The user lacks the right on the target.
    Denied {
        right: Name,
        target: ElementId,
        reason: Reason,
    },
    /// The kinds of the elements don't allow it.
    BadKinds,
    /// A live element has the name; or a prohibition or a right has it, where one is to be made.
    NameTaken,
    /// The assignment, an association of the pair, or a kept review of the same stands.
    Already,
    /// The assignment, or an association of the pair, doesn't stand.
    Absent,
    /// The container is contained in what is to be assigned to it.
    Cycle,
    /// Something is assigned to the element.
    Occupied,
    /// An association, a prohibition, an obligation or a session names the element, or a kept review is of it.
    InUse,
    /// It is the element's only container.
    LastContainer,
    /// It stands from the opening on, for ever.
    Builtin,
    /// Both sets of the prohibition are empty.
    EmptyRange,
    /// The count stands at its limit.
    Full(Table),
}

/// What a change made.
#[derive(Clone, Copy, Debug, PartialEq, Eq)]
pub enum Made {
    Nothing,
    Element(ElementId),
    Session(u32),
    Process(u32),
    Review(u32),
}

/// What the reply to an accepted command tells beside that.
#[derive(Clone, Copy, Debug, PartialEq, Eq)]
pub enum Shown {
    Nothing,
    /// The number of the session that was opened.
    Session(u32),
    /// The number of the process that was started.
    Process(u32),
    /// The number of the review that is kept.
    Review(u32),
}

/// Why a change was not made.
#[derive(Drop)]
pub enum ChangeError {
    Refused(Refusal),
    Memory,
}

/// The machine's reply to a line.
#[derive(Drop)]
pub enum Reply {
    /// The request is accepted, or it asked for the version alone. So many obligations responded.
    Done {
        fired: u32,
        shown: Shown,
    },
    /// The access is granted. So many obligations responded.
    Granted {
        fired: u32,
    },
    /// What a user may do: the elements on which the user has rights, with these, by rising number.
    Caps {
        list: PairList,
    },
    /// Who may do something to an element: the users who have rights on it, with these, by rising number.
    Entries {
        list: PairList,
    },
    /// How much each of several users may do, in the order in which they were asked for: of each of the users the count
    /// at the same place.
    Survey {
        users: UserList,
        counts: CountList,
    },
    /// What a kept review answers now: as `Caps` or `Entries`.
    Kept {
        list: PairList,
    },
    /// What the last entry that changed its list changed in a kept review, and the version of that entry: 0, and nothing,
    /// where none has. By rising number of the elements; where one number has gone from one element to another, the old
    /// one first.
    Changes {
        at: u64,
        list: ChangeList,
    },
    /// The line is no request.
    Bad(BadLine),
    /// The request names a version that the machine hasn't reached.
    Ahead,
    /// The request is refused.
    Refused(Refusal),
    /// The request is refused since a response to it is: the name of its obligation, the action's number, from 1, and why.
    ResponseRefused {
        obligation: Name,
        action: u32,
        why: Refusal,
    },
    /// The machine would accept the request, and the keeper of accepted requests has failed. The machine's state stays.
    KeepFault,
}
