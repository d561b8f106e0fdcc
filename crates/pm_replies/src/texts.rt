//! Replies with names in place of the numbers of elements.

use pm_model::{BadLine, ChangeList, ItemList, Name, Rights, Shown, Table};

/// A name and the rights that someone has on what it names, or that it has on something.
#[derive(Clone, Copy)]
pub struct TextPair {
    pub name: Name,
    pub rights: Rights,
}

/// A list of such pairs.
pub type TextList = ItemList<TextPair>;

/// A user's name, and how many pairs of a right and an element the user has.
#[derive(Clone, Copy)]
pub struct TextCount {
    pub name: Name,
    pub count: u64,
}

/// A list of such counts.
pub type TextCountList = ItemList<TextCount>;

/// Why a capability is denied: as `Reason`, with a name.
#[derive(Clone, Copy)]
pub enum ReasonText {
    Class(Name),
    Prohibition(Name),
}

/// Why a request is refused: as `Refusal`, with names.
#[derive(Drop)]
pub enum RefusalText {
    UnknownProcess,
    UnknownSession,
    UnknownReview,
    UnknownName {
        name: Name,
    },
    Denied {
        right: Name,
        target: Name,
        reason: ReasonText,
    },
    BadKinds,
    NameTaken,
    Already,
    Absent,
    Cycle,
    Occupied,
    InUse,
    LastContainer,
    Builtin,
    EmptyRange,
    Full(Table),
}

/// Why a response is refused: a refusal without its fields.
#[derive(Clone, Copy, Debug, PartialEq, Eq)]
pub enum RefusalWord {
    UnknownProcess,
    UnknownSession,
    UnknownReview,
    UnknownName,
    Denied,
    BadKinds,
    NameTaken,
    Already,
    Absent,
    Cycle,
    Occupied,
    InUse,
    LastContainer,
    Builtin,
    EmptyRange,
    Full,
}

/// A reply: as `Reply`, with names in place of the numbers of elements, and of the refusal of a response its word alone.
#[derive(Drop)]
pub enum ReplyText {
    Done {
        fired: u32,
        shown: Shown,
    },
    Granted {
        fired: u32,
    },
    Caps {
        list: TextList,
    },
    Entries {
        list: TextList,
    },
    Survey {
        list: TextCountList,
    },
    Kept {
        list: TextList,
    },
    Changes {
        at: u64,
        list: ChangeList,
    },
    Bad(BadLine),
    Ahead,
    Refused(RefusalText),
    ResponseRefused {
        obligation: Name,
        action: u32,
        why: RefusalWord,
    },
    KeepFault,
}

/// What a reply's line says.
#[derive(Drop)]
pub struct ReplyLine {
    /// The id of the line that is replied to, where it has one.
    pub id: Option<u64>,
    /// The version at which the reply holds.
    pub version: u64,
    pub text: ReplyText,
}

/// Why no reply was read.
#[derive(Clone, Copy, Debug, PartialEq, Eq)]
pub enum ReplyError {
    /// The line is the text of no reply.
    NotReply,
    /// There was no memory to read it.
    Memory,
}
