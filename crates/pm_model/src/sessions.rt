//! Who acts: processes, each of a session of one user.

use crate::elements::ElementId;

/// A session of a user. Its number was never another session's. Source: the standard's sessions.
#[derive(Clone, Copy, Debug, PartialEq, Eq)]
pub struct Session {
    pub number: u32,
    pub user: ElementId,
}

/// A process of a session: it acts for the session's user. Its number was never another process's.
/// Source: the standard's processes, of which each acts for one user.
#[derive(Clone, Copy, Debug, PartialEq, Eq)]
pub struct Process {
    pub number: u32,
    pub session: u32,
}
