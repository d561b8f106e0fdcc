//! What a line asks: commands by names, and changes by numbers.

ghost use Rattle.std.specs.Prelude.{◌≡◌, IfOk};

use crate::elements::{ElementId, Kind};
use crate::events::Awaited;
use crate::lines::BadLine;
use crate::lists::{NameList, UserList};
use crate::memory::Memory;
use crate::names::Name;
use crate::obligations::{Obligation, Response};
use crate::prohibitions::{Mode, Prohibition, Subject};
use crate::reviews::ReviewOf;
use crate::rights::Rights;

/// An administrative command, as a line names it.
#[derive(Drop)]
pub enum Command {
    /// Make a policy class of this name.
    CreatePc {
        name: Name,
    },
    /// Make an element of this kind and name in a container. The kind isn't `Pc`.
    Create {
        kind: Kind,
        name: Name,
        into: Name,
    },
    /// Take an element away, with its assignments.
    Delete {
        name: Name,
    },
    /// Assign one element to another.
    Assign {
        from: Name,
        to: Name,
    },
    /// Take an assignment away.
    Deassign {
        from: Name,
        to: Name,
    },
    /// Give the users in a user attribute these rights on what is in an attribute or object.
    Associate {
        ua: Name,
        rights: NameList,
        at: Name,
    },
    /// Take the association of a pair away.
    Dissociate {
        ua: Name,
        at: Name,
    },
    /// Deny the subject these rights on what lies in the range that the two sets and the mode make.
    Prohibit {
        name: Name,
        subject: Subject<Name, u32>,
        rights: NameList,
        inc: NameList,
        exc: NameList,
        mode: Mode,
    },
    /// Take the prohibition of this name away.
    Lift {
        name: Name,
    },
    /// Give the next right this name. It is an access right.
    DefineRight {
        name: Name,
    },
    /// Let the response be done, by the authority of the user who gives the command, whenever such an event happens.
    Oblige {
        name: Name,
        when: Awaited,
        response: Response,
    },
    /// Take the obligation of this name away.
    Withdraw {
        name: Name,
    },
    /// Keep what this review answers, and what each entry changes in it.
    Keep {
        of: ReviewOf<Name>,
    },
    /// Keep the review of this number no longer.
    DropReview {
        review: u32,
    },
}

impl Command {
    /// The same command once more.
    pub fn copy(&self) -> Result<Command, Memory>
        ensures { IfOk result (λ same. same ≡ self.now) }
    {
        Ok(match self {
            Command::CreatePc { name } => Command::CreatePc { name: *name },
            Command::Create { kind, name, into } => Command::Create {
                kind: *kind,
                name: *name,
                into: *into,
            },
            Command::Delete { name } => Command::Delete { name: *name },
            Command::Assign { from, to } => Command::Assign {
                from: *from,
                to: *to,
            },
            Command::Deassign { from, to } => Command::Deassign {
                from: *from,
                to: *to,
            },
            Command::Associate { ua, rights, at } => Command::Associate {
                ua: *ua,
                rights: rights.copy()?,
                at: *at,
            },
            Command::Dissociate { ua, at } => Command::Dissociate { ua: *ua, at: *at },
            Command::Prohibit {
                name,
                subject,
                rights,
                inc,
                exc,
                mode,
            } => Command::Prohibit {
                name: *name,
                subject: *subject,
                rights: rights.copy()?,
                inc: inc.copy()?,
                exc: exc.copy()?,
                mode: *mode,
            },
            Command::Lift { name } => Command::Lift { name: *name },
            Command::DefineRight { name } => Command::DefineRight { name: *name },
            Command::Oblige {
                name,
                when,
                response,
            } => Command::Oblige {
                name: *name,
                when: when.copy()?,
                response: response.copy()?,
            },
            Command::Withdraw { name } => Command::Withdraw { name: *name },
            Command::Keep { of } => Command::Keep { of: *of },
            Command::DropReview { review } => Command::DropReview { review: *review },
        })
    }
}

/// A change of the graph: a command with its names resolved to numbers.
#[derive(Drop)]
pub enum Change {
    /// Make the element of this number, with its assignment to the container, where there is one.
    Create {
        id: ElementId,
        kind: Kind,
        name: Name,
        into: Option<ElementId>,
    },
    Delete {
        id: ElementId,
    },
    Assign {
        from: ElementId,
        to: ElementId,
    },
    Deassign {
        from: ElementId,
        to: ElementId,
    },
    Associate {
        ua: ElementId,
        rights: Rights,
        at: ElementId,
    },
    Dissociate {
        ua: ElementId,
        at: ElementId,
    },
    OpenSession {
        user: ElementId,
    },
    CloseSession {
        session: u32,
    },
    StartProcess {
        session: u32,
    },
    EndProcess {
        process: u32,
    },
    Prohibit {
        item: Prohibition,
    },
    /// Take the prohibition away that stands at this place, from 0, in order of creation.
    Lift {
        index: u32,
    },
    Oblige {
        item: Obligation,
    },
    /// Take the obligation away that stands at this place, from 0, in order of creation.
    Withdraw {
        index: u32,
    },
    DefineRight {
        name: Name,
    },
    Keep {
        of: ReviewOf<ElementId>,
    },
    DropReview {
        review: u32,
    },
}

/// What a review asks, as a line names it.
#[derive(Drop)]
pub enum Question {
    /// What the user may do: on which elements the user has rights, and which.
    Caps { user: Name },
    /// Who may do something to the element: which users have rights on it, and which.
    Entries { element: Name },
    /// How much each of the users may do, in the order of the list: how many rights on how many elements.
    Survey { users: NameList },
    /// What the kept review of this number answers.
    Kept { review: u32 },
    /// What the last entry that changed it changed in the kept review of this number.
    Changes { review: u32 },
}

impl Question {
    /// The same question once more.
    pub fn copy(&self) -> Result<Question, Memory>
        ensures { IfOk result (λ same. same ≡ self.now) }
    {
        Ok(match self {
            Question::Caps { user } => Question::Caps { user: *user },
            Question::Entries { element } => Question::Entries { element: *element },
            Question::Survey { users } => Question::Survey {
                users: users.copy()?,
            },
            Question::Kept { review } => Question::Kept { review: *review },
            Question::Changes { review } => Question::Changes { review: *review },
        })
    }
}

/// A review: a question with its names resolved to numbers.
#[derive(Drop)]
pub enum Review {
    Caps {
        user: ElementId,
    },
    Entries {
        element: ElementId,
    },
    Survey {
        users: UserList,
    },
    Kept {
        of: ReviewOf<ElementId>,
    },
    Changes {
        review: u32,
        of: ReviewOf<ElementId>,
    },
}

/// What a request asks for.
#[derive(Drop)]
pub enum Body {
    /// The version, and nothing else.
    Version,
    /// Open a session of the user.
    OpenSession {
        user: Name,
    },
    /// Close the session, and end its processes.
    CloseSession {
        session: u32,
    },
    /// Start a process of the session.
    StartProcess {
        session: u32,
    },
    EndProcess {
        process: u32,
    },
    /// An access by a process, for the user whose process it is: an access right on a target.
    Access {
        process: u32,
        right: Name,
        target: Name,
    },
    /// A command by a process, for the user whose process it is.
    Admin {
        process: u32,
        command: Command,
    },
    /// A question by a process, for the user whose process it is.
    Review {
        process: u32,
        question: Question,
    },
}

impl Body {
    /// The same body once more.
    pub fn copy(&self) -> Result<Body, Memory>
        ensures { IfOk result (λ same. same ≡ self.now) }
    {
        Ok(match self {
            Body::Version => Body::Version,
            Body::OpenSession { user } => Body::OpenSession { user: *user },
            Body::CloseSession { session } => Body::CloseSession { session: *session },
            Body::StartProcess { session } => Body::StartProcess { session: *session },
            Body::EndProcess { process } => Body::EndProcess { process: *process },
            Body::Access {
                process,
                right,
                target,
            } => Body::Access {
                process: *process,
                right: *right,
                target: *target,
            },
            Body::Admin { process, command } => Body::Admin {
                process: *process,
                command: command.copy()?,
            },
            Body::Review { process, question } => Body::Review {
                process: *process,
                question: question.copy()?,
            },
        })
    }
}

/// A request: what is asked, and the version that the machine must have reached, where one is given.
pub struct Request {
    pub after: Option<u64>,
    pub body: Body,
}

impl Drop for Request {
    fn drop(self) {
        let Request { after: _, body: _ } = self;
    }
}

impl Request {
    /// The same request once more.
    pub fn copy(&self) -> Result<Request, Memory>
        ensures { IfOk result (λ same. same ≡ self.now) }
    {
        let body = self.body.copy()?;
        Ok(Request {
            after: self.after,
            body,
        })
    }
}

/// An accepted request, as the history keeps it.
pub struct Entry {
    /// Who asked: each caller has a seat with a number of its own.
    pub seat: u32,
    /// Which entry of its seat it is, from 1.
    pub nth: u64,
    pub request: Request,
}

impl Drop for Entry {
    fn drop(self) {
        let Entry {
            seat: _,
            nth: _,
            request: _,
        } = self;
    }
}

impl Entry {
    /// The same entry once more.
    pub fn copy(&self) -> Result<Entry, Memory>
        ensures { IfOk result (λ same. same ≡ self.now) }
    {
        let request = self.request.copy()?;
        Ok(Entry {
            seat: self.seat,
            nth: self.nth,
            request,
        })
    }
}

/// What a line asks: a request, or nothing, for a reason.
#[derive(Drop)]
pub enum What {
    Request(Request),
    Bad(BadLine),
}

/// What a line asks, and the line's id, which its reply repeats.
pub struct Asked {
    pub id: Option<u64>,
    pub what: What,
}

impl Drop for Asked {
    fn drop(self) {
        let Asked { id: _, what: _ } = self;
    }
}
