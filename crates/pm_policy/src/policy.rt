//! What a policy document has: the five lists of a policy, by names.

use pm_model::{ItemList, Kind, Mode, Name, NameList, Subject};

/// An element of a document.
#[derive(Clone, Copy)]
pub struct DocElement {
    pub kind: Kind,
    pub name: Name,
}

/// An assignment of a document.
#[derive(Clone, Copy)]
pub struct DocAssignment {
    pub from: Name,
    pub to: Name,
}

/// An association of a document: its rights stand in the order of the text, each once.
pub struct DocAssociation {
    pub ua: Name,
    pub rights: NameList,
    pub at: Name,
}

impl Drop for DocAssociation {
    fn drop(self) {
        let DocAssociation {
            ua: _,
            rights: _,
            at: _,
        } = self;
    }
}

/// A prohibition of a document: its rights stand in the order of the text, each once, and its two sets as they are
/// listed there, repeats too.
pub struct DocProhibition {
    pub name: Name,
    pub subject: Subject<Name, u32>,
    pub rights: NameList,
    pub inc: NameList,
    pub exc: NameList,
    pub mode: Mode,
}

impl Drop for DocProhibition {
    fn drop(self) {
        let DocProhibition {
            name: _,
            subject: _,
            rights: _,
            inc: _,
            exc: _,
            mode: _,
        } = self;
    }
}

/// The five lists of a document, in the order of its text. They may be unsound.
pub struct Policy {
    /// The names of the defined rights.
    pub rights: NameList,
    /// The elements but those of the opening.
    pub elements: ItemList<DocElement>,
    /// The assignments but those of the opening.
    pub assignments: ItemList<DocAssignment>,
    /// The associations.
    pub associations: ItemList<DocAssociation>,
    /// The prohibitions on users and user attributes.
    pub prohibitions: ItemList<DocProhibition>,
}

impl Drop for Policy {
    fn drop(self) {
        let Policy {
            rights: _,
            elements: _,
            assignments: _,
            associations: _,
            prohibitions: _,
        } = self;
    }
}
