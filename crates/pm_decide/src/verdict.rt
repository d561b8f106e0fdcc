//! What a decision answers.

use pm_model::ElementId;

/// What a decision says of a user, a process, a right and an element.
#[derive(Clone, Copy, Debug, PartialEq, Eq)]
pub enum Verdict {
    /// The user has the right on the element, and no prohibition denies it.
    Granted,
    /// In this policy class, which contains the element, no association gives the user the right.
    /// It is the first such class, in the order in which the classes were given.
    NoClass(ElementId),
    /// The user has the right on the element, but the prohibition at this place, in order of creation
    /// from 0, denies it. It is the first such prohibition.
    Prohibited(u32),
}
