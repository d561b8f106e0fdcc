//! What rows can follow.

use pm_model::ElementId;

/// A change of the graph that rows can follow.
#[derive(Clone, Copy, Debug, PartialEq, Eq)]
pub enum Step {
    /// x is made, and assigned to the container where there is one.
    Make {
        x: ElementId,
        into: Option<ElementId>,
    },
    /// x is assigned to y.
    Assign {
        x: ElementId,
        y: ElementId,
    },
    /// x isn't assigned to y any more.
    Deassign {
        x: ElementId,
        y: ElementId,
    },
    /// x is deleted.
    Remove {
        x: ElementId,
    },
}
