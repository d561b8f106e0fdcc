//! Containment as a diagram's rows tell it, for whoever asks a `Reach`.

ghost use Rattle.std.specs.Prelude.{◌≡◌};

use crate::diagram::Diagram;
use pm_model::{ElementId, Grant, Reach};
use pm_reach::RowsView;
use std::marker::Model;

/// A look at a diagram, through its rows. It takes no memory. A question about the element that was asked about last looks at
/// a word of a row, and any other finds the row first.
pub struct Containment<'a> {
    diagram: &'a Diagram,
    rows: RowsView<'a>,
}

impl<'a> Drop for Containment<'a> {
    fn drop(self) {
        let Containment {
            diagram: _,
            rows: _,
        } = self;
    }
}

impl<'a> Model for Containment<'a> {
    ghost use Rattle.pm_diagram.specs.Shape.{Shape};

    ghost Value = { Shape };

    ghost use Rattle.pm_diagram.specs.Drawn.{IsTold};

    ghost view = { λ c. c.diagram.now };

    ghost invariant = { λ c. IsTold c.diagram.now c.rows.rows };
}

impl Diagram {
    /// Which elements are live, and which is contained in which.
    pub fn reach(&self) -> Containment<'_>
        ensures { result ≡ self.now }
    {
        Containment {
            diagram: self,
            rows: self.rows().view(),
        }
    }
}

impl<'a> Reach for Containment<'a> {
    ghost use Rattle.std.specs.Prelude.{is_some};
    ghost use Rattle.pm_model.specs.State.{element_at};
    ghost use Rattle.pm_model.specs.Containment.{contained};

    ghost relation = { λ s. record { live = λ n. is_some (element_at s.elements n); below = contained s.assigned } };

    fn contains(&mut self, x: ElementId, y: ElementId) -> bool {
        self.rows.contains(x, y)
    }

    fn above(&mut self, x: ElementId, k: u32) -> u64 {
        self.rows.above(x, k)
    }

    fn may_hold(&mut self, y: ElementId, k: u32) -> bool {
        self.diagram.may_hold(y, k)
    }

    fn first_on(&mut self, x: ElementId, right: u8, grants: &[Grant]) -> Option<usize> {
        self.rows.first_on(x, right, grants)
    }
}
