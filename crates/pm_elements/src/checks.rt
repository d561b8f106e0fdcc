//! What a change of the table would be refused for. Nothing is changed here.

ghost use Rattle.std.specs.Prelude.{◌≡◌, ◌≢◌, None, OnOk, IfErr, IfSome};
ghost use Rattle.pm_model.specs.Results.{first_of};
ghost use Rattle.pm_model.specs.Effect.{create_checks, assign_checks, deassign_checks, IsCause};
ghost use Rattle.pm_model.specs.Containment.{contained};
ghost use Rattle.pm_model.specs.Formed.{IsLive};
ghost use Rattle.pm_elements.specs.Checks.{add_checks};
ghost use Rattle.pm_elements.specs.Told.{told, IsCycleOf};

use crate::errors::ElementsError;
use crate::table::Elements;
use pm_model::{ElementId, Kind, Name, Table};

const MAX_ELEMENTS: usize = 16384;

const MAX_ASSIGNMENTS: usize = 131072;

impl Elements {
    /// Whether an element without a container could be made: `NameTaken` comes before `Full`.
    pub fn check_add(&self, name: Name) -> Result<(), ElementsError>
        ensures fits { OnOk result (first_of (add_checks self.now.elements name) ≡ None) }
        ensures refused { IfErr result (λ e. IsCause (first_of (add_checks self.now.elements name)) (told e)) }
        ensures no_memory { IfErr result (λ e. e ≢ ElementsError.Memory) }
    {
        if self.has_name(name) {
            return Err(ElementsError::NameTaken);
        }
        if self.len() >= MAX_ELEMENTS {
            return Err(ElementsError::Full(Table::Elements));
        }
        Ok(())
    }

    /// Whether an element could be made in a container, or without one: `BadKinds`, `NameTaken`,
    /// `Full` of the elements, `Full` of the assignments, in this order. It never answers `Memory`.
    pub fn check_create(
        &self,
        kind: Kind,
        name: Name,
        into: Option<ElementId>,
    ) -> Result<(), ElementsError>
        requires { IfSome into (IsLive self.now.elements) }
        ensures fits { OnOk result (first_of (create_checks self.now.elements self.now.assigned kind name into) ≡ None) }
        ensures refused { IfErr result (λ e. IsCause (first_of (create_checks self.now.elements self.now.assigned kind name into)) (told e)) }
        ensures no_memory { IfErr result (λ e. e ≢ ElementsError.Memory) }
    {
        if !self.may_create(kind, into) {
            return Err(ElementsError::BadKinds);
        }
        self.check_add(name)?;
        if into.is_some() && self.assignments() >= MAX_ASSIGNMENTS {
            return Err(ElementsError::Full(Table::Assignments));
        }
        Ok(())
    }

    /// Whether x could be assigned to y: `BadKinds`, `Already`, `Cycle`, `Full`, in this order. The
    /// caller says whether the assignment would close a cycle: where y is contained in x. It never
    /// answers `Memory`.
    pub fn check_assign(
        &self,
        x: ElementId,
        y: ElementId,
        closes: bool,
    ) -> Result<(), ElementsError>
        requires x_live { IsLive self.now.elements x }
        requires y_live { IsLive self.now.elements y }
        requires closes { closes ≡ contained self.now.assigned y x }
        ensures fits { OnOk result (first_of (assign_checks self.now.elements self.now.assigned x y) ≡ None) }
        ensures refused { IfErr result (λ e. IsCause (first_of (assign_checks self.now.elements self.now.assigned x y)) (told e)) }
        ensures ends { IfErr result (IsCycleOf x y) }
        ensures no_memory { IfErr result (λ e. e ≢ ElementsError.Memory) }
    {
        if !self.may_assign(x, y) {
            return Err(ElementsError::BadKinds);
        }
        if self.is_assigned(x, y) {
            return Err(ElementsError::Already);
        }
        if closes {
            return Err(ElementsError::Cycle { from: x, to: y });
        }
        if self.assignments() >= MAX_ASSIGNMENTS {
            return Err(ElementsError::Full(Table::Assignments));
        }
        Ok(())
    }

    /// Whether the assignment of x to y could be taken away: `Absent`, `LastContainer`, in this
    /// order. It never answers `Memory`.
    pub fn check_deassign(&self, x: ElementId, y: ElementId) -> Result<(), ElementsError>
        requires x_live { IsLive self.now.elements x }
        requires y_live { IsLive self.now.elements y }
        ensures fits { OnOk result (first_of (deassign_checks self.now.assigned x y) ≡ None) }
        ensures refused { IfErr result (λ e. IsCause (first_of (deassign_checks self.now.assigned x y)) (told e)) }
        ensures no_memory { IfErr result (λ e. e ≢ ElementsError.Memory) }
    {
        if !self.is_assigned(x, y) {
            return Err(ElementsError::Absent);
        }
        if self.containers(x) == 1 {
            return Err(ElementsError::LastContainer);
        }
        Ok(())
    }
}
