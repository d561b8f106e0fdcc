//! The diagram. Each change is tried first; then the memory for the rows is taken; then the table is
//! changed, which may still find no memory for itself; and then the rows follow, which can't fail. So
//! all is done, or nothing.

ghost use Rattle.std.specs.Prelude.{◌≡◌, ◌≢◌, ℕ, ◌<◌, ◌==◌, ◌*◌, ◌+◌, ◌/◌, if◌then◌else◌, false, None, OnOk, OnErr, IfOk, IfErr, IfSome, is_some, filter, not, true};
ghost use Rattle.std.specs.List.{list_any};
ghost use Rattle.pm_model.specs.Containment.{contained};
ghost use Rattle.pm_model.specs.Effect.{max_elements, is_pair, is_from, placed, with_pair, with_assignment, create_checks, assign_checks, deassign_checks, IsCause};
ghost use Rattle.pm_model.specs.Formed.{IsLive};
ghost use Rattle.pm_model.specs.Resolve.{unused};
ghost use Rattle.pm_model.specs.Results.{first_of};
ghost use Rattle.pm_model.specs.State.{element, element_at, is_numbered, opening_elements, opening_assigned};
ghost use Rattle.pm_elements.specs.Checks.{remove_checks};
ghost use Rattle.pm_elements.specs.Told.{told, IsCycleOf};
ghost use Rattle.pm_reach.specs.Rows.{has};
ghost use Rattle.pm_reach.specs.Changes.{TellContainment};
ghost use Rattle.pm_diagram.specs.Shape.{count_inside};

use pm_elements::{Elements, ElementsError};
use pm_model::{ElementId, Kind, Memory, Name, Parents};
use pm_reach::{ReachRows, Step};
use std::alloc::Global;
use std::marker::Model;

/// The live policy elements, their assignments, and the containment that these make. Contracts see the
/// two lists.
pub struct Diagram {
    elements: Elements,
    rows: ReachRows,
}

impl Drop for Diagram {
    fn drop(self) {
        let Diagram {
            elements: _,
            rows: _,
        } = self;
    }
}

impl Model for Diagram {
    ghost use Rattle.pm_diagram.specs.Shape.{Shape};

    ghost Value = { Shape };

    ghost use Rattle.pm_diagram.specs.Drawn.{shape_of, IsDrawn};

    ghost view = { shape_of };

    ghost invariant = { IsDrawn };
}

impl Diagram {
    /// The opening diagram: the class `pm`, its administrators, and the user `root` among them.
    pub fn opening(alloc: Global) -> Result<Diagram, Memory>
        ensures elements { IfOk result (λ d. d.elements ≡ opening_elements) }
        ensures assigned { IfOk result (λ d. d.assigned ≡ opening_assigned) }
    {
        let elements = Elements::opening(alloc)?;
        let rows = ReachRows::opening(alloc)?;
        Ok(Diagram { elements, rows })
    }

    /// Lets copies made from now on share the table and the rows. It takes memory for what wasn't shared
    /// before. On Memory some of it may be shared.
    pub fn share(&mut self) -> Result<(), Memory>
        ensures { self.new ≡ self.old }
    {
        self.elements.share()?;
        self.rows.share()
    }

    /// The same diagram once more. What is shared is not copied.
    pub fn copy(&self) -> Result<Diagram, Memory>
        ensures { IfOk result (λ same. same ≡ self.now) }
    {
        let elements = self.elements.copy()?;
        let rows = self.rows.copy()?;
        Ok(Diagram { elements, rows })
    }

    /// The table of elements and assignments.
    pub fn elements(&self) -> &Elements
        ensures elements { result.now.elements ≡ self.now.elements }
        ensures assigned { result.now.assigned ≡ self.now.assigned }
    {
        &self.elements
    }

    /// The rows: one for each live element, with what the element is contained in.
    pub fn rows(&self) -> &ReachRows
        ensures live { (x : ℕ) → has result.now.rows x ≡ is_some (element_at self.now.elements x) }
        ensures rows { TellContainment self.now.assigned result.now.rows }
    {
        &self.rows
    }

    /// Whether x is contained in y, both live: one look at a bit.
    pub(crate) fn contains(&self, x: ElementId, y: ElementId) -> bool
        requires x_live { IsLive self.now.elements x }
        requires y_live { IsLive self.now.elements y }
        ensures { result ≡ contained self.now.assigned x y }
    {
        self.rows.contains(x, y)
    }

    /// Whether some of the live elements with numbers from 64 k on, 64 of them, may be contained in y. It may say yes where none
    /// is, and never no where one is.
    pub(crate) fn may_hold(&self, y: ElementId, k: u32) -> bool
        ensures { result ≡ false → (x : ℕ) → IsLive self.now.elements x → x / 64 ≡ k → contained self.now.assigned x y ≡ false }
    {
        self.rows.may_hold(y, k)
    }

    /// Whether x is contained in y beside an assignment of x to y, both live: another element that x is assigned to is. Then
    /// that assignment adds nothing, and no row changes when it comes or goes.
    fn is_inside_beside(&self, x: ElementId, y: ElementId) -> bool
        requires x_live { IsLive self.now.elements x }
        requires y_live { IsLive self.now.elements y }
        ensures { result ≡ true → list_any (is_pair x y) self.now.assigned ≡ true → contained (filter (λ pair. not (is_pair x y pair)) self.now.assigned) x y ≡ true }
    {
        self.rows.ordered();
        for i in 0..self.elements.count(x) {
            let other = self.elements.parent(x, i);
            if other != x && other != y && self.rows.contains(other, y) {
                return true;
            }
        }
        false
    }

    /// Whether an element could be made in a container, or without one: `BadKinds`, `NameTaken`,
    /// `Full` of the elements, `Full` of the assignments, in this order. It never answers `Memory`.
    pub fn check_create(
        &self,
        kind: Kind,
        name: Name,
        into: Option<ElementId>,
    ) -> Result<(), ElementsError>
        requires { IfSome into (IsLive self.now.elements) }
        ensures fits { OnOk result (first_of (create_checks self.now.elements self.now.assigned kind name into) ≡ None) }
        ensures refused { IfErr result (λ e. IsCause (first_of (create_checks self.now.elements self.now.assigned kind name into)) (told e)) }
        ensures no_memory { IfErr result (λ e. e ≢ ElementsError.Memory) }
    {
        self.elements.check_create(kind, name, into)
    }

    /// Makes an element at the least unused number, and assigns it to the live container, where one
    /// is given. It is refused as `check_create` says; `Memory` where there was none.
    pub fn create(
        &mut self,
        kind: Kind,
        name: Name,
        into: Option<ElementId>,
    ) -> Result<ElementId, ElementsError>
        requires { IfSome into (IsLive self.old.elements) }
        ensures fits { OnOk result (first_of (create_checks self.old.elements self.old.assigned kind name into) ≡ None) }
        ensures number { IfOk result (λ n. n ≡ unused self.old.elements) }
        ensures few { IfOk result (λ n. n < max_elements) }
        ensures elements { OnOk result (self.new.elements ≡ placed (element (unused self.old.elements) kind name) self.old.elements) }
        ensures assigned { OnOk result (self.new.assigned ≡ with_pair into (unused self.old.elements) self.old.assigned) }
        ensures refused { IfErr result (λ e. IsCause (first_of (create_checks self.old.elements self.old.assigned kind name into)) (told e)) }
        ensures err { OnErr result (self.new ≡ self.old) }
    {
        let container = &into;
        self.elements.check_create(kind, name, *container)?;
        let x = self.elements.unused();
        self.rows.prepare(Step::Make {
            x,
            into: *container,
        })?;
        let id = self.elements.create(kind, name, *container)?;
        self.rows.follow_make(x, *container);
        Ok(id)
    }

    /// Whether x could be assigned to y, both live: `BadKinds`, `Already`, `Cycle` exactly where y is
    /// contained in x, `Full` at 131,072 assignments, in this order. It never answers `Memory`.
    pub fn check_assign(&self, x: ElementId, y: ElementId) -> Result<(), ElementsError>
        requires x_live { IsLive self.now.elements x }
        requires y_live { IsLive self.now.elements y }
        ensures fits { OnOk result (first_of (assign_checks self.now.elements self.now.assigned x y) ≡ None) }
        ensures refused { IfErr result (λ e. IsCause (first_of (assign_checks self.now.elements self.now.assigned x y)) (told e)) }
        ensures ends { IfErr result (IsCycleOf x y) }
        ensures no_memory { IfErr result (λ e. e ≢ ElementsError.Memory) }
    {
        self.elements.check_assign(x, y, self.contains(y, x))
    }

    /// Assigns x to y, both live. It is refused as `check_assign` says; `Memory` where there was none. It answers how many rows
    /// it wrote, those of all that is contained in x. Where x is contained in y already, they stay as they are, and count as
    /// written.
    pub fn assign(&mut self, x: ElementId, y: ElementId) -> Result<u64, ElementsError>
        requires x_live { IsLive self.old.elements x }
        requires y_live { IsLive self.old.elements y }
        ensures fits { OnOk result (first_of (assign_checks self.old.elements self.old.assigned x y) ≡ None) }
        ensures ok { OnOk result (self.new ≡ record self.old { assigned = with_assignment (x, y) self.old.assigned }) }
        ensures count { IfOk result (λ n. n ≡ count_inside self.old.elements self.old.assigned x) }
        ensures refused { IfErr result (λ e. IsCause (first_of (assign_checks self.old.elements self.old.assigned x y)) (told e)) }
        ensures ends { IfErr result (IsCycleOf x y) }
        ensures err { OnErr result (self.new ≡ self.old) }
    {
        let closes = self.contains(y, x);
        self.elements.check_assign(x, y, closes)?;
        if self.contains(x, y) {
            let same = self.rows.inside(x)?;
            self.elements.assign(x, y, closes)?;
            return Ok(same);
        }
        self.rows.prepare(Step::Assign { x, y })?;
        self.elements.assign(x, y, closes)?;
        Ok(self.rows.follow_assign(x, y))
    }

    /// Whether the assignment of x to y, both live, could be taken away: `Absent`, `LastContainer`
    /// exactly where y is the only container of x, in this order. It never answers `Memory`.
    pub fn check_deassign(&self, x: ElementId, y: ElementId) -> Result<(), ElementsError>
        requires x_live { IsLive self.now.elements x }
        requires y_live { IsLive self.now.elements y }
        ensures fits { OnOk result (first_of (deassign_checks self.now.assigned x y) ≡ None) }
        ensures refused { IfErr result (λ e. IsCause (first_of (deassign_checks self.now.assigned x y)) (told e)) }
        ensures no_memory { IfErr result (λ e. e ≢ ElementsError.Memory) }
    {
        self.elements.check_deassign(x, y)
    }

    /// Takes the assignment of x to y away, both live. It is refused as `check_deassign` says; `Memory`
    /// where there was none for the rows that are made anew. It answers how many rows it wrote, those of all that is contained
    /// in x. Where another element that x is assigned to is contained in y, they stay as they are, and count as written.
    pub fn deassign(&mut self, x: ElementId, y: ElementId) -> Result<u64, ElementsError>
        requires x_live { IsLive self.old.elements x }
        requires y_live { IsLive self.old.elements y }
        ensures fits { OnOk result (first_of (deassign_checks self.old.assigned x y) ≡ None) }
        ensures ok { OnOk result (self.new ≡ record self.old { assigned = filter (λ pair. not (is_pair x y pair)) self.old.assigned }) }
        ensures count { IfOk result (λ n. n ≡ count_inside self.old.elements self.old.assigned x) }
        ensures refused { IfErr result (λ e. IsCause (first_of (deassign_checks self.old.assigned x y)) (told e)) }
        ensures err { OnErr result (self.new ≡ self.old) }
    {
        self.elements.check_deassign(x, y)?;
        if self.is_inside_beside(x, y) {
            let kept = self.rows.inside(x)?;
            self.elements.deassign(x, y)?;
            return Ok(kept);
        }
        self.rows.prepare(Step::Deassign { x, y })?;
        self.elements.deassign(x, y)?;
        Ok(self.rows.follow_deassign(x, y, &self.elements))
    }

    /// Whether a live element could be taken out: `Occupied` exactly where something is assigned to it.
    /// It never answers `Memory`.
    pub fn check_remove(&self, id: ElementId) -> Result<(), ElementsError>
        requires { IsLive self.now.elements id }
        ensures fits { OnOk result (first_of (remove_checks self.now.assigned id) ≡ None) }
        ensures refused { IfErr result (λ e. IsCause (first_of (remove_checks self.now.assigned id)) (told e)) }
        ensures no_memory { IfErr result (λ e. e ≢ ElementsError.Memory) }
    {
        if self.elements.has_children(id) {
            return Err(ElementsError::Occupied);
        }
        Ok(())
    }

    /// Takes a live element and its assignments out. It is refused as `check_remove` says; `Memory`
    /// where there was none to write its shared row.
    pub fn remove(&mut self, id: ElementId) -> Result<(), ElementsError>
        requires { IsLive self.old.elements id }
        ensures fits { OnOk result (first_of (remove_checks self.old.assigned id) ≡ None) }
        ensures elements { OnOk result (self.new.elements ≡ filter (λ e. not (is_numbered id e)) self.old.elements) }
        ensures assigned { OnOk result (self.new.assigned ≡ filter (λ pair. not (is_from id pair)) self.old.assigned) }
        ensures refused { IfErr result (λ e. IsCause (first_of (remove_checks self.old.assigned id)) (told e)) }
        ensures err { OnErr result (self.new ≡ self.old) }
    {
        self.check_remove(id)?;
        self.rows.prepare(Step::Remove { x: id })?;
        self.elements.remove(id)?;
        self.rows.follow_remove(id);
        Ok(())
    }
}
