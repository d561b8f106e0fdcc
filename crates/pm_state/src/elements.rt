//! Changes of elements and their assignments.

ghost use Rattle.std.specs.Prelude.{◌≡◌, ◌||◌, None, Some};
ghost use Rattle.std.specs.List.{list_any};
ghost use Rattle.pm_model.specs.Decision.{associations_of};
ghost use Rattle.pm_model.specs.Prohibitions.{names_element};
ghost use Rattle.pm_model.specs.Obligations.{concerns};
ghost use Rattle.pm_model.specs.Effect.{is_builtin, is_builtin_element, has_end, is_in_use};
ghost use Rattle.pm_model.specs.Formed.{IsNamed};
ghost use Rattle.pm_state.specs.Changes.{Changes, Checks};
ghost use Rattle.pm_state.specs.Shown.{graph_of};

use crate::classes::{place, take_out};
use crate::done::Done;
use crate::tables::Tables;
use pm_assoc::Assoc;
use pm_deny::Deny;
use pm_model::{Change, ChangeError, ElementId, Kind, Made, Memory, Name, Refusal};
use pm_oblig::Obligations;

fn is_builtin(x: ElementId, y: ElementId) -> bool
    ensures { result ≡ is_builtin x y }
{
    (x == ElementId(1) && y == ElementId(0)) || (x == ElementId(2) && y == ElementId(1))
}

fn is_builtin_element(id: ElementId) -> bool
    ensures { result ≡ is_builtin_element id }
{
    id.number() < 3
}

// Whether an association or a prohibition names the element.
fn is_in_an_access_rule(assoc: &Assoc, deny: &Deny, id: ElementId) -> bool
    ensures { result ≡ (list_any (has_end id) (associations_of assoc.now.grantees) || list_any (names_element id) deny.now.items) }
{
    assoc.names(id) || deny.names(id)
}

// Whether an association, a prohibition or an obligation names the element.
fn is_in_a_rule(assoc: &Assoc, deny: &Deny, oblig: &Obligations, id: ElementId) -> bool
    ensures { result ≡ (list_any (has_end id) (associations_of assoc.now.grantees) || list_any (names_element id) deny.now.items || list_any (concerns id) oblig.now.items) }
{
    is_in_an_access_rule(assoc, deny, id) || oblig.names(id)
}

impl Tables {
    // A new policy class stands in the list of classes first, which can be taken back where the table then has no memory.
    fn create_class(&mut self, id: ElementId, name: Name) -> Result<Done, ChangeError>
        requires { IsNamed (graph_of self.old) (Change.Create id Kind.Pc name None) }
        ensures { Changes self.old self.new (Change.Create id Kind.Pc name None) result }
    {
        match self.diagram.check_create(Kind::Pc, name, None) {
            Ok(()) => {}
            Err(error) => return Err(pm_elements::change_error(error)),
        }
        let place = match place(&mut self.classes, id) {
            Ok(place) => place,
            Err(Memory) => return Err(ChangeError::Memory),
        };
        match self.diagram.create(Kind::Pc, name, None) {
            Ok(number) => Ok(Done {
                made: Made::Element(number),
                rows: 1,
            }),
            Err(error) => {
                self.classes.remove(place);
                Err(pm_elements::change_error(error))
            }
        }
    }

    // An element in a container.
    fn create_in(
        &mut self,
        id: ElementId,
        kind: Kind,
        name: Name,
        into: ElementId,
    ) -> Result<Done, ChangeError>
        requires { IsNamed (graph_of self.old) (Change.Create id kind name (Some into)) }
        ensures { Changes self.old self.new (Change.Create id kind name (Some into)) result }
    {
        if kind == Kind::Pc {
            return Err(ChangeError::Refused(Refusal::BadKinds));
        }
        match self.diagram.create(kind, name, Some(into)) {
            Ok(number) => Ok(Done {
                made: Made::Element(number),
                rows: 2,
            }),
            Err(error) => Err(pm_elements::change_error(error)),
        }
    }

    /// Without a container the kind is a class's.
    pub(crate) fn create(
        &mut self,
        id: ElementId,
        kind: Kind,
        name: Name,
        into: Option<ElementId>,
    ) -> Result<Done, ChangeError>
        requires { IsNamed (graph_of self.old) (Change.Create id kind name into) }
        ensures { Changes self.old self.new (Change.Create id kind name into) result }
    {
        match into {
            None => self.create_class(id, name),
            Some(into) => self.create_in(id, kind, name, into),
        }
    }

    pub(crate) fn check_create(
        &self,
        id: ElementId,
        kind: Kind,
        name: Name,
        into: Option<ElementId>,
    ) -> Result<(), ChangeError>
        requires { IsNamed (graph_of self.now) (Change.Create id kind name into) }
        ensures { Checks self.now (Change.Create id kind name into) result }
    {
        match self.diagram.check_create(kind, name, into) {
            Ok(()) => Ok(()),
            Err(error) => Err(pm_elements::change_error(error)),
        }
    }

    fn is_in_use(&self, id: ElementId) -> bool
        ensures { result ≡ is_in_use (graph_of self.now) id }
    {
        is_in_a_rule(&self.assoc, &self.deny, &self.oblig, id)
            || self.procs.has_session(id)
            || self.kept.reviews(id)
    }

    /// It looks at each association, prohibition, obligation, session and kept review, and may want memory for its row.
    pub(crate) fn delete(&mut self, id: ElementId) -> Result<Done, ChangeError>
        requires { IsNamed (graph_of self.old) (Change.Delete id) }
        ensures { Changes self.old self.new (Change.Delete id) result }
    {
        match self.check_delete(id) {
            Ok(()) => {}
            Err(error) => return Err(error),
        }
        match self.diagram.remove(id) {
            Ok(()) => {
                take_out(&mut self.classes, id);
                Ok(Done::without_rows(Made::Nothing))
            }
            Err(error) => Err(pm_elements::change_error(error)),
        }
    }

    pub(crate) fn check_delete(&self, id: ElementId) -> Result<(), ChangeError>
        requires { IsNamed (graph_of self.now) (Change.Delete id) }
        ensures { Checks self.now (Change.Delete id) result }
    {
        if is_builtin_element(id) {
            return Err(ChangeError::Refused(Refusal::Builtin));
        }
        if self.diagram.elements().has_children(id) {
            return Err(ChangeError::Refused(Refusal::Occupied));
        }
        if self.is_in_use(id) {
            return Err(ChangeError::Refused(Refusal::InUse));
        }
        Ok(())
    }

    pub(crate) fn check_assign(&self, from: ElementId, to: ElementId) -> Result<(), ChangeError>
        requires { IsNamed (graph_of self.now) (Change.Assign from to) }
        ensures { Checks self.now (Change.Assign from to) result }
    {
        match self.diagram.check_assign(from, to) {
            Ok(()) => Ok(()),
            Err(error) => Err(pm_elements::change_error(error)),
        }
    }

    pub(crate) fn assign(&mut self, from: ElementId, to: ElementId) -> Result<Done, ChangeError>
        requires { IsNamed (graph_of self.old) (Change.Assign from to) }
        ensures { Changes self.old self.new (Change.Assign from to) result }
    {
        match self.diagram.assign(from, to) {
            Ok(rows) => Ok(Done {
                made: Made::Nothing,
                rows,
            }),
            Err(error) => Err(pm_elements::change_error(error)),
        }
    }

    /// It may want memory for the rows of what is contained in the element.
    pub(crate) fn deassign(&mut self, from: ElementId, to: ElementId) -> Result<Done, ChangeError>
        requires { IsNamed (graph_of self.old) (Change.Deassign from to) }
        ensures { Changes self.old self.new (Change.Deassign from to) result }
    {
        if is_builtin(from, to) {
            return Err(ChangeError::Refused(Refusal::Builtin));
        }
        match self.diagram.deassign(from, to) {
            Ok(rows) => Ok(Done {
                made: Made::Nothing,
                rows,
            }),
            Err(error) => Err(pm_elements::change_error(error)),
        }
    }

    pub(crate) fn check_deassign(&self, from: ElementId, to: ElementId) -> Result<(), ChangeError>
        requires { IsNamed (graph_of self.now) (Change.Deassign from to) }
        ensures { Checks self.now (Change.Deassign from to) result }
    {
        if is_builtin(from, to) {
            return Err(ChangeError::Refused(Refusal::Builtin));
        }
        match self.diagram.check_deassign(from, to) {
            Ok(()) => Ok(()),
            Err(error) => Err(pm_elements::change_error(error)),
        }
    }
}
