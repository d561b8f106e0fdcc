//! The table. Its slots and its names are written together, or not at all.

ghost use Rattle.std.specs.Prelude.{◌≡◌, ◌≢◌, [], ◌<◌, ◌≤◌, true, false, None, Some, OnOk, OnErr, IfOk, IfErr, IfSome, is_some, option_map, length, filter, not};
ghost use Rattle.std.specs.List.{list_any};
ghost use Rattle.pm_model.specs.Containment.{contained};
ghost use Rattle.pm_model.specs.Effect.{max_elements, max_assignments, may_create, may_assign, both, is_pair, is_from, placed, with_pair, with_assignment, create_checks, assign_checks, deassign_checks, IsCause, has_child};
ghost use Rattle.pm_model.specs.Name.{is_name};
ghost use Rattle.pm_model.specs.Resolve.{unused};
ghost use Rattle.pm_model.specs.Results.{first_of};
ghost use Rattle.pm_model.specs.Reviews.{numbers_in, users_in};
ghost use Rattle.pm_elements.specs.Told.{told, IsCycleOf};
ghost use Rattle.pm_elements.specs.Checks.{add_checks, remove_checks, least_from};
ghost use Rattle.pm_model.specs.State.{element, element_at, is_named, is_numbered, number_named, name_numbered, opening_elements, opening_assigned};
ghost use Rattle.pm_model.specs.Formed.{IsLive};
ghost use Rattle.pm_model.specs.declared.elements.Element.{Element};

use crate::errors::ElementsError;
use crate::kinds::{both_may_assign, may_create};
use crate::links::{link, unlink};
use crate::listing::{Which, list_numbers};
use crate::places::{NewElement, least_free, open_slot, place};
use crate::removal::take_out;
use crate::slots::{
    Slots, child_count, has_parent, is_taken, next_taken, no_slots, parent_at, parent_count,
    taken_slot,
};
use pm_model::{ElementId, Kind, Memory, Name, NameOf, Parents, PlaceList, Reach, UserList};
use pm_names::Names;
use pm_search::PathReach;
use std::alloc::Global;
use std::marker::Model;

/// The live policy elements and their assignments. Contracts see the two lists, and whether the table
/// stands alone: then it has shared nothing since it was made, and what takes something out wants no
/// memory.
pub struct Elements {
    slots: Slots,
    names: Names,
    live: usize,
    links: usize,
    /// No number below this one is free.
    free_from: usize,
}

impl Drop for Elements {
    fn drop(self) {
        let Elements {
            slots: _,
            names: _,
            live: _,
            links: _,
            free_from: _,
        } = self;
    }
}

impl Model for Elements {
    ghost use Rattle.pm_elements.specs.Listed.{Listed};

    ghost Value = { Listed };

    ghost use Rattle.pm_elements.specs.Kept.{listed, IsKept};

    ghost view = { listed };

    ghost invariant = { IsKept };
}

impl Elements {
    /// The opening table: the class `pm`, its administrators, and the user `root` among them.
    pub fn opening(alloc: Global) -> Result<Elements, Memory>
        ensures elements { IfOk result (λ t. t.elements ≡ opening_elements) }
        ensures assigned { IfOk result (λ t. t.assigned ≡ opening_assigned) }
        ensures alone { IfOk result (λ t. t.alone ≡ true) }
    {
        let mut table = Elements::empty(alloc);
        table.join(Kind::Pc, b"pm", None)?;
        table.join(Kind::Ua, b"pm_admins", Some(ElementId(0)))?;
        table.join(Kind::User, b"root", Some(ElementId(1)))?;
        Ok(table)
    }

    fn empty(alloc: Global) -> Elements
        ensures elements { result.elements ≡ [] }
        ensures assigned { result.assigned ≡ [] }
        ensures alone { result.alone ≡ true }
    {
        Elements {
            slots: no_slots(alloc),
            names: Names::new(alloc),
            live: 0,
            links: 0,
            free_from: 0,
        }
    }

    // An element of the opening table. Only want of memory can refuse it.
    fn join(&mut self, kind: Kind, name: &[u8], into: Option<ElementId>) -> Result<(), Memory>
        requires named { is_name name.now ≡ true }
        requires into_live { IfSome into (IsLive self.old.elements) }
        ensures elements { OnOk result (self.new.elements ≡ placed (element (unused self.old.elements) kind name.now) self.old.elements) }
        ensures assigned { OnOk result (self.new.assigned ≡ with_pair into (unused self.old.elements) self.old.assigned) }
        ensures alone { self.new.alone ≡ self.old.alone }
    {
        let name = Name::new(name).unwrap();
        match self.create(kind, name, into) {
            Ok(_) => Ok(()),
            Err(_) => Err(Memory),
        }
    }

    /// Lets copies share the table. It takes memory for what the table has for itself, but for no
    /// element.
    pub fn share(&mut self) -> Result<(), Memory>
        ensures elements { self.new.elements ≡ self.old.elements }
        ensures assigned { self.new.assigned ≡ self.old.assigned }
        ensures alone { self.new.alone ≡ false }
    {
        self.slots.share()?;
        self.names.share()
    }

    /// The same table once more. It copies what isn't shared: so `share` comes first.
    pub fn copy(&self) -> Result<Elements, Memory>
        ensures elements { IfOk result (λ same. same.elements ≡ self.now.elements) }
        ensures assigned { IfOk result (λ same. same.assigned ≡ self.now.assigned) }
    {
        Ok(Elements {
            slots: self.slots.copy()?,
            names: self.names.copy()?,
            live: self.live,
            links: self.links,
            free_from: self.free_from,
        })
    }

    /// The number of the live element of a name.
    #[tactic(auto, using(crate::proofs::Found::lookup_named))]
    pub fn find(&self, name: Name) -> Option<ElementId>
        ensures { result ≡ number_named self.now.elements name }
    {
        self.names.find(&name)
    }

    /// Whether a live element has the number.
    #[tactic(auto, using(crate::proofs::Shown::live_shown))]
    pub fn live(&self, id: ElementId) -> bool
        ensures { result ≡ is_some (element_at self.now.elements id) }
    {
        is_taken(&self.slots, id)
    }

    /// The kind of a live element.
    #[tactic(auto, using(crate::proofs::Shown::kind_shown))]
    pub fn kind(&self, id: ElementId) -> Kind
        requires { IsLive self.now.elements id }
        ensures { option_map (λ (e : Element). e.kind) (element_at self.now.elements id) ≡ Some result }
    {
        taken_slot(&self.slots, id).kind
    }

    /// The name of a live element.
    #[tactic(auto, using(crate::proofs::Shown::name_shown))]
    pub fn name(&self, id: ElementId) -> Name
        requires { IsLive self.now.elements id }
        ensures { result ≡ name_numbered self.now.elements id }
    {
        taken_slot(&self.slots, id).name
    }

    /// How many elements are live: at most 16,384.
    pub fn len(&self) -> usize
        ensures { result ≡ length self.now.elements }
    {
        self.live
    }

    /// Makes an element without a container, at the least unused number: `NameTaken`, `Full` at
    /// 16,384 elements, in this order; `Memory` where there was none.
    pub fn add(&mut self, kind: Kind, name: Name) -> Result<ElementId, ElementsError>
        ensures fits { OnOk result (first_of (add_checks self.old.elements name) ≡ None) }
        ensures number { IfOk result (λ n. n ≡ unused self.old.elements) }
        ensures few { IfOk result (λ n. n < max_elements) }
        ensures elements { OnOk result (self.new.elements ≡ placed (element (unused self.old.elements) kind name) self.old.elements) }
        ensures assigned { OnOk result (self.new.assigned ≡ self.old.assigned) }
        ensures alone { self.new.alone ≡ self.old.alone }
        ensures refused { IfErr result (λ e. IsCause (first_of (add_checks self.old.elements name)) (told e)) }
        ensures err { OnErr result (self.new ≡ self.old) }
    {
        self.check_add(name)?;
        let id = self.put_new(&NewElement {
            kind,
            name,
            into: None,
        })?;
        Ok(id)
    }

    /// Makes an element at the least unused number, and assigns it to the live container, where one
    /// is given: `BadKinds`, `NameTaken`, `Full` of the elements, `Full` of the assignments, in
    /// this order; `Memory` where there was none.
    pub fn create(
        &mut self,
        kind: Kind,
        name: Name,
        into: Option<ElementId>,
    ) -> Result<ElementId, ElementsError>
        requires { IfSome into (IsLive self.old.elements) }
        ensures fits { OnOk result (first_of (create_checks self.old.elements self.old.assigned kind name into) ≡ None) }
        ensures number { IfOk result (λ n. n ≡ unused self.old.elements) }
        ensures few { IfOk result (λ n. n < max_elements) }
        ensures elements { OnOk result (self.new.elements ≡ placed (element (unused self.old.elements) kind name) self.old.elements) }
        ensures assigned { OnOk result (self.new.assigned ≡ with_pair into (unused self.old.elements) self.old.assigned) }
        ensures alone { self.new.alone ≡ self.old.alone }
        ensures refused { IfErr result (λ e. IsCause (first_of (create_checks self.old.elements self.old.assigned kind name into)) (told e)) }
        ensures err { OnErr result (self.new ≡ self.old) }
    {
        let new = NewElement { kind, name, into };
        self.check_create(new.kind, new.name, new.into)?;
        let id = self.put_new(&new)?;
        Ok(id)
    }

    // A new element whose kind and name are right, and for which there is room.
    fn put_new(&mut self, new: &NewElement) -> Result<ElementId, Memory>
        requires into_live { IfSome new.now.into (IsLive self.old.elements) }
        requires free { list_any (is_named new.now.name) self.old.elements ≡ false }
        requires few { length self.old.elements < max_elements }
        requires few_pairs { IfSome new.now.into (λ y. length self.old.assigned < max_assignments) }
        ensures number { IfOk result (λ n. n ≡ unused self.old.elements) }
        ensures few { IfOk result (λ n. n < max_elements) }
        ensures elements { OnOk result (self.new.elements ≡ placed (element (unused self.old.elements) new.now.kind new.now.name) self.old.elements) }
        ensures assigned { OnOk result (self.new.assigned ≡ with_pair new.now.into (unused self.old.elements) self.old.assigned) }
        ensures alone { self.new.alone ≡ self.old.alone }
        ensures err { OnErr result (self.new ≡ self.old) }
    {
        let id = self.unused();
        open_slot(&mut self.slots, id)?;
        place(&mut self.slots, &mut self.names, id, new)?;
        self.live += 1;
        self.links += new.links();
        self.free_from = id.number() as usize + 1;
        Ok(id)
    }

    /// Assigns x to y, both live: `BadKinds`, `Already`, `Cycle` exactly where y is contained in x,
    /// which the caller says, `Full` at 131,072 assignments, in this order; `Memory` where there was
    /// none.
    pub fn assign(&mut self, x: ElementId, y: ElementId, closes: bool) -> Result<(), ElementsError>
        requires x_live { IsLive self.old.elements x }
        requires y_live { IsLive self.old.elements y }
        requires closes { closes ≡ contained self.old.assigned y x }
        ensures fits { OnOk result (first_of (assign_checks self.old.elements self.old.assigned x y) ≡ None) }
        ensures ok { OnOk result (self.new ≡ record self.old { assigned = with_assignment (x, y) self.old.assigned }) }
        ensures refused { IfErr result (λ e. IsCause (first_of (assign_checks self.old.elements self.old.assigned x y)) (told e)) }
        ensures ends { IfErr result (IsCycleOf x y) }
        ensures err { OnErr result (self.new ≡ self.old) }
    {
        self.check_assign(x, y, closes)?;
        link(&mut self.slots, x, y)?;
        self.links += 1;
        Ok(())
    }

    /// Takes the assignment of x to y away, both live: `Absent`, `LastContainer` exactly where y is
    /// the only container of x, in this order; `Memory` where there was none, and never where the
    /// table stands alone.
    pub fn deassign(&mut self, x: ElementId, y: ElementId) -> Result<(), ElementsError>
        requires x_live { IsLive self.old.elements x }
        requires y_live { IsLive self.old.elements y }
        ensures fits { OnOk result (first_of (deassign_checks self.old.assigned x y) ≡ None) }
        ensures ok { OnOk result (self.new ≡ record self.old { assigned = filter (λ pair. not (is_pair x y pair)) self.old.assigned }) }
        ensures refused { IfErr result (λ e. IsCause (first_of (deassign_checks self.old.assigned x y)) (told e)) }
        ensures no_memory { self.old.alone ≡ true → IfErr result (λ e. e ≢ ElementsError.Memory) }
        ensures err { OnErr result (self.new ≡ self.old) }
    {
        self.check_deassign(x, y)?;
        unlink(&mut self.slots, x, y)?;
        self.links -= 1;
        Ok(())
    }

    /// Takes a live element and its assignments out: `Occupied` exactly where something is assigned
    /// to it; `Memory` where there was none, and never where the table stands alone.
    pub fn remove(&mut self, id: ElementId) -> Result<(), ElementsError>
        requires { IsLive self.old.elements id }
        ensures fits { OnOk result (first_of (remove_checks self.old.assigned id) ≡ None) }
        ensures elements { OnOk result (self.new.elements ≡ filter (λ e. not (is_numbered id e)) self.old.elements) }
        ensures assigned { OnOk result (self.new.assigned ≡ filter (λ pair. not (is_from id pair)) self.old.assigned) }
        ensures alone { self.new.alone ≡ self.old.alone }
        ensures refused { IfErr result (λ e. IsCause (first_of (remove_checks self.old.assigned id)) (told e)) }
        ensures no_memory { self.old.alone ≡ true → IfErr result (λ e. e ≢ ElementsError.Memory) }
        ensures err { OnErr result (self.new ≡ self.old) }
    {
        if self.has_children(id) {
            return Err(ElementsError::Occupied);
        }
        let links = self.containers(id);
        take_out(&mut self.slots, &mut self.names, id)?;
        self.live -= 1;
        self.links -= links;
        self.free_from = self.free_from.min(id.number() as usize);
        Ok(())
    }

    /// The least live number that is at least `from`: below 16,384.
    pub fn next(&self, from: u32) -> Option<ElementId>
        ensures number { result ≡ least_from self.now.elements from }
        ensures few { IfSome result (λ n. n < max_elements) }
    {
        next_taken(&self.slots, from)
    }

    /// The numbers of all live elements, by rising number: a look at each slot, and memory for the list alone.
    #[tactic(auto, using(crate::proofs::Numbers::all_numbers))]
    pub fn numbers(&self) -> Result<PlaceList, Memory>
        ensures { IfOk result (λ list. list ≡ numbers_in self.now.elements) }
    {
        list_numbers(&self.slots, Which::All, self.live)
    }

    /// Those of the live users, at the same cost.
    #[tactic(auto, using(crate::proofs::Numbers::user_numbers))]
    pub fn users(&self) -> Result<UserList, Memory>
        ensures { IfOk result (λ list. list ≡ users_in self.now.elements) }
    {
        list_numbers(&self.slots, Which::Users, 0)
    }

    /// The number that the next new element takes: the least that no live element has.
    #[tactic(auto, using(crate::proofs::Placing::unused_shown))]
    pub fn unused(&self) -> ElementId
        ensures number { result ≡ unused self.now.elements }
        ensures few { result ≤ length self.now.elements }
    {
        least_free(&self.slots, self.live, self.free_from)
    }

    /// Whether something is assigned to a live element.
    #[tactic(auto, using(crate::proofs::Held::child_held))]
    pub fn has_children(&self, id: ElementId) -> bool
        requires { IsLive self.now.elements id }
        ensures { result ≡ has_child self.now.assigned id }
    {
        child_count(&self.slots, id) > 0
    }

    /// A search of the assignments: it tells which elements are live here, and which is contained in
    /// which by the assignments. Its memory is taken in this call.
    #[tactic(auto, using(crate::proofs::Shown::live_below))]
    pub fn paths(&self) -> Result<PathReach<'_, Elements>, Memory>
        ensures { IfOk result (λ r. r.parents.now ≡ self.now) }
    {
        PathReach::new(self.slots.allocator(), self, self.slots.len())
    }

    /// How many assignments there are: at most 131,072.
    pub fn assignments(&self) -> usize
        ensures { result ≡ length self.now.assigned }
    {
        self.links
    }

    /// Whether a live element has the name.
    #[tactic(auto, using(crate::proofs::Found::any_named))]
    pub(crate) fn has_name(&self, name: Name) -> bool
        ensures { result ≡ list_any (is_named name) self.now.elements }
    {
        self.find(name).is_some()
    }

    /// Whether an element of this kind may be made in the container, where there is one.
    pub(crate) fn may_create(&self, kind: Kind, into: Option<ElementId>) -> bool
        requires { IfSome into (IsLive self.now.elements) }
        ensures { result ≡ may_create self.now.elements kind into }
    {
        may_create(&self.slots, kind, into)
    }

    /// Whether the kinds of two live elements allow the assignment.
    pub(crate) fn may_assign(&self, x: ElementId, y: ElementId) -> bool
        requires x_live { IsLive self.now.elements x }
        requires y_live { IsLive self.now.elements y }
        ensures { result ≡ both may_assign (element_at self.now.elements x) (element_at self.now.elements y) }
    {
        both_may_assign(&self.slots, x, y)
    }

    /// Whether x is assigned to y.
    #[tactic(auto, using(crate::proofs::Held::pair_held))]
    pub(crate) fn is_assigned(&self, x: ElementId, y: ElementId) -> bool
        requires { IsLive self.now.elements x }
        ensures { result ≡ list_any (is_pair x y) self.now.assigned }
    {
        has_parent(&self.slots, x, y)
    }

    /// How many elements x is assigned to.
    #[tactic(auto, using(crate::proofs::Held::count_held))]
    pub(crate) fn containers(&self, x: ElementId) -> usize
        requires { IsLive self.now.elements x }
        ensures { result ≡ length (filter (is_from x) self.now.assigned) }
    {
        parent_count(&self.slots, x)
    }
}

impl Parents for Elements {
    ghost use Rattle.std.specs.Prelude.{is_some};
    ghost use Rattle.pm_model.specs.State.{element_at};

    ghost live = { λ t n. is_some (element_at t.elements n) };

    ghost assigned = { λ t. t.assigned };

    #[tactic(auto, using(crate::proofs::Held::containers_count))]
    fn count(&self, x: ElementId) -> usize {
        parent_count(&self.slots, x)
    }

    #[tactic(auto, using(crate::proofs::Assigned::containers_held))]
    fn parent(&self, x: ElementId, i: usize) -> ElementId {
        parent_at(&self.slots, x, i)
    }
}

impl NameOf for Elements {
    ghost use Rattle.std.specs.Prelude.{is_some};
    ghost use Rattle.pm_model.specs.State.{element, element_at, name_numbered};

    ghost named = { λ t n. is_some (element_at t.elements n) };

    ghost name_at = { λ t n. name_numbered t.elements n };

    fn name_of(&self, id: ElementId) -> Name {
        self.name(id)
    }
}
