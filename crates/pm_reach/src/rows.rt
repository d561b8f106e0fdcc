//! The rows, and the step that is ready to be followed.

ghost use Rattle.std.specs.Prelude.{◌≡◌, ℕ, ◌<◌, ◌≤◌, ◌∷◌, [], true, false, Some, None, is_some, nat_lt, IsTrue, IsSome, IfOk, OnOk, OnErr, ◌+◌, ◌*◌, ◌/◌, ◌==◌};
ghost use Rattle.std.specs.Int.{bit_at};
ghost use Rattle.pm_model.specs.State.{element_at, opening_elements, opening_assigned};
ghost use Rattle.pm_reach.specs.Rows.{has, below, inside, most};
ghost use Rattle.pm_reach.specs.Order.{IsOrder};
ghost use Rattle.pm_reach.specs.Words.{in_row};
ghost use Rattle.pm_reach.specs.Changes.{TellContainment, CanFollow, Adds, Makes, Assigns, Deassigns, Removes};
ghost use Rattle.pm_reach.specs.declared.step.Step.{Step};

use crate::changes::{assign, deassign, make, remove};
use crate::containers::Containers;
use crate::inside::inside_of;
use crate::ready::{Ready, make_ready, ready_deassign};
use crate::step::Step;
use crate::table::RowTable;
use pm_model::{ElementId, Memory, Parents};
use std::alloc::Global;
use std::marker::Model;

/// Containment, kept as a row of bits for each live element. A change is made in two steps: `prepare`
/// takes all memory that it needs and changes no row; the call that follows it can't fail.
///
/// Beside the rows stands the union of each page of 64 of them, by which all that is contained in an
/// element is found: where something else ever was contained in it, a change costs a look at each page,
/// and at each row of the pages whose union has the element. The unions are a filter, which may have
/// more than the rows. They are at most 256 rows, which take 512 KiB.
pub(crate) struct Rows {
    table: RowTable,
    /// Row k has all that the rows of the numbers from 64 k on, 64 of them, have, and maybe more.
    unions: RowTable,
    ready: Option<Ready>,
    containers: Containers,
}

impl Drop for Rows {
    fn drop(self) {
        let Rows {
            table: _,
            unions: _,
            ready: _,
            containers: _,
        } = self;
    }
}

impl Model for Rows {
    ghost use Rattle.std.specs.Prelude.{option_map};
    ghost use Rattle.pm_reach.specs.Rows.{Readied};
    ghost use Rattle.pm_reach.specs.Order.{IsOrder};
    ghost use Rattle.pm_reach.specs.Ready.{step_of, IsPrepared};
    ghost use Rattle.pm_reach.specs.Passes.{AreContainers};
    ghost use Rattle.pm_reach.specs.Unions.{AreUnions};

    ghost Value = { Readied };

    ghost view = { λ a. record { rows = a.table.rows; ready = option_map step_of a.ready } };

    ghost invariant = { λ a. IsOrder a.table.rows × IsPrepared a.table a.unions.rows a.containers a.ready × AreContainers a.table.rows a.containers × AreUnions a.unions.rows a.table.rows };
}

/// Takes out what is ready.
fn take(ready: &mut Option<Ready>) -> Ready
    requires { IsSome ready.old }
    ensures step { ready.old ≡ Some result }
    ensures none { ready.new ≡ None }
{
    ready.take().unwrap()
}

impl Rows {
    /// The rows of the opening graph.
    pub(crate) fn opening(alloc: Global) -> Result<Rows, Memory>
        ensures live { IfOk result (λ r. (x : ℕ) → has r.rows x ≡ is_some (element_at opening_elements x)) }
        ensures rows { IfOk result (λ r. TellContainment opening_assigned r.rows) }
    {
        let mut rows = Rows::unassigned(alloc, 3)?;
        rows.on_assign(ElementId(2), ElementId(1))?;
        rows.on_assign(ElementId(1), ElementId(0))?;
        Ok(rows)
    }

    // The rows of so many elements, of which none is assigned to another.
    pub(crate) fn unassigned(alloc: Global, size: u32) -> Result<Rows, Memory>
        requires { size ≤ most }
        ensures live { IfOk result (λ r. (x : ℕ) → has r.rows x ≡ nat_lt x size) }
        ensures rows { IfOk result (λ r. TellContainment [] r.rows) }
    {
        let mut rows = Rows::empty(alloc)?;
        for x in 0..size {
            rows.on_add(ElementId(x))?;
        }
        Ok(rows)
    }

    #[tactic(auto, unfolding(crate::specs::Unions::AreUnions))]
    fn empty(alloc: Global) -> Result<Rows, Memory>
        ensures { IfOk result (λ r. r.rows ≡ []) }
    {
        let containers = Containers::new(alloc)?;
        Ok(Rows {
            table: RowTable::new(alloc),
            unions: RowTable::new(alloc),
            ready: None,
            containers,
        })
    }

    /// The rows are a partial order.
    pub(crate) fn ordered(&self)
        ensures { IsOrder self.now.rows }
    {
        let _ = &self.table;
    }

    /// Whether x is contained in y.
    pub(crate) fn contains(&self, x: ElementId, y: ElementId) -> bool
        requires x { has self.now.rows x ≡ true }
        requires y { has self.now.rows y ≡ true }
        ensures { result ≡ below self.now.rows x y }
    {
        self.table.has(x.number(), y.number())
    }

    /// The row of x; none where it has no row.
    pub(crate) fn row(&self, x: ElementId) -> &[u64]
        ensures { (y : ℕ) → in_row result.now y ≡ below self.now.rows x y }
    {
        self.table.words(x.number())
    }

    /// Which of the numbers from 64 k on, 64 of them, x is contained in: bit i is the number 64 k + i.
    pub(crate) fn above(&self, x: ElementId, k: u32) -> u64
        requires { has self.now.rows x ≡ true }
        ensures { (i : ℕ) → i < 64 → (bit_at result i == 1) ≡ below self.now.rows x (64 * k + i) }
    {
        self.table.word(x.number(), k)
    }

    /// Whether some of the numbers from 64 k on, 64 of them, may be contained in y, as the union of their rows tells. It may say
    /// yes where none is, and never no where one is.
    #[tactic(auto, using(crate::proofs::Covering::union_lacks))]
    pub(crate) fn may_hold(&self, y: ElementId, k: u32) -> bool
        ensures { result ≡ false → (x : ℕ) → x / 64 ≡ k → below self.now.rows x y ≡ false }
    {
        self.unions.has(k, y.number())
    }

    /// Takes all memory that following the step needs, and changes no row. What was ready before is let
    /// go, also after want of memory.
    pub(crate) fn prepare(&mut self, step: Step) -> Result<(), Memory>
        requires possible { CanFollow self.old.rows step }
        ensures rows { self.new.rows ≡ self.old.rows }
        ensures ready { OnOk result (self.new.ready ≡ Some step) }
        ensures err { OnErr result (self.new.ready ≡ None) }
    {
        self.ready = None;
        let ready = make_ready(
            &mut self.table,
            &mut self.unions,
            &mut self.containers,
            step,
        )?;
        self.ready = Some(ready);
        Ok(())
    }

    /// Follows that x was made, and assigned to the container where there is one.
    pub(crate) fn follow_make(&mut self, x: ElementId, into: Option<ElementId>)
        requires { self.old.ready ≡ Some (Step.Make x into) }
        ensures rows { Makes x into self.old.rows self.new.rows }
        ensures ready { self.new.ready ≡ None }
    {
        let ready = take(&mut self.ready);
        make(&mut self.table, ready, x, into);
    }

    /// Follows that x was assigned to y. Answers how many rows were written.
    pub(crate) fn follow_assign(&mut self, x: ElementId, y: ElementId) -> u64
        requires { self.old.ready ≡ Some (Step.Assign x y) }
        ensures rows { Assigns x y self.old.rows self.new.rows }
        ensures count { result ≡ inside self.old.rows x }
        ensures ready { self.new.ready ≡ None }
    {
        let ready = take(&mut self.ready);
        assign(&mut self.table, ready, x, y)
    }

    /// Follows that x isn't assigned to y any more. The parents are those after this. Answers how many rows
    /// were written.
    pub(crate) fn follow_deassign<P: Parents>(
        &mut self,
        x: ElementId,
        y: ElementId,
        parents: &P,
    ) -> u64
        requires ready { self.old.ready ≡ Some (Step.Deassign x y) }
        requires live { (z : ℕ) → has self.old.rows z ≡ true → IsTrue (P.live parents.now z) }
        requires rows { (z : ℕ) → IsTrue (P.live parents.now z) → has self.old.rows z ≡ true }
        requires was { TellContainment ((x, y) ∷ P.assigned parents.now) self.old.rows }
        ensures rows { Deassigns x (P.assigned parents.now) self.old.rows self.new.rows }
        ensures count { result ≡ inside self.old.rows x }
        ensures ready { self.new.ready ≡ None }
    {
        let ready = take(&mut self.ready);
        deassign(&mut self.table, ready, x, y, parents)
    }

    /// Follows that x was deleted.
    pub(crate) fn follow_remove(&mut self, x: ElementId)
        requires { self.old.ready ≡ Some (Step.Remove x) }
        ensures rows { Removes x self.old.rows self.new.rows }
        ensures ready { self.new.ready ≡ None }
    {
        let ready = take(&mut self.ready);
        remove(&mut self.table, ready, x);
    }

    /// Prepares and follows that x is made.
    pub(crate) fn on_add(&mut self, x: ElementId) -> Result<(), Memory>
        requires none { has self.old.rows x ≡ false }
        requires few { x < most }
        ensures rows { OnOk result (Adds x self.old.rows self.new.rows) }
        ensures err { OnErr result (self.new.rows ≡ self.old.rows) }
    {
        self.prepare(Step::Make { x, into: None })?;
        self.follow_make(x, None);
        Ok(())
    }

    /// Prepares and follows that x is assigned to y. Answers how many rows were written.
    pub(crate) fn on_assign(&mut self, x: ElementId, y: ElementId) -> Result<u64, Memory>
        requires x { has self.old.rows x ≡ true }
        requires y { has self.old.rows y ≡ true }
        requires apart { below self.old.rows y x ≡ false }
        ensures rows { OnOk result (Assigns x y self.old.rows self.new.rows) }
        ensures count { IfOk result (λ written. written ≡ inside self.old.rows x) }
        ensures err { OnErr result (self.new.rows ≡ self.old.rows) }
    {
        self.prepare(Step::Assign { x, y })?;
        Ok(self.follow_assign(x, y))
    }

    /// Prepares and follows that x isn't assigned to y any more. The parents are those after this. Answers
    /// how many rows were written.
    pub(crate) fn on_deassign<P: Parents>(
        &mut self,
        x: ElementId,
        y: ElementId,
        parents: &P,
    ) -> Result<u64, Memory>
        requires live { (z : ℕ) → has self.old.rows z ≡ true → IsTrue (P.live parents.now z) }
        requires rows { (z : ℕ) → IsTrue (P.live parents.now z) → has self.old.rows z ≡ true }
        requires was { TellContainment ((x, y) ∷ P.assigned parents.now) self.old.rows }
        ensures rows { OnOk result (Deassigns x (P.assigned parents.now) self.old.rows self.new.rows) }
        ensures count { IfOk result (λ written. written ≡ inside self.old.rows x) }
        ensures err { OnErr result (self.new.rows ≡ self.old.rows) }
    {
        self.ready = None;
        let ready = ready_deassign(&mut self.table, &mut self.unions, &self.containers, x, y)?;
        Ok(deassign(&mut self.table, ready, x, y, parents))
    }

    /// Prepares and follows that x is deleted.
    pub(crate) fn on_remove(&mut self, x: ElementId) -> Result<(), Memory>
        requires x { has self.old.rows x ≡ true }
        requires empty { (p : ℕ) → below self.old.rows p x ≡ true → p ≡ x }
        ensures rows { OnOk result (Removes x self.old.rows self.new.rows) }
        ensures err { OnErr result (self.new.rows ≡ self.old.rows) }
    {
        self.prepare(Step::Remove { x })?;
        self.follow_remove(x);
        Ok(())
    }

    /// Where it takes its memory from.
    pub(crate) fn alloc(&self) -> Global {
        self.table.alloc()
    }

    /// Whether x has a row.
    pub(crate) fn live(&self, x: ElementId) -> bool
        ensures { result ≡ has self.now.rows x }
    {
        self.table.has_row(x.number())
    }

    /// How many elements are contained in x. It takes memory for a row of them.
    #[tactic(auto, using(crate::proofs::Passing::count_same))]
    pub(crate) fn inside(&self, x: ElementId) -> Result<u64, Memory>
        ensures { IfOk result (λ n. n ≡ inside self.now.rows x) }
    {
        let found = inside_of(&self.table, &self.unions, &self.containers, x)?;
        Ok(found.count())
    }

    /// Lets copies made from now on share all that is there: such a copy is one of pointers. It takes
    /// memory for what wasn't shared before. What is shared is copied where it is to be written, so
    /// nothing is ready any more.
    pub(crate) fn share(&mut self) -> Result<(), Memory>
        ensures rows { self.new.rows ≡ self.old.rows }
        ensures ready { self.new.ready ≡ None }
    {
        self.ready = None;
        self.table.share()?;
        self.unions.share()
    }

    /// The same rows once more, and nothing ready. Neither sees what the other writes from then on.
    pub(crate) fn copy(&self) -> Result<Rows, Memory>
        ensures rows { IfOk result (λ same. same.rows ≡ self.now.rows) }
        ensures ready { IfOk result (λ same. same.ready ≡ None) }
    {
        let table = self.table.copy()?;
        let unions = self.unions.copy()?;
        let containers = self.containers.copy()?;
        Ok(Rows {
            table,
            unions,
            ready: None,
            containers,
        })
    }
}
