//! The rows as callers have them. A copy costs one pointer, until the first of the two prepares a step: then that one takes
//! a pointer for each page of rows.

ghost use Rattle.std.specs.Prelude.{◌≡◌, ℕ, ◌<◌, ◌∷◌, true, false, Some, None, [], is_some, nat_lt, ◌≤◌, if◌then◌else◌, IsTrue, IfOk, OnOk, OnErr, ◌+◌, ◌*◌, ◌/◌, ◌==◌};
ghost use Rattle.std.specs.Int.{bit_at};
ghost use Rattle.pm_model.specs.State.{element_at, opening_elements, opening_assigned};
ghost use Rattle.pm_reach.specs.Rows.{has, below, inside, most};
ghost use Rattle.pm_reach.specs.Order.{IsOrder};
ghost use Rattle.pm_reach.specs.Changes.{TellContainment, CanFollow, Adds, Makes, Assigns, Deassigns, Removes};
ghost use Rattle.pm_reach.specs.Sharing.{IsUnready, is_owned};
ghost use Rattle.pm_reach.specs.Table.{value_of};
ghost use Rattle.pm_reach.specs.Words.{in_row};
ghost use Rattle.pm_reach.specs.declared.step.Step.{Step};

use crate::held::{Held, read};
use crate::rows::Rows;
use crate::step::Step;
use pm_model::{ElementId, Memory, Parents};
use std::alloc::Global;
use std::marker::Model;
use std::sync::Arc;

/// Containment, kept as a row of bits for each live element. A change is made in two steps: `prepare`
/// takes all memory that it needs and changes no row; the call that follows it can't fail.
///
/// Beside the rows stands the union of each page of 64 of them, by which all that is contained in an
/// element is found: where something else ever was contained in it, a change costs a look at each page,
/// and at each row of the pages whose union has the element. The unions are a filter, which may have
/// more than the rows. They are at most 256 rows, which take 512 KiB.
pub struct ReachRows {
    held: Held<Rows>,
}

impl Drop for ReachRows {
    fn drop(self) {
        let ReachRows { held: _ } = self;
    }
}

impl Model for ReachRows {
    ghost use Rattle.pm_reach.specs.Rows.{Readied};
    ghost use Rattle.pm_reach.specs.Sharing.{IsUnready};
    ghost use Rattle.pm_reach.specs.Table.{value_of};

    ghost Value = { Readied };

    ghost view = { λ r. record { rows = (value_of r.held).rows; ready = (value_of r.held).ready } };

    ghost invariant = { λ r. IsUnready r.held };
}

/// Lets the rows be written. On Memory they are as before.
fn own(held: &mut Held<Rows>) -> Result<(), Memory>
    requires { IsUnready held.old }
    ensures rows { (value_of held.new).rows ≡ (value_of held.old).rows }
    ensures own { OnOk result (is_owned held.new ≡ true) }
    ensures err { OnErr result (held.new ≡ held.old) }
    ensures unready { OnErr result ((value_of held.new).ready ≡ None) }
{
    if let Held::Shared(shared) = held {
        let rows = shared.copy()?;
        *held = Held::Own(rows);
    }
    Ok(())
}

/// Lets copies have the rows that were written since the last were shared.
fn share(held: &mut Held<Rows>) -> Result<(), Memory>
    requires { IsUnready held.old }
    ensures rows { (value_of held.new).rows ≡ (value_of held.old).rows }
    ensures ready { (value_of held.new).ready ≡ None }
    ensures unready { IsUnready held.new }
{
    if let Held::Own(rows) = held {
        rows.share()?;
        let same = rows.copy()?;
        let alloc = rows.alloc();
        let shared = Arc::new(alloc, same)?;
        *held = Held::Shared(shared);
    }
    Ok(())
}

impl ReachRows {
    /// The rows of the opening graph.
    pub fn opening(alloc: Global) -> Result<ReachRows, Memory>
        ensures live { IfOk result (λ r. (x : ℕ) → has r.rows x ≡ is_some (element_at opening_elements x)) }
        ensures rows { IfOk result (λ r. TellContainment opening_assigned r.rows) }
    {
        Ok(ReachRows {
            held: Held::Own(Rows::opening(alloc)?),
        })
    }

    // The rows of so many elements, of which none is assigned to another.
    pub(crate) fn unassigned(alloc: Global, size: u32) -> Result<ReachRows, Memory>
        requires { size ≤ most }
        ensures live { IfOk result (λ r. (x : ℕ) → has r.rows x ≡ nat_lt x size) }
        ensures rows { IfOk result (λ r. TellContainment [] r.rows) }
    {
        Ok(ReachRows {
            held: Held::Own(Rows::unassigned(alloc, size)?),
        })
    }

    /// The rows are a partial order.
    pub fn ordered(&self)
        ensures { IsOrder self.now.rows }
    {
        read(&self.held).ordered();
    }

    /// Whether x is contained in y.
    pub fn contains(&self, x: ElementId, y: ElementId) -> bool
        requires x { has self.now.rows x ≡ true }
        requires y { has self.now.rows y ≡ true }
        ensures { result ≡ below self.now.rows x y }
    {
        read(&self.held).contains(x, y)
    }

    // The words of the row of x; none where it has no row.
    pub(crate) fn row(&self, x: ElementId) -> &[u64]
        ensures { (y : ℕ) → in_row result.now y ≡ below self.now.rows x y }
    {
        read(&self.held).row(x)
    }

    /// Which of the numbers from 64 k on, 64 of them, x is contained in: bit i is the number 64 k + i.
    pub fn above(&self, x: ElementId, k: u32) -> u64
        requires { has self.now.rows x ≡ true }
        ensures { (i : ℕ) → i < 64 → (bit_at result i == 1) ≡ below self.now.rows x (64 * k + i) }
    {
        read(&self.held).above(x, k)
    }

    /// Whether some of the numbers from 64 k on, 64 of them, may be contained in y, as the union of their rows tells. It may say
    /// yes where none is, and never no where one is.
    pub fn may_hold(&self, y: ElementId, k: u32) -> bool
        ensures { result ≡ false → (x : ℕ) → x / 64 ≡ k → below self.now.rows x y ≡ false }
    {
        read(&self.held).may_hold(y, k)
    }

    /// Takes all memory that following the step needs, and changes no row. What was ready before is let
    /// go, also after want of memory.
    pub fn prepare(&mut self, step: Step) -> Result<(), Memory>
        requires possible { CanFollow self.old.rows step }
        ensures rows { self.new.rows ≡ self.old.rows }
        ensures ready { OnOk result (self.new.ready ≡ Some step) }
        ensures err { OnErr result (self.new.ready ≡ None) }
    {
        own(&mut self.held)?;
        self.held.own_mut().prepare(step)
    }

    /// Follows that x was made, and assigned to the container where there is one.
    #[tactic(auto, using(crate::proofs::Sharing::ready_own))]
    pub fn follow_make(&mut self, x: ElementId, into: Option<ElementId>)
        requires { self.old.ready ≡ Some (Step.Make x into) }
        ensures rows { Makes x into self.old.rows self.new.rows }
        ensures ready { self.new.ready ≡ None }
    {
        self.held.own_mut().follow_make(x, into);
    }

    /// Follows that x was assigned to y. Answers how many rows were written: those of all that is contained in x.
    #[tactic(auto, using(crate::proofs::Sharing::ready_own))]
    pub fn follow_assign(&mut self, x: ElementId, y: ElementId) -> u64
        requires { self.old.ready ≡ Some (Step.Assign x y) }
        ensures rows { Assigns x y self.old.rows self.new.rows }
        ensures count { result ≡ inside self.old.rows x }
        ensures ready { self.new.ready ≡ None }
    {
        self.held.own_mut().follow_assign(x, y)
    }

    /// Follows that x isn't assigned to y any more. The parents are those after this. Answers how many rows were written, as
    /// `follow_assign` does.
    #[tactic(auto, using(crate::proofs::Sharing::ready_own))]
    pub fn follow_deassign<P: Parents>(&mut self, x: ElementId, y: ElementId, parents: &P) -> u64
        requires ready { self.old.ready ≡ Some (Step.Deassign x y) }
        requires live { (z : ℕ) → has self.old.rows z ≡ true → IsTrue (P.live parents.now z) }
        requires rows { (z : ℕ) → IsTrue (P.live parents.now z) → has self.old.rows z ≡ true }
        requires was { TellContainment ((x, y) ∷ P.assigned parents.now) self.old.rows }
        ensures rows { Deassigns x (P.assigned parents.now) self.old.rows self.new.rows }
        ensures count { result ≡ inside self.old.rows x }
        ensures ready { self.new.ready ≡ None }
    {
        self.held.own_mut().follow_deassign(x, y, parents)
    }

    /// Follows that x was deleted.
    #[tactic(auto, using(crate::proofs::Sharing::ready_own))]
    pub fn follow_remove(&mut self, x: ElementId)
        requires { self.old.ready ≡ Some (Step.Remove x) }
        ensures rows { Removes x self.old.rows self.new.rows }
        ensures ready { self.new.ready ≡ None }
    {
        self.held.own_mut().follow_remove(x);
    }

    /// How many elements are contained in x, itself among them.
    pub fn inside(&self, x: ElementId) -> Result<u64, Memory>
        ensures { IfOk result (λ n. n ≡ inside self.now.rows x) }
    {
        read(&self.held).inside(x)
    }

    /// Prepares and follows that x is made.
    pub fn on_add(&mut self, x: ElementId) -> Result<(), Memory>
        requires none { has self.old.rows x ≡ false }
        requires few { x < most }
        ensures rows { OnOk result (Adds x self.old.rows self.new.rows) }
        ensures err { OnErr result (self.new.rows ≡ self.old.rows) }
    {
        own(&mut self.held)?;
        self.held.own_mut().on_add(x)
    }

    /// Prepares and follows that x is assigned to y. Answers how many rows were written, as `follow_assign` does.
    pub fn on_assign(&mut self, x: ElementId, y: ElementId) -> Result<u64, Memory>
        requires x { has self.old.rows x ≡ true }
        requires y { has self.old.rows y ≡ true }
        requires apart { below self.old.rows y x ≡ false }
        ensures rows { OnOk result (Assigns x y self.old.rows self.new.rows) }
        ensures count { IfOk result (λ n. n ≡ inside self.old.rows x) }
        ensures err { OnErr result (self.new.rows ≡ self.old.rows) }
    {
        own(&mut self.held)?;
        self.held.own_mut().on_assign(x, y)
    }

    /// Prepares and follows that x isn't assigned to y any more. The parents are those after this. Answers how many rows were
    /// written, as `follow_assign` does.
    pub fn on_deassign<P: Parents>(
        &mut self,
        x: ElementId,
        y: ElementId,
        parents: &P,
    ) -> Result<u64, Memory>
        requires live { (z : ℕ) → has self.old.rows z ≡ true → IsTrue (P.live parents.now z) }
        requires rows { (z : ℕ) → IsTrue (P.live parents.now z) → has self.old.rows z ≡ true }
        requires was { TellContainment ((x, y) ∷ P.assigned parents.now) self.old.rows }
        ensures rows { OnOk result (Deassigns x (P.assigned parents.now) self.old.rows self.new.rows) }
        ensures count { IfOk result (λ n. n ≡ inside self.old.rows x) }
        ensures err { OnErr result (self.new.rows ≡ self.old.rows) }
    {
        own(&mut self.held)?;
        self.held.own_mut().on_deassign(x, y, parents)
    }

    /// Prepares and follows that x is deleted.
    pub fn on_remove(&mut self, x: ElementId) -> Result<(), Memory>
        requires x { has self.old.rows x ≡ true }
        requires empty { (p : ℕ) → below self.old.rows p x ≡ true → p ≡ x }
        ensures rows { OnOk result (Removes x self.old.rows self.new.rows) }
        ensures err { OnErr result (self.new.rows ≡ self.old.rows) }
    {
        own(&mut self.held)?;
        self.held.own_mut().on_remove(x)
    }

    /// Whether x has a row.
    pub fn live(&self, x: ElementId) -> bool
        ensures { result ≡ has self.now.rows x }
    {
        read(&self.held).live(x)
    }

    /// Lets copies made from now on share all that is there: such a copy is a pointer. It takes memory for
    /// what wasn't shared before, and a pointer for each page where a row was written since. What is
    /// shared is copied where it is to be written, so nothing is ready any more.
    pub fn share(&mut self) -> Result<(), Memory>
        ensures rows { self.new.rows ≡ self.old.rows }
        ensures ready { self.new.ready ≡ None }
    {
        share(&mut self.held)
    }

    /// The same rows once more, and nothing ready. Neither sees what the other writes from then on.
    pub fn copy(&self) -> Result<ReachRows, Memory>
        ensures rows { IfOk result (λ same. same.rows ≡ self.now.rows) }
        ensures ready { IfOk result (λ same. same.ready ≡ None) }
    {
        let held = match &self.held {
            Held::Own(rows) => Held::Own(rows.copy()?),
            Held::Shared(shared) => Held::Shared(Arc::try_clone(shared)?),
        };
        Ok(ReachRows { held })
    }
}
