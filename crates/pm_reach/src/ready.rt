//! Making ready: all memory that following a step needs is taken before anything is written.

ghost use Rattle.std.specs.Prelude.{◌≡◌, ℕ, ◌<◌, ◌≤◌, ◌*◌, ◌/◌, ◌⊎◌, true, length, OnOk, IfOk};
ghost use Rattle.pm_search.specs.Marks.{NoneMarked};
ghost use Rattle.pm_reach.specs.Words.{in_row};
ghost use Rattle.pm_reach.specs.Rows.{has, below};
ghost use Rattle.pm_reach.specs.Table.{IsReady};
ghost use Rattle.pm_reach.specs.NewRows.{made_below};
ghost use Rattle.pm_reach.specs.Changes.{CanFollow};
ghost use Rattle.pm_reach.specs.Passes.{AreContainers, IsRising};
ghost use Rattle.pm_reach.specs.Inside.{IsInside};
ghost use Rattle.pm_reach.specs.Ready.{step_of, IsTaken, Holds};
ghost use Rattle.pm_reach.specs.Unions.{AreUnions, Cover};
ghost use Rattle.pm_reach.specs.declared.step.Step.{Step};

use crate::containers::Containers;
use crate::inside::{Inside, inside_of, rises};
use crate::step::Step;
use crate::table::{NewRow, RowTable};
use crate::unions::cover;
use crate::words::row_with;
use pm_model::{ElementId, Memory};
use std::alloc::Global;

/// A step that is ready to be followed, with the memory that was taken for it.
#[derive(Drop)]
pub(crate) enum Ready {
    Make {
        x: ElementId,
        into: Option<ElementId>,
        /// The row of x.
        row: NewRow,
    },
    Assign {
        /// All that is contained in the element that is assigned.
        inside: Inside,
        y: ElementId,
        /// What the row of y has.
        other: Vec<u64>,
    },
    Deassign {
        /// All that is contained in the element whose assignment is taken away.
        inside: Inside,
        y: ElementId,
        /// For a search from an element inside, where one may be needed.
        marks: Vec<bool>,
        queue: Vec<u32>,
        /// For the row of each of them in turn.
        row: Vec<u64>,
    },
    Remove {
        x: ElementId,
    },
}

/// Makes a step ready to be followed. What the step brings is put into the unions and the set of containers
/// at once: they may have more than the rows tell.
pub(crate) fn make_ready(
    table: &mut RowTable,
    unions: &mut RowTable,
    containers: &mut Containers,
    step: Step,
) -> Result<Ready, Memory>
    requires possible { CanFollow table.old.rows step }
    requires containers { AreContainers table.old.rows containers.old }
    requires unions { AreUnions unions.old.rows table.old.rows }
    ensures rows { table.new.rows ≡ table.old.rows }
    ensures unions { AreUnions unions.new.rows table.old.rows }
    ensures step { IfOk result (λ ready. step_of ready ≡ step) }
    ensures taken { IfOk result (λ ready. IsTaken table.new ready) }
    ensures covered { OnOk result (Cover unions.new.rows table.old.rows step) }
    ensures containers { AreContainers table.old.rows containers.new }
    ensures held { OnOk result (Holds containers.new step) }
{
    match step {
        Step::Make { x, into } => ready_make(table, unions, containers, x, into),
        Step::Assign { x, y } => ready_assign(table, unions, containers, x, y),
        Step::Deassign { x, y } => ready_deassign(table, unions, containers, x, y),
        Step::Remove { x } => ready_remove(table, x),
    }
}

/// The row of a new element: itself, and what the row of the container has.
fn row_of(table: &RowTable, x: u32, into: &Option<ElementId>) -> Result<Vec<u64>, Memory>
    ensures { IfOk result (λ words. (q : ℕ) → in_row words.items q ≡ made_below table.now.rows x into.now q) }
{
    match into {
        Some(y) => row_with(table.alloc(), x, table.words(y.number())),
        None => row_with(table.alloc(), x, &[]),
    }
}

#[tactic(auto, unfolding(crate::specs::Unions::AreUnions))]
fn ready_make(
    table: &mut RowTable,
    unions: &mut RowTable,
    containers: &mut Containers,
    x: ElementId,
    into: Option<ElementId>,
) -> Result<Ready, Memory>
    requires possible { CanFollow table.old.rows (Step.Make x into) }
    requires containers { AreContainers table.old.rows containers.old }
    requires unions { AreUnions unions.old.rows table.old.rows }
    ensures rows { table.new.rows ≡ table.old.rows }
    ensures unions { AreUnions unions.new.rows table.old.rows }
    ensures step { IfOk result (λ ready. step_of ready ≡ Step.Make x into) }
    ensures taken { IfOk result (λ ready. IsTaken table.new ready) }
    ensures covered { OnOk result (Cover unions.new.rows table.old.rows (Step.Make x into)) }
    ensures containers { AreContainers table.old.rows containers.new }
    ensures held { OnOk result (Holds containers.new (Step.Make x into)) }
{
    table.bounded();
    containers.put_given(into)?;
    let words = row_of(table, x.number(), &into)?;
    cover(unions, x.number(), words.as_slice())?;
    let row = table.ready_new(x.number(), words)?;
    Ok(Ready::Make { x, into, row })
}

fn ready_assign(
    table: &mut RowTable,
    unions: &mut RowTable,
    containers: &mut Containers,
    x: ElementId,
    y: ElementId,
) -> Result<Ready, Memory>
    requires possible { CanFollow table.old.rows (Step.Assign x y) }
    requires containers { AreContainers table.old.rows containers.old }
    requires unions { AreUnions unions.old.rows table.old.rows }
    ensures rows { table.new.rows ≡ table.old.rows }
    ensures unions { AreUnions unions.new.rows table.old.rows }
    ensures step { IfOk result (λ ready. step_of ready ≡ Step.Assign x y) }
    ensures taken { IfOk result (λ ready. IsTaken table.new ready) }
    ensures covered { OnOk result (Cover unions.new.rows table.old.rows (Step.Assign x y)) }
    ensures containers { AreContainers table.old.rows containers.new }
    ensures held { OnOk result (Holds containers.new (Step.Assign x y)) }
{
    table.bounded();
    containers.put(y.number())?;
    let other = Vec::from_slice(table.alloc(), table.words(y.number()))?;
    let inside = inside_of(table, unions, containers, x)?;
    ready_all(table, unions, &inside, other.as_slice())?;
    Ok(Ready::Assign { inside, y, other })
}

/// How many numbers a search from what is inside may meet: none where numbers rise there from containers
/// to what is in them, so that each row is put together from those of its containers.
fn searched(table: &RowTable, inside: &Inside) -> usize
    requires { IsInside table.now.rows inside.now }
    ensures { IsRising table.now.rows inside.now.of ⊎ ((y : ℕ) → has table.now.rows y ≡ true → y < result) }
{
    if rises(table, inside) { 0 } else { table.len() }
}

pub(crate) fn ready_deassign(
    table: &mut RowTable,
    unions: &mut RowTable,
    containers: &Containers,
    x: ElementId,
    y: ElementId,
) -> Result<Ready, Memory>
    requires containers { AreContainers table.old.rows containers.now }
    requires unions { AreUnions unions.old.rows table.old.rows }
    ensures rows { table.new.rows ≡ table.old.rows }
    ensures unions { AreUnions unions.new.rows table.old.rows }
    ensures step { IfOk result (λ ready. step_of ready ≡ Step.Deassign x y) }
    ensures taken { IfOk result (λ ready. IsTaken table.new ready) }
{
    let inside = inside_of(table, unions, containers, x)?;
    let searched = searched(table, &inside);
    let marks = no_marks(table.alloc(), searched)?;
    let queue = no_numbers(table.alloc(), searched)?;
    let row = no_words(table.alloc(), table.len())?;
    ready_all(table, unions, &inside, &[])?;
    Ok(Ready::Deassign {
        inside,
        y,
        marks,
        queue,
        row,
    })
}

fn ready_remove(table: &mut RowTable, x: ElementId) -> Result<Ready, Memory>
    requires { has table.old.rows x ≡ true }
    ensures rows { table.new.rows ≡ table.old.rows }
    ensures step { IfOk result (λ ready. step_of ready ≡ Step.Remove x) }
    ensures taken { IfOk result (λ ready. IsTaken table.new ready) }
{
    table.open(x.number())?;
    Ok(Ready::Remove { x })
}

/// Makes room for the other row in the row of each element that is inside, and puts it into the unions of
/// their pages.
#[tactic(auto, unfolding(crate::specs::Unions::AreUnions))]
fn ready_all(
    table: &mut RowTable,
    unions: &mut RowTable,
    inside: &Inside,
    other: &[u64],
) -> Result<(), Memory>
    requires inside { IsInside table.old.rows inside.now }
    requires unions { AreUnions unions.old.rows table.old.rows }
    ensures rows { table.new.rows ≡ table.old.rows }
    ensures unions { AreUnions unions.new.rows table.old.rows }
    ensures ready { OnOk result ((z : ℕ) → below table.old.rows z inside.now.of ≡ true → IsReady table.new z (length other.now)) }
    ensures covered { OnOk result ((z q : ℕ) → below table.old.rows z inside.now.of ≡ true → in_row other.now q ≡ true → below unions.new.rows (z / 64) q ≡ true) }
{
    let mut z = inside.next(inside.span.low);
    let mut covered = 0;
    while z < inside.span.high {
        table.ready(z, other.len())?;
        if covered <= z / 64 {
            cover(unions, z, other)?;
            covered = z / 64 + 1;
        }
        z = inside.next(z + 1);
    }
    Ok(())
}

fn no_marks(alloc: Global, size: usize) -> Result<Vec<bool>, Memory>
    ensures long { IfOk result (λ marks. length marks.items ≡ size) }
    ensures none { IfOk result (λ marks. NoneMarked marks.items) }
{
    Ok(vec![in alloc; false; size]?)
}

fn no_numbers(alloc: Global, size: usize) -> Result<Vec<u32>, Memory>
    ensures { IfOk result (λ numbers. length numbers.items ≡ size) }
{
    Ok(vec![in alloc; 0; size]?)
}

fn no_words(alloc: Global, size: usize) -> Result<Vec<u64>, Memory>
    ensures { IfOk result (λ words. size ≤ 64 * length words.items) }
{
    Ok(vec![in alloc; 0; size / 64 + 1]?)
}
