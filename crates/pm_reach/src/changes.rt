//! Following a step that is ready, which takes no memory: passes over the rows that write those of all
//! that is contained in an element, and the writing of one row. After an assignment is taken away a row
//! is put together from those of its containers; a search is left for an element one of whose
//! containers has a higher number and a row that is still to be made anew.

ghost use Rattle.std.specs.Prelude.{◌≡◌, ℕ, ◌<◌, ◌||◌, ◌⊎◌, ◌∷◌, ◌*◌, true, false, not, nat_lt, length, IsTrue};
ghost use Rattle.std.specs.Bool.{OnTrue};
ghost use Rattle.pm_model.specs.Containment.{contained};
ghost use Rattle.pm_search.specs.Marks.{NoneMarked};
ghost use Rattle.pm_reach.specs.Words.{in_row};
ghost use Rattle.pm_reach.specs.Rows.{has, below, inside};
ghost use Rattle.pm_reach.specs.Order.{IsOrder};
ghost use Rattle.pm_reach.specs.Table.{IsReady, Writes};
ghost use Rattle.pm_reach.specs.Inside.{IsInside};
ghost use Rattle.pm_reach.specs.Passes.{Rewrites, TellSoFar, AreWithin, IsLast, IsRising};
ghost use Rattle.pm_reach.specs.Changes.{TellContainment, CanFollow, Makes, Assigns, Deassigns, Removes};
ghost use Rattle.pm_reach.specs.Ready.{step_of, IsTaken};
ghost use Rattle.pm_reach.specs.declared.step.Step.{Step};

use crate::inside::Inside;
use crate::ready::Ready;
use crate::table::RowTable;
use crate::words;
use pm_model::{ElementId, Parents};
use pm_search::{mark_all, unmark};

/// Puts what the other row has into the row of each element that is inside. Answers how many they are.
fn join_all(table: &mut RowTable, inside: &Inside, other: &[u64]) -> u64
    requires inside { IsInside table.old.rows inside.now }
    requires ready { (z : ℕ) → below table.old.rows z inside.now.of ≡ true → IsReady table.old z (length other.now) }
    ensures { Rewrites inside.now.of (λ p q. below table.old.rows p q || in_row other.now q) table.old.rows table.new.rows result }
{
    let mut written = 0;
    let mut z = inside.next(inside.span.low);
    while z < inside.span.high {
        table.join(z, other);
        written += 1;
        z = inside.next(z + 1);
    }
    written
}

/// Whether the row of w tells already what w is contained in, while the row of z is made anew.
fn is_final(table: &RowTable, x: u32, z: u32, w: u32) -> bool
    ensures { result ≡ (nat_lt w z || not (below table.now.rows w x)) }
{
    w < z || !table.has(w, x)
}

/// Puts z and what the rows of its containers have into the row, where each of these is final. Answers
/// whether they are, as where no container of z that is contained in x has a higher number.
fn gather<P: Parents>(table: &RowTable, x: u32, z: u32, parents: &P, row: &mut [u64]) -> bool
    requires live { IsTrue (P.live parents.now z) }
    requires rows { (w : ℕ) → IsTrue (P.live parents.now w) → has table.now.rows w ≡ true }
    requires told { TellSoFar (P.assigned parents.now) table.now.rows x z }
    requires z { z < 64 * length row.old }
    requires within { AreWithin (length row.old) table.now.rows }
    ensures row { OnTrue result ((q : ℕ) → in_row row.new q ≡ contained (P.assigned parents.now) z q) }
    ensures last { IsLast (P.assigned parents.now) table.now.rows x z → result ≡ true }
    ensures long { length row.new ≡ length row.old }
{
    words::empty(row);
    words::set_bit(row, z);
    for i in 0..parents.count(ElementId(z)) {
        let w = parents.parent(ElementId(z), i).number();
        if w == z {
            continue;
        }
        if !is_final(table, x, z, w) {
            return false;
        }
        words::unite_within(row, table.words(w));
    }
    true
}

/// Puts what z is contained in into the row, by a search.
fn search<P: Parents>(z: u32, parents: &P, marks: &mut [bool], queue: &mut [u32], row: &mut [u64])
    requires live { IsTrue (P.live parents.now z) }
    requires fits { (w : ℕ) → IsTrue (P.live parents.now w) → w < length marks.old }
    requires as_long { length queue.old ≡ length marks.old }
    requires none { NoneMarked marks.old }
    requires within { (q : ℕ) → contained (P.assigned parents.now) z q ≡ true → q < 64 * length row.old }
    ensures row { (q : ℕ) → in_row row.new q ≡ contained (P.assigned parents.now) z q }
    ensures long { length row.new ≡ length row.old }
    ensures none { NoneMarked marks.new }
{
    let end = mark_all(parents, marks, queue, ElementId(z));
    words::empty(row);
    words::put(row, &queue[..end]);
    unmark(marks, queue, end);
}

/// Puts what z is contained in into the row. The memory for a search may be missing where no container of z that is contained
/// in x has a higher number.
fn fill<P: Parents>(
    table: &RowTable,
    x: u32,
    z: u32,
    parents: &P,
    marks: &mut [bool],
    queue: &mut [u32],
    row: &mut [u64],
)
    requires live { IsTrue (P.live parents.now z) }
    requires rows { (w : ℕ) → IsTrue (P.live parents.now w) → has table.now.rows w ≡ true }
    requires told { TellSoFar (P.assigned parents.now) table.now.rows x z }
    requires fits { IsLast (P.assigned parents.now) table.now.rows x z ⊎ ((w : ℕ) → IsTrue (P.live parents.now w) → w < length marks.old) }
    requires as_long { length queue.old ≡ length marks.old }
    requires none { NoneMarked marks.old }
    requires wide { (q : ℕ) → contained (P.assigned parents.now) z q ≡ true → q < 64 * length row.old }
    requires within { AreWithin (length row.old) table.now.rows }
    ensures row { (q : ℕ) → in_row row.new q ≡ contained (P.assigned parents.now) z q }
    ensures none { NoneMarked marks.new }
    ensures long { length row.new ≡ length row.old }
{
    if !gather(table, x, z, parents, row) {
        search(z, parents, marks, queue, row);
    }
}

/// Makes the row of z anew. It has no more than before. The memory for a search may be missing where no
/// container of z that is contained in x has a higher number.
fn remake<P: Parents>(
    table: &mut RowTable,
    x: u32,
    z: u32,
    parents: &P,
    marks: &mut [bool],
    queue: &mut [u32],
    row: &mut [u64],
)
    requires ready { IsReady table.old z 0 }
    requires live { IsTrue (P.live parents.now z) }
    requires rows { (w : ℕ) → IsTrue (P.live parents.now w) → has table.old.rows w ≡ true }
    requires less { (q : ℕ) → contained (P.assigned parents.now) z q ≡ true → below table.old.rows z q ≡ true }
    requires told { TellSoFar (P.assigned parents.now) table.old.rows x z }
    requires fits { IsLast (P.assigned parents.now) table.old.rows x z ⊎ ((w : ℕ) → IsTrue (P.live parents.now w) → w < length marks.old) }
    requires as_long { length queue.old ≡ length marks.old }
    requires none { NoneMarked marks.old }
    requires within { AreWithin (length row.old) table.old.rows }
    ensures row { (q : ℕ) → below table.new.rows z q ≡ contained (P.assigned parents.now) z q }
    ensures writes { Writes z table.old table.new }
    ensures none { NoneMarked marks.new }
    ensures long { length row.new ≡ length row.old }
{
    fill(table, x, z, parents, marks, queue, row);
    table.overwrite(z, row);
}

/// Makes the row of each element that is inside anew. Answers how many they are.
fn remake_all<P: Parents>(
    table: &mut RowTable,
    inside: &Inside,
    parents: &P,
    marks: &mut [bool],
    queue: &mut [u32],
    row: &mut [u64],
) -> u64
    requires inside { IsInside table.old.rows inside.now }
    requires ready { (z : ℕ) → below table.old.rows z inside.now.of ≡ true → IsReady table.old z 0 }
    requires live { (z : ℕ) → has table.old.rows z ≡ true → IsTrue (P.live parents.now z) }
    requires rows { (z : ℕ) → IsTrue (P.live parents.now z) → has table.old.rows z ≡ true }
    requires less { (z q : ℕ) → has table.old.rows z ≡ true → contained (P.assigned parents.now) z q ≡ true → below table.old.rows z q ≡ true }
    requires outside { (z q : ℕ) → has table.old.rows z ≡ true → below table.old.rows z inside.now.of ≡ false → below table.old.rows z q ≡ contained (P.assigned parents.now) z q }
    requires fits { IsRising table.old.rows inside.now.of ⊎ ((w : ℕ) → IsTrue (P.live parents.now w) → w < length marks.old) }
    requires as_long { length queue.old ≡ length marks.old }
    requires none { NoneMarked marks.old }
    requires within { AreWithin (length row.old) table.old.rows }
    ensures { Rewrites inside.now.of (contained (P.assigned parents.now)) table.old.rows table.new.rows result }
{
    let mut written = 0;
    let mut z = inside.next(inside.span.low);
    while z < inside.span.high {
        remake(table, inside.of.number(), z, parents, marks, queue, row);
        written += 1;
        z = inside.next(z + 1);
    }
    written
}

/// Gives x its row, which was made for this container.
pub(crate) fn make(table: &mut RowTable, ready: Ready, x: ElementId, into: Option<ElementId>)
    requires step { step_of ready ≡ Step.Make x into }
    requires possible { CanFollow table.old.rows (Step.Make x into) }
    requires taken { IsTaken table.old ready }
    ensures { Makes x into table.old.rows table.new.rows }
{
    match ready {
        Ready::Make { row, .. } => table.put(x.number(), row),
        _ => unreachable!(),
    }
}

/// Lets the rows follow an assignment of x to y. Answers how many were written.
pub(crate) fn assign(table: &mut RowTable, ready: Ready, x: ElementId, y: ElementId) -> u64
    requires step { step_of ready ≡ Step.Assign x y }
    requires taken { IsTaken table.old ready }
    ensures rows { Assigns x y table.old.rows table.new.rows }
    ensures count { result ≡ inside table.old.rows x }
{
    match ready {
        Ready::Assign { inside, other, .. } => join_all(table, &inside, other.as_slice()),
        _ => unreachable!(),
    }
}

/// Lets the rows follow the end of an assignment of x to y, by the assignments that are left. Answers
/// how many were written.
pub(crate) fn deassign<P: Parents>(
    table: &mut RowTable,
    ready: Ready,
    x: ElementId,
    y: ElementId,
    parents: &P,
) -> u64
    requires step { step_of ready ≡ Step.Deassign x y }
    requires taken { IsTaken table.old ready }
    requires order { IsOrder table.old.rows }
    requires live { (z : ℕ) → has table.old.rows z ≡ true → IsTrue (P.live parents.now z) }
    requires rows { (z : ℕ) → IsTrue (P.live parents.now z) → has table.old.rows z ≡ true }
    requires was { TellContainment ((x, y) ∷ P.assigned parents.now) table.old.rows }
    ensures rows { Deassigns x (P.assigned parents.now) table.old.rows table.new.rows }
    ensures count { result ≡ inside table.old.rows x }
{
    match ready {
        Ready::Deassign {
            inside,
            mut marks,
            mut queue,
            mut row,
            ..
        } => remake_all(
            table,
            &inside,
            parents,
            marks.as_mut_slice(),
            queue.as_mut_slice(),
            row.as_mut_slice(),
        ),
        _ => unreachable!(),
    }
}

/// Takes the row of x away, in which nothing else is contained.
pub(crate) fn remove(table: &mut RowTable, ready: Ready, x: ElementId)
    requires step { step_of ready ≡ Step.Remove x }
    requires possible { CanFollow table.old.rows (Step.Remove x) }
    requires taken { IsTaken table.old ready }
    ensures { Removes x table.old.rows table.new.rows }
{
    match ready {
        Ready::Remove { .. } => table.clear(x.number()),
        _ => unreachable!(),
    }
}
