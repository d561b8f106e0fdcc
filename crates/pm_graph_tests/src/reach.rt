//! Rows beside a search over the same assignments, and a small policy worked out by hand.

ghost use Rattle.std.specs.Prelude.{◌≡◌, ℕ, ◌<◌, ◌≤◌, ◌∷◌, true, nat_lt, length, slice_get, Some};
ghost use Rattle.pm_model.specs.Containment.{containers};
ghost use Rattle.pm_model.specs.State.{opening_assigned};
ghost use Rattle.pm_reach.specs.Rows.{has, most};
ghost use Rattle.pm_reach.specs.Changes.{TellContainment, Assigns, Deassigns};

use pm_model::{ElementId, Memory, Parents, Reach};
use pm_reach::{ReachRows, Step};
use pm_search::PathReach;
use std::alloc::Global;
use std::process::Abort;
use std::test::Fail;

// A list of assignments, in which every number below 256 is live.
#[derive(Drop)]
struct Pairs<'a>(&'a [(u8, u8)]);

// How many elements x is assigned to.
fn count(pairs: &[(u8, u8)], x: u32) -> usize
    ensures { result ≡ length (containers pairs.now x) }
{
    let from_x = pairs.iter().filter(|pair| pair.0 as u32 == x);
    from_x.map(|pair| pair.1).count()
}

// What x is assigned to at a place.
fn parent(pairs: &[(u8, u8)], x: u32, i: usize) -> u8
    requires { i < length (containers pairs.now x) }
    ensures { slice_get (containers pairs.now x) i ≡ Some result }
{
    match pairs {
        [] => unreachable!(),
        [pair, rest @ ..] if u32::from(pair.0) != x => parent(rest, x, i),
        [pair, ..] if i == 0 => pair.1,
        [_, rest @ ..] => parent(rest, x, i - 1),
    }
}

impl<'a> Parents for Pairs<'a> {
    ghost use Rattle.std.specs.Prelude.{nat_lt};

    ghost live = { λ s n. nat_lt n 256 };

    ghost assigned = { λ s. s.0.now };

    fn count(&self, x: ElementId) -> usize {
        count(self.0, x.number())
    }

    fn parent(&self, x: ElementId, i: usize) -> ElementId {
        ElementId(u32::from(parent(self.0, x.number(), i)))
    }
}

// A graph of 256 elements, and its rows. The newest assignment is the first.
#[derive(Drop)]
struct Graph {
    pairs: Vec<(u8, u8)>,
    rows: ReachRows,
    ghost live: { (x : ℕ) → has rows.rows x ≡ nat_lt x 256 },
    ghost told: { TellContainment pairs.items rows.rows },
}

fn id(x: u8) -> ElementId
    ensures { result ≡ x }
{
    ElementId(u32::from(x))
}

// The rows of so many elements, of which the opening's alone are assigned.
fn rows_of(rt: &impl Abort, alloc: Global, size: u32) -> ReachRows
    requires from { 3 ≤ size }
    requires few { size ≤ most }
    ensures live { (x : ℕ) → has result.rows x ≡ nat_lt x size }
    ensures rows { TellContainment opening_assigned result.rows }
{
    let mut rows = ReachRows::opening(alloc).expect(rt, "memory");
    for x in 3..size {
        rows.on_add(ElementId(x)).expect(rt, "memory");
    }
    rows
}

fn opening(rt: &impl Abort, alloc: Global) -> Graph {
    let rows = rows_of(rt, alloc, 256);
    let pairs = Vec::from_array(alloc, [(1, 0), (2, 1)]).expect(rt, "memory");
    Graph { pairs, rows }
}

// Whether x is contained in y, by the rows.
fn is_in(graph: &Graph, x: u8, y: u8) -> bool {
    graph.rows.contains(id(x), id(y))
}

fn put_first(rt: &impl Abort, pairs: &mut Vec<(u8, u8)>, x: u8, y: u8)
    ensures { pairs.new.items ≡ (x, y) ∷ pairs.old.items }
{
    pairs.insert(0, (x, y)).expect(rt, "memory");
}

fn assign_in_steps(rt: &impl Abort, rows: &mut ReachRows, x: u8, y: u8)
    ensures { Assigns x y rows.old.rows rows.new.rows }
{
    assert!(rt; rows.live(id(x)));
    assert!(rt; rows.live(id(y)));
    assert!(rt; !rows.contains(id(y), id(x)));
    rows.prepare(Step::Assign { x: id(x), y: id(y) })
        .expect(rt, "memory");
    rows.follow_assign(id(x), id(y));
}

// The graph with x assigned to y, where that closes no cycle.
fn assigned(rt: &impl Abort, graph: Graph, x: u8, y: u8) -> Graph {
    let Graph {
        mut pairs,
        mut rows,
    } = graph;
    if rows.contains(id(y), id(x)) {
        return Graph { pairs, rows };
    }
    assign_in_steps(rt, &mut rows, x, y);
    put_first(rt, &mut pairs, x, y);
    Graph { pairs, rows }
}

// The graph without the newest assignment.
fn deassigned(rt: &impl Abort, graph: Graph) -> Graph {
    let Graph {
        mut pairs,
        mut rows,
    } = graph;
    if pairs.is_empty() {
        return Graph { pairs, rows };
    }
    let (x, y) = pairs.remove(0);
    deassign(rt, &mut rows, id(x), id(y), pairs.as_slice());
    Graph { pairs, rows }
}

fn deassign(rt: &impl Abort, rows: &mut ReachRows, x: ElementId, y: ElementId, left: &[(u8, u8)])
    requires live { (z : ℕ) → has rows.old.rows z ≡ nat_lt z 256 }
    requires x { x < 256 }
    requires told { TellContainment ((x, y) ∷ left.now) rows.old.rows }
    ensures { Deassigns x left.now rows.old.rows rows.new.rows }
{
    let parents = Pairs(left);
    if left.len() % 2 == 0 {
        rows.on_deassign(x, y, &parents).expect(rt, "memory");
        return;
    }
    rows.prepare(Step::Deassign { x, y }).expect(rt, "memory");
    rows.follow_deassign(x, y, &parents);
}

// Compares the answers for each pair of the first elements.
fn compare(rt: &impl Abort, alloc: Global, graph: &Graph, step: u32) {
    let pairs = Pairs(graph.pairs.as_slice());
    let mut paths = PathReach::new(alloc, &pairs, 256).expect(rt, "memory");
    for x in 60..80 {
        for y in 60..80 {
            let by_path = paths.contains(id(x), id(y));
            assert_eq!(rt; is_in(graph, x, y), by_path, "{x} in {y} at {step}");
        }
    }
}

// One command: an assignment among the first elements, or the newest taken away.
fn turn(rt: &impl Abort, graph: Graph, chance: u32) -> Graph {
    if chance % 4 == 0 {
        return deassigned(rt, graph);
    }
    let x = 60 + (chance / 4 % 20) as u8;
    let y = 60 + (chance / 80 % 20) as u8;
    assigned(rt, graph, x, y)
}

#[test]
fn rows_beside_paths(rt: HostRuntime) {
    let alloc = rt.alloc();
    let mut graph = opening(&rt, alloc);
    let mut seed: u32 = 7;
    for step in 0..40 {
        seed = seed.wrapping_mul(1_103_515_245).wrapping_add(12345);
        graph = turn(&rt, graph, seed / 65536);
        compare(&rt, alloc, &graph, step);
    }
}

// 62 and 65 have a container with a higher number, whose row is made anew after theirs.
#[test]
fn rows_of_elements_below_their_containers(rt: HostRuntime) {
    let alloc = rt.alloc();
    let mut graph = opening(&rt, alloc);
    for (x, y) in [
        (70, 60),
        (65, 70),
        (75, 65),
        (62, 70),
        (62, 61),
        (66, 60),
        (60, 79),
    ] {
        graph = assigned(&rt, graph, x, y);
    }
    assert!(rt; is_in(&graph, 75, 79));
    for step in 0..7 {
        graph = deassigned(&rt, graph);
        compare(&rt, alloc, &graph, step);
    }
}

// What is contained in 10 is in four pages; then 10 comes into 250, and out of it again.
#[test]
fn rows_of_elements_pages_apart(rt: HostRuntime) {
    let alloc = rt.alloc();
    let mut graph = opening(&rt, alloc);
    for (x, y) in [(200, 10), (130, 200), (5, 130), (64, 5), (10, 250)] {
        graph = assigned(&rt, graph, x, y);
    }
    for x in [5, 10, 64, 130, 200, 250] {
        assert!(rt; is_in(&graph, x, 250), "{x} in 250");
    }
    assert!(rt; !is_in(&graph, 63, 250));
    graph = deassigned(&rt, graph);
    for x in [5, 10, 64, 130, 200] {
        assert!(rt; !is_in(&graph, x, 250), "{x} in 250 no more");
        assert!(rt; is_in(&graph, x, 10), "{x} in 10");
    }
}

fn add(rt: &impl Abort, rows: &mut ReachRows, x: u8) {
    assert!(rt; !rows.live(id(x)));
    rows.on_add(id(x)).expect(rt, "memory");
}

// Answers how many rows were written.
fn assign(rt: &impl Abort, rows: &mut ReachRows, x: u8, y: u8) -> u64
    ensures { Assigns x y rows.old.rows rows.new.rows }
{
    assert!(rt; rows.live(id(x)));
    assert!(rt; rows.live(id(y)));
    assert!(rt; !rows.contains(id(y), id(x)));
    rows.on_assign(id(x), id(y)).expect(rt, "memory")
}

fn holds(rt: &impl Abort, rows: &ReachRows, x: u8, y: u8) -> bool {
    assert!(rt; rows.live(id(x)));
    assert!(rt; rows.live(id(y)));
    let is_in = rows.contains(id(x), id(y));
    let mut view = rows.view();
    assert_eq!(rt;
        view.contains(id(x), id(y)),
        is_in,
        "{x} in {y} by the view"
    );
    is_in
}

// Assigns, and so many rows are written.
fn assign_and_count(rt: &impl Abort, rows: &mut ReachRows, x: u8, y: u8, written: u64) {
    assert_eq!(rt; assign(rt, rows, x, y), written, "{x} to {y}");
}

// Under the class 0: 3 with 4 and 2 in it, and 5, into which 3 comes at last.
fn small_policy(rt: &impl Abort, rows: &mut ReachRows) {
    add(rt, rows, 3);
    assign_and_count(rt, rows, 3, 0, 1);
    assign_and_count(rt, rows, 2, 3, 1);
    add(rt, rows, 4);
    add(rt, rows, 5);
    assign_and_count(rt, rows, 4, 3, 1);
    assign_and_count(rt, rows, 5, 0, 1);
    assign_and_count(rt, rows, 3, 5, 3);
}

// What is in what there.
static CONTAINED: &[(u8, u8, bool)] = &[
    (4, 5, true),
    (2, 5, true),
    (2, 1, true),
    (4, 0, true),
    (3, 3, true),
    (5, 3, false),
    (1, 3, false),
    (4, 2, false),
];

fn check_contained(rt: &impl Abort, rows: &ReachRows, table: &[(u8, u8, bool)]) {
    for (x, y, is_in) in table {
        assert_eq!(rt; holds(rt, rows, *x, *y), *is_in, "{x} in {y}");
    }
}

#[test]
fn rows_written_in_a_small_policy(rt: HostRuntime) -> Result<(), Fail> {
    let mut rows = ReachRows::opening(rt.alloc())?;
    small_policy(&rt, &mut rows);
    check_contained(&rt, &rows, CONTAINED);
    Ok(())
}

// Rows and a copy of them.
#[derive(Drop)]
struct Both {
    one: ReachRows,
    other: ReachRows,
}

fn copied(mut one: ReachRows) -> Result<Both, Memory> {
    one.share()?;
    let other = one.copy()?;
    Ok(Both { one, other })
}

static IN_ONE: &[(u8, u8, bool)] = &[(3, 1, true), (3, 0, true), (200, 3, false), (2, 0, true)];

static IN_OTHER: &[(u8, u8, bool)] = &[(3, 1, false), (3, 0, false), (200, 3, true), (2, 0, true)];

fn two_more(rt: &(impl Abort + Alloc<A = Global>)) -> ReachRows {
    let mut rows = ReachRows::opening(rt.alloc()).expect(rt, "memory");
    add(rt, &mut rows, 3);
    add(rt, &mut rows, 200);
    rows
}

#[test]
fn two_copies_go_apart(rt: HostRuntime) -> Result<(), Fail> {
    let mut both = copied(two_more(&rt))?;
    assign(&rt, &mut both.one, 3, 1);
    assign(&rt, &mut both.other, 200, 3);
    add(&rt, &mut both.other, 4);
    check_contained(&rt, &both.one, IN_ONE);
    check_contained(&rt, &both.other, IN_OTHER);
    assert!(rt; both.other.live(id(4)));
    assert!(rt; !both.one.live(id(4)));
    Ok(())
}

// Makes x in y, in one step.
fn make_in(rt: &impl Abort, rows: &mut ReachRows, x: u8, y: u8) {
    assert!(rt; !rows.live(id(x)));
    assert!(rt; rows.live(id(y)));
    rows.prepare(Step::Make {
        x: id(x),
        into: Some(id(y)),
    })
    .expect(rt, "memory");
    rows.follow_make(id(x), Some(id(y)));
}

static IN_MADE: &[(u8, u8, bool)] = &[
    (200, 200, true),
    (200, 1, true),
    (200, 0, true),
    (200, 2, false),
    (1, 200, false),
    (2, 0, true),
];

// Made in a container in one step, or made and assigned, the rows are the same.
#[test]
fn an_element_made_in_a_container(rt: HostRuntime) -> Result<(), Fail> {
    let one = ReachRows::opening(rt.alloc())?;
    let other = one.copy()?;
    let mut both = Both { one, other };
    make_in(&rt, &mut both.one, 200, 1);
    add(&rt, &mut both.other, 200);
    assign(&rt, &mut both.other, 200, 1);
    check_contained(&rt, &both.one, IN_MADE);
    check_contained(&rt, &both.other, IN_MADE);
    Ok(())
}

#[test]
fn a_number_given_again_has_a_new_row(rt: HostRuntime) -> Result<(), Fail> {
    let mut rows = rows_of(&rt, rt.alloc(), 70);
    let mut other = rows.copy()?;
    other.on_remove(id(66))?;
    rows.prepare(Step::Remove { x: id(66) })?;
    rows.follow_remove(id(66));
    assert!(rt; !other.live(id(66)));
    assert!(rt; !rows.live(id(66)));
    make_in(&rt, &mut rows, 66, 65);
    assert!(rt; holds(&rt, &rows, 66, 66));
    assert!(rt; holds(&rt, &rows, 66, 65));
    assert!(rt; !holds(&rt, &rows, 66, 64));
    Ok(())
}
