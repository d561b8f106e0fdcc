//! The turns of elements, by their places.

ghost use Rattle.std.specs.Prelude.{◌≡◌, ◌++◌, ◌≤◌, ◌<◌, ◌-◌, ◌⊎◌, ◌↔◌, ℕ, length, get_or, true, false, replicate, vec_len, Contains, None, IfOk, IfSome, OnOk};
ghost use Rattle.std.specs.List.{list_all};
ghost use Rattle.pm_order.specs.Ranked.{can_make, ranked, AreChildren, AreFree, AreWithin, IsFree, IsTaken};

use crate::lists::PlaceList;
use crate::places::children;
use crate::queue::Queue;
use pm_model::Memory;
use std::alloc::Global;

fn is_made(made: &[bool], place: usize) -> bool
    ensures { result ≡ get_or made.now place false }
{
    match made.get(place) {
        Some(done) => *done,
        None => false,
    }
}

fn all_made(made: &[bool], places: &[usize]) -> bool
    ensures { result ≡ list_all (λ k. get_or made.now k false) places.now }
{
    places.iter().all(|k| is_made(made, *k))
}

/// Whether an element can be made at the place, where these are its containers.
pub(crate) fn can_make(made: &[bool], place: usize, containers: &PlaceList) -> bool
    requires { place < length made.now }
    ensures { result ≡ can_make made.now place containers.now }
{
    !made[place] && all_made(made, containers.as_slice())
}

/// Adds the place, if an element can be made there.
fn add_if_free(
    free: &mut Queue,
    made: &[bool],
    containers: &[PlaceList],
    place: usize,
) -> Result<(), Memory>
    requires made { length containers.now ≤ length made.now }
    requires place { place < length containers.now }
    ensures { OnOk result ((i : ℕ) → Contains free.new i ↔ (Contains free.old i ⊎ ((i ≡ place) × IsFree containers.now made.now i))) }
{
    if can_make(made, place, &containers[place]) {
        free.push(place)?;
    }
    Ok(())
}

/// The places at which an element can be made.
fn all_free(alloc: Global, made: &[bool], containers: &[PlaceList]) -> Result<Queue, Memory>
    requires { length containers.now ≤ length made.now }
    ensures { IfOk result (λ free. AreFree free containers.now made.now) }
{
    let mut free = Queue::new(alloc);
    for place in 0..containers.len() {
        add_if_free(&mut free, made, containers, place)?;
    }
    Ok(free)
}

/// Adds those of the places at which an element can be made.
fn add_free(
    free: &mut Queue,
    made: &[bool],
    containers: &[PlaceList],
    places: &[usize],
) -> Result<(), Memory>
    requires made { length containers.now ≤ length made.now }
    requires places { (i : ℕ) → Contains places.now i → i < length containers.now }
    ensures { OnOk result ((i : ℕ) → Contains free.new i ↔ (Contains free.old i ⊎ (Contains places.now i × IsFree containers.now made.now i))) }
{
    for place in places {
        add_if_free(free, made, containers, *place)?;
    }
    Ok(())
}

/// Takes out the least place that isn't made, with those before it.
fn first_unmade(places: &mut Queue, made: &[bool]) -> Option<usize>
    ensures none { result ≡ None → (i : ℕ) → Contains places.old i → get_or made.now i false ≡ true }
    ensures some { IfSome result (λ k. IsTaken k made.now places.old places.new) }
{
    while let Some(place) = places.pop() {
        if !is_made(made, place) {
            return Some(place);
        }
    }
    None
}

/// Marks of so many that are made and so many that aren't.
fn marks(alloc: Global, made: usize, count: usize) -> Result<Vec<bool>, Memory>
    requires { made ≤ count }
    ensures { IfOk result (λ v. v.items ≡ replicate made true ++ replicate (count - made) false) }
{
    let mut marks = vec![in alloc; true; made]?;
    for _ in 0..count - made {
        marks.push(false)?;
    }
    Ok(marks)
}

/// The places of at most so many elements, always the first that can be made. Only what has the last one for a container may
/// have become free.
fn ranked(
    alloc: Global,
    containers: &[PlaceList],
    children: &[PlaceList],
    mut made: Vec<bool>,
    most: usize,
) -> Result<Vec<usize>, Memory>
    requires count { length children.now ≡ length containers.now }
    requires children { AreChildren children.now containers.now }
    requires made { vec_len made ≡ length containers.now }
    ensures { IfOk result (λ v. v.items ≡ ranked containers.now most made.items) }
{
    let mut free = all_free(alloc, made.as_slice(), containers)?;
    let mut out = Vec::with_capacity(alloc, most)?;
    for _ in 0..most {
        match first_unmade(&mut free, made.as_slice()) {
            None => return Ok(out),
            Some(place) => {
                made[place] = true;
                out.push(place)?;
                add_free(
                    &mut free,
                    made.as_slice(),
                    containers,
                    children[place].as_slice(),
                )?;
            }
        }
    }
    Ok(out)
}

/// The places of the elements behind the first ones, which are made, in the order of their turns: always the first of them
/// whose containers are all made.
pub(crate) fn turns(
    alloc: Global,
    containers: &[PlaceList],
    made: usize,
) -> Result<Vec<usize>, Memory>
    requires within { AreWithin containers.now }
    requires made { made ≤ length containers.now }
    ensures { IfOk result (λ v. v.items ≡ ranked containers.now (length containers.now - made) (replicate made true ++ replicate (length containers.now - made) false)) }
{
    let children = children(alloc, containers)?;
    let marks = marks(alloc, made, containers.len())?;
    let most = containers.len() - made;
    ranked(alloc, containers, children.as_slice(), marks, most)
}
