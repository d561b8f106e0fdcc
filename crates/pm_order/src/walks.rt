//! How many elements have their turn, told without turns where a few walks over all of them show that each has one.

ghost use Rattle.std.specs.Prelude.{◌≡◌, ◌<◌, length, true, false, replicate, vec_len, IfOk};
ghost use Rattle.std.specs.List.{list_all};
ghost use Rattle.pm_order.specs.Ranked.{ranked, AreDue, AreWithin};

use crate::lists::PlaceList;
use crate::turns::{can_make, turns};
use pm_model::Memory;
use std::alloc::Global;

/// How many walks are tried. Where the elements stand by name two to four are mostly enough.
const WALKS: usize = 8;

/// Marks the place as made, if an element can be made there.
fn mark_if_free(made: &mut Vec<bool>, containers: &[PlaceList], place: usize)
    requires made { vec_len made.old ≡ length containers.now }
    requires place { place < length containers.now }
    ensures count { vec_len made.new ≡ vec_len made.old }
    ensures due { AreDue containers.now made.old.items → AreDue containers.now made.new.items }
{
    if can_make(made.as_slice(), place, &containers[place]) {
        made[place] = true;
    }
}

/// Marks the places at which an element can be made, one after another.
fn mark_free(made: &mut Vec<bool>, containers: &[PlaceList])
    requires { vec_len made.old ≡ length containers.now }
    ensures count { vec_len made.new ≡ vec_len made.old }
    ensures due { AreDue containers.now made.old.items → AreDue containers.now made.new.items }
{
    for place in 0..containers.len() {
        mark_if_free(made, containers, place);
    }
}

fn all_marked(made: &[bool]) -> bool
    ensures { result ≡ list_all (λ mark. mark) made.now }
{
    made.iter().all(|mark| *mark)
}

/// Whether a few walks over the places show that an element can be made at each.
fn are_soon_made(alloc: Global, containers: &[PlaceList]) -> Result<bool, Memory>
    ensures { IfOk result (λ all. all ≡ true → length (ranked containers.now (length containers.now) (replicate (length containers.now) false)) ≡ length containers.now) }
{
    let mut made = vec![in alloc; false; containers.len()]?;
    for _ in 0..WALKS {
        mark_free(&mut made, containers);
        if all_marked(made.as_slice()) {
            return Ok(true);
        }
    }
    Ok(false)
}

/// How many elements have their turn where none is made at first.
pub(crate) fn count_turns(alloc: Global, containers: &[PlaceList]) -> Result<usize, Memory>
    requires { AreWithin containers.now }
    ensures { IfOk result (λ count. count ≡ length (ranked containers.now (length containers.now) (replicate (length containers.now) false))) }
{
    if are_soon_made(alloc, containers)? {
        return Ok(containers.len());
    }
    Ok(turns(alloc, containers, 0)?.len())
}
