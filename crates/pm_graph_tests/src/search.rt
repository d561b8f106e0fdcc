//! Searches over a few assignments, with answers worked out by hand.

ghost use Rattle.std.specs.Prelude.{◌≡◌, ◌<◌, length, slice_get, Some};
ghost use Rattle.pm_model.specs.Containment.{containers};

use pm_model::{ElementId, Parents, Reach};
use pm_search::PathReach;
use std::test::Fail;

// A list of assignments, in which every number below 256 is live.
#[derive(Drop)]
struct Pairs(&'static [(u8, u8)]);

// How many elements x is assigned to.
fn count(pairs: &[(u8, u8)], x: u32) -> usize
    ensures { result ≡ length (containers pairs.now x) }
{
    let from_x = pairs.iter().filter(|pair| pair.0 as u32 == x);
    from_x.map(|pair| pair.1).count()
}

// What x is assigned to at a place.
fn parent(pairs: &[(u8, u8)], x: u32, i: usize) -> u8
    requires { i < length (containers pairs.now x) }
    ensures { slice_get (containers pairs.now x) i ≡ Some result }
{
    match pairs {
        [] => unreachable!(),
        [pair, rest @ ..] if u32::from(pair.0) != x => parent(rest, x, i),
        [pair, ..] if i == 0 => pair.1,
        [_, rest @ ..] => parent(rest, x, i - 1),
    }
}

impl Parents for Pairs {
    ghost use Rattle.std.specs.Prelude.{nat_lt};

    ghost live = { λ s n. nat_lt n 256 };

    ghost assigned = { λ s. s.0.now };

    fn count(&self, x: ElementId) -> usize {
        count(self.0, x.number())
    }

    fn parent(&self, x: ElementId, i: usize) -> ElementId {
        ElementId(u32::from(parent(self.0, x.number(), i)))
    }
}

// A diamond of 1 to 4, above 0 and under 5 and 6; the others are alone but for 7 in 8.
static ASSIGNED: &[(u8, u8)] = &[
    (0, 1),
    (1, 2),
    (1, 3),
    (2, 4),
    (3, 4),
    (4, 5),
    (4, 6),
    (7, 8),
];

// Questions in a row.
static ASKED: &[(u8, u8, bool)] = &[
    (1, 4, true),
    (1, 3, true),
    (1, 0, false),
    (7, 4, false),
    (7, 8, true),
    (0, 6, true),
    (0, 7, false),
    (4, 1, false),
    (4, 4, true),
    (4, 6, true),
    (2, 3, false),
    (2, 5, true),
    (9, 9, true),
    (9, 5, false),
    (3, 5, true),
    (3, 255, false),
];

#[test]
fn questions_in_a_row(rt: HostRuntime) -> Result<(), Fail> {
    let pairs = Pairs(ASSIGNED);
    let mut paths = PathReach::new(rt.alloc(), &pairs, 256)?;
    for (x, y, is_in) in ASKED {
        let answer = paths.contains(ElementId(u32::from(*x)), ElementId(u32::from(*y)));
        assert_eq!(rt; answer, *is_in, "{x} in {y}");
    }
    Ok(())
}
