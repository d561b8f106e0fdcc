use super::running::obligation_of;
use super::*;
use pm_runner::{any_matches, matching, matching_without};

/// Each element is in itself, and in a tenth of its number: 30 to 39 are in 3.
#[derive(Drop)]
struct InTenth;

impl Reach for InTenth {
    ghost use Rattle.std.specs.Prelude.{true, ◌==◌, ◌||◌, ◌/◌};

    ghost relation = { λ s. record { live = λ n. true; below = λ x y. x == y || x / 10 == y } };

    fn contains(&mut self, x: ElementId, y: ElementId) -> bool {
        x == y || x.number() / 10 == y.number()
    }

    #[tactic(auto, using(pm_model::proofs::Bits::bit_or_has))]
    fn above(&mut self, x: ElementId, k: u32) -> u64 {
        x.bit_in(k) | ElementId(x.number() / 10).bit_in(k)
    }
}

/// A name, and a user and a target where they are given.
type Row = (&'static str, Option<u32>, Option<u32>);

const ROWS: [Row; 4] = [
    ("a", None, Some(5)),
    ("b", Some(5), None),
    ("c", Some(31), None),
    ("d", None, Some(3)),
];

/// That user 31 does it to 52.
fn event(operation: Name) -> Event {
    Event {
        user: ElementId(31),
        process: 3,
        operation,
        target: ElementId(52),
    }
}

#[test]
fn some_match_in_their_order(rt: HostRuntime) -> Result<(), Fail> {
    let read = named(&rt, "read");
    let mut list = Obligations::new(rt.alloc());
    for (text, user, target) in &ROWS {
        let mut item = obligation_of(rt.alloc(), named(&rt, text))?;
        item.pattern.on = read;
        item.pattern.user = user.map(|number| ElementId(number));
        item.pattern.target = target.map(|number| ElementId(number));
        list.oblige(item)?;
    }
    assert!(rt; any_matches(&list, &event(read), &mut InTenth));
    assert!(rt; !any_matches(&list, &event(named(&rt, "write")), &mut InTenth));
    let places = matching(rt.alloc(), &list, &event(read), &mut InTenth)?;
    assert_eq!(rt; places.as_slice(), [0, 2].as_slice());
    let places = matching_without(rt.alloc(), &list, &event(read), &mut InTenth, 0)?;
    assert_eq!(rt; places.as_slice(), [2].as_slice());
    Ok(())
}
