use pm_deny::*;
use pm_model::{
    Bars, ElementId, Memory, Mode, Name, PlaceList, Prohibition, Reach, Rights, Subject,
};
use std::alloc::Global;
use std::process::Abort;
use std::test::Fail;

/// A prohibition: its name, its subject, its rights and its two sets.
type Row = (
    &'static str,
    Subject<ElementId, u32>,
    u64,
    &'static [u32],
    &'static [u32],
);

fn named(rt: &impl Abort, text: &str) -> Name {
    Name::new(text.as_bytes()).expect(rt, "a name")
}

fn places(alloc: Global, numbers: &[u32]) -> Result<PlaceList, Memory> {
    let mut places = PlaceList::new(alloc);
    for number in numbers {
        places.push(ElementId(*number))?;
    }
    Ok(places)
}

fn item_of(rt: &(impl Abort + Alloc<A = Global>), row: &Row) -> Result<Prohibition, Memory> {
    let (text, subject, rights, inc, exc) = row;
    let inc = places(rt.alloc(), inc)?;
    let exc = places(rt.alloc(), exc)?;
    Ok(Prohibition {
        name: named(rt, text),
        subject: *subject,
        rights: Rights(*rights),
        inc,
        exc,
        mode: Mode::All,
    })
}

/// The list of these prohibitions, made in this order.
fn list_of(rt: &(impl Abort + Alloc<A = Global>), rows: &[Row]) -> Result<Deny, DenyError> {
    let mut list = Deny::new(rt.alloc());
    for row in rows {
        let Ok(item) = item_of(rt, row) else {
            return Err(DenyError::Memory);
        };
        list.prohibit(item)?;
    }
    Ok(list)
}

fn places_are(rt: &impl Abort, places: &PlaceList, want: &[ElementId]) {
    assert_eq!(rt; places.as_slice(), want);
}

/// Ends these processes.
fn end(list: &mut Deny, ended: &[u32]) -> Result<(), Memory> {
    list.own_processes(ended)?;
    list.lift_processes(ended);
    Ok(())
}

const ROWS: [Row; 6] = [
    ("a", Subject::Process(1), 1, &[3], &[]),
    ("b", Subject::User(ElementId(1)), 1, &[], &[4]),
    ("c", Subject::Process(2), 2, &[5, 6], &[7, 8]),
    ("d", Subject::Ua(ElementId(2)), 1, &[3], &[3]),
    ("e", Subject::Process(1), 4, &[], &[9]),
    ("f", Subject::Process(11), 1, &[3], &[]),
];

fn six(rt: &(impl Abort + Alloc<A = Global>)) -> Result<Deny, DenyError> {
    list_of(rt, &ROWS)
}

/// Lifts the prohibition on process 2.
fn lift_c(rt: &impl Abort, list: &mut Deny) -> Result<(), DenyError> {
    let c = named(rt, "c");
    assert!(rt; list.find(c) == Some(2));
    let lifted = list.lift(c)?;
    assert!(rt; lifted.name == c);
    places_are(rt, &lifted.exc, &[ElementId(7), ElementId(8)]);
    assert!(rt; list.find(c).is_none());
    Ok(())
}

#[test]
fn prohibitions_come_and_go(rt: HostRuntime) -> Result<(), Fail> {
    let mut list = six(&rt)?;
    lift_c(&rt, &mut list)?;
    end(&mut list, &[11, 1, 2, 3])?;
    assert_eq!(rt; list.len(), 2);
    Ok(())
}

/// Each element is in itself and in 0.
#[derive(Drop)]
struct InZero;

impl Reach for InZero {
    ghost use Rattle.std.specs.Prelude.{true, ◌==◌, ◌||◌};

    ghost relation = { λ s. record { live = λ n. true; below = λ x y. x == y || 0 == y } };

    fn contains(&mut self, x: ElementId, y: ElementId) -> bool {
        x == y || 0 == y.number()
    }

    #[tactic(auto, using(pm_model::proofs::Bits::bit_or_has))]
    fn above(&mut self, x: ElementId, k: u32) -> u64 {
        x.bit_in(k) | ElementId(0).bit_in(k)
    }
}

const BARS: [Row; 4] = [
    ("a", Subject::User(ElementId(5)), 2, &[0], &[]),
    ("b", Subject::Process(4), 1, &[0], &[]),
    ("c", Subject::User(ElementId(5)), 1, &[3], &[]),
    ("d", Subject::Ua(ElementId(0)), 1, &[3], &[]),
];

/// A user, a process, a right, an element, and the place of the first that applies.
static ASKED: &[(u32, Option<u32>, u8, u32, Option<u32>)] = &[
    (5, None, 0, 3, Some(2)),
    (5, Some(4), 0, 3, Some(1)),
    (5, Some(9), 0, 3, Some(2)),
    (6, None, 0, 3, Some(3)),
    (5, None, 1, 3, Some(0)),
    (6, None, 1, 3, None),
    (6, None, 0, 8, None),
];

fn first_applying(
    rt: &impl Abort,
    list: &Deny,
    user: u32,
    process: Option<u32>,
    right: u8,
    element: u32,
) -> Option<u32> {
    let (user, element) = (ElementId(user), ElementId(element));
    assert!(rt; right < 64);
    list.first_applying(user, process, right, element, &mut InZero)
}

#[test]
fn the_first_of_two_applies(rt: HostRuntime) -> Result<(), Fail> {
    let list = list_of(&rt, &BARS)?;
    for (user, process, right, element, want) in ASKED {
        let first = first_applying(&rt, &list, *user, *process, *right, *element);
        assert_eq!(rt; first, *want);
    }
    Ok(())
}

/// A list and its copy.
#[derive(Drop)]
struct Both {
    list: Deny,
    copy: Deny,
}

fn copied(mut list: Deny) -> Result<Both, Memory> {
    list.share()?;
    let copy = list.copy()?;
    Ok(Both { list, copy })
}

/// Lifts the first prohibition of the one list.
fn lift_first(rt: &impl Abort, list: &mut Deny) -> Result<(), Memory> {
    let place = list.find(named(rt, "a")).expect(rt, "a place");
    let first = list.lift_at(place)?;
    assert!(rt; first.subject == Subject::Process(1));
    Ok(())
}

/// Lifts the third prohibition of the other.
fn lift_third(rt: &impl Abort, copy: &mut Deny) -> Result<(), DenyError> {
    let third = copy.lift(named(rt, "c"))?;
    places_are(rt, &third.inc, &[ElementId(5), ElementId(6)]);
    Ok(())
}

#[test]
fn a_copy_is_another_list(rt: HostRuntime) -> Result<(), Fail> {
    let mut both = copied(six(&rt)?)?;
    lift_first(&rt, &mut both.list)?;
    lift_third(&rt, &mut both.copy)?;
    assert_eq!(rt; (both.list.len(), both.copy.len()), (5, 5));
    assert!(rt; both.list.find(named(&rt, "c")).is_some());
    Ok(())
}
