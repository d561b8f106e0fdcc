//! Decisions over small policies, with answers worked out by hand.

ghost use Rattle.std.specs.Prelude.{◌≡◌, ℕ, ◌<◌, ◌≤◌, ◌+◌, ◌*◌, ◌==◌, [], ◌∷◌, true, length, take, drop, filter, All};
ghost use Rattle.std.specs.Int.{bit_at};
ghost use Rattle.std.specs.List.{list_any};
ghost use Rattle.pm_model.specs.Containment.{contained};
ghost use Rattle.pm_model.specs.Decision.{is_grantee};
ghost use Rattle.pm_model.specs.declared.rights.Grantee.{Grantee};

use Told::{Granted, NoClass, Prohibited};
use pm_decide::{Verdict, decide, privilege};
use pm_model::{
    Bars, ClassList, ElementId, Grant, GrantList, Grantee, Grants, ItemList, Memory, Mode, Name,
    PlaceList, Prohibition, Reach, Rights, Subject,
};
use std::alloc::Global;
use std::process::Abort;
use std::test::Fail;

// A verdict in plain numbers.
#[derive(Clone, Copy, Debug, PartialEq, Eq)]
enum Told {
    Granted,
    NoClass(u32),
    Prohibited(u32),
}

fn plain(verdict: Verdict) -> Told {
    match verdict {
        Verdict::Granted => Granted,
        Verdict::NoClass(class) => NoClass(class.number()),
        Verdict::Prohibited(place) => Prohibited(place),
    }
}

// A prohibition: its subject, its rights, the two sets and how they make its range.
type Bar = (Subject<u32, u32>, u64, &'static [u32], &'static [u32], Mode);

// A question: a user, a process, a right and an element; and the verdict.
type Row = (u32, Option<u32>, u8, u32, Told);

// A small graph. `grants` has each user attribute once, and `told` has what was worked out by hand.
struct Graph {
    shows: &'static str,
    classes: &'static [u32],
    assigned: &'static [(u32, u32)],
    grants: &'static [(u32, &'static [(u64, u32)])],
    bars: &'static [Bar],
    told: &'static [Row],
}

static GRAPHS: &[Graph] = &[
    Graph {
        shows: "one class",
        classes: &[0],
        assigned: &[(1, 0), (2, 0), (3, 1), (4, 2)],
        grants: &[(1, &[(0b01, 2)])],
        bars: &[],
        told: &[
            (3, None, 0, 4, Granted),
            (3, None, 1, 4, NoClass(0)),
            (3, None, 0, 0, NoClass(0)),
        ],
    },
    Graph {
        shows: "an object in two classes",
        classes: &[0, 1],
        assigned: &[
            (2, 0),
            (3, 1),
            (4, 0),
            (5, 1),
            (6, 2),
            (6, 3),
            (7, 2),
            (8, 4),
            (8, 5),
        ],
        grants: &[(2, &[(0b01, 4)]), (3, &[(0b01, 5)])],
        bars: &[],
        told: &[
            (6, None, 0, 8, Granted),
            (7, None, 0, 8, NoClass(1)),
            (7, None, 0, 4, Granted),
        ],
    },
    Graph {
        shows: "an association on the object itself",
        classes: &[0, 1],
        assigned: &[(2, 0), (3, 0), (4, 1), (5, 2), (6, 3), (6, 4)],
        grants: &[(2, &[(0b10, 3), (0b01, 6)])],
        bars: &[],
        told: &[
            (5, None, 0, 6, Granted),
            (5, None, 1, 6, NoClass(1)),
            (5, None, 0, 3, NoClass(0)),
        ],
    },
    Graph {
        shows: "an attribute in two classes",
        classes: &[0, 1],
        assigned: &[(2, 0), (3, 0), (3, 1), (4, 2), (5, 3)],
        grants: &[(2, &[(1 << 63, 3)])],
        bars: &[],
        told: &[(4, None, 63, 5, Granted), (4, None, 62, 5, NoClass(0))],
    },
    Graph {
        shows: "an association outside one of the classes",
        classes: &[0, 1],
        assigned: &[(2, 0), (3, 0), (4, 1), (5, 3), (5, 4), (6, 2), (7, 6)],
        grants: &[(6, &[]), (2, &[(0b01, 3), (0b10, 4)])],
        bars: &[],
        told: &[
            (7, None, 0, 5, NoClass(1)),
            (7, None, 1, 5, NoClass(0)),
            (7, None, 1, 4, Granted),
        ],
    },
    Graph {
        shows: "three classes, numbered among the elements",
        classes: &[2, 5, 7],
        assigned: &[
            (0, 2),
            (3, 0),
            (1, 3),
            (4, 2),
            (6, 5),
            (8, 7),
            (9, 4),
            (9, 6),
            (9, 8),
        ],
        grants: &[
            (6, &[(0b111, 9)]),
            (0, &[(0b001, 4)]),
            (3, &[(0b010, 6), (0b101, 6), (0b100, 9)]),
        ],
        bars: &[],
        told: &[
            (1, None, 0, 9, NoClass(7)),
            (1, None, 1, 9, NoClass(2)),
            (1, None, 2, 9, Granted),
            (0, None, 0, 9, NoClass(5)),
        ],
    },
    Graph {
        shows: "prohibitions on a user, an attribute and a process",
        classes: &[0],
        assigned: &[
            (1, 0),
            (2, 0),
            (3, 0),
            (4, 1),
            (5, 1),
            (6, 5),
            (7, 2),
            (8, 2),
            (8, 3),
        ],
        grants: &[(1, &[(0b11, 2)])],
        bars: &[
            (Subject::User(4), 0b10, &[], &[3], Mode::All),
            (Subject::Ua(1), 0b10, &[], &[3, 2], Mode::Any),
            (Subject::Process(1), 0b01, &[2], &[], Mode::All),
        ],
        told: &[
            (4, None, 1, 7, Prohibited(0)),
            (4, None, 1, 8, Granted),
            (6, None, 1, 7, Prohibited(1)),
            (6, None, 1, 8, Granted),
            (6, Some(1), 0, 8, Prohibited(2)),
            (6, Some(2), 0, 8, Granted),
            (6, None, 0, 8, Granted),
            (6, Some(1), 2, 8, NoClass(0)),
        ],
    },
    Graph {
        shows: "prohibitions on what is in each place, and in some or out of some",
        classes: &[0, 1],
        assigned: &[
            (2, 0),
            (3, 0),
            (4, 1),
            (5, 2),
            (6, 3),
            (6, 4),
            (7, 3),
            (8, 4),
        ],
        grants: &[(2, &[(0b111, 3), (0b011, 4)])],
        bars: &[
            (Subject::User(5), 0b001, &[3, 4], &[], Mode::All),
            (Subject::Ua(2), 0b110, &[4], &[], Mode::Any),
            (Subject::Process(2), 0b011, &[6], &[3], Mode::Any),
        ],
        told: &[
            (5, None, 0, 6, Prohibited(0)),
            (5, None, 0, 7, Granted),
            (5, None, 1, 6, Prohibited(1)),
            (5, None, 2, 6, NoClass(1)),
            (5, Some(2), 0, 8, Prohibited(2)),
            (5, Some(1), 0, 8, Granted),
            (5, Some(2), 0, 7, Granted),
        ],
    },
    Graph {
        shows: "user attributes at both ends of words",
        classes: &[5],
        assigned: &[(1, 0), (2, 63), (3, 64), (4, 16383), (6, 5)],
        grants: &[
            (0, &[(0b0001, 5)]),
            (63, &[(0b0010, 5)]),
            (64, &[(0b0100, 5)]),
            (16383, &[(0b1000, 5)]),
        ],
        bars: &[],
        told: &[
            (1, None, 0, 6, Granted),
            (1, None, 1, 6, NoClass(5)),
            (2, None, 1, 6, Granted),
            (2, None, 0, 6, NoClass(5)),
            (3, None, 2, 6, Granted),
            (3, None, 1, 6, NoClass(5)),
            (4, None, 3, 6, Granted),
            (4, None, 2, 6, NoClass(5)),
        ],
    },
];

// Whether assignments lead from x to y.
#[tactic(auto, unfolding(pm_model::specs::Containment::contained))]
fn is_contained(pairs: &[(u32, u32)], x: u32, y: u32) -> bool
    ensures { result ≡ contained pairs.now x y }
{
    match pairs {
        [] => x == y,
        [pair, rest @ ..] => {
            is_contained(rest, x, y)
                || (is_contained(rest, x, pair.0) && is_contained(rest, pair.1, y))
        }
    }
}

// What x is contained in, of the numbers from 64 k on.
#[tactic(auto, using(pm_model::proofs::Bits::bit_or_has), unfolding(pm_model::specs::Containment::contained))]
fn containers_in(pairs: &[(u32, u32)], x: u32, k: u32) -> u64
    ensures { (i : ℕ) → i < 64 → (bit_at result i == 1) ≡ contained pairs.now x (64 * k + i) }
{
    match pairs {
        [] => ElementId(x).bit_in(k),
        [pair, rest @ ..] => {
            let word = containers_in(rest, x, k);
            if is_contained(rest, x, pair.0) {
                return word | containers_in(rest, pair.1, k);
            }
            word
        }
    }
}

#[derive(Drop)]
struct Pairs(&'static [(u32, u32)]);

impl Reach for Pairs {
    ghost use Rattle.std.specs.Prelude.{true};
    ghost use Rattle.pm_model.specs.Containment.{contained};

    ghost relation = { λ s. record { live = λ n. true; below = contained s.0.now } };

    fn contains(&mut self, x: ElementId, y: ElementId) -> bool {
        is_contained(self.0, x.number(), y.number())
    }

    fn above(&mut self, x: ElementId, k: u32) -> u64 {
        containers_in(self.0, x.number(), k)
    }
}

// The items from a place on: two where there are as many, so that walks meet several runs.
fn one_or_two_from<T>(items: &[T], i: usize) -> &[T]
    requires { i < length items.now }
    ensures items { result.now ≡ take (length result.now) (drop i items.now) }
    ensures some { 0 < length result.now }
{
    let rest = &items[i..];
    if rest.len() < 2 { rest } else { &rest[..2] }
}

// User attributes with numbers below 16,384, each once.
#[derive(Drop)]
struct Associations {
    list: ItemList<Grantee>,
    ghost few: { All (λ (g : Grantee). g.ua < 16384) list },
    ghost once: { (ua : ℕ) → length (filter (is_grantee ua) list) ≤ 1 },
}

fn is_among(grantees: &[Grantee], ua: ElementId) -> bool
    ensures { result ≡ list_any (is_grantee ua) grantees.now }
{
    grantees.iter().any(|grantee| grantee.ua == ua)
}

// The numbers of the user attributes, of those from 64 k on.
#[tactic(auto, using(pm_model::proofs::Bits::bit_or_has))]
fn numbers_in(grantees: &[Grantee], k: u32) -> u64
    ensures { (i : ℕ) → i < 64 → (bit_at result i == 1) ≡ list_any (is_grantee (64 * k + i)) grantees.now }
{
    match grantees {
        [] => 0,
        [grantee, rest @ ..] => grantee.ua.bit_in(k) | numbers_in(rest, k),
    }
}

fn the_grantee(grantees: &[Grantee], ua: ElementId) -> &Grantee
    requires there { list_any (is_grantee ua) grantees.now ≡ true }
    requires once { length (filter (is_grantee ua) grantees.now) ≤ 1 }
    ensures { filter (is_grantee ua) grantees.now ≡ result.now ∷ [] }
{
    match grantees {
        [] => unreachable!(),
        [grantee, rest @ ..] => {
            if grantee.ua == ua {
                return grantee;
            }
            the_grantee(rest, ua)
        }
    }
}

impl Grants for Associations {
    ghost grantees = { λ s. s.list };

    fn holder_words(&self) -> u32 {
        256
    }

    fn holders(&self, k: u32) -> u64 {
        numbers_in(self.list.as_slice(), k)
    }

    fn grantee(&self, ua: ElementId) -> &Grantee {
        the_grantee(self.list.as_slice(), ua)
    }
}

impl Associations {
    fn new(alloc: Global) -> Self {
        Associations {
            list: ItemList::new(alloc),
        }
    }

    fn add(&mut self, grantee: Grantee) -> Result<(), Fail> {
        if grantee.ua.number() >= 16384 || is_among(self.list.as_slice(), grantee.ua) {
            return Err("another user attribute".into());
        }
        self.list.push(grantee)?;
        Ok(())
    }
}

#[derive(Drop)]
struct Prohibitions {
    list: ItemList<Prohibition>,
    ghost most: { length list ≤ 4096 },
}

impl Bars for Prohibitions {
    ghost prohibitions = { λ s. s.list };

    fn len(&self) -> usize {
        self.list.len()
    }

    fn at(&self, i: usize) -> &Prohibition {
        self.list.at(i)
    }

    fn prohibitions_from(&self, i: usize) -> &[Prohibition] {
        one_or_two_from(self.list.as_slice(), i)
    }
}

// The lists of a graph, as the program takes them.
#[derive(Drop)]
struct Lists {
    grants: Associations,
    bars: Prohibitions,
    classes: ClassList,
}

fn groups(alloc: Global, graph: &Graph) -> Result<Associations, Fail> {
    let mut groups = Associations::new(alloc);
    for (ua, pairs) in graph.grants {
        let mut grants = GrantList::new(alloc);
        for (rights, at) in *pairs {
            let rights = Rights(*rights);
            let at = ElementId(*at);
            grants.push(Grant { rights, at })?;
        }
        let ua = ElementId(*ua);
        groups.add(Grantee { ua, grants })?;
    }
    Ok(groups)
}

fn places(alloc: Global, numbers: &[u32]) -> Result<PlaceList, Memory> {
    let mut places = ItemList::new(alloc);
    for number in numbers {
        places.push(ElementId(*number))?;
    }
    Ok(places)
}

fn prohibition(alloc: Global, name: Name, bar: &Bar) -> Result<Prohibition, Memory> {
    let subject = match bar.0 {
        Subject::User(user) => Subject::User(ElementId(user)),
        Subject::Ua(ua) => Subject::Ua(ElementId(ua)),
        Subject::Process(process) => Subject::Process(process),
    };
    Ok(Prohibition {
        name,
        subject,
        rights: Rights(bar.1),
        inc: places(alloc, bar.2)?,
        exc: places(alloc, bar.3)?,
        mode: bar.4,
    })
}

fn all_bars(alloc: Global, graph: &Graph) -> Result<Prohibitions, Fail> {
    let name = Name::new(b"denied").ok_or("a name")?;
    let mut list = ItemList::new(alloc);
    for bar in graph.bars {
        list.push(prohibition(alloc, name, bar)?)?;
    }
    if list.len() > 4096 {
        return Err("few prohibitions".into());
    }
    Ok(Prohibitions { list })
}

fn all_lists(alloc: Global, graph: &Graph) -> Result<Lists, Fail> {
    Ok(Lists {
        grants: groups(alloc, graph)?,
        bars: all_bars(alloc, graph)?,
        classes: places(alloc, graph.classes)?,
    })
}

// What is decided is what was worked out.
fn decision_is(rt: &impl Abort, graph: &Graph, lists: &Lists, row: &Row) {
    let Lists {
        grants,
        bars,
        classes,
    } = lists;
    let (user, process, right, element, told) = row;
    assert!(rt; *right < 64);
    let mut reach = Pairs(graph.assigned);
    let (u, e) = (ElementId(*user), ElementId(*element));
    let verdict = decide(&mut reach, grants, bars, classes, u, *process, *right, e);
    let shows = graph.shows;
    assert_eq!(rt; plain(verdict), *told, "{shows}: {user} {right} {element}");
}

// The user has the right on the element exactly where that isn't what is lacking.
fn privilege_is(rt: &impl Abort, graph: &Graph, lists: &Lists, row: &Row) {
    let (user, _, right, element, told) = row;
    assert!(rt; *right < 64);
    let mut reach = Pairs(graph.assigned);
    let (u, e) = (ElementId(*user), ElementId(*element));
    let has_right = privilege(&mut reach, &lists.grants, &lists.classes, u, *right, e);
    assert!(rt; has_right != matches!(told, NoClass(_)));
}

#[test]
fn verdicts_are_those_worked_out(rt: HostRuntime) -> Result<(), Fail> {
    for graph in GRAPHS {
        let lists = all_lists(rt.alloc(), graph)?;
        for row in graph.told {
            decision_is(&rt, graph, &lists, row);
            privilege_is(&rt, graph, &lists, row);
        }
    }
    Ok(())
}
