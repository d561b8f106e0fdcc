//! The region of each change, and a small policy by hand: files 3; staff 4 in it; docs 5 in it; memo 6 in docs; ann 7 and bob 8
//! in staff.

ghost use Rattle.std.specs.Prelude.{◌≡◌, ℕ, Bool, true, false, [], ◌∷◌, IfOk, slice_index_or};
ghost use Rattle.pm_affect.specs.Affected.{is_in};
ghost use Rattle.pm_affect.specs.Example.{elements, is_shown, staff_rights, users};
ghost use Rattle.pm_affect.specs.Lists.{listing};
ghost use Rattle.pm_affect.specs.Live.{RegionLive};
ghost use Rattle.pm_affect.specs.Right.{AreAmong, AreGiven};

use pm_affect::*;
use pm_model::{
    Change, ElementId, Judge, Memory, Mode, Name, Pair, PairList, PlaceList, Prohibition, Reach,
    ReviewOf, Rights, Subject,
};
use std::alloc::Global;
use std::process::Abort;
use std::test::Fail;

const DOCS: ElementId = ElementId(5);

const STAFF: ElementId = ElementId(4);

const ANN: ReviewOf<ElementId> = ReviewOf::Caps(ElementId(7));

const MEMO: ReviewOf<ElementId> = ReviewOf::Entries(ElementId(6));

/// What each element is contained in, by bits.
const WORDS: [u64; 9] = [
    0b1,
    0b11,
    0b111,
    0b1000,
    0b11000,
    0b101000,
    0b1101000,
    0b10011000,
    0b100011000,
];

/// Containment by words.
#[derive(Drop)]
struct Words {
    words: &'static [u64],
}

impl Reach for Words {
    ghost use Rattle.std.specs.Prelude.{true};
    ghost use Rattle.pm_affect.specs.Example.{is_shown};

    ghost relation = { λ s. record { live = λ n. true; below = is_shown s.words.now } };

    fn contains(&mut self, x: ElementId, y: ElementId) -> bool {
        is_shown(self.words, x, y)
    }

    fn above(&mut self, x: ElementId, k: u32) -> u64 {
        if k == 0 {
            return word(self.words, x);
        }
        0
    }
}

fn word(words: &[u64], x: ElementId) -> u64
    ensures { result ≡ slice_index_or words.now x 0 }
{
    match words.get(x.number() as usize) {
        Some(word) => *word,
        None => 0,
    }
}

fn is_shown(words: &[u64], x: ElementId, y: ElementId) -> bool
    ensures { result ≡ is_shown words.now x y }
{
    y.number() < 64 && Rights(word(words, x)).has(y.number() as u8)
}

/// Gives staff these rights on docs, and nothing else.
#[derive(Drop)]
struct Staff {
    words: &'static [u64],
    rights: Rights,
    asked: u64,
}

impl Judge for Staff {
    ghost use Rattle.std.specs.Prelude.{true};
    ghost use Rattle.pm_affect.specs.Example.{staff_rights};

    ghost judgement = { λ s. record { live = λ n. true; rights = staff_rights s.words.now s.rights } };

    ghost asked = { λ s. s.asked };

    fn judge(&mut self, user: ElementId, element: ElementId) -> Rights {
        self.asked += 1;
        if is_shown(self.words, user, STAFF) && is_shown(self.words, element, DOCS) {
            return self.rights;
        }
        Rights(0)
    }
}

fn places(alloc: Global, numbers: &[u32]) -> Result<PlaceList, Memory>
    ensures { IfOk result (λ list. list ≡ numbers.now) }
{
    let mut list = PlaceList::new(alloc);
    for number in numbers {
        list.push(ElementId(*number))?;
    }
    Ok(list)
}

fn pair(element: u32, rights: u64) -> Pair {
    Pair {
        element: ElementId(element),
        rights: Rights(rights),
    }
}

/// The list of the capabilities of ann, and that of the entries of memo, both empty.
fn kept(alloc: Global) -> Result<KeptLists, Memory>
    ensures { IfOk result (λ lists. lists ≡ record { caps = listing 7 [] ∷ []; entries = listing 6 [] ∷ []; asked = 0 }) }
{
    let mut lists = KeptLists::new(alloc);
    lists.insert(ANN, PairList::new(alloc))?;
    lists.insert(MEMO, PairList::new(alloc))?;
    Ok(lists)
}

/// The lists, repaired where the rights that staff has on docs have changed so; that asks so many questions.
fn repair(
    rt: &(impl Abort + Alloc<A = Global>),
    lists: KeptLists,
    region: &Region,
    words: &'static [u64],
    was: Rights,
    now: Rights,
    asked: u64,
) -> Result<KeptLists, Memory>
    requires given { AreGiven (staff_rights words.now was) elements users lists }
    requires among { AreAmong elements users lists }
    requires live { (below : ℕ → ℕ → Bool) → RegionLive (record { live = λ n. true; below = below }) region.now }
    requires outside { (u e : ℕ) → is_in (is_shown words.now) region.now u e ≡ false → staff_rights words.now now u e ≡ staff_rights words.now was u e }
    ensures given { IfOk result (λ new. AreGiven (staff_rights words.now now) elements users new) }
    ensures among { IfOk result (λ new. AreAmong elements users new) }
{
    agreed_right();
    let elements = places(rt.alloc(), &[0, 1, 2, 3, 4, 5, 6, 7, 8])?;
    let users = places(rt.alloc(), &[2, 7, 8])?;
    let mut reach = Words { words };
    let mut judge = Staff {
        words,
        rights: now,
        asked: 0,
    };
    let new = update(lists, region, &elements, &users, &mut reach, &mut judge)?;
    assert_eq!(rt; judge.asked, asked);
    Ok(new)
}

fn pairs_are(rt: &impl Abort, lists: &KeptLists, of: &ReviewOf<ElementId>, pairs: &[Pair]) {
    let list = lists.list(of).expect(rt, "a list");
    assert_eq!(rt; list.as_slice(), pairs);
}

/// Both lists are empty.
fn none_has_rights(rt: &impl Abort, lists: &KeptLists) {
    pairs_are(rt, lists, &ANN, &[]);
    pairs_are(rt, lists, &MEMO, &[]);
}

/// Whoever is in staff has the right of bit 0 on docs.
fn staff_has_right(rt: &impl Abort, lists: &KeptLists) {
    pairs_are(rt, lists, &ANN, &[pair(5, 1), pair(6, 1)]);
    pairs_are(rt, lists, &MEMO, &[pair(7, 1), pair(8, 1)]);
}

#[test]
fn an_association_comes_and_goes(rt: HostRuntime) -> Result<(), Fail> {
    let region = Region::Between(STAFF, DOCS);
    let lists = kept(rt.alloc())?;
    let lists = repair(&rt, lists, &region, &WORDS, Rights(0), Rights(1), 3)?;
    staff_has_right(&rt, &lists);
    let before = lists.copy()?;
    let lists = repair(&rt, lists, &region, &WORDS, Rights(1), Rights(0), 3)?;
    assert!(rt; lists.asked() == 6);
    none_has_rights(&rt, &lists);
    staff_has_right(&rt, &before);
    Ok(())
}

#[test]
fn a_copy_marks_what_it_writes_to(rt: HostRuntime) -> Result<(), Fail> {
    let lists = kept(rt.alloc())?;
    assert!(rt; lists.is_written(&ANN));
    let copy = lists.copy()?;
    assert!(rt; !copy.is_written(&ANN) && !copy.is_written(&MEMO));
    let region = Region::Between(STAFF, DOCS);
    let copy = repair(&rt, copy, &region, &WORDS, Rights(0), Rights(0), 3)?;
    assert!(rt; !copy.is_written(&ANN) && !copy.is_written(&MEMO));
    let copy = repair(&rt, copy, &region, &WORDS, Rights(0), Rights(1), 3)?;
    assert!(rt; copy.is_written(&ANN) && copy.is_written(&MEMO));
    Ok(())
}

fn bar(
    rt: &impl Abort,
    subject: Subject<ElementId, u32>,
    alloc: Global,
) -> Result<Prohibition, Memory>
    ensures { IfOk result (λ bar. bar.subject ≡ subject) }
{
    Ok(Prohibition {
        name: Name::new(b"bar").expect(rt, "a name"),
        subject,
        rights: Rights(1),
        inc: places(alloc, &[5])?,
        exc: PlaceList::new(alloc),
        mode: Mode::All,
    })
}

/// A region in plain numbers: its kind, and what it names.
fn told(region: &Region) -> (&'static str, u32, u32) {
    match region {
        Region::Nothing => ("nothing", 0, 0),
        Region::One(x) => ("one", x.number(), 0),
        Region::Under(x) => ("under", x.number(), 0),
        Region::Between(ua, at) => ("between", ua.number(), at.number()),
        Region::Barred(bar) => match bar.subject {
            Subject::User(x) => ("barred", x.number(), 0),
            Subject::Ua(x) => ("barred", x.number(), 1),
            Subject::Process(p) => ("barred", p, 2),
        },
    }
}

fn region_is(rt: &impl Abort, change: Change, wanted: (&'static str, u32, u32)) {
    let region = Region::of(&change, None).expect(rt, "memory");
    assert_eq!(rt; told(&region), wanted);
}

const Y: ElementId = ElementId(4);

#[test]
fn regions_of_rights(rt: HostRuntime) {
    let change = Change::Associate {
        ua: Y,
        rights: Rights(1),
        at: DOCS,
    };
    region_is(&rt, change, ("between", 4, 5));
    region_is(
        &rt,
        Change::Dissociate { ua: Y, at: DOCS },
        ("between", 4, 5),
    );
    let item = bar(&rt, Subject::Ua(Y), rt.alloc()).expect(&rt, "memory");
    region_is(&rt, Change::Prohibit { item }, ("barred", 4, 1));
}
