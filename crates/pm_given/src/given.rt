//! The rights of one user after another.

ghost use Rattle.std.specs.Prelude.{◌≡◌, ◌<◌, ◌*◌, ◌≤◌, ◌+◌, ◌++◌, ◌∷◌, [], ◌==◌, ◌||◌, if◌then◌else◌, None, Some, true, false, ℕ, List, length, take, slice_index, slice_set, IfOk, IfSome, IsTrue};
ghost use Rattle.pm_model.specs.Containment.{containers};
ghost use Rattle.pm_model.specs.Decision.{associations_of, rights_on};
ghost use Rattle.pm_model.specs.declared.rights.Grant.{Grant};
ghost use Rattle.pm_decide.specs.Live.{IsLive, AllLive, IsAsked, EndsLive, BarsLive};
ghost use Rattle.pm_decide.specs.Sets.{IsSetOf};
ghost use Rattle.pm_given.specs.Given.{given};
ghost use Rattle.pm_given.specs.Held.{AreHeld, IsKnown, is_held};
ghost use Rattle.pm_given.specs.Parents.{AreParents};
ghost use Rattle.pm_given.specs.Told.{AreEmptyFrom, AreMarked, AreNoted, AreTold, IsRight, Table, is_marked, tells};

use crate::joins::{NO_RIGHTS, rights_held};
use crate::marks::{clear, is_marked, learn, zeros};
use crate::only::only_container;
use crate::puts::put_given;
use pm_decide::{rights_denied, without};
use pm_model::{Bars, ClassList, ElementId, Grants, Memory, Parents, Reach, Rights};
use std::alloc::Global;
use std::marker::Model;

/// What a user is given at each element itself: the user whose rights were asked for last. And what is held on those elements on
/// which it was found, since what has one container alone has what that container has.
pub struct Given {
    user: Option<ElementId>,
    own: Vec<u64>,
    marks: Vec<u64>,
    used: usize,
    places: Vec<u32>,
    full: usize,
    found: Vec<u64>,
    known: Vec<u64>,
}

impl Drop for Given {
    fn drop(self) {
        let Given {
            user: _,
            own: _,
            marks: _,
            used: _,
            places: _,
            full: _,
            found: _,
            known: _,
        } = self;
    }
}

impl Model for Given {
    ghost use Rattle.pm_given.specs.Told.{Table, IsTable};

    ghost Value = { Table };

    ghost view = { λ g. record { user = g.user; own = g.own.items; marks = g.marks.items; used = g.used; places = g.places.items; full = g.full; found = g.found.items; known = g.known.items } };

    ghost invariant = { λ g. IsTable (record { user = g.user; own = g.own.items; marks = g.marks.items; used = g.used; places = g.places.items; full = g.full; found = g.found.items; known = g.known.items }) };
}

/// How many words there are up to the last that isn't empty.
fn used(words: &[u64]) -> usize
    ensures within { result ≤ length words.now }
    ensures rest { AreEmptyFrom result words.now }
{
    let mut n = words.len();
    while n > 0 && words[n - 1] == 0 {
        n -= 1;
    }
    n
}

/// Puts the place of a word behind so many others, unless the word is empty; tells how many there are then.
fn note(places: &mut [u32], count: usize, k: u32, word: u64) -> usize
    requires { count < length places.old }
    ensures places { take result places.new ≡ take count places.old ++ (if word == 0 then [] else k ∷ []) }
    ensures most { result ≤ count + 1 }
    ensures length { length places.new ≡ length places.old }
{
    if word == 0 {
        return count;
    }
    places[count] = k;
    count + 1
}

/// Puts the places of the words that aren't empty at the beginning of the list; tells how many there are.
fn note_full(places: &mut [u32], words: &[u64]) -> usize
    requires room { length words.now ≤ length places.old }
    requires few { length words.now ≤ 67108864 }
    ensures fits { result ≤ length places.new }
    ensures noted { AreNoted (take result places.new) words.now }
    ensures length { length places.new ≡ length places.old }
{
    let mut count = 0;
    for k in 0..words.len() {
        count = note(places, count, k as u32, words[k]);
    }
    count
}

/// Finds what the user is given, where so many words were used; tells how many are now.
fn refill<R: Reach, G: Grants>(
    own: &mut [u64],
    marks: &mut [u64],
    words: usize,
    reach: &mut R,
    grants: &G,
    user: ElementId,
) -> usize
    requires long { length own.old ≡ 64 * length marks.old }
    requires within { words ≤ length marks.old }
    requires rest { AreEmptyFrom words marks.old }
    requires marked { AreMarked own.old marks.old }
    requires user { IsLive (R.relation reach.old) user }
    requires grants { EndsLive (R.relation reach.old) (G.grantees grants.now) }
    requires fits { (x : ℕ) → IsLive (R.relation reach.old) x → x < length own.old }
    ensures told { AreTold (given (R.relation reach.old).below user (G.grantees grants.now)) own.new marks.new }
    ensures within { result ≤ length marks.new }
    ensures rest { AreEmptyFrom result marks.new }
    ensures marked { AreMarked own.new marks.new }
    ensures own { length own.new ≡ length own.old }
    ensures marks { length marks.new ≡ length marks.old }
    ensures same { R.relation reach.new ≡ R.relation reach.old }
{
    clear(own, 64 * words);
    clear(marks, words);
    put_given(own, marks, reach, grants, user);
    used(marks)
}

impl Given {
    /// Of no user yet, for elements with numbers below 64 times so many words.
    pub fn new(alloc: Global, words: u32) -> Result<Given, Memory>
        requires { words ≤ 67108864 }
        ensures user { IfOk result (λ (g : Table). g.user ≡ None) }
        ensures words { IfOk result (λ (g : Table). length g.marks ≡ words) }
    {
        let own = zeros(alloc, 64 * words as usize)?;
        let marks = zeros(alloc, words as usize)?;
        let places: Vec<u32> = vec![in alloc; 0; words as usize]?;
        let found = zeros(alloc, 64 * words as usize)?;
        let known = zeros(alloc, words as usize)?;
        Ok(Given {
            user: None,
            own,
            marks,
            used: 0,
            places,
            full: 0,
            found,
            known,
        })
    }

    /// Finds what the user is given; of no element it is known then what is held there.
    fn take<R: Reach, G: Grants>(&mut self, reach: &mut R, grants: &G, user: ElementId)
        requires user { IsLive (R.relation reach.old) user }
        requires grants { EndsLive (R.relation reach.old) (G.grantees grants.now) }
        requires fits { (x : ℕ) → IsLive (R.relation reach.old) x → x < 64 * length self.old.marks }
        ensures user { self.new.user ≡ Some user }
        ensures told { AreTold (given (R.relation reach.old).below user (G.grantees grants.now)) self.new.own self.new.marks }
        ensures none { (e : ℕ) → is_marked self.new.known e ≡ false }
        ensures words { length self.new.marks ≡ length self.old.marks }
        ensures same { R.relation reach.new ≡ R.relation reach.old }
    {
        let words = self.known.len();
        clear(self.known.as_mut_slice(), words);
        self.used = refill(
            self.own.as_mut_slice(),
            self.marks.as_mut_slice(),
            self.used,
            reach,
            grants,
            user,
        );
        self.full = note_full(self.places.as_mut_slice(), self.marks.as_slice());
        self.user = Some(user);
    }

    /// Finds what the user is given, unless it was asked about last.
    fn turn_to<R: Reach, G: Grants>(&mut self, reach: &mut R, grants: &G, user: ElementId)
        requires right { IsRight (R.relation reach.old).below (G.grantees grants.now) self.old }
        requires user { IsLive (R.relation reach.old) user }
        requires grants { EndsLive (R.relation reach.old) (G.grantees grants.now) }
        requires fits { (x : ℕ) → IsLive (R.relation reach.old) x → x < 64 * length self.old.marks }
        ensures user { self.new.user ≡ Some user }
        ensures told { AreTold (given (R.relation reach.old).below user (G.grantees grants.now)) self.new.own self.new.marks }
        ensures known { (classes : List ℕ) → IsKnown (R.relation reach.old).below (G.grantees grants.now) classes self.old → AreHeld (R.relation reach.old).below classes (given (R.relation reach.old).below user (G.grantees grants.now)) self.new.found self.new.known }
        ensures words { length self.new.marks ≡ length self.old.marks }
        ensures same { R.relation reach.new ≡ R.relation reach.old }
    {
        if self.user == Some(user) {
            return;
        }
        self.take(reach, grants, user);
    }

    /// The rights that are given on the element in each class that contains it.
    fn held<R: Reach>(&self, reach: &mut R, classes: &ClassList, element: ElementId) -> Rights
        requires element { IsLive (R.relation reach.old) element }
        requires classes { AllLive (R.relation reach.old) classes.now }
        requires live { (p : ℕ) → is_marked self.now.marks p ≡ true → IsLive (R.relation reach.old) p }
        ensures answer { (L : List Grant) → AreTold L self.now.own self.now.marks → IsSetOf (is_held (R.relation reach.old).below classes.now L element) result }
        ensures same { R.relation reach.new ≡ R.relation reach.old }
    {
        let own = self.own.as_slice();
        let marks = self.marks.as_slice();
        let places = &self.places.as_slice()[..self.full];
        rights_held(own, marks, places, reach, classes, element)
    }

    /// Notes what is held on the element.
    fn note_held(&mut self, element: ElementId, rights: Rights)
        requires { element < 64 * length self.old.marks }
        ensures fits { element < length self.old.found }
        ensures known { (p : ℕ) → is_marked self.new.known p ≡ (is_marked self.old.known p || element == p) }
        ensures found { self.new.found ≡ slice_set self.old.found element rights }
        ensures user { self.new.user ≡ self.old.user }
        ensures own { self.new.own ≡ self.old.own }
        ensures marks { self.new.marks ≡ self.old.marks }
    {
        learn(
            self.found.as_mut_slice(),
            self.known.as_mut_slice(),
            element,
            rights,
        );
    }

    /// The same, found once for each element.
    fn held_once<R: Reach>(
        &mut self,
        reach: &mut R,
        classes: &ClassList,
        element: ElementId,
    ) -> Rights
        requires element { IsLive (R.relation reach.old) element }
        requires within { element < 64 * length self.old.marks }
        requires classes { AllLive (R.relation reach.old) classes.now }
        requires live { (p : ℕ) → is_marked self.old.marks p ≡ true → IsLive (R.relation reach.old) p }
        ensures answer { (L : List Grant) → AreTold L self.old.own self.old.marks → AreHeld (R.relation reach.old).below classes.now L self.old.found self.old.known → IsSetOf (is_held (R.relation reach.old).below classes.now L element) result }
        ensures known { (L : List Grant) → AreTold L self.old.own self.old.marks → AreHeld (R.relation reach.old).below classes.now L self.old.found self.old.known → AreHeld (R.relation reach.old).below classes.now L self.new.found self.new.known }
        ensures user { self.new.user ≡ self.old.user }
        ensures own { self.new.own ≡ self.old.own }
        ensures marks { self.new.marks ≡ self.old.marks }
        ensures same { R.relation reach.new ≡ R.relation reach.old }
    {
        if is_marked(self.known.as_slice(), element) {
            return Rights(self.found[element.number() as usize]);
        }
        let rights = self.held(reach, classes, element);
        self.note_held(element, rights);
        rights
    }

    /// The element from which another has all that is held on it, if there is one: its only container, where the user is given
    /// nothing at the element itself.
    fn source<P: Parents>(&self, parents: &P, element: ElementId) -> Option<ElementId>
        requires live { IsTrue (P.live parents.now element) }
        requires within { element < 64 * length self.now.marks }
        ensures only { IfSome result (λ p. containers (P.assigned parents.now) element ≡ p ∷ []) }
        ensures unmarked { IfSome result (λ p. is_marked self.now.marks element ≡ false) }
        ensures live { IfSome result (λ p. IsTrue (P.live parents.now p)) }
    {
        if is_marked(self.marks.as_slice(), element) {
            return None;
        }
        only_container(parents, element)
    }

    /// The same, found once for all elements that have it from one.
    fn held_on<R: Reach, P: Parents>(
        &mut self,
        reach: &mut R,
        parents: &P,
        classes: &ClassList,
        element: ElementId,
    ) -> Rights
        requires parents { AreParents (R.relation reach.old) (P.live parents.now) (P.assigned parents.now) classes.now }
        requires element { IsLive (R.relation reach.old) element }
        requires fits { (x : ℕ) → IsLive (R.relation reach.old) x → x < 64 * length self.old.marks }
        requires classes { AllLive (R.relation reach.old) classes.now }
        requires live { (p : ℕ) → is_marked self.old.marks p ≡ true → IsLive (R.relation reach.old) p }
        ensures answer { (L : List Grant) → AreTold L self.old.own self.old.marks → AreHeld (R.relation reach.old).below classes.now L self.old.found self.old.known → IsSetOf (is_held (R.relation reach.old).below classes.now L element) result }
        ensures known { (L : List Grant) → AreTold L self.old.own self.old.marks → AreHeld (R.relation reach.old).below classes.now L self.old.found self.old.known → AreHeld (R.relation reach.old).below classes.now L self.new.found self.new.known }
        ensures user { self.new.user ≡ self.old.user }
        ensures own { self.new.own ≡ self.old.own }
        ensures marks { self.new.marks ≡ self.old.marks }
        ensures same { R.relation reach.new ≡ R.relation reach.old }
    {
        match self.source(parents, element) {
            Some(container) => self.held_once(reach, classes, container),
            None => self.held(reach, classes, element),
        }
    }

    /// The rights that the user has on the element, as [`rights_of`](pm_decide::rights_of) tells them. What the user is given is
    /// found first, unless this user was asked about last: then it must still be right, and what is known with it, of these
    /// associations and this containment, which follows from the assignments of the parents. The numbers of live elements are
    /// below 64 times the words.
    ///
    /// Takes no memory. To find what a user is given costs a step for each word of 64 numbers, and for each association of the user
    /// attributes that contain the user. The rights on an element then cost one question
    /// of containment for each class, and in each class that contains the element one for each word of 64 numbers in which the
    /// user is given rights at some elements, and one for each of these that contains the element. An element that has one
    /// container, and at which the user is given nothing, has them from that container: this costs it a look, and the container
    /// what was said, once. Then comes what prohibitions cost.
    pub fn rights<R: Reach, P: Parents, G: Grants, B: Bars>(
        &mut self,
        reach: &mut R,
        parents: &P,
        grants: &G,
        bars: &B,
        classes: &ClassList,
        user: ElementId,
        element: ElementId,
    ) -> Rights
        requires right { IsRight (R.relation reach.old).below (G.grantees grants.now) self.old }
        requires known { IsKnown (R.relation reach.old).below (G.grantees grants.now) classes.now self.old }
        requires parents { AreParents (R.relation reach.old) (P.live parents.now) (P.assigned parents.now) classes.now }
        requires asked { IsAsked (R.relation reach.old) (G.grantees grants.now) classes.now user element }
        requires bars { BarsLive (R.relation reach.old) (B.prohibitions bars.now) }
        requires fits { (x : ℕ) → IsLive (R.relation reach.old) x → x < 64 * length self.old.marks }
        ensures answer { result ≡ rights_on (R.relation reach.old).below (associations_of (G.grantees grants.now)) (B.prohibitions bars.now) classes.now user element }
        ensures right { IsRight (R.relation reach.old).below (G.grantees grants.now) self.new }
        ensures known { IsKnown (R.relation reach.old).below (G.grantees grants.now) classes.now self.new }
        ensures words { length self.new.marks ≡ length self.old.marks }
        ensures same { R.relation reach.new ≡ R.relation reach.old }
    {
        self.turn_to(reach, grants, user);
        let held = self.held_on(reach, parents, classes, element);
        if held.is_empty() {
            return NO_RIGHTS;
        }
        let denied = rights_denied(reach, bars, user, element);
        without(held, denied)
    }
}
