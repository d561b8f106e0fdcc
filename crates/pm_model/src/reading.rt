//! What a decision asks of a state, as traits.

ghost use Rattle.std.specs.Prelude.{◌≡◌, ℕ, Bool, true, false, ◌<◌, ◌≤◌, ◌+◌, ◌*◌, ◌/◌, ◌^◌, ◌==◌, ◌&&◌, List, [], ◌∷◌, length, slice_get, take, drop, filter, Some, IsTrue, All};
ghost use Rattle.std.specs.Int.{bit_at};
ghost use Rattle.std.specs.List.{list_any, position_from};
ghost use Rattle.pm_model.specs.Containment.{Relation, containers};
ghost use Rattle.pm_model.specs.Decision.{Judgement, is_grantee};
ghost use Rattle.pm_model.specs.RightSet.{has_right, right_bits};
ghost use Rattle.pm_model.specs.declared.rights.Grant.{Grant};
ghost use Rattle.pm_model.specs.declared.rights.Grantee.{Grantee};
ghost use Rattle.pm_model.specs.declared.prohibitions.Prohibition.{Prohibition};

use crate::elements::ElementId;
use crate::names::Name;
use crate::prohibitions::Prohibition;
use crate::rights::{Grant, Grantee, Rights};

/// Containment, however it is kept. A question takes no memory.
pub trait Reach {
    /// Which elements are live, and the test of containment.
    ghost relation: { Self → Relation };

    /// Whether x is contained in y: whether a path of assignments, of length 0 or more, leads from
    /// x to y. Both are live.
    fn contains(&mut self, x: ElementId, y: ElementId) -> bool
        requires x_live { IsTrue ((relation self.old).live x) }
        requires y_live { IsTrue ((relation self.old).live y) }
        ensures answer { result ≡ (relation self.old).below x y }
        ensures same { relation self.new ≡ relation self.old };

    /// Which of the numbers from 64 k on, 64 of them, x is contained in: bit i is the number 64 k + i.
    fn above(&mut self, x: ElementId, k: u32) -> u64
        requires x_live { IsTrue ((relation self.old).live x) }
        ensures word { (i : ℕ) → i < 64 → (bit_at result i == 1) ≡ (relation self.old).below x (64 * k + i) }
        ensures same { relation self.new ≡ relation self.old };

    /// Whether some of the numbers from 64 k on, 64 of them, may be contained in y. It may say yes where none is, and never no
    /// where one is, so whoever asks for many of them can pass by 64 at a time.
    fn may_hold(&mut self, y: ElementId, k: u32) -> bool
        ensures none { result ≡ false → (x : ℕ) → IsTrue ((relation self.old).live x) → x / 64 ≡ k → (relation self.old).below x y ≡ false }
        ensures same { relation self.new ≡ relation self.old }
    {
        let _ = (y, k);
        true
    }

    /// The place of the first of these associations that has the right and is on what contains x. The right is a bit, and all
    /// that they are on is live.
    fn first_on(&mut self, x: ElementId, right: u8, grants: &[Grant]) -> Option<usize>
        requires x_live { IsTrue ((relation self.old).live x) }
        requires right { right < right_bits }
        requires places { All (λ (h : Grant). IsTrue ((relation self.old).live h.at)) grants.now }
        ensures answer { result ≡ position_from (λ (h : Grant). has_right h.rights right && (relation self.old).below x h.at) 0 grants.now }
        ensures same { relation self.new ≡ relation self.old }
    {
        for (i, grant) in grants.iter().enumerate() {
            if grant.rights.has(right) && self.contains(x, grant.at) {
                return Some(i);
            }
        }
        None
    }
}

/// What each element is assigned to.
pub trait Parents {
    /// Which elements are live.
    ghost live: { Self → ℕ → Bool };

    /// The assignment pairs.
    ghost assigned: { Self → List (ℕ × ℕ) };

    /// How many elements x is assigned to.
    fn count(&self, x: ElementId) -> usize
        requires { IsTrue (live self.now x) }
        ensures { result ≡ length (containers (assigned self.now) x) };

    /// The element that x is assigned to at a place below the count, in order of assignment.
    fn parent(&self, x: ElementId, i: usize) -> ElementId
        requires x_live { IsTrue (live self.now x) }
        requires i_below { i < length (containers (assigned self.now) x) }
        ensures live { IsTrue (live self.now result) }
        ensures answer { slice_get (containers (assigned self.now) x) i ≡ Some result };
}

/// The associations, those of a user attribute together. Which user attributes have some is told by
/// words of 64 numbers, so that a walk meets those alone that something else contains.
pub trait Grants {
    /// The user attributes that have associations, with these.
    ghost grantees: { Self → List Grantee };

    /// How many words it takes to tell of each number whether it is a user attribute with associations:
    /// of numbers below 16,384 no more than 256, and of any no more than numbers of 32 bits need.
    fn holder_words(&self) -> u32
        ensures within { All (λ (g : Grantee). g.ua < 64 * result) (grantees self.now) }
        ensures most { result ≤ 67108864 };

    /// Which of the numbers from 64 k on, 64 of them, are user attributes with associations: bit i is
    /// the number 64 k + i.
    fn holders(&self, k: u32) -> u64
        ensures { (i : ℕ) → i < 64 → (bit_at result i == 1) ≡ list_any (is_grantee (64 * k + i)) (grantees self.now) };

    /// A user attribute that has associations, with these.
    fn grantee(&self, ua: ElementId) -> &Grantee
        requires { list_any (is_grantee ua) (grantees self.now) ≡ true }
        ensures { filter (is_grantee ua) (grantees self.now) ≡ result.now ∷ [] };
}

/// The prohibitions, in order of creation: at most 4,096.
pub trait Bars {
    /// The prohibitions.
    ghost prohibitions: { Self → List Prohibition };

    /// How many there are.
    fn len(&self) -> usize
        ensures len { result ≡ length (prohibitions self.now) }
        ensures most { result ≤ 4096 };

    /// The prohibition at a place below the number.
    fn at(&self, i: usize) -> &Prohibition
        requires { i < length (prohibitions self.now) }
        ensures { slice_get (prohibitions self.now) i ≡ Some result.now };

    /// The prohibitions from a place below the number on that stand together in memory.
    fn prohibitions_from(&self, i: usize) -> &[Prohibition]
        requires { i < length (prohibitions self.now) }
        ensures items { result.now ≡ take (length result.now) (drop i (prohibitions self.now)) }
        ensures some { 0 < length result.now };
}

/// The rights of users on elements, however they are found, and how often they were asked for. A question takes no
/// memory.
pub trait Judge {
    /// Which elements are live, and the rights of each user on each element.
    ghost judgement: { Self → Judgement };

    /// How many questions it was asked.
    ghost asked: { Self → ℕ };

    /// The rights that the user has on the element. Both are live.
    fn judge(&mut self, user: ElementId, element: ElementId) -> Rights
        requires user_live { IsTrue ((judgement self.old).live user) }
        requires element_live { IsTrue ((judgement self.old).live element) }
        requires room { asked self.old + 1 < 2 ^ 64 }
        ensures answer { result ≡ (judgement self.old).rights user element }
        ensures counted { asked self.new ≡ asked self.old + 1 }
        ensures same { judgement self.new ≡ judgement self.old };
}

/// The names of live elements.
pub trait NameOf {
    /// Which elements are live.
    ghost named: { Self → ℕ → Bool };

    /// The name of each of them.
    ghost name_at: { Self → ℕ → List ℕ };

    /// The name of a live element.
    fn name_of(&self, id: ElementId) -> Name
        requires { IsTrue (named self.now id) }
        ensures { result ≡ name_at self.now id };
}
