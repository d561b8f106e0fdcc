//! What is held on one element after another.

ghost use Rattle.std.specs.Prelude.{◌≡◌, ◌<◌, ◌*◌, ◌≤◌, ◌∷◌, [], Some, None, false, ℕ, Bool, List, length, IfOk, IfSome, IsTrue};
ghost use Rattle.std.specs.List.{list_any};
ghost use Rattle.pm_model.specs.Containment.{containers};
ghost use Rattle.pm_model.specs.Decision.{associations_of, is_grantee, privilege, rights_on};
ghost use Rattle.pm_model.specs.declared.rights.Grantee.{Grantee};
ghost use Rattle.pm_decide.specs.Live.{IsLive, IsAsked, BarsLive};
ghost use Rattle.pm_decide.specs.Sets.{IsSetOf};
ghost use Rattle.pm_given.specs.Held.{AreHeldOn, IsKnownOn, Sheet};
ghost use Rattle.pm_given.specs.Parents.{AreParents};

use crate::joins::NO_RIGHTS;
use crate::marks::{clear, is_marked, learn, zeros};
use crate::only::{is_holder, only_container};
use crate::runs::Run;
use pm_decide::{rights_denied, rights_of, without};
use pm_model::{Bars, ClassList, ElementId, Grants, Memory, Parents, Reach, Rights};
use std::alloc::Global;
use std::marker::Model;

/// What users and user attributes hold on the element that was asked about last, as far as it was found: a user with one container
/// alone holds what that container does.
pub struct HeldOn {
    element: Option<ElementId>,
    found: Vec<u64>,
    known: Vec<u64>,
}

impl Drop for HeldOn {
    fn drop(self) {
        let HeldOn {
            element: _,
            found: _,
            known: _,
        } = self;
    }
}

impl Model for HeldOn {
    ghost use Rattle.pm_given.specs.Held.{Sheet, IsSheet};

    ghost Value = { Sheet };

    ghost view = { λ h. record { element = h.element; found = h.found.items; known = h.known.items } };

    ghost invariant = { λ h. IsSheet (record { element = h.element; found = h.found.items; known = h.known.items }) };
}

/// The privileges of the user on the element, whatever prohibitions there are.
fn privileges<R: Reach, G: Grants>(
    reach: &mut R,
    grants: &G,
    classes: &ClassList,
    user: ElementId,
    element: ElementId,
) -> Rights
    requires asked { IsAsked (R.relation reach.old) (G.grantees grants.now) classes.now user element }
    ensures answer { IsSetOf (λ r. privilege (R.relation reach.old).below (associations_of (G.grantees grants.now)) classes.now user r element) result }
    ensures same { R.relation reach.new ≡ R.relation reach.old }
{
    let none = Run { items: &[] };
    rights_of(reach, grants, &none, classes, user, element)
}

/// The user attribute whose privileges the user has, and no more, if there is one: its only container, where the user has no
/// associations of its own.
fn source<P: Parents, G: Grants>(parents: &P, grants: &G, user: ElementId) -> Option<ElementId>
    requires live { IsTrue (P.live parents.now user) }
    ensures only { IfSome result (λ p. containers (P.assigned parents.now) user ≡ p ∷ []) }
    ensures apart { IfSome result (λ p. list_any (is_grantee user) (G.grantees grants.now) ≡ false) }
    ensures live { IfSome result (λ p. IsTrue (P.live parents.now p)) }
{
    if is_holder(grants, user) {
        return None;
    }
    only_container(parents, user)
}

impl HeldOn {
    /// Of no element yet, for users with numbers below 64 times so many words.
    pub fn new(alloc: Global, words: u32) -> Result<HeldOn, Memory>
        requires { words ≤ 67108864 }
        ensures element { IfOk result (λ (h : Sheet). h.element ≡ None) }
        ensures words { IfOk result (λ (h : Sheet). length h.known ≡ words) }
    {
        let found = zeros(alloc, 64 * words as usize)?;
        let known = zeros(alloc, words as usize)?;
        Ok(HeldOn {
            element: None,
            found,
            known,
        })
    }

    /// Forgets what is known, unless it is of this element.
    fn turn_to(&mut self, element: ElementId)
        ensures element { self.new.element ≡ Some element }
        ensures known { (below : ℕ → ℕ → Bool) (gs : List Grantee) (classes : List ℕ) → IsKnownOn below gs classes self.old → AreHeldOn below gs classes element self.new.found self.new.known }
        ensures words { length self.new.known ≡ length self.old.known }
    {
        if self.element == Some(element) {
            return;
        }
        let words = self.known.len();
        clear(self.known.as_mut_slice(), words);
        self.element = Some(element);
    }

    /// The privileges on the element, found once for each user attribute.
    fn held_once<R: Reach, G: Grants>(
        &mut self,
        reach: &mut R,
        grants: &G,
        classes: &ClassList,
        user: ElementId,
        element: ElementId,
    ) -> Rights
        requires within { user < 64 * length self.old.known }
        requires asked { IsAsked (R.relation reach.old) (G.grantees grants.now) classes.now user element }
        requires known { AreHeldOn (R.relation reach.old).below (G.grantees grants.now) classes.now element self.old.found self.old.known }
        ensures answer { IsSetOf (λ r. privilege (R.relation reach.old).below (associations_of (G.grantees grants.now)) classes.now user r element) result }
        ensures known { AreHeldOn (R.relation reach.old).below (G.grantees grants.now) classes.now element self.new.found self.new.known }
        ensures element { self.new.element ≡ self.old.element }
        ensures words { length self.new.known ≡ length self.old.known }
        ensures same { R.relation reach.new ≡ R.relation reach.old }
    {
        if is_marked(self.known.as_slice(), user) {
            return Rights(self.found[user.number() as usize]);
        }
        let rights = privileges(reach, grants, classes, user, element);
        learn(
            self.found.as_mut_slice(),
            self.known.as_mut_slice(),
            user,
            rights,
        );
        rights
    }

    /// The privileges on the element, found once for all users that have them from one user attribute.
    fn held<R: Reach, P: Parents, G: Grants>(
        &mut self,
        reach: &mut R,
        parents: &P,
        grants: &G,
        classes: &ClassList,
        user: ElementId,
        element: ElementId,
    ) -> Rights
        requires parents { AreParents (R.relation reach.old) (P.live parents.now) (P.assigned parents.now) classes.now }
        requires asked { IsAsked (R.relation reach.old) (G.grantees grants.now) classes.now user element }
        requires fits { (x : ℕ) → IsLive (R.relation reach.old) x → x < 64 * length self.old.known }
        requires known { AreHeldOn (R.relation reach.old).below (G.grantees grants.now) classes.now element self.old.found self.old.known }
        ensures answer { IsSetOf (λ r. privilege (R.relation reach.old).below (associations_of (G.grantees grants.now)) classes.now user r element) result }
        ensures known { AreHeldOn (R.relation reach.old).below (G.grantees grants.now) classes.now element self.new.found self.new.known }
        ensures element { self.new.element ≡ self.old.element }
        ensures words { length self.new.known ≡ length self.old.known }
        ensures same { R.relation reach.new ≡ R.relation reach.old }
    {
        match source(parents, grants, user) {
            Some(container) => self.held_once(reach, grants, classes, container, element),
            None => privileges(reach, grants, classes, user, element),
        }
    }

    /// The rights that the user has on the element, as [`rights_of`] tells them. Where this element was asked about last, what is
    /// known must still be right, of these associations and this containment, which follows from the assignments of the parents.
    /// The numbers of live elements are below 64 times the words.
    ///
    /// Takes no memory. A user that has one container, and no associations of its own, has them from that container: this costs
    /// it a look, and the container what [`rights_of`] says, once for each element that is asked about without a pause. Any other
    /// user costs what [`rights_of`] says. An element other than the last costs a step for each word of 64 numbers.
    pub fn rights<R: Reach, P: Parents, G: Grants, B: Bars>(
        &mut self,
        reach: &mut R,
        parents: &P,
        grants: &G,
        bars: &B,
        classes: &ClassList,
        user: ElementId,
        element: ElementId,
    ) -> Rights
        requires known { IsKnownOn (R.relation reach.old).below (G.grantees grants.now) classes.now self.old }
        requires parents { AreParents (R.relation reach.old) (P.live parents.now) (P.assigned parents.now) classes.now }
        requires asked { IsAsked (R.relation reach.old) (G.grantees grants.now) classes.now user element }
        requires bars { BarsLive (R.relation reach.old) (B.prohibitions bars.now) }
        requires fits { (x : ℕ) → IsLive (R.relation reach.old) x → x < 64 * length self.old.known }
        ensures answer { result ≡ rights_on (R.relation reach.old).below (associations_of (G.grantees grants.now)) (B.prohibitions bars.now) classes.now user element }
        ensures known { IsKnownOn (R.relation reach.old).below (G.grantees grants.now) classes.now self.new }
        ensures words { length self.new.known ≡ length self.old.known }
        ensures same { R.relation reach.new ≡ R.relation reach.old }
    {
        self.turn_to(element);
        let held = self.held(reach, parents, grants, classes, user, element);
        if held.is_empty() {
            return NO_RIGHTS;
        }
        let denied = rights_denied(reach, bars, user, element);
        without(held, denied)
    }
}
