//! Whether a change touches a kept review at all, and what it passes by.

ghost use Rattle.std.specs.Prelude.{◌≡◌, ◌/◌, ℕ, true, false};
ghost use Rattle.std.specs.List.{list_any};
ghost use Rattle.pm_decide.specs.Live.{AllLive, IsLive};
ghost use Rattle.pm_affect.specs.Affected.{is_in};
ghost use Rattle.pm_affect.specs.Judged.{in_scope};
ghost use Rattle.pm_affect.specs.Lists.{subjects};
ghost use Rattle.pm_affect.specs.Live.{RegionLive};
ghost use Rattle.pm_affect.specs.Rows.{ArePassed, has_row, may_touch, near_on};

use crate::items::Item;
use crate::lists::KeptLists;
use crate::region::Region;
use pm_model::{ElementId, Reach};

/// On which side of a pair an element stands.
#[derive(Clone, Copy)]
pub(crate) enum Side {
    User,
    Element,
}

/// What was asked last of 64 numbers from 64 k on: whether one of them may be in the region.
#[derive(Clone, Copy)]
pub(crate) struct Asked {
    k: u32,
    may: bool,
}

impl Asked {
    /// Nothing was asked yet.
    pub(crate) fn nothing() -> Asked
        ensures { result.may ≡ true }
    {
        Asked { k: 0, may: true }
    }
}

impl Region {
    /// Whether a user has a row of those that are near, or an element is near.
    #[inline(never)]
    fn is_near_on<R: Reach>(&self, side: Side, x: ElementId, reach: &mut R) -> bool
        requires region { RegionLive (R.relation reach.old) self.now }
        requires x { IsLive (R.relation reach.old) x }
        ensures answer { result ≡ near_on side (R.relation reach.old).below self.now x }
        ensures same { R.relation reach.new ≡ R.relation reach.old }
    {
        match side {
            Side::User => self.row(x, reach).is_near(),
            Side::Element => self.is_near(x, reach),
        }
    }

    /// Whether that may be so of some number from 64 k on, of 64 of them: never no where it is.
    #[inline(never)]
    #[tactic(auto, using(crate::proofs::Rows::no_row_near))]
    fn may_be_near_on<R: Reach>(&self, side: Side, k: u32, reach: &mut R) -> bool
        ensures none { result ≡ false → (x : ℕ) → IsLive (R.relation reach.old) x → x / 64 ≡ k → near_on side (R.relation reach.old).below self.now x ≡ false }
        ensures same { R.relation reach.new ≡ R.relation reach.old }
    {
        match side {
            Side::User => self.may_have_row(k, reach),
            Side::Element => self.may_be_near(k, reach),
        }
    }

    /// Asks of the 64 numbers from 64 k on, unless they were those that were asked about last.
    fn ask_about<R: Reach>(&self, side: Side, k: u32, asked: &mut Asked, reach: &mut R)
        requires { ArePassed (near_on side (R.relation reach.old).below self.now) (R.relation reach.old) asked.old }
        ensures passed { ArePassed (near_on side (R.relation reach.old).below self.now) (R.relation reach.old) asked.new }
        ensures block { asked.new.k ≡ k }
        ensures same { R.relation reach.new ≡ R.relation reach.old }
    {
        if asked.k != k {
            let may = self.may_be_near_on(side, k, reach);
            *asked = Asked { k, may };
        }
    }

    /// Whether a user has a row of those that are near, or an element is near; 64 numbers are passed by where none of them may.
    pub(crate) fn finds_near<R: Reach>(
        &self,
        side: Side,
        x: ElementId,
        asked: &mut Asked,
        reach: &mut R,
    ) -> bool
        requires region { RegionLive (R.relation reach.old) self.now }
        requires x { IsLive (R.relation reach.old) x }
        requires passed { ArePassed (near_on side (R.relation reach.old).below self.now) (R.relation reach.old) asked.old }
        ensures answer { result ≡ near_on side (R.relation reach.old).below self.now x }
        ensures passed { ArePassed (near_on side (R.relation reach.old).below self.now) (R.relation reach.old) asked.new }
        ensures same { R.relation reach.new ≡ R.relation reach.old }
    {
        self.ask_about(side, x.number() / 64, asked, reach);
        if !asked.may {
            return false;
        }
        self.is_near_on(side, x, reach)
    }

    /// Whether the user is of 64 of whom none has an element in the region, as far as that is told of all 64 at once.
    pub(crate) fn passes<R: Reach>(&self, user: ElementId, asked: &mut Asked, reach: &mut R) -> bool
        requires user { IsLive (R.relation reach.old) user }
        requires passed { ArePassed (has_row (R.relation reach.old).below self.now) (R.relation reach.old) asked.old }
        ensures none { result ≡ true → has_row (R.relation reach.old).below self.now user ≡ false }
        ensures passed { ArePassed (has_row (R.relation reach.old).below self.now) (R.relation reach.old) asked.new }
        ensures same { R.relation reach.new ≡ R.relation reach.old }
    {
        let k = user.number() / 64;
        if asked.k != k {
            let may = self.may_have_row(k, reach);
            *asked = Asked { k, may };
        }
        !asked.may
    }
}

/// Whether some of those that the lists are of have a row of those that are near, or are near. They are by rising number, so
/// that 64 numbers cost one question where none of them may.
pub(crate) fn some_near<R: Reach>(
    side: Side,
    items: &[Item],
    region: &Region,
    reach: &mut R,
) -> bool
    requires region { RegionLive (R.relation reach.old) region.now }
    requires live { AllLive (R.relation reach.old) (subjects items.now) }
    ensures answer { result ≡ list_any (near_on side (R.relation reach.old).below region.now) (subjects items.now) }
    ensures same { R.relation reach.new ≡ R.relation reach.old }
{
    let mut asked = Asked::nothing();
    for i in 0..items.len() {
        if region.finds_near(side, items[i].subject(), &mut asked, reach) {
            return true;
        }
    }
    false
}

/// Whether a pair of the region may lie in the scope of a kept review, as far as each of the two tells: it may say yes where
/// none does, and never no where one does.
///
/// It asks the region once at most for each kept review, or for 64 numbers at once where none of them may be in it, and not at
/// all where the region has no pair, or where all pairs of some user lie in it: a question is one of containment, or as many as
/// the sets of a prohibition have elements. It takes no memory.
pub fn touches<R: Reach>(lists: &KeptLists, region: &Region, reach: &mut R) -> bool
    requires region { RegionLive (R.relation reach.old) region.now }
    requires users { AllLive (R.relation reach.old) (subjects lists.now.caps) }
    requires elements { AllLive (R.relation reach.old) (subjects lists.now.entries) }
    ensures answer { result ≡ may_touch (R.relation reach.old).below region.now lists.now }
    ensures none { result ≡ false → (u e : ℕ) → in_scope lists.now u e ≡ true → is_in (R.relation reach.old).below region.now u e ≡ false }
    ensures same { R.relation reach.new ≡ R.relation reach.old }
{
    if region.is_nothing() || lists.is_empty() {
        return false;
    }
    if region.is_wide() {
        return true;
    }
    if some_near(Side::User, lists.caps(), region, reach) {
        return true;
    }
    some_near(Side::Element, lists.entries(), region, reach)
}
