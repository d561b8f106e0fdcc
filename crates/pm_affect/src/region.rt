//! The pairs of a user and an element whose rights a change can change.

ghost use Rattle.std.specs.Prelude.{◌≡◌, ◌/◌, ℕ, None, false, if◌then◌else◌, IfOk, IsOk};
ghost use Rattle.std.specs.Option.{option_copied};
ghost use Rattle.pm_model.specs.Decision.{applies_by};
ghost use Rattle.pm_decide.specs.Live.{IsLive};
ghost use Rattle.pm_affect.specs.Affected.{is_in, is_of_prohibition, region_by};
ghost use Rattle.pm_affect.specs.Live.{RegionLive};
ghost use Rattle.pm_affect.specs.declared.region.Row.{Row};
ghost use Rattle.pm_affect.specs.Rows.{has_row, is_near, is_near_row, is_nothing, is_process, is_wide, row_by};

use pm_decide::{applies, in_range};
use pm_model::{Change, ElementId, Memory, Prohibition, Reach, Subject};

/// A set of pairs of a user and an element.
#[derive(Drop)]
pub enum Region {
    /// None.
    Nothing,
    /// Those of which one is this element: it was made, or it is gone.
    One(ElementId),
    /// Those of which one is contained in this element: what it is assigned to has changed.
    Under(ElementId),
    /// Those whose user is contained in the first and whose element in the second: an association of the
    /// two came or went.
    Between(ElementId, ElementId),
    /// Those whose user the prohibition applies to whatever the process, and whose element lies in its
    /// range: it came or went.
    Barred(Prohibition),
}

/// Which elements lie in a region with one user.
#[derive(Clone, Copy)]
pub(crate) enum Row {
    /// None.
    Empty,
    /// Those that are near.
    Near,
    /// All.
    Whole,
}

impl Row {
    /// Whether it is of those that are near.
    pub(crate) fn is_near(self) -> bool
        ensures { result ≡ is_near_row self }
    {
        match self {
            Row::Near => true,
            _ => false,
        }
    }
}

fn whole_or_near(whole: bool) -> Row
    ensures { result ≡ (if whole then Row.Whole else Row.Near) }
{
    if whole {
        return Row::Whole;
    }
    Row::Near
}

fn near_or_empty(near: bool) -> Row
    ensures { result ≡ (if near then Row.Near else Row.Empty) }
{
    if near {
        return Row::Near;
    }
    Row::Empty
}

fn is_process(subject: Subject<ElementId, u32>) -> bool
    ensures { result ≡ is_process subject }
{
    match subject {
        Subject::Process(_) => true,
        _ => false,
    }
}

/// Whether a prohibition of this subject may apply to some user with a number from 64 k on, of 64 of them.
fn may_apply<R: Reach>(subject: Subject<ElementId, u32>, k: u32, reach: &mut R) -> bool
    ensures none { result ≡ false → (u : ℕ) → IsLive (R.relation reach.old) u → u / 64 ≡ k → applies_by (R.relation reach.old).below u None subject ≡ false }
    ensures same { R.relation reach.new ≡ R.relation reach.old }
{
    match subject {
        Subject::User(x) => x.number() / 64 == k,
        Subject::Ua(x) => reach.may_hold(x, k),
        Subject::Process(_) => false,
    }
}

impl Region {
    /// The region of a change; `lifted` is the prohibition that it lifts, if any. It takes memory for the copy of a
    /// prohibition alone.
    pub fn of(change: &Change, lifted: Option<&Prohibition>) -> Result<Region, Memory>
        ensures region { IfOk result (λ region. region ≡ region_by change.now (option_copied lifted.entry)) }
        ensures free { is_of_prohibition change.now ≡ false → IsOk result }
    {
        Ok(match change {
            Change::Create { id, .. } => Region::One(*id),
            Change::Delete { id } => Region::One(*id),
            Change::Assign { from, .. } => Region::Under(*from),
            Change::Deassign { from, .. } => Region::Under(*from),
            Change::Associate { ua, at, .. } => Region::Between(*ua, *at),
            Change::Dissociate { ua, at } => Region::Between(*ua, *at),
            Change::Prohibit { item } => Region::Barred(item.copy()?),
            Change::Lift { .. } => match lifted {
                Some(item) => Region::Barred(item.copy()?),
                None => Region::Nothing,
            },
            Change::OpenSession { .. } => Region::Nothing,
            Change::CloseSession { .. } => Region::Nothing,
            Change::StartProcess { .. } => Region::Nothing,
            Change::EndProcess { .. } => Region::Nothing,
            Change::Oblige { .. } => Region::Nothing,
            Change::Withdraw { .. } => Region::Nothing,
            Change::DefineRight { .. } => Region::Nothing,
            Change::Keep { .. } => Region::Nothing,
            Change::DropReview { .. } => Region::Nothing,
        })
    }

    /// Whether the pair lies in it. The user and the element are live, and so is what it names, but for an
    /// element that was made or is gone. It takes no memory, and costs two questions of containment at most; of a
    /// prohibition one and as many as its sets have elements.
    pub fn holds<R: Reach>(&self, user: ElementId, element: ElementId, reach: &mut R) -> bool
        requires region { RegionLive (R.relation reach.old) self.now }
        requires user { IsLive (R.relation reach.old) user }
        requires element { IsLive (R.relation reach.old) element }
        ensures answer { result ≡ is_in (R.relation reach.old).below self.now user element }
        ensures same { R.relation reach.new ≡ R.relation reach.old }
    {
        match self.row(user, reach) {
            Row::Empty => false,
            Row::Near => self.is_near(element, reach),
            Row::Whole => true,
        }
    }

    /// Whether no pair lies in it, whatever is contained in what.
    pub(crate) fn is_nothing(&self) -> bool
        ensures { result ≡ is_nothing self.now }
    {
        match self {
            Region::Nothing => true,
            Region::Barred(bar) => is_process(bar.subject),
            _ => false,
        }
    }

    /// Whether all pairs of some users lie in it, whatever is near: those of one element, or of what is contained in it.
    pub(crate) fn is_wide(&self) -> bool
        ensures { result ≡ is_wide self.now }
    {
        match self {
            Region::One(_) => true,
            Region::Under(_) => true,
            _ => false,
        }
    }

    /// Which elements lie in it with the user, who is live: at most one question of containment.
    pub(crate) fn row<R: Reach>(&self, user: ElementId, reach: &mut R) -> Row
        requires region { RegionLive (R.relation reach.old) self.now }
        requires user { IsLive (R.relation reach.old) user }
        ensures answer { result ≡ row_by (R.relation reach.old).below self.now user }
        ensures same { R.relation reach.new ≡ R.relation reach.old }
    {
        match self {
            Region::Nothing => Row::Empty,
            Region::One(x) => whole_or_near(user == *x),
            Region::Under(x) => whole_or_near(reach.contains(user, *x)),
            Region::Between(ua, _) => near_or_empty(reach.contains(user, *ua)),
            Region::Barred(bar) => near_or_empty(applies(reach, bar, user, None)),
        }
    }

    /// Whether the element, which is live, lies in it with each user that has a row of those that are near.
    pub(crate) fn is_near<R: Reach>(&self, element: ElementId, reach: &mut R) -> bool
        requires region { RegionLive (R.relation reach.old) self.now }
        requires element { IsLive (R.relation reach.old) element }
        ensures answer { result ≡ is_near (R.relation reach.old).below self.now element }
        ensures same { R.relation reach.new ≡ R.relation reach.old }
    {
        match self {
            Region::Nothing => false,
            Region::One(x) => element == *x,
            Region::Under(x) => reach.contains(element, *x),
            Region::Between(_, at) => reach.contains(element, *at),
            Region::Barred(bar) => in_range(reach, bar, element),
        }
    }

    /// Whether some user with a number from 64 k on, of 64 of them, may have a row that isn't empty: never no where one has.
    pub(crate) fn may_have_row<R: Reach>(&self, k: u32, reach: &mut R) -> bool
        ensures none { result ≡ false → (u : ℕ) → IsLive (R.relation reach.old) u → u / 64 ≡ k → has_row (R.relation reach.old).below self.now u ≡ false }
        ensures same { R.relation reach.new ≡ R.relation reach.old }
    {
        match self {
            Region::Between(ua, _) => reach.may_hold(*ua, k),
            Region::Barred(bar) => may_apply(bar.subject, k, reach),
            _ => true,
        }
    }

    /// Whether some element with a number from 64 k on, of 64 of them, may be near: never no where one is.
    pub(crate) fn may_be_near<R: Reach>(&self, k: u32, reach: &mut R) -> bool
        ensures none { result ≡ false → (e : ℕ) → IsLive (R.relation reach.old) e → e / 64 ≡ k → is_near (R.relation reach.old).below self.now e ≡ false }
        ensures same { R.relation reach.new ≡ R.relation reach.old }
    {
        match self {
            Region::Between(_, at) => reach.may_hold(*at, k),
            _ => true,
        }
    }
}
