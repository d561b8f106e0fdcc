//! Which prohibition denies a right, over whatever keeps containment and prohibitions.

ghost use Rattle.std.specs.Prelude.{◌≡◌, ◌<◌, not, length, IfSome};
ghost use Rattle.std.specs.List.{list_any, list_all};
ghost use Rattle.pm_model.specs.Decision.{range_by, applies_by, forbids, first_applying};
ghost use Rattle.pm_model.specs.RightSet.{right_bits};
ghost use Rattle.pm_decide.specs.Live.{IsLive, AllLive, NamesLive, BarsLive};

use pm_model::{Bars, ElementId, Mode, PlaceList, Prohibition, Reach, Subject};

/// Whether the element is in each of the places.
fn in_each<R: Reach>(reach: &mut R, places: &PlaceList, element: ElementId) -> bool
    requires places { AllLive (R.relation reach.old) places.now }
    requires element { IsLive (R.relation reach.old) element }
    ensures answer { result ≡ list_all ((R.relation reach.old).below element) places.now }
    ensures same { R.relation reach.new ≡ R.relation reach.old }
{
    for place in places.as_slice() {
        if !reach.contains(element, *place) {
            return false;
        }
    }
    true
}

/// Whether the element is in some of the places.
fn in_some<R: Reach>(reach: &mut R, places: &PlaceList, element: ElementId) -> bool
    requires places { AllLive (R.relation reach.old) places.now }
    requires element { IsLive (R.relation reach.old) element }
    ensures answer { result ≡ list_any ((R.relation reach.old).below element) places.now }
    ensures same { R.relation reach.new ≡ R.relation reach.old }
{
    for place in places.as_slice() {
        if reach.contains(element, *place) {
            return true;
        }
    }
    false
}

/// Whether there are some of the places that the element isn't in.
fn out_of_some<R: Reach>(reach: &mut R, places: &PlaceList, element: ElementId) -> bool
    requires places { AllLive (R.relation reach.old) places.now }
    requires element { IsLive (R.relation reach.old) element }
    ensures answer { result ≡ list_any (λ a. not ((R.relation reach.old).below element a)) places.now }
    ensures same { R.relation reach.new ≡ R.relation reach.old }
{
    for place in places.as_slice() {
        if !reach.contains(element, *place) {
            return true;
        }
    }
    false
}

/// Whether the element lies in the prohibition's range.
pub fn in_range<R: Reach>(reach: &mut R, bar: &Prohibition, element: ElementId) -> bool
    requires bar { NamesLive (R.relation reach.old) bar.now }
    requires element { IsLive (R.relation reach.old) element }
    ensures answer { result ≡ range_by (R.relation reach.old).below bar.now.mode bar.now.inc bar.now.exc element }
    ensures same { R.relation reach.new ≡ R.relation reach.old }
{
    match bar.mode {
        Mode::All => in_each(reach, &bar.inc, element) && !in_some(reach, &bar.exc, element),
        Mode::Any => in_some(reach, &bar.inc, element) || out_of_some(reach, &bar.exc, element),
    }
}

/// Whether the prohibition's subject is the user, a user attribute that the user is in, or the
/// process. Only a user attribute costs a question of containment.
pub fn applies<R: Reach>(
    reach: &mut R,
    bar: &Prohibition,
    user: ElementId,
    process: Option<u32>,
) -> bool
    requires bar { NamesLive (R.relation reach.old) bar.now }
    requires user { IsLive (R.relation reach.old) user }
    ensures answer { result ≡ applies_by (R.relation reach.old).below user process bar.now.subject }
    ensures same { R.relation reach.new ≡ R.relation reach.old }
{
    match bar.subject {
        Subject::User(x) => user.number() == x.number(),
        Subject::Ua(x) => reach.contains(user, x),
        Subject::Process(p) => match process {
            Some(q) => q == p,
            None => false,
        },
    }
}

/// Whether the prohibition denies the user and the process the right on the element. What costs no
/// question is asked first.
#[tactic(auto, using(crate::proofs::Orders::right_first))]
fn forbids<R: Reach>(
    reach: &mut R,
    bar: &Prohibition,
    user: ElementId,
    process: Option<u32>,
    right: u8,
    element: ElementId,
) -> bool
    requires bar { NamesLive (R.relation reach.old) bar.now }
    requires user { IsLive (R.relation reach.old) user }
    requires right { right < right_bits }
    requires element { IsLive (R.relation reach.old) element }
    ensures answer { result ≡ forbids (R.relation reach.old).below user process right element bar.now }
    ensures same { R.relation reach.new ≡ R.relation reach.old }
{
    bar.rights.has(right) && applies(reach, bar, user, process) && in_range(reach, bar, element)
}

/// The place among these prohibitions, from 0, of the first that denies the right.
fn first_among<R: Reach>(
    reach: &mut R,
    bars: &[Prohibition],
    user: ElementId,
    process: Option<u32>,
    right: u8,
    element: ElementId,
) -> Option<usize>
    requires bars { BarsLive (R.relation reach.old) bars.now }
    requires user { IsLive (R.relation reach.old) user }
    requires right { right < right_bits }
    requires element { IsLive (R.relation reach.old) element }
    ensures answer { result ≡ first_applying (R.relation reach.old).below bars.now user process right element }
    ensures within { IfSome result (λ i. i < length bars.now) }
    ensures same { R.relation reach.new ≡ R.relation reach.old }
{
    for (i, bar) in bars.iter().enumerate() {
        if forbids(reach, bar, user, process, right, element) {
            return Some(i);
        }
    }
    None
}

/// The place, in order of creation from 0, of the first prohibition that denies the right on the
/// element to the user or, where there is one, to the process; None where none does. A prohibition
/// denies the rights that it has, to the user, the users in the user attribute or the process that is
/// its subject, on the elements in its range. The right is a bit.
///
/// Takes no memory. A prohibition without the right, or on another user or process, costs no question
/// of containment; else it costs one for a user attribute as its subject and, where it applies, at most
/// one for each element of its sets.
pub fn first_applying<R: Reach, B: Bars>(
    reach: &mut R,
    bars: &B,
    user: ElementId,
    process: Option<u32>,
    right: u8,
    element: ElementId,
) -> Option<u32>
    requires bars { BarsLive (R.relation reach.old) (B.prohibitions bars.now) }
    requires user { IsLive (R.relation reach.old) user }
    requires right { right < right_bits }
    requires element { IsLive (R.relation reach.old) element }
    ensures answer { result ≡ first_applying (R.relation reach.old).below (B.prohibitions bars.now) user process right element }
    ensures same { R.relation reach.new ≡ R.relation reach.old }
{
    let count = bars.len();
    let mut start = 0;
    while start < count {
        let run = bars.prohibitions_from(start);
        if let Some(i) = first_among(reach, run, user, process, right, element) {
            return Some((start + i) as u32);
        }
        start += run.len();
    }
    None
}
