//! Which obligations match an event.

ghost use Rattle.std.specs.Prelude.{◌≡◌, ◌<◌, ◌≤◌, ℕ, Bool, true, false, List, [], Option, length, nat_lt, slice_get, All, IfOk, IsOk, IsTrue, Some};
ghost use Rattle.std.specs.List.{list_any, remove};
ghost use Rattle.pm_model.specs.Obligations.{is_in_given, matching, max_obligations};
ghost use Rattle.pm_model.specs.declared.obligations.Obligation.{Obligation};
ghost use Rattle.pm_model.specs.declared.events.Event.{Event};
ghost use Rattle.pm_oblig.specs.Awaited.{in_words, has_target};
ghost use Rattle.pm_pattern.specs.Live.{IsEventLive};
ghost use Rattle.pm_runner.specs.Standing.{StandAt, ArePatternsLive, IsRunOf, is_at, is_match, without};

use pm_model::{ElementId, Event, ItemList, Memory, Obligation, Reach};
use pm_oblig::{Obligations, TargetWord, Targets};
use pm_pattern::matches;
use std::alloc::Global;

/// Places of obligations in their list, from 0.
pub type PositionList = ItemList<u32>;

fn is_at(left_out: Option<u32>, i: usize) -> bool
    ensures { result ≡ is_at left_out i }
{
    match left_out {
        None => false,
        Some(index) => index as usize == i,
    }
}

/// Obligations that stand together in their list, from a place on.
#[derive(Clone, Copy)]
struct LastRun<'a> {
    begin: usize,
    items: &'a [Obligation],
}

impl<'a> LastRun<'a> {
    /// None of any list.
    fn none() -> LastRun<'a>
        ensures { (obligations : List Obligation) → IsRunOf obligations result }
    {
        LastRun {
            begin: 0,
            items: &[],
        }
    }

    /// The obligation at a place. Those that it stands with are found once for all of them.
    fn at(&mut self, obligations: &'a Obligations, i: usize) -> &'a Obligation
        requires run { IsRunOf obligations.now.items self.old }
        requires place { i < length obligations.now.items }
        ensures obligation { slice_get obligations.now.items i ≡ Some result.now }
        ensures run { IsRunOf obligations.now.items self.new }
    {
        if i < self.begin || i - self.begin >= self.items.len() {
            self.begin = i;
            self.items = obligations.obligations_from(i);
        }
        &self.items[i - self.begin]
    }
}

/// The places of the obligations that match, but for the one that is left out.
fn places_of<R: Reach>(
    alloc: Global,
    obligations: &Obligations,
    event: &Event,
    reach: &mut R,
    left_out: Option<u32>,
) -> Result<PositionList, Memory>
    requires patterns { ArePatternsLive (R.relation reach.old) obligations.now.items }
    requires event { IsEventLive (R.relation reach.old) event.now }
    ensures places { IfOk result (λ places. StandAt obligations.now.items places (matching (R.relation reach.old).below (without left_out obligations.now.items) event.now)) }
    ensures below { IfOk result (λ places. All (λ place. place < length obligations.now.items) places) }
    ensures few { IfOk result (λ places. length places ≤ max_obligations) }
    ensures free { matching (R.relation reach.old).below (without left_out obligations.now.items) event.now ≡ [] → IsOk result }
    ensures same { R.relation reach.new ≡ R.relation reach.old }
{
    if !may_match(obligations, event, reach) {
        return Ok(PositionList::new(alloc));
    }
    let mut places = PositionList::new(alloc);
    let mut last = LastRun::none();
    for i in 0..obligations.len() {
        if is_at(left_out, i) {
            continue;
        }
        let obligation = last.at(obligations, i);
        if matches(&obligation.pattern, event, reach) {
            places.push(i as u32)?;
        }
    }
    Ok(places)
}

/// The places of the obligations that match the event, in order of creation.
///
/// Where none may match by operations and targets, no obligation is looked at. Else each costs what its pattern does.
/// Memory is taken only for the list of places, and none where no obligation matches.
pub fn matching<R: Reach>(
    alloc: Global,
    obligations: &Obligations,
    event: &Event,
    reach: &mut R,
) -> Result<PositionList, Memory>
    requires patterns { ArePatternsLive (R.relation reach.old) obligations.now.items }
    requires event { IsEventLive (R.relation reach.old) event.now }
    ensures places { IfOk result (λ places. StandAt obligations.now.items places (matching (R.relation reach.old).below obligations.now.items event.now)) }
    ensures below { IfOk result (λ places. All (λ place. place < length obligations.now.items) places) }
    ensures few { IfOk result (λ places. length places ≤ max_obligations) }
    ensures free { matching (R.relation reach.old).below obligations.now.items event.now ≡ [] → IsOk result }
    ensures same { R.relation reach.new ≡ R.relation reach.old }
{
    places_of(alloc, obligations, event, reach, None)
}

/// The places, in the whole list, of the obligations that match the event without the one at this place. Where none of
/// them does, no memory is taken.
pub fn matching_without<R: Reach>(
    alloc: Global,
    obligations: &Obligations,
    event: &Event,
    reach: &mut R,
    index: u32,
) -> Result<PositionList, Memory>
    requires patterns { ArePatternsLive (R.relation reach.old) obligations.now.items }
    requires event { IsEventLive (R.relation reach.old) event.now }
    ensures places { IfOk result (λ places. StandAt obligations.now.items places (matching (R.relation reach.old).below (remove obligations.now.items index) event.now)) }
    ensures below { IfOk result (λ places. All (λ place. place < length obligations.now.items) places) }
    ensures few { IfOk result (λ places. length places ≤ max_obligations) }
    ensures free { matching (R.relation reach.old).below (remove obligations.now.items index) event.now ≡ [] → IsOk result }
    ensures same { R.relation reach.new ≡ R.relation reach.old }
{
    places_of(alloc, obligations, event, reach, Some(index))
}

/// Whether the target is in one of the elements of the words.
fn is_in_some<R: Reach>(words: &[TargetWord], target: ElementId, reach: &mut R) -> bool
    requires { IsTrue ((R.relation reach.old).live target) }
    ensures outside { result ≡ false → (n : ℕ) → in_words words.now n ≡ true → (R.relation reach.old).below target n ≡ false }
    ensures same { R.relation reach.new ≡ R.relation reach.old }
{
    for word in words {
        let above = reach.above(target, word.number);
        if word.bits & above > 0 {
            return true;
        }
    }
    false
}

/// Whether the target is in one of those that the obligations of an operation give, or one of them gives none.
fn may_wait<R: Reach>(targets: &Targets, target: ElementId, reach: &mut R) -> bool
    requires { IsTrue ((R.relation reach.old).live target) }
    ensures outside { result ≡ false → (given : Option ℕ) → has_target targets.now given ≡ true → is_in_given (R.relation reach.old).below given target ≡ false }
    ensures same { R.relation reach.new ≡ R.relation reach.old }
{
    if targets.anywhere {
        return true;
    }
    is_in_some(targets.words.as_slice(), target, reach)
}

/// Whether an obligation may match the event, as far as operations and targets tell. No obligation is looked at.
fn may_match<R: Reach>(obligations: &Obligations, event: &Event, reach: &mut R) -> bool
    requires { IsEventLive (R.relation reach.old) event.now }
    ensures none { result ≡ false → matching (R.relation reach.old).below obligations.now.items event.now ≡ [] }
    ensures same { R.relation reach.new ≡ R.relation reach.old }
{
    match obligations.targets_of(event.operation) {
        Some(targets) => may_wait(targets, event.target, reach),
        None => false,
    }
}

/// Whether some obligation of a page matches the event.
fn any_among<R: Reach>(items: &[Obligation], event: &Event, reach: &mut R) -> bool
    requires patterns { ArePatternsLive (R.relation reach.old) items.now }
    requires event { IsEventLive (R.relation reach.old) event.now }
    ensures answer { result ≡ list_any (is_match (R.relation reach.old).below event.now) items.now }
    ensures same { R.relation reach.new ≡ R.relation reach.old }
{
    for item in items {
        if matches(&item.pattern, event, reach) {
            return true;
        }
    }
    false
}

/// Whether some obligation matches the event. Each is looked at, up to the first that does.
fn any_of<R: Reach>(obligations: &Obligations, event: &Event, reach: &mut R) -> bool
    requires patterns { ArePatternsLive (R.relation reach.old) obligations.now.items }
    requires event { IsEventLive (R.relation reach.old) event.now }
    ensures answer { result ≡ list_any (is_match (R.relation reach.old).below event.now) obligations.now.items }
    ensures same { R.relation reach.new ≡ R.relation reach.old }
{
    let mut begin = 0;
    while begin < obligations.len() {
        let run = obligations.obligations_from(begin);
        if any_among(run, event, reach) {
            return true;
        }
        begin += run.len();
    }
    false
}

/// Whether some obligation matches the event. It takes no memory, and ends at the first that does.
///
/// Where none waits for the operation, or the target is in none of those that they give, no obligation is looked at.
pub fn any_matches<R: Reach>(obligations: &Obligations, event: &Event, reach: &mut R) -> bool
    requires patterns { ArePatternsLive (R.relation reach.old) obligations.now.items }
    requires event { IsEventLive (R.relation reach.old) event.now }
    ensures answer { result ≡ nat_lt 0 (length (matching (R.relation reach.old).below obligations.now.items event.now)) }
    ensures same { R.relation reach.new ≡ R.relation reach.old }
{
    if !may_match(obligations, event, reach) {
        return false;
    }
    any_of(obligations, event, reach)
}

/// Where none of the obligations matches an event, none matches of those that one more is taken from.
#[tactic(auto, using(crate::proofs::Places::none_without))]
pub fn none_without()
    ensures { (below : ℕ → ℕ → Bool) (obligations : List Obligation) (event : Event) (index : ℕ) → matching below obligations event ≡ [] → matching below (remove obligations index) event ≡ [] }
{}
