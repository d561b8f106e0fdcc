//! Which events match a pattern, over whatever keeps containment.
#![tactic(auto)]

ghost use Rattle.std.specs.Prelude.{◌≡◌, IsTrue};
ghost use Rattle.pm_model.specs.Obligations.{is_in_given, matches};
ghost use Rattle.pm_pattern.specs.Live.{IsGivenLive, IsPatternLive, IsEventLive};

use pm_model::{ElementId, Event, Pattern, Reach};

/// Whether the element is in the one that is given, where one is.
fn is_in_given<R: Reach>(reach: &mut R, given: Option<ElementId>, element: ElementId) -> bool
    requires given { IsGivenLive (R.relation reach.old) given }
    requires element { IsTrue ((R.relation reach.old).live element) }
    ensures answer { result ≡ is_in_given (R.relation reach.old).below given element }
    ensures same { R.relation reach.new ≡ R.relation reach.old }
{
    match given {
        None => true,
        Some(container) => reach.contains(element, container),
    }
}

/// Whether the event is one that the pattern waits for: its operation is the pattern's, its user is in the user or
/// user attribute that the pattern gives, if it gives one, and its target is in the target that the pattern gives, if
/// it gives one.
///
/// Takes no memory. It costs at most two questions of containment, and none where the operation is another one.
pub fn matches<R: Reach>(pattern: &Pattern, event: &Event, reach: &mut R) -> bool
    requires pattern { IsPatternLive (R.relation reach.old) pattern.now }
    requires event { IsEventLive (R.relation reach.old) event.now }
    ensures answer { result ≡ matches (R.relation reach.old).below pattern.now event.now }
    ensures same { R.relation reach.new ≡ R.relation reach.old }
{
    pattern.on == event.operation
        && is_in_given(reach, pattern.user, event.user)
        && is_in_given(reach, pattern.target, event.target)
}
