//! The rule of the hand-off, over what the queue holds and what each end knows, and the steps under it.

use crossbeam_queue::protocol::{Join, Lesson, Outcome, Protocol, Split};
use std::collections::LinkedList;

/// What tells its number.
pub trait Numbered {
    ghost use Rattle.std.specs.Prelude.{ℕ, ◌≡◌};

    ghost number: { Self → ℕ };

    /// The number, which stays the same as long as it waits to be taken.
    fn number(&self) -> u64
        ensures { result ≡ number self.now };
}

/// What an end knows: whether it gives, whether it takes, and numbers that were given and taken, in order. The end
/// that gives knows all that were given, the end that takes all that were taken; of the rest they know the first
/// ones. No value of it is made.
pub struct Known {
    pub gives: bool,
    pub takes: bool,
    pub given: LinkedList<u64>,
    pub taken: LinkedList<u64>,
}

/// The rule: what was given is what was taken and then what waits, in order.
pub struct InOrder;

impl<T: Numbered> Protocol<T, Known> for InOrder {
    ghost use Rattle.std.specs.Prelude.{true, [], map};
    ghost use Rattle.pm_handoff.specs.Rule.{known, IsInOrder};

    ghost holds = { λ items views. IsInOrder (map T.number items) views };

    ghost first = { known true true [] [] };
}

/// One end becomes two: the first gives, the second takes.
pub(crate) struct TwoEnds;

impl Split<Known> for TwoEnds {
    ghost use Rattle.std.specs.Prelude.{true, false};
    ghost use Rattle.pm_handoff.specs.Rule.{known};

    ghost left = { λ v. known true false v.given v.taken };

    ghost right = { λ v. known false true v.given v.taken };
}

/// The end that gives takes in what the one that takes knows.
impl Join<Known> for TwoEnds {
    ghost use Rattle.std.specs.Prelude.{true, false, []};
    ghost use Rattle.pm_handoff.specs.Rule.{known};

    ghost both = { λ v w. known true true v.given w.taken };

    ghost spent = { known false false [] [] };
}

/// An end that neither gives nor takes is made beside another one.
pub(crate) struct Spare;

impl Split<Known> for Spare {
    ghost use Rattle.std.specs.Prelude.{false, []};
    ghost use Rattle.pm_handoff.specs.Rule.{known};

    ghost left = { λ v. v };

    ghost right = { λ v. known false false [] [] };
}

/// Give: the number goes to the back. Or it was found full.
pub(crate) struct Give;

impl<T: Numbered> Outcome<T, Known> for Give {
    ghost use Rattle.std.specs.Prelude.{◌≡◌, ◌++◌, ◌∷◌, []};
    ghost use Rattle.pm_handoff.specs.Rule.{known};

    ghost then = { λ v x w. w ≡ known v.gives v.takes (v.given ++ T.number x ∷ []) v.taken };
}

impl<T: Numbered> Lesson<T, Known> for Give {
    ghost use Rattle.std.specs.Prelude.{map};
    ghost use Rattle.pm_handoff.specs.Rule.{GiverSees};

    ghost fact = { λ v items. GiverSees v.given v.taken (map T.number items) };
}

/// Take: the front leaves. Or it was found empty.
pub(crate) struct Take;

impl<T: Numbered> Outcome<T, Known> for Take {
    ghost use Rattle.std.specs.Prelude.{◌≡◌, ◌++◌, ◌∷◌, []};
    ghost use Rattle.pm_handoff.specs.Rule.{known};

    ghost then = { λ v x w. w ≡ known v.gives v.takes v.given (v.taken ++ T.number x ∷ []) };
}

impl<T: Numbered> Lesson<T, Known> for Take {
    ghost use Rattle.std.specs.Prelude.{map};
    ghost use Rattle.pm_handoff.specs.Rule.{TakerSees};

    ghost fact = { λ v items. TakerSees v.given v.taken (map T.number items) };
}

/// Both ends in one: what was given is what was taken and then what waits.
pub(crate) struct Compare;

impl<T: Numbered> Lesson<T, Known> for Compare {
    ghost use Rattle.std.specs.Prelude.{◌≡◌, ◌++◌, map};

    ghost fact = { λ v items. v.given ≡ v.taken ++ map T.number items };
}
