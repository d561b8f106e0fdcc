//! What a run of responses asks of a machine.

ghost use Rattle.std.specs.Prelude.{◌≡◌, ◌+◌, ◌||◌, ℕ, Bool, List, OnOk, IfErr, Ok};
ghost use Rattle.pm_model.specs.State.{Graph};
ghost use Rattle.pm_model.specs.declared.requests.Entry.{Entry};
ghost use Rattle.pm_affect.specs.Counting.{Work, capped};
ghost use Rattle.pm_runner.specs.Turns.{Occasion, IsTurn, acted_at, work_acted_at};
ghost use Rattle.pm_runner.specs.Outcomes.{IsLeft, IsRefusal, wants_memory};

use crate::errors::ActError;
use pm_model::Place;

/// A machine that is in the midst of responding to an event.
pub trait Acts {
    /// What it responds to.
    ghost occasion: { Self → Occasion };

    /// The graph as it is now.
    ghost graph: { Self → Graph };

    /// The history that led to it, which no action makes longer.
    ghost history: { Self → List Entry };

    /// How much work it has done, each count up to 2^64 - 1.
    ghost done: { Self → Work → ℕ };

    /// Whether memory was wanting for an action.
    ghost short: { Self → Bool };

    /// Does the action at the place, whose turn it is, by the authority of its obligation's author; where a guard
    /// fails there is nothing to do. The place counts among the obligations of the occasion. Where it is refused the
    /// graph is as before; after want of memory it is so, or the action is done.
    fn act(&mut self, place: Place) -> Result<(), ActError>
        requires { IsTurn (occasion self.old) (graph self.old) place }
        ensures ok { OnOk result (acted_at (occasion self.old) (graph self.old) place ≡ Ok (graph self.new)) }
        ensures refused { IfErr result (IsRefusal (acted_at (occasion self.old) (graph self.old) place)) }
        ensures same { occasion self.new ≡ occasion self.old }
        ensures history { history self.new ≡ history self.old }
        ensures done { (w : Work) → OnOk result (capped (done self.new w) ≡ capped (done self.old w + work_acted_at w (occasion self.old) (graph self.old) place)) }
        ensures short { short self.new ≡ (short self.old || wants_memory result) }
        ensures err { IfErr result (IsLeft (graph self.old) (graph self.new) (acted_at (occasion self.old) (graph self.old) place)) };
}
