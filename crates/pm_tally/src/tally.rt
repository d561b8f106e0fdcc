//! How large a machine is, and how much work its history was.

ghost use Rattle.std.specs.Prelude.{◌≡◌, ◌≤◌, length};
ghost use Rattle.pm_model.specs.Effect.{max_elements};
ghost use Rattle.pm_model.specs.History.{IsReplayed};
ghost use Rattle.pm_affect.specs.Counting.{Judged, Written, capped, work_in};

use pm_machine::Answerer;

/// A machine with one caller that tells how much work its history was.
pub trait Tally: Answerer {
    /// What each machine keeps: it is the replay of its history.
    fn replayed(&self)
        ensures { IsReplayed (Self.machine self.now) };

    /// How many elements are live.
    fn live(&self) -> u64
        ensures value { result ≡ length (Self.machine self.now).graph.elements }
        ensures most { result ≤ max_elements };

    /// How many rights it has judged for kept reviews, up to 2^64 - 1: for each change, of a request or of a response to it, one
    /// for each pair of a user and an element that lies in the region of the change and in the scope of a review that is kept
    /// then.
    fn asked(&self) -> u64
        ensures { result ≡ capped (work_in Judged (Self.machine self.now).history) };

    /// How many rows of containment it has written, up to 2^64 - 1: for each change, of a request or of a response to it, the row
    /// of an element that is made, once more where it is made in a container; and those of all that is contained in an element
    /// that is assigned, or whose assignment is taken away.
    fn written(&self) -> u64
        ensures { result ≡ capped (work_in Written (Self.machine self.now).history) };
}
