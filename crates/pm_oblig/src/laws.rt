//! Worked examples of responses, by computation.

ghost use Rattle.std.specs.Prelude.{◌≡◌, ◌++◌, ◌∷◌, [], Ok, Err};
ghost use Rattle.pm_model.specs.Containment.{contained};
ghost use Rattle.pm_model.specs.Obligations.{matching};
ghost use Rattle.pm_model.specs.Responses.{responses};
ghost use Rattle.pm_oblig.specs.Worked.{office, reading, reading_names, obligations, keeps_track, bars_writing, acts_for_ann, office_after, stopped};

/// Of three obligations two match, and do what they say; a fourth, behind them, is stopped since its author may not do
/// what it says.
#[tactic(auto, using(crate::proofs::Computed::two_match, crate::proofs::Computed::two_respond, crate::proofs::Computed::third_is_stopped))]
pub fn responses_computed()
    ensures matching { matching (contained office.assigned) obligations reading ≡ keeps_track ∷ bars_writing ∷ [] }
    ensures done { responses reading_names 7 office (keeps_track ∷ bars_writing ∷ []) ≡ Ok office_after }
    ensures stopped { responses reading_names 7 office (keeps_track ∷ bars_writing ∷ acts_for_ann ∷ []) ≡ Err stopped }
{}
