//! What a denial means: laws, with no program.
#![tactic(auto)]

ghost use Rattle.std.specs.Prelude.{◌≡◌, ◌↔◌, ℕ, List, Option, None, Some, Err};
ghost use Rattle.pm_model.specs.State.{State, Graph};
ghost use Rattle.pm_model.specs.Authority.{denial_in, ruling};
ghost use Rattle.pm_model.specs.Reviews.{review_ruling};
ghost use Rattle.pm_model.specs.Answer.{accessed, answer};
ghost use Rattle.pm_model.specs.Formed.{Each};
ghost use Rattle.pm_model.specs.declared.replies.Reason.{Reason};
ghost use Rattle.pm_model.specs.declared.replies.Refusal.{Refusal};
ghost use Rattle.pm_model.specs.declared.requests.Command.{Command};
ghost use Rattle.pm_model.specs.declared.requests.Question.{Question};
ghost use Rattle.pm_model.specs.declared.requests.Request.{Request};
ghost use Rattle.pm_denials.specs.Examples.{hospital, denials, causes, no_causes};
ghost use Rattle.pm_denials.specs.Reasons.{HasCause, IsSpared};
ghost use Rattle.pm_denials.specs.Told.{IsAskedByAccess, IsAskedByCommand, IsAskedByQuestion, TellsCause, NamesCause};

/// The reason for which a right on an element is denied holds.
#[tactic(auto, using(crate::proofs::Causes::denial_has_cause))]
pub fn denial_has_cause()
    ensures { (G : Graph) (u : ℕ) (q : Option ℕ) (r e : ℕ) (why : Reason) → denial_in G u q r e ≡ Some why → HasCause G u q r e why }
{}

/// A right on an element is denied for a reason exactly where the reason holds, and root is spared in
/// administration alone.
#[tactic(auto, using(crate::proofs::Causes::denied_exactly))]
pub fn denied_exactly()
    ensures { (G : Graph) (u : ℕ) (q : Option ℕ) (r e : ℕ) (why : Reason) → (denial_in G u q r e ≡ Some why) ↔ ((IsSpared u r → ⊥) × HasCause G u q r e why) }
{}

/// An access that is denied is denied the right that it names on the target, for a reason that holds.
#[tactic(auto, using(crate::proofs::Causes::access_denied_names_cause))]
pub fn access_denied_names_cause()
    ensures { (G : Graph) (u q : ℕ) (right target : List ℕ) (why : Refusal) → accessed G u q right target ≡ Err why → TellsCause G u (Some q) (IsAskedByAccess G right target) why }
{}

/// A command that is denied is denied a right that it asks for, for a reason that holds.
#[tactic(auto, using(crate::proofs::Causes::command_denied_names_cause))]
pub fn command_denied_names_cause()
    ensures { (G : Graph) (u : ℕ) (q : Option ℕ) (c : Command) (why : Refusal) → ruling G u q c ≡ Err why → TellsCause G u q (IsAskedByCommand G u c) why }
{}

/// A review that is denied is denied a right that it asks for, for a reason that holds.
#[tactic(auto, using(crate::proofs::Causes::review_denied_names_cause))]
pub fn review_denied_names_cause()
    ensures { (G : Graph) (u : ℕ) (q : Option ℕ) (question : Question) (why : Refusal) → review_ruling G u q question ≡ Err why → TellsCause G u q (IsAskedByQuestion G question) why }
{}

/// Every denial that a reply tells names its cause: whatever the state and the request, what is denied is a right that was
/// asked for on the target, by the request or by an obligation's action that responds to it, and the reason holds.
#[tactic(auto, using(crate::proofs::Replies::every_denial_names_its_cause))]
pub fn every_denial_names_its_cause()
    ensures { (S : State) (r : Request) → NamesCause S r.body (answer S r).reply }
{}

/// Requests of a small hospital, and the denials that are told.
#[tactic(auto, using(crate::proofs::Computed::examples_denied))]
pub fn examples_denied()
    ensures { Each (λ row. (answer (record { graph = hospital; version = 0 }) (record { after = None; body = row.0 })).reply ≡ row.1) denials }
{}

/// Reasons that hold there.
#[tactic(auto, using(crate::proofs::Computed::examples_caused))]
pub fn examples_caused()
    ensures { Each (λ row. HasCause hospital 6 (Some 1) row.0 row.1 row.2) causes }
{}

/// Reasons that don't.
#[tactic(auto, using(crate::proofs::Computed::examples_uncaused))]
pub fn examples_uncaused()
    ensures { Each (λ row. HasCause hospital 6 (Some 1) row.0 row.1 row.2 → ⊥) no_causes }
{}
