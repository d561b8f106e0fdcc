//! What the definitions of the graph say of one another: laws, with no program.
#![tactic(auto)]

ghost use Rattle.std.specs.Prelude.{◌≡◌, ◌↔◌, ◌≤◌, ◌<◌, ◌+◌, ◌⊎◌, ℕ, List, Contains, [], ◌∷◌, length, Option, Some, IsSome, slice_get, None, Ok, Err, is_some, true, false};
ghost use Rattle.std.specs.List.{list_any};
ghost use Rattle.pm_model.specs.State.{State, Graph, root, opening, element_at, number_named, classes_in};
ghost use Rattle.pm_model.specs.Sessions.{user_of};
ghost use Rattle.pm_model.specs.Containment.{contained, IsContained};
ghost use Rattle.pm_model.specs.Decision.{privilege, forbids};
ghost use Rattle.pm_model.specs.Results.{and_then};
ghost use Rattle.pm_model.specs.KeptReviews.{KeptReview, kept_at, new_review, subject, unkept};
ghost use Rattle.pm_model.specs.LastChanges.{changes_at, changes_between, with_changes};
ghost use Rattle.pm_model.specs.Effect.{changed, effect};
ghost use Rattle.pm_model.specs.Resolve.{resolve};
ghost use Rattle.pm_model.specs.Answer.{answer, after, told, entered, granted};
ghost use Rattle.pm_model.specs.Events.{obliging, responders};
ghost use Rattle.pm_model.specs.Responses.{all_hold, fresh_name, bound, acted, responses};
ghost use Rattle.pm_model.specs.History.{IsLegal, replay};
ghost use Rattle.pm_model.specs.Lines.{events};
ghost use Rattle.pm_model.specs.Recorded.{history_after, recorded_solo};
ghost use Rattle.pm_model.specs.Solo.{solo};
ghost use Rattle.pm_model.specs.Authority.{is_administrative, denial_in, subjects_of, required, ruling};
ghost use Rattle.pm_model.specs.Reviews.{numbers_in, users_in, review_ruling};
ghost use Rattle.pm_model.specs.RightSet.{is_access_right};
ghost use Rattle.pm_model.specs.Nameable.{IsNameable};
ghost use Rattle.pm_model.specs.Formed.{Each, IsLive, IsUser, HasNext, IsWellFormed, IsNamed};
ghost use Rattle.pm_model.specs.declared.elements.Element.{Element};
ghost use Rattle.pm_model.specs.declared.obligations.Obligation.{Obligation};
ghost use Rattle.pm_model.specs.declared.obligations.Place.{Place};
ghost use Rattle.pm_model.specs.declared.actions.Action.{Action};
ghost use Rattle.pm_model.specs.declared.events.Event.{Event};
ghost use Rattle.pm_model.specs.declared.events.EventNames.{EventNames};
ghost use Rattle.pm_model.specs.declared.requests.Change.{Change};
ghost use Rattle.pm_model.specs.declared.requests.Change.TheVariants.{CloseSession, Delete, Keep, DropReview};
ghost use Rattle.pm_model.specs.declared.replies.Refusal.TheVariants.{InUse};
ghost use Rattle.pm_model.specs.declared.replies.Reply.TheVariants.{Granted};
ghost use Rattle.pm_model.specs.declared.requests.Command.{Command};
ghost use Rattle.pm_model.specs.declared.requests.Entry.{Entry};
ghost use Rattle.pm_model.specs.declared.requests.Request.{Request};
ghost use Rattle.pm_model.specs.declared.requests.Question.{Question};
ghost use Rattle.pm_model.specs.declared.requests.Review.{Review};
ghost use Rattle.pm_model.specs.declared.requests.Body.TheVariants as body;
ghost use Rattle.pm_model.specs.declared.reviews.Changed.{Changed};
ghost use Rattle.pm_model.specs.declared.reviews.Pair.{Pair};
ghost use Rattle.pm_model.specs.declared.reviews.ReviewOf.{ReviewOf};
ghost use Rattle.pm_model.specs.declared.sessions.Session.{Session};
ghost use Rattle.pm_model.specs.declared.sessions.Process.{Process};
ghost use Rattle.pm_laws.specs.Examples.{staffed, held, made, refused, refused_at_work, refused_at_watch, watching, watch, refused_at_review, keeping, of_ann, of_chart, in_use, wards, ruled, unformed};
ghost use Rattle.pm_laws.specs.Meaning.{IsMatched, IsJoined, IsPartialOrder, IsInClass, IsNumberOf, ActsFor, ActsForOne, IsGone, GiveNext, AreAlike, TellLast, IsReached, TellsOnce};

/// What a change makes of a well formed graph is well formed.
pub fn formed_effect()
    ensures { (G H : Graph) (c : Change) → IsWellFormed G → IsNamed G c → effect G c ≡ Ok H → IsWellFormed H }
{}

/// The graph at the start is well formed.
pub fn formed_opening()
    ensures { IsWellFormed opening.graph }
{}

/// What a user's command names is live, once its names are found, and what it is to make has the next number.
pub fn resolve_named()
    ensures { (G : Graph) (u : ℕ) (c : Command) (d : Change) → IsUser G.elements u → resolve G u c ≡ Ok d → IsNamed G d }
{}

/// A user's command on a well formed graph, once its names are found and none of its preconditions
/// refuses it, gives a well formed graph.
pub fn formed_administered()
    ensures { (G H : Graph) (u : ℕ) (c : Command) → IsWellFormed G → IsUser G.elements u → and_then (resolve G u c) (effect G) ≡ Ok H → IsWellFormed H }
{}

/// The state after an answer is well formed, whatever the request, where there are numbers left for a
/// new session and a new process.
pub fn formed_answer()
    ensures { (S : State) (r : Request) → IsWellFormed S.graph → HasNext S.graph.procs.next_session → HasNext S.graph.procs.next_process → IsWellFormed (after S (answer S r)).graph }
{}

/// A name is looked up as the number of the one element that has it.
pub fn number_of_name()
    ensures { (G : Graph) (name : List ℕ) (n : ℕ) → IsWellFormed G → (number_named G.elements name ≡ Some n) ↔ IsNumberOf G n name }
{}

/// Each element that an answer's reply tells is live in the state after the answer.
#[tactic(auto, using(crate::proofs::Nameable::answer_nameable))]
pub fn answer_nameable()
    ensures { (S : State) (r : Request) → IsWellFormed S.graph → IsNameable (λ n. is_some (element_at (after S (answer S r)).graph.elements n)) (answer S r).reply }
{}

/// The elements and the users that a review of a well formed graph asks about are live.
#[tactic(auto, using(crate::proofs::Reviewed::elements_live, crate::proofs::Reviewed::users_live))]
pub fn numbers_live()
    ensures elements { (G : Graph) → IsWellFormed G → Each (IsLive G.elements) (numbers_in G.elements) }
    ensures users { (G : Graph) → IsWellFormed G → Each (IsLive G.elements) (users_in G.elements) }
{}

/// What a review that is allowed is of is live.
#[tactic(auto, using(crate::proofs::Reviewed::review_of_live))]
pub fn review_of_live()
    ensures { (G : Graph) (u : ℕ) (q : Option ℕ) (question : Question) (r : Review) → IsWellFormed G → review_ruling G u q question ≡ Ok r → Each (IsLive G.elements) (subjects_of r) }
{}

/// A review is no entry, whatever its answer: it leaves the state.
#[tactic(auto, using(crate::proofs::Reviewed::review_is_no_entry))]
pub fn review_is_no_entry()
    ensures { (S : State) (after : Option ℕ) (q : ℕ) (question : Question) → (answer S (record { after = after; body = body.Review q question })).next ≡ None }
{}

/// An assignment joins live elements, of kinds that may be assigned.
#[tactic(auto, using(crate::proofs::Standard::assignment_is_joined))]
pub fn assignment_is_joined()
    ensures { (G : Graph) (x y : ℕ) → IsWellFormed G → Contains G.assigned (x, y) → IsJoined G x y }
{}

/// Containment is reflexive and transitive, and where each of two is contained in the other they are one.
#[tactic(auto, using(crate::proofs::Standard::containment_is_partial_order))]
pub fn containment_is_partial_order()
    ensures { (G : Graph) → IsWellFormed G → IsPartialOrder (IsContained G.assigned) }
{}

/// Each element is contained in a policy class.
#[tactic(auto, using(crate::proofs::Standard::element_is_in_class))]
pub fn element_is_in_class()
    ensures { (G : Graph) (e : Element) → IsWellFormed G → Contains G.elements e → IsInClass G e }
{}

/// The one for whom a process acts is a live user.
pub fn process_acts_for_user()
    ensures { (G : Graph) (p u : ℕ) → IsWellFormed G → user_of G.procs p ≡ Some u → IsUser G.elements u }
{}

/// The author of an obligation is a live user.
#[tactic(auto, using(crate::proofs::Live::author_is))]
pub fn author_is_user()
    ensures { (G : Graph) (o : Obligation) → IsWellFormed G → Contains G.obligations o → IsUser G.elements o.author }
{}

/// Each process acts for one user, and that is a live user.
#[tactic(auto, using(crate::proofs::Acting::process_acts_for_one_user))]
pub fn process_acts_for_one_user()
    ensures { (G : Graph) (p : Process) → IsWellFormed G → Contains G.procs.processes p → (u : ℕ) × (user_of G.procs p.number ≡ Some u) × ActsForOne G p.number u }
{}

/// The user of a process is looked up as the user of the session that it is of.
pub fn user_acted_for()
    ensures { (G : Graph) (n u : ℕ) → IsWellFormed G → (user_of G.procs n ≡ Some u) ↔ ActsFor G n u }
{}

/// A session's close leaves neither it, nor a process of it, nor a prohibition on one.
#[tactic(auto, using(crate::proofs::Acting::closed_session_is_gone))]
pub fn closed_session_is_gone()
    ensures { (G : Graph) (n : ℕ) → IsGone G (changed G (CloseSession n)) n }
{}

/// What a change opens or starts has the next number, and the next number only rises.
pub fn numbers_given()
    ensures { (G H : Graph) (c : Change) → effect G c ≡ Ok H → GiveNext G H }
{}

/// A change gives at most one number of a session and one of a process.
pub fn next_numbers()
    ensures { (G H : Graph) (c : Change) → effect G c ≡ Ok H → (H.procs.next_session ≤ G.procs.next_session + 1) × (H.procs.next_process ≤ G.procs.next_process + 1) }
{}

/// The number of each session and process is below the next one, which so was never given.
pub fn numbers_below()
    ensures { (G : Graph) → IsWellFormed G → Each (λ (s : Session). s.number < G.procs.next_session) G.procs.sessions × Each (λ (p : Process). p.number < G.procs.next_process) G.procs.processes }
{}

/// A right on an element is allowed exactly where the user is root and the right administrative, or the
/// user has the privilege, and no prohibition applies to the user or the process and covers the right on
/// the element.
#[tactic(auto, using(crate::proofs::Granted::allowed_exactly))]
pub fn allowed_exactly()
    ensures { (G : Graph) (u : ℕ) (q : Option ℕ) (r e : ℕ) → (denial_in G u q r e ≡ None) ↔ (((u ≡ root) × (is_administrative r ≡ true)) ⊎ ((privilege (contained G.assigned) G.associations (classes_in G.elements) u r e ≡ true) × (list_any (forbids (contained G.assigned) u q r e) G.prohibitions ≡ false))) }
{}

/// A command is allowed as the change that its names resolve to, exactly where each capability that the
/// change asks for is allowed to the user and the process.
#[tactic(auto, using(crate::proofs::Authority::ruled_exactly))]
pub fn ruled_exactly()
    ensures { (G : Graph) (u : ℕ) (q : Option ℕ) (c : Command) (d : Change) → (ruling G u q c ≡ Ok d) ↔ ((resolve G u c ≡ Ok d) × Each (λ (c : ℕ × ℕ). denial_in G u q c.0 c.1 ≡ None) (required G d)) }
{}

/// What a command that is allowed to a user names is live, and what it is to make has the next number.
pub fn ruling_named()
    ensures { (G : Graph) (u : ℕ) (q : Option ℕ) (c : Command) (d : Change) → IsUser G.elements u → ruling G u q c ≡ Ok d → IsNamed G d }
{}

/// The root user is denied no command whose names are found.
pub fn root_may_all()
    ensures { (G : Graph) (q : Option ℕ) (c : Command) (d : Change) → resolve G root c ≡ Ok d → ruling G root q c ≡ Ok d }
{}

/// Each command asks for at least one capability.
#[tactic(auto, using(crate::proofs::Asking::command_asks))]
pub fn command_asks()
    ensures { (G : Graph) (u : ℕ) (c : Command) (d : Change) → resolve G u c ≡ Ok d → 0 < length (required G d) }
{}

/// Each element on which a change asks for a right is live.
pub fn required_live()
    ensures { (G : Graph) (d : Change) → IsWellFormed G → IsNamed G d → Each (λ (c : ℕ × ℕ). IsLive G.elements c.1) (required G d) }
{}

/// Each right that a change asks for is administrative and has a name.
pub fn required_rights()
    ensures administrative { (G : Graph) (d : Change) → Each (λ (c : ℕ × ℕ). is_administrative c.0 ≡ true) (required G d) }
    ensures named { (G : Graph) (d : Change) → IsWellFormed G → Each (λ (c : ℕ × ℕ). IsSome (slice_get G.rights c.0)) (required G d) }
{}

/// An access is granted exactly where the user has the privilege, and no prohibition applies to the
/// user or the process and covers the right on the target.
#[tactic(auto, using(crate::proofs::Granted::granted_exactly))]
pub fn granted_exactly()
    ensures { (G : Graph) (u q r e : ℕ) → is_access_right r ≡ true → (denial_in G u (Some q) r e ≡ None) ↔ ((privilege (contained G.assigned) G.associations (classes_in G.elements) u r e ≡ true) × (list_any (forbids (contained G.assigned) u (Some q) r e) G.prohibitions ≡ false)) }
{}

/// An obligation responds to an event exactly where it may respond and its pattern matches: in the
/// operation, in the user and in the target.
pub fn responders_match()
    ensures { (G : Graph) (obligations : List Obligation) (e : Event) (o : Obligation) → Contains (responders G obligations (Some e)) o ↔ (Contains obligations o × IsMatched G o.pattern e) }
{}

/// An action whose guards hold is done exactly where its command is allowed to the author with no
/// process, and takes its effect.
pub fn responses_by_author()
    ensures { (names : EventNames) (version : ℕ) (G H : Graph) (author : ℕ) (place : Place) (a : Action) → all_hold G names (fresh_name place version) a.guards ≡ Ok true → (acted names version G author place a ≡ Ok H) ↔ ((d : Change) × (ruling G author None (bound names place version a.act) ≡ Ok d) × (effect G d ≡ Ok H)) }
{}

/// Where no obligation responds, a change is entered as if it raised no event, and an access is granted
/// with no entry.
#[tactic(auto, using(crate::proofs::Bodies::nothing_responds_to_change, crate::proofs::Bodies::nothing_responds_to_access))]
pub fn nothing_responds()
    ensures changed { (S : State) (e : Option Event) (c : Change) → responders S.graph (obliging S.graph c) e ≡ [] → entered S e c ≡ entered S None c }
    ensures granted { (S : State) (e : Event) → responders S.graph S.graph.obligations (Some e) ≡ [] → granted S e ≡ told (Granted 0) }
{}

/// Responses neither oblige nor withdraw.
#[tactic(auto, using(crate::proofs::Responding::responses_keep_obligations))]
pub fn responses_keep_obligations()
    ensures { (names : EventNames) (version : ℕ) (G H : Graph) (obligations : List Obligation) → responses names version G obligations ≡ Ok H → H.obligations ≡ G.obligations }
{}

/// Responses neither keep a review nor drop one.
#[tactic(auto, using(crate::proofs::Responding::responses_keep_reviews))]
pub fn responses_keep_reviews()
    ensures { (names : EventNames) (version : ℕ) (G H : Graph) (obligations : List Obligation) → responses names version G obligations ≡ Ok H → H.kept ≡ G.kept }
{}

/// Each kept review is found by its number, which is below 256, and what it is of is live.
pub fn kept_reviews_stand()
    ensures found { (G : Graph) (k : KeptReview) → IsWellFormed G → Contains G.kept k → kept_at G.kept k.number ≡ Some k }
    ensures stands { (G : Graph) (n : ℕ) (k : KeptReview) → IsWellFormed G → kept_at G.kept n ≡ Some k → (k.number ≡ n) × (n < 256) × IsLive G.elements (subject k.of) }
{}

/// A review takes a number below 256 that no kept review has, and is found by it. Once it is dropped the number finds none.
pub fn numbers_of_reviews()
    ensures kept { (G H : Graph) (of : ReviewOf ℕ) → IsWellFormed G → effect G (Keep of) ≡ Ok H → (unkept G.kept < 256) × (kept_at G.kept (unkept G.kept) ≡ None) × (kept_at H.kept (unkept G.kept) ≡ Some (new_review (unkept G.kept) of)) }
    ensures dropped { (G H : Graph) (n : ℕ) → effect G (DropReview n) ≡ Ok H → kept_at H.kept n ≡ None }
{}

/// An entry tells of each review that was kept before what it has changed in its list, where it has changed something.
pub fn last_changes_told()
    ensures { (S T : State) (r : Request) → IsWellFormed S.graph → (answer S r).next ≡ Some T → TellLast S T }
{}

/// An entry tells no last change where no review was kept before it, and where it leaves the elements, the assignments, the
/// associations and the prohibitions as they are.
#[tactic(auto, using(crate::proofs::KeptReviews::with_changes_none, crate::proofs::LastChanges::with_changes_alike))]
pub fn nothing_changed()
    ensures unkept { (G H : Graph) (version : ℕ) → G.kept ≡ [] → with_changes G version H ≡ H }
    ensures alike { (G H : Graph) (version : ℕ) → AreAlike G H → with_changes G version H ≡ H }
{}

/// A change that is told between two lists is that of some number, and none is left out.
pub fn changes_told()
    ensures { (was is : ℕ → List ℕ) (old new : List Pair) (c : Changed) → Contains (changes_between was is old new) c ↔ ((n : ℕ) × Contains (changes_at was is old new n) c) }
{}

/// Changes of small graphs, and what they make.
#[tactic(auto, using(crate::proofs::Computed::examples_made))]
pub fn examples_made()
    ensures { Each (λ row. IsNamed row.0 row.1 × (effect row.0 row.1 ≡ Ok row.2)) made }
{}

/// Changes of small graphs, and why they are refused.
#[tactic(auto, using(crate::proofs::Computed::examples_refused, crate::proofs::Computed::examples_refused_at_work, crate::proofs::Computed::examples_refused_at_watch, crate::proofs::Computed::examples_refused_at_review, crate::proofs::Computed::examples_in_use))]
pub fn examples_refused()
    ensures staffed { Each (λ row. effect staffed row.0 ≡ Err row.1) refused }
    ensures at_work { Each (λ row. effect held row.0 ≡ Err row.1) refused_at_work }
    ensures at_watch { Each (λ row. effect (watching (watch ∷ [])) row.0 ≡ Err row.1) refused_at_watch }
    ensures at_review { Each (λ row. effect (keeping (of_ann ∷ of_chart ∷ [])) row.0 ≡ Err row.1) refused_at_review }
    ensures in_use { Each (λ G. effect G (Delete 4) ≡ Err InUse) in_use }
{}

/// Commands of a delegate and of root, and whether each is allowed.
#[tactic(auto, using(crate::proofs::Computed::examples_ruled))]
pub fn examples_ruled()
    ensures { Each (λ row. ruling wards row.0 row.1 row.2 ≡ row.3) ruled }
{}

/// Small graphs that aren't well formed.
#[tactic(auto, using(crate::proofs::Computed::examples_unformed))]
pub fn examples_unformed()
    ensures { Each (λ G. IsWellFormed G → ⊥) unformed }
{}

/// The replay of a legal history is well formed. Its version is the number of entries, of which there are
/// at most 262,144, and bounds the numbers given to sessions and to processes.
#[tactic(auto, using(crate::proofs::Replayed::legal_history))]
pub fn legal_history()
    ensures { (H : List Entry) → IsLegal H → IsReached H (replay H) }
{}

/// One caller gets the same replies whether each is that of the state so far, or that of the replay of
/// the entries so far; and these are a legal history.
#[tactic(auto, using(crate::proofs::Recorded::one_caller_replies, crate::proofs::Recorded::one_caller_history))]
pub fn one_caller()
    ensures replies { (bytes : List ℕ) → recorded_solo bytes ≡ solo bytes }
    ensures history { (bytes : List ℕ) → IsLegal (history_after [] (events bytes)) }
{}

/// No number of a session or of a process is told twice: of two replies to entries of a history that
/// tell one, the later tells the higher.
pub fn tells_once()
    ensures { (H : List Entry) → TellsOnce H }
{}
