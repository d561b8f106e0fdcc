//! What the region of a change leaves as it is, and what is judged again.

ghost use Rattle.std.specs.Prelude.{◌≡◌, ℕ, List, [], ◌∷◌, ◌++◌, Bool, true, false, None, Some, Ok, Contains, codes, IsTrue, is_some, length, map, ◌+◌, ◌*◌, ◌^◌, ◌≤◌, ◌↔◌};
ghost use Rattle.std.specs.List.{list_any};
ghost use Rattle.pm_model.specs.Containment.{Relation, contained};
ghost use Rattle.pm_model.specs.Decision.{Judgement};
ghost use Rattle.pm_model.specs.Effect.{effect};
ghost use Rattle.pm_model.specs.Formed.{StandOnce, IsLive, IsWellFormed, IsNamed};
ghost use Rattle.pm_model.specs.History.{replay};
ghost use Rattle.pm_model.specs.KeptReviews.{is_kept_of};
ghost use Rattle.pm_model.specs.Reviews.{list_of, numbers_in, rights_in, users_in};
ghost use Rattle.pm_model.specs.State.{Graph};
ghost use Rattle.pm_model.specs.declared.elements.Kind.{Kind};
ghost use Rattle.pm_model.specs.declared.requests.Change.{Change};
ghost use Rattle.pm_model.specs.declared.requests.Entry.{Entry};
ghost use Rattle.pm_model.specs.declared.reviews.ReviewOf.{ReviewOf};
ghost use Rattle.pm_affect.specs.Affected.{is_in, region, region_after, region_of};
ghost use Rattle.pm_affect.specs.Counting.{Work, judged_for, rows_for, work_by, work_in};
ghost use Rattle.pm_affect.specs.Example.{count, graph, hold};
ghost use Rattle.pm_affect.specs.Judged.{in_scope, judged};
ghost use Rattle.pm_affect.specs.Lists.{AreKept, IsInOrder, Lists, Rise, inserted, is_among, list_in, removed};
ghost use Rattle.pm_affect.specs.Live.{AreAsked, RegionLive};
ghost use Rattle.pm_affect.specs.Right.{AreAmong, AreGiven, AreLists, AreLive, AreRight, caps_anew, entries_anew};
ghost use Rattle.pm_affect.specs.declared.region.Region.{Region};
ghost use Rattle.pm_affect.specs.declared.region.Region.TheVariants.{Nothing, One, Under, Between};

/// A pair that lies outside the region of a change, and whose two are live before and after it, keeps its
/// rights.
#[tactic(auto, using(crate::proofs::Lemma::rights_outside))]
pub fn rights_outside()
    ensures { (G H : Graph) (c : Change) (u e : ℕ) → IsWellFormed G → IsNamed G c → effect G c ≡ Ok H → IsLive G.elements u → IsLive G.elements e → IsLive H.elements u → IsLive H.elements e → region G c u e ≡ false → rights_in H u e ≡ rights_in G u e }
{}

/// The region is the same whether containment is that before the change or that after it.
#[tactic(auto, using(crate::proofs::Lemma::region_kept))]
pub fn region_kept()
    ensures { (G H : Graph) (c : Change) (u e : ℕ) → IsWellFormed G → IsNamed G c → effect G c ≡ Ok H → region_after G H c u e ≡ region G c u e }
{}

/// Lists that were those of the graph before a change, and are of what is live after it, are right after it outside its
/// region: they are as `update` asks.
#[tactic(auto, using(crate::proofs::Before::lists_right))]
pub fn lists_right()
    ensures { (G H : Graph) (c : Change) → IsWellFormed G → IsNamed G c → effect G c ≡ Ok H → (L : Lists) → AreLists G L → AreLive H L → AreRight (contained H.assigned) (region_of G c) (rights_in H) (numbers_in H.elements) (users_in H.elements) L }
{}

/// So are lists that are the graph's already, whatever the region.
#[tactic(auto, using(crate::proofs::Before::made_right))]
pub fn made_right()
    ensures { (H : Graph) (below : ℕ → ℕ → Bool) (region : Region) (L : Lists) → AreLists H L → AreLive H L → AreRight below region (rights_in H) (numbers_in H.elements) (users_in H.elements) L }
{}

/// So are lists that are what other rights gave, where outside the region these are the rights.
#[tactic(auto, using(crate::proofs::Before::agreed_right))]
pub fn agreed_right()
    ensures { (below : ℕ → ℕ → Bool) (region : Region) (was rights : ℕ → ℕ → ℕ) (elements users : List ℕ) (L : Lists) → AreGiven was elements users L → AreAmong elements users L → ((u e : ℕ) → is_in below region u e ≡ false → rights u e ≡ was u e) → AreRight below region rights elements users L }
{}

/// Lists that `update` has left are what the rights give, and of the same users and elements.
#[tactic(auto, using(crate::proofs::Given::anew_given, crate::proofs::Given::anew_among))]
pub fn anew_given()
    ensures given { (rights : ℕ → ℕ → ℕ) (elements users : List ℕ) (L M : Lists) → M.caps ≡ map (caps_anew rights elements) L.caps → M.entries ≡ map (entries_anew rights users) L.entries → AreGiven rights elements users M }
    ensures among { (rights : ℕ → ℕ → ℕ) (elements users : List ℕ) (L M : Lists) → M.caps ≡ map (caps_anew rights elements) L.caps → M.entries ≡ map (entries_anew rights users) L.entries → AreAmong elements users L → AreAmong elements users M }
{}

/// Lists that are the graph's stay so where that of one review more is kept, and where one is kept no longer.
#[tactic(auto, using(crate::proofs::Given::lists_inserted, crate::proofs::Given::lists_removed))]
pub fn lists_stay()
    ensures inserted { (G : Graph) (L : Lists) (of : ReviewOf ℕ) → AreLists G L → AreLists G (inserted of (list_of G of) L) }
    ensures removed { (G : Graph) (L : Lists) (of : ReviewOf ℕ) → AreLists G L → AreLists G (removed of L) }
{}

/// What the region of a change names is live after it, so that `update` may ask about it.
#[tactic(auto, using(crate::proofs::Named::region_live))]
pub fn region_live()
    ensures { (G H : Graph) (c : Change) (relation : Relation) → IsWellFormed G → IsNamed G c → effect G c ≡ Ok H → ((n : ℕ) → IsLive H.elements n → IsTrue (relation.live n)) → RegionLive relation (region_of G c) }
{}

/// It is so before it where the change makes no element, so that `touches` may ask about it.
#[tactic(auto, using(crate::proofs::Named::region_named))]
pub fn region_named()
    ensures { (G : Graph) (c : Change) (relation : Relation) → IsWellFormed G → IsNamed G c → ((n : ℕ) → IsLive G.elements n → IsTrue (relation.live n)) → RegionLive relation (region_of G c) }
{}

/// Lists that are right outside a region, and have no pair of it in their scope, are what the rights give.
#[tactic(auto, using(crate::proofs::Untouched::caps_untouched, crate::proofs::Untouched::entries_untouched))]
pub fn untouched_right()
    ensures caps { (below : ℕ → ℕ → Bool) (region : Region) (rights : ℕ → ℕ → ℕ) (elements users : List ℕ) (L : Lists) → Rise 0 elements → AreKept L → AreRight below region rights elements users L → ((u e : ℕ) → in_scope L u e ≡ true → is_in below region u e ≡ false) → L.caps ≡ map (caps_anew rights elements) L.caps }
    ensures entries { (below : ℕ → ℕ → Bool) (region : Region) (rights : ℕ → ℕ → ℕ) (elements users : List ℕ) (L : Lists) → Rise 0 users → AreKept L → AreRight below region rights elements users L → ((u e : ℕ) → in_scope L u e ≡ true → is_in below region u e ≡ false) → L.entries ≡ map (entries_anew rights users) L.entries }
{}

/// The numbers of all live elements rise, and those of all users.
#[tactic(auto, using(crate::proofs::Before::all_rise, crate::proofs::Before::users_rise))]
pub fn numbers_rise()
    ensures elements { (G : Graph) → IsWellFormed G → Rise 0 (numbers_in G.elements) }
    ensures users { (G : Graph) → IsWellFormed G → Rise 0 (users_in G.elements) }
{}

/// All live elements and users may be asked about where each live element may, and their pairs are few.
#[tactic(auto, using(crate::proofs::Asked::elements_asked, crate::proofs::Asked::users_asked, crate::proofs::Asked::few_asked))]
pub fn numbers_asked()
    ensures elements { (G : Graph) (relation : Relation) (judgement : Judgement) → IsWellFormed G → ((n : ℕ) → IsLive G.elements n → IsTrue (relation.live n)) → ((n : ℕ) → IsLive G.elements n → IsTrue (judgement.live n)) → AreAsked relation judgement (numbers_in G.elements) }
    ensures users { (G : Graph) (relation : Relation) (judgement : Judgement) → IsWellFormed G → ((n : ℕ) → IsLive G.elements n → IsTrue (relation.live n)) → ((n : ℕ) → IsLive G.elements n → IsTrue (judgement.live n)) → AreAsked relation judgement (users_in G.elements) }
    ensures few { (G : Graph) → IsWellFormed G → length (users_in G.elements) * length (numbers_in G.elements) ≤ 2 ^ 28 }
{}

/// The list of a review of a well formed graph is in order, as `KeptLists` keeps lists.
#[tactic(auto, using(crate::proofs::Before::list_in_order))]
pub fn list_in_order()
    ensures { (G : Graph) (of : ReviewOf ℕ) → IsWellFormed G → IsInOrder 0 (list_of G of) }
{}

/// The pairs that are judged are those of one of the users and one of the elements that lie inside and in a scope, and none
/// stands twice.
#[tactic(auto, using(crate::proofs::Once::judged_once, crate::proofs::Once::judged_exactly))]
pub fn judged_once()
    ensures once { (inside scope : ℕ → ℕ → Bool) (users elements : List ℕ) → Rise 0 users → Rise 0 elements → StandOnce (judged inside scope users elements) }
    ensures exactly { (inside scope : ℕ → ℕ → Bool) (users elements : List ℕ) (u e : ℕ) → Contains (judged inside scope users elements) (u, e) ↔ ((is_among users u ≡ true) × (is_among elements e ≡ true) × (inside u e ≡ true) × (scope u e ≡ true)) }
{}

/// A small policy in which the capabilities of one user and the entries of one element are kept: how many
/// pairs are judged after a few changes. A pair of both is judged once.
#[tactic(auto, using(crate::proofs::Counted::counted))]
pub fn judged_counted()
    ensures { (count Nothing ≡ 0) × (count (Between 4 5) ≡ 3) × (count (One 6) ≡ 3) × (count (Under 5) ≡ 4) }
{}

/// The same policy with its one association, told by the rules alone: how many rights are judged for a few changes. What is
/// refused has none judged, nor has a review that is made or dropped, nor a prohibition on a process.
#[tactic(auto, using(crate::proofs::Counting::counted))]
pub fn judged_worked()
    ensures { (judged_for graph (Change.Dissociate 4 5) ≡ 3) × (judged_for graph (Change.Dissociate 4 6) ≡ 0) × (judged_for graph (Change.Assign 6 3) ≡ 3) × (judged_for graph (Change.Keep (ReviewOf.Caps 8)) ≡ 0) × (judged_for graph (Change.DropReview 1) ≡ 0) × (judged_for graph (Change.Prohibit hold) ≡ 0) }
{}

/// The same policy: how many rows a few changes write. What is refused writes none, nor does a change of what isn't contained.
#[tactic(auto, using(crate::proofs::Counting::rows_counted))]
pub fn rows_worked()
    ensures made { (rows_for graph (Change.Create 9 Kind.Pc (codes "new") None) ≡ 1) × (rows_for graph (Change.Create 9 Kind.Object (codes "new") (Some 5)) ≡ 2) × (rows_for graph (Change.Delete 8) ≡ 0) }
    ensures assigned { (rows_for graph (Change.Assign 6 3) ≡ 1) × (rows_for graph (Change.Assign 5 0) ≡ 2) × (rows_for graph (Change.Assign 5 3) ≡ 0) × (rows_for graph (Change.Dissociate 4 5) ≡ 0) }
{}

/// An entry adds the work of its request in the state that the entries before it lead to.
#[tactic(auto, using(crate::proofs::Counting::work_grown))]
pub fn work_grown()
    ensures { (w : Work) (entries : List Entry) (entry : Entry) → work_in w (entries ++ entry ∷ []) ≡ work_in w entries + work_by w (replay entries) entry.request }
{}

/// How many rights are judged for a change is how many pairs `update` judges by lists of the reviews that are kept after it.
#[tactic(auto, using(crate::proofs::Counting::judged_listed))]
pub fn judged_listed()
    ensures { (G H : Graph) (c : Change) (L : Lists) → effect G c ≡ Ok H → ((of : ReviewOf ℕ) → is_some (list_in L of) ≡ list_any (is_kept_of of) H.kept) → judged_for G c ≡ length (judged (is_in (contained H.assigned) (region_of G c)) (in_scope L) (users_in H.elements) (numbers_in H.elements)) }
{}
