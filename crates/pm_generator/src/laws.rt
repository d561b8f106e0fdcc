//! Small policies, by computation.

ghost use Rattle.std.specs.Prelude.{◌≡◌, ℕ, ◌<◌, ◌≤◌, ◌+◌, ◌-◌, ◌*◌, ◌/◌, length};
ghost use Rattle.std.proofs.Common.{min};
ghost use Rattle.pm_generator.specs.Generated.{generated};
ghost use Rattle.pm_generator.specs.Worked.{policy_of_one, policy_of_three, part, last_groups_of_ten, associations_of_ten, reviews_of_ten};

/// The definition gives the policies of sizes 1 and 3 as they are written out by hand, and some of the requests of one of
/// size 10.
#[tactic(auto, using(crate::proofs::Computed::one, crate::proofs::Computed::three, crate::proofs::Computed::groups, crate::proofs::Computed::associations, crate::proofs::Computed::reviews))]
pub fn policies_computed()
    ensures one { generated 1 ≡ policy_of_one }
    ensures three { generated 3 ≡ policy_of_three }
    ensures few { length (generated 1) ≡ 11 }
    ensures more { length (generated 3) ≡ 44 }
    ensures groups { part 7 4 (generated 10) ≡ last_groups_of_ten }
    ensures associations { part 41 5 (generated 10) ≡ associations_of_ten }
    ensures reviews { part 66 8 (generated 10) ≡ reviews_of_ten }
{}

/// How many requests there are: for each number a group, a folder, a user, an object, a session, a process and an assignment,
/// but that the first has no assignment, and the class makes up for it; an association for each leaf; the reviews that are
/// kept; and two accesses for each user and object. The largest policy has 81,508.
#[tactic(auto, using(crate::proofs::Counted::requests_counted, crate::proofs::Counted::most_requests))]
pub fn requests_counted()
    ensures most { (n : ℕ) → 0 < n → n ≤ 200 → length (generated n) ≤ 81508 }
    ensures count { (n : ℕ) → 0 < n → length (generated n) ≡ 7 * n + (n - n / 2) + min n 8 + 2 * (n * n) }
{}
