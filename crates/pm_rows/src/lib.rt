//! The definitions, tried on worked rows: lines, and the replies that must come; and on small cases.
#![tactic(auto)]

ghost use Rattle.std.specs.Prelude.{◌≡◌, ℕ, List, Contains, filter, replicate};
ghost use Rattle.pm_model.specs.Formed.{Each};
ghost use Rattle.pm_model.specs.History.{replay, IsLegal};
ghost use Rattle.pm_model.specs.Effect.{may_assign, may_associate};
ghost use Rattle.pm_model.specs.Name.{is_name, is_name_byte};
ghost use Rattle.pm_rows.specs.Histories.{two_entries, after_two, late_assignment, after_late, legal, illegal};
ghost use Rattle.pm_rows.specs.Rows.{Hold, rows};
ghost use Rattle.pm_rows.specs.Denials.{denial_rows};
ghost use Rattle.pm_rows.specs.Forms.{form_rows};
ghost use Rattle.pm_rows.specs.Obligations.{obligation_rows};
ghost use Rattle.pm_rows.specs.Responses.{Responds, Awaits, responses, awaited};
ghost use Rattle.pm_rows.specs.Reviews.{review_rows};
ghost use Rattle.pm_rows.specs.KeptReviews.{kept_rows, betweens, Tells};
ghost use Rattle.pm_rows.specs.Cases.{kinds, pairs_of, assigned_kinds, associated_kinds, ranges, Covers, bytes_from, name_bytes, IsCutAt};

/// The definitions give each row's replies to its lines.
pub fn rows_hold()
    ensures { Hold rows }
{}

/// They give them in the rows on prohibitions and on the capabilities of a delegate.
pub fn denials_hold()
    ensures { Hold denial_rows }
{}

/// They give them in the rows on the forms of lines.
pub fn forms_hold()
    ensures { Hold form_rows }
{}

/// They give them in the rows on obligations.
pub fn obligations_hold()
    ensures { Hold obligation_rows }
{}

/// They give them in the rows on reviews.
pub fn reviews_hold()
    ensures { Hold review_rows }
{}

/// They give them in the rows on kept reviews.
pub fn kept_reviews_hold()
    ensures { Hold kept_rows }
{}

/// What becomes of the elements of two lists, where numbers may have gone from one element to another.
#[tactic(auto, using(crate::proofs::Cases::betweens_told))]
pub fn changes_tell()
    ensures { Each Tells betweens }
{}

/// What the responses of obligations read as, and what they wait for.
#[tactic(auto, using(crate::proofs::Responses::responses_told, crate::proofs::Responses::awaited_told))]
pub fn responses_read()
    ensures responses { Each Responds responses }
    ensures awaited { Each Awaits awaited }
{}

/// Which histories are legal, and what the replay of one is.
#[tactic(auto, using(crate::proofs::Computed::histories_legal, crate::proofs::Computed::histories_illegal, crate::proofs::Computed::history_replayed, crate::proofs::Computed::late_replayed))]
pub fn histories_told()
    ensures legal { Each IsLegal legal }
    ensures illegal { Each (λ H. IsLegal H → ⊥) illegal }
    ensures replayed { replay two_entries ≡ after_two }
    ensures late { replay late_assignment ≡ after_late }
{}

/// Of all pairs of kinds these may be assigned, and these associated.
#[tactic(auto, using(crate::proofs::Cases::kinds_assigned, crate::proofs::Cases::kinds_associated))]
pub fn kinds_joined()
    ensures assigned { filter (λ p. may_assign p.0 p.1) (pairs_of kinds) ≡ assigned_kinds }
    ensures associated { filter (λ p. may_associate p.0 p.1) (pairs_of kinds) ≡ associated_kinds }
{}

/// Which elements lie in the range of a prohibition, by mode and sets.
#[tactic(auto, using(crate::proofs::Cases::ranges_covered))]
pub fn ranges_covered()
    ensures { Each Covers ranges }
{}

/// These bytes may stand in a name, which has 1 to 64 of them.
#[tactic(auto, using(crate::proofs::Cases::bytes_of_names, crate::proofs::Cases::lengths_of_names))]
pub fn names_formed()
    ensures bytes { filter is_name_byte (bytes_from 0 256) ≡ name_bytes }
    ensures lengths { filter (λ n. is_name (replicate n 97)) (bytes_from 0 70) ≡ bytes_from 1 64 }
{}

/// A line of up to 8,192 bytes is taken whole, and one of more is answered as too long.
#[tactic(auto, using(crate::proofs::Cases::line_is_cut))]
pub fn line_is_cut()
    ensures { (line : List ℕ) → (Contains line 10 → ⊥) → IsCutAt line }
{}
