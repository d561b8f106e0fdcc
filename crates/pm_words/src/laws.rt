//! What the list of words comes to.
//! Each function does nothing, and its contract is proved.
ghost use Rattle.std.specs.Prelude.{◌≡◌, ◌≢◌, ◌↔◌, ◌<◌, ◌≤◌, ℕ, List, [], ◌∷◌, codes, decimal, false, true};
ghost use Rattle.std.specs.List.{list_any};
ghost use Rattle.pm_words.specs.Words.{is_flag, IsRun, IsGenerate, IsServe, IsServeJournal, IsRequestLines, IsExport, IsOther};

/// The words that there are, written out.
#[tactic(auto, using(crate::proofs::Values::run_written_out, crate::proofs::Values::generate_written_out, crate::proofs::Values::serve_written_out, crate::proofs::Values::serve_journal_written_out, crate::proofs::Values::request_lines_written_out, crate::proofs::Values::export_written_out))]
pub fn words_written_out()
    ensures run { (words : List (List ℕ)) → IsRun words ↔ (words ≡ codes "run" ∷ []) }
    ensures generate { (words : List (List ℕ)) (size : ℕ) → IsGenerate words size
        ↔ ((words ≡ codes "generate" ∷ decimal size ∷ []) × (0 < size) × (size ≤ 200)) }
    ensures serve { (words : List (List ℕ)) (port workers : ℕ) → IsServe words port workers
        ↔ ((words ≡ codes "serve" ∷ decimal port ∷ decimal workers ∷ []) × (port < 65536) × (0 < workers) × (workers ≤ 32)) }
    ensures serve_journal { (words : List (List ℕ)) (port workers : ℕ) (file : List ℕ) → IsServeJournal words port workers file
        ↔ ((words ≡ codes "serve-journal" ∷ decimal port ∷ decimal workers ∷ file ∷ []) × (port < 65536) × (0 < workers) × (workers ≤ 32)
        × (file ≢ []) × (is_flag file ≡ false)) }
    ensures request_lines { (words : List (List ℕ)) → IsRequestLines words ↔ (words ≡ codes "request-lines" ∷ []) }
    ensures export { (words : List (List ℕ)) → IsExport words ↔ (words ≡ codes "export" ∷ []) }
{}

/// Words of which one begins with `-` are outside the grammar.
#[tactic(auto, using(crate::proofs::Asking::flagged))]
pub fn flags_are_outside()
    ensures { (words : List (List ℕ)) → list_any is_flag words ≡ true → IsOther words }
{}
