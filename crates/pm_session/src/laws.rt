//! Laws of lines: what the words of the contracts mean, and why pieces of a stream do no harm.
//! Each function does nothing, and its contract is proved.
ghost use Rattle.std.specs.Prelude.{◌≡◌, ◌↔◌, ℕ, List, ◌∷◌, ◌++◌, [], map, Contains, Some, None};
ghost use Rattle.std.specs.List.{concat};
ghost use Rattle.pm_model.specs.Lines.{event_of, events, fit, shape, cut};
ghost use Rattle.pm_session.specs.Cuts.{AreLines, joined};
ghost use Rattle.pm_session.specs.Pieces.{pushed_all};

/// All bytes are whole lines, maybe none, and the rest of one, maybe empty.
pub fn bytes_are_lines()
    ensures { (bytes : List ℕ) → (lines : List (List ℕ)) × (rest : List ℕ) × AreLines bytes lines rest }
{}

/// The events of a stream are those of its whole lines, in order. Of the rest there is none.
pub fn events_are_of_the_lines()
    ensures { (bytes : List ℕ) (lines : List (List ℕ)) (rest : List ℕ)
        → AreLines bytes lines rest → events bytes ≡ map event_of lines }
{}

/// What is kept of a stream is what is kept of each of its lines and of the rest.
pub fn shape_is_of_the_lines()
    ensures { (bytes : List ℕ) (lines : List (List ℕ)) (rest : List ℕ)
        → AreLines bytes lines rest → shape bytes ≡ joined (map fit lines) ++ fit rest }
{}

/// A cut parts the bytes at their first line feed, if there is one.
pub fn cut_is_at_the_first_feed()
    ensures found { (bytes line rest : List ℕ)
        → (cut bytes ≡ Some (line, rest)) ↔ ((bytes ≡ line ++ 10 ∷ rest) × ¬ Contains line 10) }
    ensures missing { (bytes : List ℕ) → (cut bytes ≡ None) ↔ (¬ Contains bytes 10) }
{}

/// The first event is that of the line that a cut parts off, and the others are those of what is
/// behind it, whatever more comes.
pub fn cut_gives_the_first_event()
    ensures found { (bytes line rest more : List ℕ) → cut bytes ≡ Some (line, rest)
        → events (bytes ++ more) ≡ event_of line ∷ events (rest ++ more) }
    ensures missing { (bytes : List ℕ) → cut bytes ≡ None → events bytes ≡ [] }
{}

/// What is kept of a stream has the stream's events.
pub fn shape_has_the_events()
    ensures { (bytes : List ℕ) → events (shape bytes) ≡ events bytes }
{}

/// What is kept of a stream stands for it, whatever more comes.
pub fn shape_goes_on()
    ensures shape { (bytes more : List ℕ) → shape (shape bytes ++ more) ≡ shape (bytes ++ more) }
    ensures events { (bytes more : List ℕ) → events (shape bytes ++ more) ≡ events (bytes ++ more) }
{}

/// How the bytes that come behind a stream are cut into pieces makes no difference.
pub fn pieces_make_no_difference()
    ensures joined { (begun : List ℕ) (pieces : List (List ℕ))
        → pushed_all (shape begun) pieces ≡ shape (begun ++ concat pieces) }
    ensures alike { (begun : List ℕ) (pieces others : List (List ℕ)) → concat pieces ≡ concat others
        → pushed_all (shape begun) pieces ≡ pushed_all (shape begun) others }
    ensures events { (begun : List ℕ) (pieces : List (List ℕ))
        → events (pushed_all (shape begun) pieces) ≡ events (begun ++ concat pieces) }
{}
