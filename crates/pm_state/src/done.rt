//! What a change of the tables comes to.

ghost use Rattle.std.specs.Prelude.{◌≡◌};

use pm_model::Made;

/// What a change has made, and how many rows of containment it wrote.
#[derive(Drop)]
pub(crate) struct Done {
    pub(crate) made: Made,
    pub(crate) rows: u64,
}

impl Done {
    /// Of a change that writes no row.
    pub(crate) fn without_rows(made: Made) -> Done
        ensures made { result.made ≡ made }
        ensures rows { result.rows ≡ 0 }
    {
        Done { made, rows: 0 }
    }
}
