//! What is published in versions.

/// One version of what only grows: a version stands for a list, and each next one for a list that extends it.
pub trait Grows {
    ghost use Rattle.std.specs.Prelude.{◌≡◌, List, length};
    ghost use Rattle.pm_model.specs.declared.requests.Entry.{Entry};

    /// The list that the version stands for.
    ghost list: { Self → List Entry };

    /// How long the list is.
    fn grown(&self) -> u64
        ensures { result ≡ length (list self.now) };
}
