//! Prohibitions that stand in one run.

ghost use Rattle.std.specs.Prelude.{◌≤◌, length};

use pm_model::{Bars, Prohibition};

/// These prohibitions, and no others.
#[derive(Drop)]
pub(crate) struct Run<'a> {
    pub items: &'a [Prohibition],
    ghost few: { length items.now ≤ 4096 },
}

impl<'a> Bars for Run<'a> {
    ghost prohibitions = { λ b. b.items.now };

    fn len(&self) -> usize {
        self.items.len()
    }

    fn at(&self, i: usize) -> &Prohibition {
        &self.items[i]
    }

    fn prohibitions_from(&self, i: usize) -> &[Prohibition] {
        &self.items[i..]
    }
}
