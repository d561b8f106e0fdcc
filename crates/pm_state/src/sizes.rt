//! How much of each limit a state has taken.

ghost use Rattle.std.specs.Prelude.{◌≡◌};
ghost use Rattle.pm_model.specs.History.{state_of};
ghost use Rattle.pm_model.specs.Sizes.{size_of};

use crate::state::State;
use pm_model::{Bars, Table};

impl State {
    /// How many there are of what has a limit, which [`Table::limit`] tells. It looks at none of them.
    pub fn size(&self, table: Table) -> u64
        ensures { result ≡ size_of (state_of self.now) table }
    {
        let graph = self.graph();
        let count = match table {
            Table::Elements => graph.elements().len(),
            Table::Assignments => graph.elements().assignments(),
            Table::Associations => graph.assoc().len(),
            Table::Prohibitions => graph.deny().len(),
            Table::Obligations => graph.obligations().len(),
            Table::Sessions => graph.procs().session_count(),
            Table::Processes => graph.procs().process_count(),
            Table::Reviews => graph.kept().len(),
            Table::Rights => graph.rights().len(),
            Table::History => return self.version(),
        };
        count as u64
    }
}
