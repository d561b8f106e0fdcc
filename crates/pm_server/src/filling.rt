//! Tables that are nearly full.

ghost use Rattle.std.specs.Prelude.{◌≡◌};
ghost use Rattle.pm_model.specs.History.{state_of};
ghost use Rattle.pm_model.specs.Sizes.{is_nearly_full};

use crate::notices::Notices;
use pm_machine::Version;
use pm_model::{Table, Word};

// What has a limit, by the words that replies have for it.
const TABLES: [(Table, Word); 10] = [
    (Table::Elements, Word::Elements),
    (Table::Assignments, Word::Assignments),
    (Table::Associations, Word::Associations),
    (Table::Prohibitions, Word::Prohibitions),
    (Table::Obligations, Word::Obligations),
    (Table::Sessions, Word::Sessions),
    (Table::Processes, Word::Processes),
    (Table::Reviews, Word::Reviews),
    (Table::Rights, Word::Rights),
    (Table::History, Word::History),
];

// Whether the table has nine tenths of what it may have, or more.
fn is_nearly_full<V: Version>(version: &V, table: Table) -> bool
    ensures { result ≡ is_nearly_full (state_of (V.machine version.now)) table }
{
    let size = version.size(table);
    let limit = table.limit();
    size >= limit || 10 * size >= 9 * limit
}

/// The tables that are nearly full at a version, a bit each by their places.
pub(crate) fn nearly_full<V: Version>(version: &V) -> u64 {
    let mut full = 0;
    for place in 0..TABLES.len() {
        if is_nearly_full(version, TABLES[place].0) {
            full |= 1 << place;
        }
    }
    full
}

/// Tells of each of these tables.
pub(crate) fn tell_of<N: Notices>(notices: &mut N, full: u64) {
    for place in 0..TABLES.len() {
        if full >> place & 1 == 1 {
            let (table, word) = TABLES[place];
            notices.nearly_full(word.text(), table.limit());
        }
    }
}
