//! Counts that rise by one, up to their last value.
ghost use Rattle.std.specs.Prelude.{◌≡◌, ◌≤◌, ◌==◌, ◌&&◌, if◌then◌else◌, length, nat_lt};
ghost use Rattle.pm_model.specs.Causes.{raised};

pub(crate) fn raise(count: &mut u64)
    ensures value { count.new ≡ raised count.old }
    ensures later { count.old ≤ count.new }
{
    *count = count.saturating_add(1);
}

// Counts an end where a read gave no bytes.
pub(crate) fn count_end(ends: &mut u64, given: usize)
    ensures { ends.new ≡ (if given == 0 then raised ends.old else ends.old) }
{
    if given == 0 {
        raise(ends);
    }
}

// Counts a fault where a write took none of a piece that isn't empty.
pub(crate) fn count_none(faults: &mut u64, taken: usize, piece: &[u8])
    ensures value { faults.new ≡ (if taken == 0 && nat_lt 0 (length piece.now) then raised faults.old else faults.old) }
    ensures later { faults.old ≤ faults.new }
{
    if taken == 0 && !piece.is_empty() {
        raise(faults);
    }
}
