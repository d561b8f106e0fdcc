//! Where an item stands: in which page, by where the pages start.

ghost use Rattle.std.specs.Prelude.{◌≡◌, ◌<◌, ◌≤◌, ◌+◌, true, length, slice_index};
ghost use Rattle.pm_pages.specs.Listed.{IsStretch};

/// Whether the page is the one of item i.
fn is_page_of(starts: &[usize], i: usize, k: usize) -> bool
    ensures { result ≡ true → IsStretch starts.now i k }
{
    k < starts.len() && starts[k] <= i && (starts.len() - k == 1 || i < starts[k + 1])
}

/// The page of item i, by halves.
fn page_by_halves(starts: &[usize], i: usize) -> usize
    requires some { 0 < length starts.now }
    requires first { slice_index starts.now 0 ≤ i }
    ensures { IsStretch starts.now i result }
{
    let mut low = 0;
    let mut high = starts.len();
    while high - low > 1 {
        let middle = low + (high - low) / 2;
        if starts[middle] <= i {
            low = middle;
        } else {
            high = middle;
        }
    }
    low
}

/// The page of item i. Where all pages before are full, and the room is a power of two, it is found at once.
pub(crate) fn page_of(starts: &[usize], room: usize, i: usize) -> usize
    requires some { 0 < length starts.now }
    requires first { slice_index starts.now 0 ≤ i }
    ensures { IsStretch starts.now i result }
{
    let guess = i.checked_shr(room.trailing_zeros()).unwrap_or(0);
    if is_page_of(starts, i, guess) {
        return guess;
    }
    page_by_halves(starts, i)
}
