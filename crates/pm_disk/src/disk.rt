//! A disk: what a read gives, and what a crash may leave.

ghost use Rattle.std.specs.Prelude.{◌≡◌, ◌≤◌, ◌<◌, ◌+◌, Bool, true, ℕ, List, length, take, IfOk, OnOk, OnErr};
ghost use Rattle.pm_model.specs.Causes.{HasCause};
ghost use Rattle.pm_disk.specs.Disks.{Reads, Holds, Torn, Cut, Follows, Each, Elapses};

use pm_model::Failed;

/// A file on a disk. One that tells nothing of its content, as a real one, promises its counts alone.
pub trait Disk {
    /// Whether disks of this type tell their content.
    ghost tells: { Bool };

    /// The bytes that reads give.
    ghost content: { Self → List ℕ };

    /// The images: what a crash at this moment may leave.
    ghost may_leave: { Self → List ℕ → Type 0 };

    /// The moment, as a number that doesn't fall.
    ghost moment: { Self → ℕ };

    /// What a crash at some moment from that one on might have left, during a call or between two.
    ghost left_since: { Self → ℕ → List ℕ → Type 0 };

    /// How often it has failed. The count never falls, and stands still at 2^64 - 1.
    ghost faults: { Self → ℕ };

    /// Reads some bytes from this place on to the front of the piece, and says how many. 0 bytes say that none are there.
    fn read(&mut self, at: u64, piece: &mut [u8]) -> Result<usize, Failed>
        requires { 0 < length piece.old }
        ensures size { length piece.new ≡ length piece.old }
        ensures bound { IfOk result (λ n. n ≤ length piece.old) }
        ensures bytes { tells ≡ true → IfOk result (Reads (content self.old) at piece.new) }
        ensures content { tells ≡ true → content self.new ≡ content self.old }
        ensures crash { tells ≡ true → Each (may_leave self.new) (may_leave self.old) }
        ensures time { tells ≡ true → Elapses (moment self.old) (moment self.new) (left_since self.old) (left_since self.new) (may_leave self.new) }
        ensures cause { HasCause (faults self.old) (faults self.new) result };

    /// Writes over what is there, and past the end. Until a sync a crash may leave any bytes in the range. Where it fails, the
    /// range may have been written in part.
    fn write_at(&mut self, at: u64, piece: &[u8]) -> Result<(), Failed>
        requires { tells ≡ true → at ≤ length (content self.old) }
        ensures written { tells ≡ true → OnOk result (Holds (content self.old) at piece.now (content self.new)) }
        ensures torn { tells ≡ true → OnErr result (Torn at (length piece.now) (content self.old) (content self.new)) }
        ensures crash { tells ≡ true → Follows (Torn at (length piece.now)) (may_leave self.old) (may_leave self.new) }
        ensures time { tells ≡ true → Elapses (moment self.old) (moment self.new) (left_since self.old) (left_since self.new) (may_leave self.new) }
        ensures cause { HasCause (faults self.old) (faults self.new) result };

    /// Cuts the file to this length. Where it fails, some of that may have been cut.
    fn cut(&mut self, len: u64) -> Result<(), Failed>
        requires { tells ≡ true → len ≤ length (content self.old) }
        ensures cut { tells ≡ true → OnOk result (content self.new ≡ take len (content self.old)) }
        ensures torn { tells ≡ true → OnErr result (Cut len (content self.old) (content self.new)) }
        ensures crash { tells ≡ true → Follows (Cut len) (may_leave self.old) (may_leave self.new) }
        ensures time { tells ≡ true → Elapses (moment self.old) (moment self.new) (left_since self.old) (left_since self.new) (may_leave self.new) }
        ensures cause { HasCause (faults self.old) (faults self.new) result };

    /// After it a crash leaves the content. A sync that is done takes one moment, and one that failed takes none.
    fn sync(&mut self) -> Result<(), Failed>
        ensures durable { tells ≡ true → OnOk result (Each (may_leave self.new) (λ c. c ≡ content self.old)) }
        ensures done { tells ≡ true → OnOk result (moment self.new ≡ moment self.old + 1) }
        ensures not_done { tells ≡ true → OnErr result (moment self.new ≡ moment self.old) }
        ensures content { tells ≡ true → content self.new ≡ content self.old }
        ensures crash { tells ≡ true → Each (may_leave self.new) (may_leave self.old) }
        ensures time { tells ≡ true → Elapses (moment self.old) (moment self.new) (left_since self.old) (left_since self.new) (may_leave self.new) }
        ensures cause { HasCause (faults self.old) (faults self.new) result };

    /// What it holds is one of its images.
    ghost is_image: { (disk : Self) → tells ≡ true → may_leave disk (content disk) };

    /// This moment is one of those since an earlier one.
    ghost counts_now: { (disk : Self) (t : ℕ) (c : List ℕ) → tells ≡ true → t ≤ moment disk → may_leave disk c → left_since disk t c };

    /// Since this moment there is no other.
    ghost only_now: { (disk : Self) (c : List ℕ) → tells ≡ true → left_since disk (moment disk) c → may_leave disk c };
}
