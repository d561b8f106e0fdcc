//! Where the program reads, writes and keeps what it accepted, as traits, with a count of their failures.

ghost use Rattle.std.specs.Prelude.{◌≡◌, ◌<◌, ◌∷◌, [], ◌++◌, ℕ, List, Option, length, option_map, IfSome, OnOk, OnErr};
ghost use Rattle.std.specs.Io.{ReadsAtMost, WritesAtMost};
ghost use Rattle.std.specs.Io.KnownBytes.{ReadConsumes, WriteAppends};
ghost use Rattle.pm_model.specs.Answer.{longest_history};
ghost use Rattle.pm_model.specs.Causes.{HasCause, HasWriteCause, HasKeepCause, ends_after};
ghost use Rattle.pm_model.specs.declared.requests.Entry.{Entry};

use crate::requests::Entry;

/// The object that was asked has failed.
#[derive(Clone, Copy, Debug, PartialEq, Eq)]
pub struct Failed;

/// Where bytes come from.
pub trait Source {
    /// The bytes that are left, where it tells them.
    ghost left: { Self → Option (List ℕ) };

    /// How often it has failed. The count never falls, and stands still at 2^64 - 1.
    ghost faults: { Self → ℕ };

    /// How often a read has answered that no bytes are left. The count never falls, and stands still
    /// at 2^64 - 1.
    ghost ends: { Self → ℕ };

    /// Reads some bytes to the front of the piece, and says how many. 0 bytes say that none are left.
    /// Failed comes exactly where the count of faults rose in this call; nothing was read then.
    fn read(&mut self, piece: &mut [u8]) -> Result<usize, Failed>
        requires { 0 < length piece.old }
        ensures bound { ReadsAtMost result piece.new }
        ensures bytes { ReadConsumes (left self.old) (left self.new) result piece.new }
        ensures cause { HasCause (faults self.old) (faults self.new) result }
        ensures end { ends self.new ≡ ends_after (ends self.old) result };
}

/// Where bytes go.
pub trait Sink {
    /// The bytes that it took, where it tells them.
    ghost taken: { Self → Option (List ℕ) };

    /// How often it has failed. The count never falls, and stands still at 2^64 - 1.
    ghost faults: { Self → ℕ };

    /// Takes some of the first bytes of the piece, and says how many. The count of faults rises in
    /// this call exactly where it fails, or takes none of a piece that isn't empty; nothing was taken
    /// then.
    fn write(&mut self, piece: &[u8]) -> Result<usize, Failed>
        ensures bound { WritesAtMost result piece.now }
        ensures bytes { WriteAppends (taken self.old) (taken self.new) result piece.now }
        ensures cause { HasWriteCause (faults self.old) (faults self.new) result piece.now };
}

/// Why an entry was not kept.
#[derive(Clone, Copy, Debug, PartialEq, Eq)]
pub enum KeepError {
    /// The keeper has failed.
    Failed,
    /// There was no memory.
    Memory,
}

/// Where accepted requests are kept, in their order.
pub trait Keep {
    /// The entries that it keeps, where it tells them.
    ghost kept: { Self → Option (List Entry) };

    /// How often it has failed. The count never falls, and stands still at 2^64 - 1.
    ghost faults: { Self → ℕ };

    /// Keeps an entry behind those that it keeps; its place there, from 0, is told too. Failed comes
    /// exactly where the count of faults rose in this call. After either error all is kept as before.
    fn keep(&mut self, at: u64, entry: &Entry) -> Result<(), KeepError>
        requires room { at < longest_history }
        requires place { IfSome (kept self.old) (λ entries. at ≡ length entries) }
        ensures ok { OnOk result (kept self.new ≡ option_map (λ entries. entries ++ entry.now ∷ []) (kept self.old)) }
        ensures err { OnErr result (kept self.new ≡ kept self.old) }
        ensures cause { HasKeepCause (faults self.old) (faults self.new) result };
}
