//! A file in memory that tells nothing, as a file of the system: so a test needs to know nothing of what it keeps.
ghost use Rattle.std.specs.Prelude.{◌≡◌, ◌≤◌};
ghost use Rattle.pm_disk.specs.Files.{nothing, Never, untrue};
ghost use Rattle.pm_model.specs.Causes.{raised};

use pm_disk::{Disk, MemDisk};
use pm_model::Failed;

/// The file, and how often it has failed.
pub(crate) struct Quiet {
    pub(crate) file: MemDisk,
    faults: u64,
}

impl Drop for Quiet {
    fn drop(self) {
        let Quiet { file: _, faults: _ } = self;
    }
}

impl Quiet {
    pub(crate) fn new(file: MemDisk) -> Quiet {
        Quiet { file, faults: 0 }
    }
}

fn failed(faults: &mut u64) -> Failed
    ensures more { faults.new ≡ raised faults.old }
    ensures later { faults.old ≤ faults.new }
{
    *faults = faults.saturating_add(1);
    Failed
}

impl Disk for Quiet {
    ghost use Rattle.std.specs.Prelude.{false};

    ghost tells = { false };

    ghost content = { λ _. nothing };

    ghost may_leave = { λ _ _. Never };

    ghost moment = { λ _. 0 };

    ghost left_since = { λ _ _ _. Never };

    ghost faults = { λ d. d.faults };

    ghost is_image = { λ d told. untrue told };

    ghost counts_now = { λ d t c told le now. untrue told };

    ghost only_now = { λ d c told left. untrue told };

    fn read(&mut self, at: u64, piece: &mut [u8]) -> Result<usize, Failed> {
        match self.file.read(at, piece) {
            Ok(n) => Ok(n),
            Err(_) => Err(failed(&mut self.faults)),
        }
    }

    fn write_at(&mut self, at: u64, piece: &[u8]) -> Result<(), Failed> {
        if at > self.file.bytes().len() as u64 {
            return Err(failed(&mut self.faults));
        }
        match self.file.write_at(at, piece) {
            Ok(()) => Ok(()),
            Err(_) => Err(failed(&mut self.faults)),
        }
    }

    fn cut(&mut self, len: u64) -> Result<(), Failed> {
        if len > self.file.bytes().len() as u64 {
            return Err(failed(&mut self.faults));
        }
        match self.file.cut(len) {
            Ok(()) => Ok(()),
            Err(_) => Err(failed(&mut self.faults)),
        }
    }

    fn sync(&mut self) -> Result<(), Failed> {
        match self.file.sync() {
            Ok(()) => Ok(()),
            Err(_) => Err(failed(&mut self.faults)),
        }
    }
}
