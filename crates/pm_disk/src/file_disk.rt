//! A file of the system as a disk. What such a file holds no contract can say.

ghost use Rattle.pm_disk.specs.Files.{nothing, Never, untrue};

use crate::counts::failed;
use crate::disk::Disk;
use pm_model::Failed;
use std::fs::File;
use std::os::unix::fs::FileExt;

/// A file that tells nothing of its content, and counts its failures.
pub struct FileDisk {
    file: File,
    faults: u64,
}

impl Drop for FileDisk {
    fn drop(self) {
        let FileDisk { file: _, faults: _ } = self;
    }
}

impl FileDisk {
    /// The disk that this file is.
    pub fn new(file: File) -> FileDisk {
        FileDisk { file, faults: 0 }
    }
}

impl Disk for FileDisk {
    ghost use Rattle.std.specs.Prelude.{false};

    ghost tells = { false };

    ghost content = { λ _. nothing };

    ghost may_leave = { λ _ _. Never };

    ghost moment = { λ _. 0 };

    ghost left_since = { λ _ _ _. Never };

    ghost faults = { λ d. d.faults };

    ghost is_image = { λ d told. untrue told };

    ghost counts_now = { λ d t c told le now. untrue told };

    ghost only_now = { λ d c told left. untrue told };

    fn read(&mut self, at: u64, piece: &mut [u8]) -> Result<usize, Failed> {
        match self.file.read_at(piece, at) {
            Ok(n) => Ok(n),
            Err(_) => Err(failed(&mut self.faults)),
        }
    }

    fn write_at(&mut self, at: u64, piece: &[u8]) -> Result<(), Failed> {
        match self.file.write_all_at(piece, at) {
            Ok(()) => Ok(()),
            Err(_) => Err(failed(&mut self.faults)),
        }
    }

    fn cut(&mut self, len: u64) -> Result<(), Failed> {
        match self.file.set_len(len) {
            Ok(()) => Ok(()),
            Err(_) => Err(failed(&mut self.faults)),
        }
    }

    fn sync(&mut self) -> Result<(), Failed> {
        match self.file.sync_data() {
            Ok(()) => Ok(()),
            Err(_) => Err(failed(&mut self.faults)),
        }
    }
}
