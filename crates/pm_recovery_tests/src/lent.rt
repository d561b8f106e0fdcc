//! A file in memory that a keeper has, and that a test sees beside it. It tells nothing, as a file of the system.

ghost use Rattle.std.specs.Prelude.{◌≡◌, ◌<◌, ◌≤◌, length, IfSome};
ghost use Rattle.pm_disk.specs.Files.{nothing, Never, untrue};
ghost use Rattle.pm_model.specs.Causes.{raised};

use pm_disk::{Disk, MemDisk};
use pm_model::Failed;
use std::cell::RefCell;

/// The file, and how often it has failed.
pub(crate) struct Lent<'a> {
    file: &'a RefCell<MemDisk>,
    faults: u64,
}

impl<'a> Drop for Lent<'a> {
    fn drop(self) {
        let Lent { file: _, faults: _ } = self;
    }
}

impl<'a> Lent<'a> {
    pub(crate) fn new(file: &'a RefCell<MemDisk>) -> Lent<'a> {
        Lent { file, faults: 0 }
    }
}

fn failed(faults: &mut u64) -> Failed
    ensures more { faults.new ≡ raised faults.old }
    ensures later { faults.old ≤ faults.new }
{
    *faults = faults.saturating_add(1);
    Failed
}

fn read(file: &RefCell<MemDisk>, at: u64, piece: &mut [u8]) -> Option<usize>
    requires { 0 < length piece.old }
    ensures size { length piece.new ≡ length piece.old }
    ensures bound { IfSome result (λ n. n ≤ length piece.old) }
{
    let mut file = file.try_borrow_mut().ok()?;
    file.read(at, piece).ok()
}

fn write_at(file: &RefCell<MemDisk>, at: u64, piece: &[u8]) -> Option<()> {
    let mut file = file.try_borrow_mut().ok()?;
    if at > file.bytes().len() as u64 {
        return None;
    }
    file.write_at(at, piece).ok()
}

fn cut(file: &RefCell<MemDisk>, len: u64) -> Option<()> {
    let mut file = file.try_borrow_mut().ok()?;
    if len > file.bytes().len() as u64 {
        return None;
    }
    file.cut(len).ok()
}

fn sync(file: &RefCell<MemDisk>) -> Option<()> {
    let mut file = file.try_borrow_mut().ok()?;
    file.sync().ok()
}

impl<'a> Disk for Lent<'a> {
    ghost use Rattle.std.specs.Prelude.{false};

    ghost tells = { false };

    ghost content = { λ _. nothing };

    ghost may_leave = { λ _ _. Never };

    ghost moment = { λ _. 0 };

    ghost left_since = { λ _ _ _. Never };

    ghost faults = { λ d. d.faults };

    ghost is_image = { λ d told. untrue told };

    ghost counts_now = { λ d t c told le now. untrue told };

    ghost only_now = { λ d c told left. untrue told };

    fn read(&mut self, at: u64, piece: &mut [u8]) -> Result<usize, Failed> {
        match read(self.file, at, piece) {
            Some(n) => Ok(n),
            None => Err(failed(&mut self.faults)),
        }
    }

    fn write_at(&mut self, at: u64, piece: &[u8]) -> Result<(), Failed> {
        match write_at(self.file, at, piece) {
            Some(()) => Ok(()),
            None => Err(failed(&mut self.faults)),
        }
    }

    fn cut(&mut self, len: u64) -> Result<(), Failed> {
        match cut(self.file, len) {
            Some(()) => Ok(()),
            None => Err(failed(&mut self.faults)),
        }
    }

    fn sync(&mut self) -> Result<(), Failed> {
        match sync(self.file) {
            Some(()) => Ok(()),
            None => Err(failed(&mut self.faults)),
        }
    }
}
