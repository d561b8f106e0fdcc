//! Opening a file of the system as a disk, for one server at a time.

use crate::file_disk::FileDisk;
use std::fs::{File, Files, OpenOptions, TryLockError};
use std::io;

/// Why a file was not opened.
#[derive(Clone, Copy, Debug, PartialEq, Eq)]
pub enum FileError {
    /// Another process has it open as a disk.
    Busy,
    /// The system refused it.
    Failed,
}

impl From<io::Error> for FileError {
    fn from(_error: io::Error) -> FileError {
        FileError::Failed
    }
}

// The path of the folder in which a file lies.
fn folder_of(path: &str) -> &str {
    match path.rsplit_once('/') {
        None => ".",
        Some(("", _)) => "/",
        Some((folder, _)) => folder,
    }
}

fn locked(file: &File) -> Result<(), FileError> {
    match file.try_lock() {
        Ok(()) => Ok(()),
        Err(TryLockError::WouldBlock) => Err(FileError::Busy),
        Err(TryLockError::Error(_)) => Err(FileError::Failed),
    }
}

/// Opens the file at this path, which is made where it isn't there, as a disk. The folder is synced, so that no crash takes the
/// file's name away. A lock keeps it from any other call of this function until it is dropped; it is advice, and keeps no other
/// program out.
pub fn open_file<R: Files<File = File>>(rt: &R, path: &str) -> Result<FileDisk, FileError> {
    let file = OpenOptions::new()
        .read(true)
        .write(true)
        .create(true)
        .open(rt, path)?;
    locked(&file)?;
    let folder = File::open(rt, folder_of(path))?;
    folder.sync_all()?;
    Ok(FileDisk::new(file))
}
