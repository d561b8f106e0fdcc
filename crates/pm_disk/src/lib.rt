//! A disk as a journal sees it: a file whose bytes a crash may tear; in memory, and over a file of the system.
#![tactic(auto)]

mod counts;
mod disk;
mod file_disk;
mod held;
mod mem_disk;
mod opening;
mod torn;

pub use disk::Disk;
pub use file_disk::FileDisk;
pub use mem_disk::MemDisk;
pub use opening::{FileError, open_file};
