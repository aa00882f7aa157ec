//! New texts on the disk: all files of a run get theirs, or, as far as a file system lets, none.
#![tactic(auto)]

mod apart;
mod disk;
mod faults;
pub mod laws;
mod on_disk;
mod temporary;
mod writing;

pub use disk::Disk;
pub use faults::{WriteError, WriteFault};
pub use on_disk::OnDisk;
pub use writing::{NewText, write_all};
