//! Disks: the trait that the store uses, two disks in memory, and one over a file of the system.
#![tactic(auto)]

mod disk;
mod file;
mod file_fault;
mod flags;
mod memory;
mod store_files;
mod trail;

pub use disk::{DISK_ROOM, Disk};
pub use file::FileDisk;
pub use file_fault::{FileCall, FileFault};
pub use memory::{Arming, MemDisk};
pub use store_files::StoreFiles;
pub use trail::TrailDisk;
