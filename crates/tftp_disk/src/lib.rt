//! What `tftp` and `tftpd` share of files on a disk: the disk as a device that keeps the trace of
//! its calls, the length of a file in netascii, the faults of the system's errors, a writer block by
//! block, and the folder of a file that gets a name.
//!
//! It has no rule of the protocol.
//!
//! Begin with [`Disk`], and [`DiskFile`], an open file with the trace of its calls.
#![tactic(auto)]

mod ahead_buffer;
mod disk;
mod disk_event_ref;
mod disk_fault;
mod disk_file;
mod disk_source;
mod disk_trace;
mod disk_writer;
mod existing;
mod folder;
mod found;
pub mod laws;
mod measuring;
mod named_folder;
mod read_buffer;
mod system_disk;

pub use disk::{Disk, Looks, View};
pub use disk_fault::{name_fault, open_fault, write_fault};
pub use disk_file::{DiskFile, DiskFolder};
pub use disk_source::DiskSource;
pub use disk_trace::{DiskEvents, DiskTrace};
pub use disk_writer::{DiskWriter, write_buffer};
pub use existing::Existing;
pub use folder::{folder_of, folder_or_root};
pub use found::{FileId, Found, Kind};
pub use measuring::{TextLength, count_netascii};
pub use named_folder::NamedFolder;
pub use system_disk::{LockFiles, SystemDisk};
