//! The files of a served folder, as the store of a server's loop.
//!
//! It touches only files within the folder, and opens no socket. A new file appears under its name
//! whole or not at all.
//!
//! Begin with [`FolderStore`].
#![tactic(auto)]

mod beginning;
mod below;
mod finding;
mod folder_draft;
mod folder_source;
mod folder_store;
pub mod laws;
mod locked;
mod making;
mod measured;
mod naming;
mod replacing;
mod served_folder;
mod wire_lengths;

pub use folder_draft::FolderDraft;
pub use folder_source::FolderSource;
pub use folder_store::FolderStore;
pub use tftp_store::ServedStore;
