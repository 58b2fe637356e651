//! The files of a server: a store, whose files are read as sources and written as drafts.
//!
//! Begin with [`Store`]. [`MemStore`] keeps its files in memory, and [`FaultStore`] injects faults
//! into another store.
#![tactic(auto)]

mod fault_store;
mod memory;
mod served;
mod store;

pub use fault_store::{FaultStore, OpenedSource};
pub use memory::{MemDraft, MemStore};
pub use served::ServedStore;
pub use store::{Opening, Store};
