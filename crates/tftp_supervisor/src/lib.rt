//! The supervisor of several servers, each a process of its own: it starts them, and prints their
//! lines until they have ended. It receives and sends no datagram.
//!
//! Begin with [`Supervise::supervise`]. A law says what it prints: whole lines, each with its server,
//! and none is left out or printed twice (`AlwaysPassedOn`).
#![tactic(auto)]

mod output;
mod processes;
mod supervise;
mod supervisor;
mod supervisor_fault;
mod system;

pub use supervise::{Place, Supervise};
pub use supervisor_fault::SupervisorFault;
pub use system::History;
