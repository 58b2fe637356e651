//! A TFTP server without IO: its request port and its table of transfers (RFC 1350, section 4;
//! RFC 2347).
//!
//! It opens no socket and reads no clock. It touches files only through its [`Store`].
//!
//! Begin with [`Server`]: each datagram that arrives at the request port, or at the port of a
//! transfer, is one call. A call changes no other transfer.
#![tactic(auto)]

mod config;
mod draft_sink;
mod fault;
mod open_transfers;
mod opened;
mod server;
mod table;
mod transfer;

pub use config::Config;
pub use fault::ServerFault;
pub use open_transfers::OpenTransfers;
pub use opened::Opened;
pub use server::{Admission, Occupancy, Server};
pub use tftp_store::{FaultStore, MemDraft, MemStore, OpenedSource, Opening, Store};
pub use transfer::Transfer;
