//! The loop of a TFTP server over UDP: sockets, clock and printed lines (RFC 1350, sections 2
//! and 4).
//!
//! It has no packet format, no protocol rule and no files of its own. All that it sends and prints
//! is a step of its server: the clause of [`serve`] states this of the trace of its device, a
//! [`ServerUdp`].
//!
//! Begin with [`serve`].
//!
//! [`ServerUdp`]: tftp_sockets::ServerUdp
#![tactic(auto)]

mod datagram;
mod drain;
pub mod laws;
mod log;
mod log_entry;
mod port_order;
mod port_pool;
mod port_visit;
mod report;
mod requests;
mod reserved;
mod server_loop;
mod serving;
mod sockets;
mod transfer_port;

pub use port_order::{PortOrder, PortRange};
pub use serving::{Ending, LoopConfig, LoopFault, serve};
