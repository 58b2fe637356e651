//! What a program over UDP has of its host: sockets (RFC 1350, section 4), addresses, the clock, and
//! printed lines. A device has them all, and keeps the trace of its calls, which only contracts
//! read.
//!
//! Begin with [`ServerUdp`] and [`ClientUdp`]; [`Watch`] is a program's time.
#![tactic(auto)]

mod address;
mod bound;
mod calls;
mod clock;
mod entry;
mod error_lines;
mod event_ref;
mod load;
mod port;
mod port_poll;
mod reader;
mod receipt;
mod received;
mod signal;
mod sockets;
mod system_udp;
mod trace;
mod udp;
mod watch;

pub use address::{DATAGRAM_BUFFER, address_of, endpoint_in, endpoint_of};
pub use entry::{Direction, Entry, OpenTransfer};
pub use error_lines::{ErrorLines, WholeLines};
pub use load::Load;
pub use port::{Port, index_of, wait_for};
pub use port_poll::{PortPoll, Reports};
pub use receipt::Receipt;
pub use signal::{DrainSignal, NoSignal};
pub use sockets::{ClientSocket, ServerSocket};
pub use system_udp::SystemUdp;
pub use udp::{ClientUdp, ServerUdp, Udp};
pub use watch::{LONGEST_WAIT, Watch, deadline, is_due};
