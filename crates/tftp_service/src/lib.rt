//! How a server runs as a service of its host: with a request port that another program bound, and as
//! one of several servers that share it.
//!
//! Socket activation: the request port of a server is a socket that another program bound, and passed
//! as standard input. systemd and inetd do so (RFC 1350, section 4). Begin with
//! [`HandedSocket::new`] and [`RequestPort`]. It starts no server: that is the supervisor's.
#![tactic(auto)]

mod handed_fault;
mod handed_input;
mod handed_socket;
pub mod laws;
mod line_stamp;
mod request_port;
mod share;

pub use handed_fault::HandedFault;
pub use handed_input::{Input, standard_input};
pub use handed_socket::HandedSocket;
pub use line_stamp::LineStamp;
pub use request_port::RequestPort;
