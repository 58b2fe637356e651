//! Captures as `tcpdump -w` writes them: which bytes of a frame are the payload of a UDP datagram
//! over IPv4 (RFC 768, RFC 791), and the frames of a file, one after the other.
//!
//! Begin with [`read_datagram`] and [`Capture`]. It knows no TFTP, and opens no file: it reads from
//! a reader, and holds one record of it at a time.
#![tactic(auto)]

mod block;
mod capture;
mod classic;
mod clock;
mod datagram;
mod fault;
mod input;
mod ip;
mod link;
mod number;
mod order;
mod section;

pub use capture::{Capture, MAX_RECORD, Record, is_capture};
pub use datagram::{Datagram, read_datagram};
pub use fault::{CaptureFault, FrameFault};
pub use link::Link;
