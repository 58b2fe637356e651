//! Encodes and decodes the packets of TFTP revision 2 (RFC 1350, section 5; RFC 2347).
//!
//! It opens no socket, reads no clock and accesses no file. It is strict: each deviation from the
//! format is a fault, with its kind and its offset.
//!
//! Begin with [`decode_ref`], which allocates no memory, or with [`decode`]. They return the packet
//! that the bytes spell, or else the first fault from the left. [`encode`] and the `append` calls
//! write packets.
#![tactic(auto)]

mod append;
mod bytes;
mod datagram;
mod fault;
pub mod laws;
mod limits;
mod line;
mod mode;
mod opcode;
mod options;
mod owned;
mod packet;
mod reader;
mod same;
mod text;
mod writer;

pub use append::{
    append_ack, append_data, append_data_header, append_error, append_oack_header, append_option,
    append_read, append_reserved, append_write,
};
pub use bytes::Bytes;
pub use datagram::show_datagram;
pub use fault::{PacketFault, PacketFaultKind};
pub use limits::{HEADER, MAX_BLOCK, MAX_DATA, MAX_REQUEST};
pub use line::{show, show_ref};
pub use mode::Mode;
pub use opcode::has_error_opcode;
pub use options::{OptionRef, OptionsIter, OptionsRef, RawOption, RawOptions};
pub use owned::decode;
pub use packet::{Packet, PacketRef, Request, RequestRef};
pub use reader::{data_in, decode_ref};
pub use text::is_text;
pub use writer::{encode, is_valid};
