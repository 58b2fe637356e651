//! The files of a transfer: netascii, blocks, sources, sinks and names (RFC 1350, section 1; RFC
//! 764).
//!
//! It opens no file and no socket: the caller supplies readers and writers. It is strict: a text
//! that is not netascii and a name outside the rules are refused, with the first fault.
//!
//! Begin with [`Source`] and [`Sink`], with which an end of a transfer reads and writes, and with
//! [`path_of`]. After a complete transfer the wire text of the sink's bytes is the source's text.
#![tactic(auto)]

mod ahead;
mod encoding;
mod fault;
mod fault_source;
mod files;
pub mod laws;
mod length;
mod lines;
mod memory;
mod netascii;
mod path;
mod shared;
mod sink;
mod source;
mod stream;

pub use ahead::Ahead;
pub use bytes::Bytes as SharedBytes;
pub use fault::{FileFault, StoreFault};
pub use fault_source::FaultSource;
pub use files::Files;
pub use length::{MAX_WIRE, wire_length, wire_length_up_to, wire_length_within};
pub use memory::{MemSink, MemSource};
pub use netascii::{NetDecoder, NetEncoder, NetFault};
pub use path::{Path, PathFault, path_of};
pub use shared::FileBytes;
pub use sink::Sink;
pub use source::Source;
pub use stream::{ReadSource, WriteSink};
