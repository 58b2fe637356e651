//! TFTP for C: the ends of `tftp_ends` behind an opaque handle, and the packets of `tftp_wire`.
//!
//! It opens no socket, reads no clock and keeps no file: the caller of a handle passes datagrams
//! and timeouts in, sends what a call writes to its buffer, and stores or reads the bytes of the
//! file. `include/tftp.h` declares the calls, with what a caller in C owes.
#![tactic(auto)]

mod aborting;
mod answering;
mod asking;
mod building;
mod client;
mod elsewhere;
mod error;
mod event;
mod given;
mod handle;
mod held_server;
mod holding;
mod informing;
mod loose;
mod opening;
mod options;
mod packet;
mod report;
mod server;
mod server_handle;
mod server_slot;
mod serving;
mod slice_sink;
mod slice_source;
mod slot;
mod stated;
mod stepping;
mod transfers;
mod wire_text;

ghost use Rattle.std.specs.Prelude.{◌≡◌};

/// 0.1.0, as `TFTP_VERSION` of `tftp.h`.
const VERSION: u32 = 0x00_01_00;

/// The version of the library: `major * 65,536 + minor * 256 + patch`.
#[unsafe(no_mangle)]
pub extern "C" fn tftp_version() -> u32
    ensures { result ≡ 256 }
{
    VERSION
}
