//! The block sizes and timeouts that the standards allow, and the limits of a server.

ghost use Rattle.std.specs.Prelude.{◌↔◌, IsTrue};
ghost use Rattle.tftp_negotiate.specs.Ranges.{IsBlockSize, IsTimeout};

use tftp_wire::MAX_BLOCK;

/// The minimum block size, in data bytes (RFC 2348, "Blocksize Option Specification").
pub const MIN_BLOCK: u16 = 8;

/// The block size if none is agreed, in data bytes (RFC 1350, section 2).
pub const DEFAULT_BLOCK: u16 = 512;

/// The minimum timeout, in seconds (RFC 2349, "Timeout Interval Option Specification").
pub const MIN_TIMEOUT: u8 = 1;

/// The maximum timeout, in seconds (RFC 2349, "Timeout Interval Option Specification").
pub const MAX_TIMEOUT: u8 = 255;

// The values of the standards.
const _: () = prove!(MIN_BLOCK == 8);

const _: () = prove!(MAX_BLOCK == 65_464);

const _: () = prove!(DEFAULT_BLOCK == 512);

const _: () = prove!(MIN_TIMEOUT == 1);

const _: () = prove!(MAX_TIMEOUT == 255);

/// Whether this is a block size, in data bytes: `MIN_BLOCK` to `MAX_BLOCK`
/// (RFC 2348, "Blocksize Option Specification").
pub fn is_block_size(bytes: u64) -> bool
    ensures { IsTrue result ↔ IsBlockSize bytes }
{
    u64::from(MIN_BLOCK) <= bytes && bytes <= u64::from(MAX_BLOCK)
}

/// Whether this is a timeout, in seconds: `MIN_TIMEOUT` to `MAX_TIMEOUT`
/// (RFC 2349, "Timeout Interval Option Specification").
pub fn is_timeout(seconds: u64) -> bool
    ensures { IsTrue result ↔ IsTimeout seconds }
{
    u64::from(MIN_TIMEOUT) <= seconds && seconds <= u64::from(MAX_TIMEOUT)
}

/// The maximum values that a server accepts.
#[derive(Clone, Copy, Debug, PartialEq, Eq)]
pub struct Limits {
    /// The maximum block size that it answers, in data bytes, `MIN_BLOCK` to `MAX_BLOCK`.
    pub max_block: u16,
    /// The maximum length of a file that it receives, in bytes of wire text.
    pub max_file: u64,
}
