//! The maximum lengths of packets and of their parts.

/// The length of an ACK and of the header of a DATA, in bytes (RFC 1350, section 5).
pub const HEADER: usize = 4;

/// The maximum length of a request, in bytes (RFC 2347, "Packet Formats").
///
/// By our own choice it also limits an OACK and an ERROR, which no standard limits.
pub const MAX_REQUEST: usize = 512;

/// The maximum block size, in bytes (RFC 2348, "Blocksize Option Specification").
pub const MAX_BLOCK: u16 = 65_464;

/// The maximum length of a DATA, and so of any packet, in bytes.
pub const MAX_DATA: usize = HEADER + MAX_BLOCK as usize;

// The values of the standards.
const _: () = prove!(HEADER == 4);

const _: () = prove!(MAX_REQUEST == 512);

const _: () = prove!(MAX_BLOCK == 65_464);

const _: () = prove!(MAX_DATA == 65_468);
