//! Why a frame has no UDP datagram, and why a capture is not read to its end.

ghost use Rattle.std.specs.Prelude.{◌≡◌, ◌≢◌};
ghost use Rattle.std.specs.IoError.{error_kind};
ghost use Rattle.std.specs.declared.io.ErrorKind.TheVariants as error_kinds;
ghost use Rattle.tftp_capture.specs.declared.fault.CaptureFault.TheVariants as capture_faults;

use std::fmt;
use std::io::{self, ErrorKind};
use thiserror::Error;

/// The first fault of a frame: why it has no UDP datagram over IPv4.
#[derive(Clone, Copy, Debug, Error)]
pub enum FrameFault {
    /// Its kind of link is not known.
    Link,
    /// It ends before a header does.
    Short,
    /// It is of another protocol than IPv4.
    NotIpv4,
    /// The lengths of the IPv4 header cannot be.
    Header,
    /// It is of another protocol than UDP.
    NotUdp,
    /// It is a fragment after the first: it has no UDP header.
    Fragment,
    /// The length of the UDP header cannot be.
    Length,
}

impl fmt::Display for FrameFault {
    fn fmt<W: fmt::Write>(&self, f: &mut fmt::Formatter<W>) -> fmt::Result {
        f.write_str(match self {
            FrameFault::Link => "the link type is not supported",
            FrameFault::Short => "the frame ends in a header",
            FrameFault::NotIpv4 => "not IPv4",
            FrameFault::Header => "an IPv4 header with an impossible length",
            FrameFault::NotUdp => "not UDP",
            FrameFault::Fragment => "a later fragment",
            FrameFault::Length => "a UDP header with an impossible length",
        })
    }
}

/// Why a capture is not read to its end.
#[derive(Clone, Copy, Debug, Error)]
pub enum CaptureFault {
    /// Reading failed.
    Unreadable,
    /// It ends within a record.
    Cut,
    /// It does not begin as a capture does.
    Format,
    /// A record is longer than [`crate::MAX_RECORD`].
    TooLong,
    /// The length of a block cannot be.
    Block,
    /// A section has more interfaces than a capture ever has.
    Interfaces,
    /// An allocation failed.
    Memory,
}

impl fmt::Display for CaptureFault {
    fn fmt<W: fmt::Write>(&self, f: &mut fmt::Formatter<W>) -> fmt::Result {
        f.write_str(match self {
            CaptureFault::Unreadable => "unreadable",
            CaptureFault::Cut => "cut short",
            CaptureFault::Format => "not a capture",
            CaptureFault::TooLong => "a record is too long",
            CaptureFault::Block => "a block with an impossible length",
            CaptureFault::Interfaces => "too many interfaces",
            CaptureFault::Memory => "out of memory",
        })
    }
}

impl CaptureFault {
    /// The fault for this error of reading. An input that ends too early is cut.
    pub(crate) fn of(error: &io::Error) -> CaptureFault
        ensures cut { error_kind error.now ≡ error_kinds.UnexpectedEof
            → result ≡ capture_faults.Cut }
        ensures memory { error_kind error.now ≡ error_kinds.OutOfMemory
            → result ≡ capture_faults.Memory }
        ensures others { error_kind error.now ≢ error_kinds.UnexpectedEof
            → error_kind error.now ≢ error_kinds.OutOfMemory
            → result ≡ capture_faults.Unreadable }
    {
        let kind = error.kind();
        if kind == ErrorKind::UnexpectedEof {
            CaptureFault::Cut
        } else if kind == ErrorKind::OutOfMemory {
            CaptureFault::Memory
        } else {
            CaptureFault::Unreadable
        }
    }
}
