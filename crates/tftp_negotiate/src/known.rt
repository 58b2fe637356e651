//! The known options, each with its value, and the two kinds of transfer.

ghost use Rattle.std.specs.Prelude.{◌≡◌};
ghost use Rattle.tftp_negotiate.specs.Agreed.{name_of_known, value_of_known};

use crate::name::Name;

/// The direction of a transfer.
#[derive(Clone, Copy, Debug, PartialEq, Eq)]
pub enum Kind {
    /// From the server to the client: the request is an RRQ.
    Read,
    /// From the client to the server: the request is a WRQ.
    Write,
}

/// A known option with its value.
#[derive(Clone, Copy, Debug, PartialEq, Eq)]
pub enum Known {
    /// The block size, in data bytes (RFC 2348, "Blocksize Option Specification").
    Blksize(u16),
    /// The seconds before a retransmission
    /// (RFC 2349, "Timeout Interval Option Specification").
    Timeout(u8),
    /// The length of the file in bytes of wire text; 0 in the request of a read
    /// (RFC 2349, "Transfer Size Option Specification").
    Tsize(u64),
}

impl Known {
    /// The name of the option.
    pub fn name(self) -> Name
        ensures { result ≡ name_of_known self }
    {
        match self {
            Known::Blksize(_) => Name::Blksize,
            Known::Timeout(_) => Name::Timeout,
            Known::Tsize(_) => Name::Tsize,
        }
    }

    /// The value, which a packet states in decimal digits.
    pub fn value(self) -> u64
        ensures { result ≡ value_of_known self }
    {
        match self {
            Known::Blksize(size) => u64::from(size),
            Known::Timeout(seconds) => u64::from(seconds),
            Known::Tsize(length) => length,
        }
    }
}

impl Default for Known {
    ghost use Rattle.std.specs.Prelude.{◌≡◌};
    ghost use Rattle.tftp_negotiate.specs.declared.known.Known.TheVariants.{Tsize};

    ghost is_default = { λ known. known ≡ Tsize 0 };

    /// `tsize` 0, as a read requests it. It fills the unused elements of a list.
    fn default() -> Known {
        Known::Tsize(0)
    }
}
