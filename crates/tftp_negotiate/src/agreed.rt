//! The options that both ends of a transfer agree on.

ghost use Rattle.std.specs.Prelude.{◌≡◌, ◌↔◌, [], ◌∷◌, ◌++◌, IsTrue, IfSome};
ghost use Rattle.tftp_negotiate.specs.Agreed.{IsAgreement, size, timeout_of};
ghost use Rattle.tftp_negotiate.specs.Ranges.{IsBlockSize, IsTimeout};

use crate::known::Known;
use crate::limits::DEFAULT_BLOCK;
use arrayvec::ArrayVec;
use std::marker::Model;

/// The agreed options, in the order of the request or the OACK, each at most once and with a value
/// in its range (RFC 2347, "Negotiation Protocol"). Without options the defaults of RFC 1350 apply.
/// Its model is the list.
#[derive(Debug, Drop)]
pub struct Agreed {
    list: ArrayVec<Known, 3>,
}

impl Model for Agreed {
    ghost use Rattle.std.specs.Prelude.{List};
    ghost use Rattle.tftp_negotiate.specs.declared.known.Known.{Known};
    ghost use Rattle.tftp_negotiate.specs.Agreed.{IsAgreement};

    ghost Value = { List Known };

    ghost view = { λ a. a.list.items };

    ghost invariant = { λ a. IsAgreement a.list.items };
}

impl Default for Agreed {
    ghost is_default = { λ a. a ≡ [] };

    fn default() -> Agreed {
        Agreed::new()
    }
}

impl Agreed {
    /// The agreement without options.
    pub fn new() -> Agreed
        ensures { result ≡ [] }
    {
        Agreed {
            list: ArrayVec::new(),
        }
    }

    /// The options, in order.
    pub fn as_slice(&self) -> &[Known]
        ensures options { result.now ≡ self.now }
        ensures rule { IsAgreement self.now }
    {
        self.list.as_slice()
    }

    /// Whether no option is agreed. Then no OACK is sent.
    pub fn is_empty(&self) -> bool
        ensures { IsTrue result ↔ (self.now ≡ []) }
    {
        self.list.as_slice().is_empty()
    }

    /// The size of a block, in data bytes: `blksize`, or `DEFAULT_BLOCK` if it is not agreed
    /// (RFC 2348, "Blocksize Option Specification"; RFC 1350, section 2).
    pub fn block_size(&self) -> u16
        ensures size { result ≡ size self.now }
        ensures range { IsBlockSize result }
    {
        for option in self.list.as_slice() {
            if let Known::Blksize(size) = option {
                return *size;
            }
        }
        DEFAULT_BLOCK
    }

    /// The seconds before a retransmission, if they are agreed
    /// (RFC 2349, "Timeout Interval Option Specification").
    pub fn timeout(&self) -> Option<u8>
        ensures timeout { result ≡ timeout_of self.now }
        ensures range { IfSome result IsTimeout }
    {
        for option in self.list.as_slice() {
            if let Known::Timeout(seconds) = option {
                return Some(*seconds);
            }
        }
        None
    }

    /// Appends an option.
    #[inline(never)]
    pub(crate) fn with(mut self, option: Known) -> Agreed
        requires { IsAgreement (self ++ option ∷ []) }
        ensures { result ≡ self ++ option ∷ [] }
    {
        self.list.push(option);
        self
    }
}
