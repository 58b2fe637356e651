//! The options that a client requests.

ghost use Rattle.std.specs.Prelude.{◌≡◌, ◌↔◌, ◌++◌, ◌<◌, ◌+◌, IfSome, IsTrue};
ghost use Rattle.arrayvec.specs.ArrayVec.{array_vec_len};
ghost use Rattle.tftp_negotiate.specs.Agreed.{agreed_options};
ghost use Rattle.tftp_negotiate.specs.Asked.{IsAskable, IsFor, asked_tsize, asked_options};
ghost use Rattle.tftp_negotiate.specs.Asked.{known_if};
ghost use Rattle.tftp_negotiate.specs.Ranges.{IsBlockSize, IsTimeout};

use crate::known::{Kind, Known};
use crate::limits::{is_block_size, is_timeout};
use arrayvec::ArrayVec;
use tftp_wire::Mode;

/// The options that a client requests, each with its value. An option that is `None` is not sent.
#[derive(Clone, Copy, Debug, Default, PartialEq, Eq)]
pub struct Asked {
    /// The maximum block size, in data bytes, `MIN_BLOCK` to `MAX_BLOCK`
    /// (RFC 2348, "Blocksize Option Specification").
    pub blksize: Option<u16>,
    /// The seconds before a retransmission, 1 to 255
    /// (RFC 2349, "Timeout Interval Option Specification").
    pub timeout: Option<u8>,
    /// In bytes of wire text: 0 for a read, the file's length for a write
    /// (RFC 2349, "Transfer Size Option Specification"). In netascii it is not sent, since the
    /// length is not known before the file is encoded.
    pub tsize: Option<u64>,
}

impl Asked {
    /// Whether a transfer of this kind and mode may request this. `length` is the file's, in bytes
    /// of wire text; a read ignores it.
    pub fn is_for(&self, kind: Kind, mode: Mode, length: u64) -> bool
        ensures { IsTrue result ↔ IsFor self.now kind mode length }
    {
        if !self.is_askable() {
            return false;
        }
        let Some(tsize) = self.tsize_in(mode) else {
            return true;
        };
        match kind {
            Kind::Read => tsize == 0,
            Kind::Write => tsize == length,
        }
    }

    /// Whether `blksize` and `timeout`, if requested, are in their ranges.
    pub fn is_askable(&self) -> bool
        ensures { IsTrue result ↔ IsAskable self.now }
    {
        may_ask_size(self.blksize) && may_ask_timeout(self.timeout)
    }

    /// The options requested in this mode, in the order of the request.
    pub fn options(&self, mode: Mode) -> ArrayVec<Known, 3>
        ensures { agreed_options result.items ≡ asked_options self.now mode }
    {
        let none = ArrayVec::new();
        let sized = with_option(none, self.blksize.map(Known::Blksize));
        let timed = with_option(sized, self.timeout.map(Known::Timeout));
        with_option(timed, self.tsize_in(mode).map(Known::Tsize))
    }

    /// The `tsize` requested in this mode: none in netascii.
    pub fn tsize_in(&self, mode: Mode) -> Option<u64>
        ensures { result ≡ asked_tsize mode self.now }
    {
        match mode {
            Mode::Octet => self.tsize,
            Mode::Netascii => None,
        }
    }
}

/// Whether this block size, if there is one, may be requested.
fn may_ask_size(size: Option<u16>) -> bool
    ensures { IsTrue result ↔ IfSome size IsBlockSize }
{
    match size {
        Some(size) => is_block_size(u64::from(size)),
        None => true,
    }
}

/// Whether this timeout, if there is one, may be requested.
fn may_ask_timeout(timeout: Option<u8>) -> bool
    ensures { IsTrue result ↔ IfSome timeout IsTimeout }
{
    match timeout {
        Some(seconds) => is_timeout(u64::from(seconds)),
        None => true,
    }
}

/// Appends an option, if there is one.
#[inline(never)]
fn with_option(mut options: ArrayVec<Known, 3>, option: Option<Known>) -> ArrayVec<Known, 3>
    requires { array_vec_len options < 3 }
    ensures items { result.items ≡ options.items ++ known_if option }
    ensures len { array_vec_len result < array_vec_len options + 2 }
{
    match option {
        Some(known) => {
            options.push(known);
            options
        }
        None => options,
    }
}
