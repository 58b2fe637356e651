//! The bytes of the ERROR packets that are sent.

ghost use Rattle.std.specs.Prelude.{◌≡◌, ◌++◌, ◌+◌, ◌≤◌, IsOk, length, OnOk, OnErr, vec_capacity};
ghost use Rattle.std.specs.Prelude.{vec_len};
ghost use Rattle.tftp_ends.specs.Shortage.{HasNoRoom};
ghost use Rattle.tftp_ends.specs.Step.{error_bytes};

use crate::error_reply::ErrorReply;
use std::alloc::AllocError;

/// The length of the longest ERROR that is sent, in bytes.
pub const MAX_ERROR: usize = 24;

impl ErrorReply {
    /// The bytes of the ERROR packet.
    pub fn datagram(self) -> &'static [u8]
        ensures bytes { result.now ≡ error_bytes self }
        ensures short { length result.now ≤ MAX_ERROR }
    {
        match self {
            ErrorReply::FileTooLarge => b"\x00\x05\x00\x00file too large\x00",
            ErrorReply::ServerBusy => b"\x00\x05\x00\x00server busy\x00",
            ErrorReply::FileChanged => b"\x00\x05\x00\x00file changed\x00",
            ErrorReply::NotNetascii => b"\x00\x05\x00\x00not netascii\x00",
            ErrorReply::FileNotFound => b"\x00\x05\x00\x01file not found\x00",
            ErrorReply::AccessViolation => b"\x00\x05\x00\x02access violation\x00",
            ErrorReply::DiskFull => b"\x00\x05\x00\x03disk full\x00",
            ErrorReply::IllegalOperation => b"\x00\x05\x00\x04illegal operation\x00",
            ErrorReply::UnknownTransferId => b"\x00\x05\x00\x05unknown transfer id\x00",
            ErrorReply::FileExists => b"\x00\x05\x00\x06file exists\x00",
            ErrorReply::OptionRefused => b"\x00\x05\x00\x08option refused\x00",
        }
    }

    /// Appends the bytes of the ERROR packet. It fails only if out of memory, and then appends
    /// nothing. With spare capacity of [`MAX_ERROR`] bytes it does not fail.
    pub fn append_to(self, out: &mut Vec<u8>) -> Result<(), AllocError>
        ensures ok { OnOk result (out.new.items ≡ out.old.items ++ error_bytes self) }
        ensures err { OnErr result (out.new.items ≡ out.old.items) }
        ensures room { length out.old.items + MAX_ERROR ≤ vec_capacity out.old → IsOk result }
        ensures capacity { vec_capacity out.old ≤ vec_capacity out.new }
        ensures why { OnErr result
            (HasNoRoom (vec_capacity out.old) (vec_len out.old) (length (error_bytes self))) }
    {
        out.extend_from_slice(self.datagram())
    }
}
