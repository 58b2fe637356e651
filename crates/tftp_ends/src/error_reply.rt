//! The ERROR packets that are sent: the code and the text of each.

ghost use Rattle.std.specs.Prelude.{◌≡◌};
ghost use Rattle.tftp_ends.specs.ErrorReply.{code_of, text_of};

/// An ERROR that we send (RFC 1350, appendix I; RFC 2347, "Negotiation Protocol" for code 8).
#[derive(Clone, Copy, Debug, PartialEq, Eq)]
pub enum ErrorReply {
    /// The file has too many blocks for the block size, or exceeds the size limit.
    FileTooLarge,
    /// The limit of transfers is reached.
    ServerBusy,
    /// The file could not be read to the length that was measured.
    FileChanged,
    /// The received text is not valid netascii.
    NotNetascii,
    /// There is no such file.
    FileNotFound,
    /// The name is not allowed, or the file could not be opened.
    AccessViolation,
    /// The store refused bytes, or the file exceeds the size limit.
    DiskFull,
    /// A packet that is not valid in this state.
    IllegalOperation,
    /// A datagram from an endpoint other than the peer.
    UnknownTransferId,
    /// A file with this name exists.
    FileExists,
    /// The options could not be agreed on.
    OptionRefused,
}

impl ErrorReply {
    /// The error code.
    pub fn code(self) -> u16
        ensures { result ≡ code_of self }
    {
        match self {
            ErrorReply::FileTooLarge
            | ErrorReply::ServerBusy
            | ErrorReply::FileChanged
            | ErrorReply::NotNetascii => 0,
            ErrorReply::FileNotFound => 1,
            ErrorReply::AccessViolation => 2,
            ErrorReply::DiskFull => 3,
            ErrorReply::IllegalOperation => 4,
            ErrorReply::UnknownTransferId => 5,
            ErrorReply::FileExists => 6,
            ErrorReply::OptionRefused => 8,
        }
    }

    /// The text, for the operator of the other end.
    pub fn text(self) -> &'static str
        ensures { result.now ≡ text_of self }
    {
        match self {
            ErrorReply::FileTooLarge => "file too large",
            ErrorReply::ServerBusy => "server busy",
            ErrorReply::FileChanged => "file changed",
            ErrorReply::NotNetascii => "not netascii",
            ErrorReply::FileNotFound => "file not found",
            ErrorReply::AccessViolation => "access violation",
            ErrorReply::DiskFull => "disk full",
            ErrorReply::IllegalOperation => "illegal operation",
            ErrorReply::UnknownTransferId => "unknown transfer id",
            ErrorReply::FileExists => "file exists",
            ErrorReply::OptionRefused => "option refused",
        }
    }
}
