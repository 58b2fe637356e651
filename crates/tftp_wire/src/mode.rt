//! The two transfer modes that are supported.

ghost use Rattle.std.specs.Prelude.{◌≡◌};
ghost use Rattle.tftp_wire.specs.Modes.{mode_word};

/// How the bytes of a file are sent (RFC 1350, section 1). The mode `mail` is not supported.
#[derive(Clone, Copy, Debug, PartialEq, Eq)]
pub enum Mode {
    /// Each byte is sent unchanged.
    Octet,
    /// Lines end in CR LF, and a lone CR is sent as CR NUL (RFC 764).
    Netascii,
}

impl Mode {
    /// The mode's word in a request, in lower case.
    pub fn word(self) -> &'static str
        ensures { result.now ≡ mode_word self }
    {
        match self {
            Mode::Octet => "octet",
            Mode::Netascii => "netascii",
        }
    }
}
