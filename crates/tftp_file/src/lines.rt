//! Finds the bytes that netascii sends as pairs (RFC 764).

ghost use Rattle.std.specs.Prelude.{◌≡◌, ◌≤◌, ◌++◌, length};
ghost use Rattle.std.specs.List.{count_by, position_or_len};
ghost use Rattle.tftp_file.specs.Netascii.{netascii_text};
ghost use Rattle.tftp_file.specs.Lines.{EndsAtLine, is_line_byte};

/// The line feed, which is sent as CR LF.
pub(crate) const LF: u8 = b'\n';

/// The carriage return, which is sent as CR NUL.
pub(crate) const CR: u8 = b'\r';

/// The byte after a CR that is not part of a line end.
pub(crate) const NUL: u8 = 0;

/// Whether the byte is LF or CR.
fn is_line_byte(byte: u8) -> bool
    ensures { result ≡ is_line_byte byte }
{
    byte == LF || byte == CR
}

/// The number of bytes that are LF or CR, each of which has two bytes of wire text.
pub(crate) fn line_byte_count(bytes: &[u8]) -> usize
    ensures { result ≡ count_by is_line_byte bytes.now }
{
    let mut count = 0;
    for byte in bytes {
        count += usize::from(is_line_byte(*byte));
    }
    count
}

/// The index of the first CR or LF, or else the length.
fn run_length(text: &[u8]) -> usize
    ensures index { result ≡ position_or_len is_line_byte text.now }
    ensures within { result ≤ length text.now }
{
    let mut at = 0;
    for byte in text {
        if is_line_byte(*byte) {
            return at;
        }
        at += 1;
    }
    at
}

/// The text before its first CR or LF, which is sent unchanged, and the rest.
#[tactic(auto, using(crate::proofs::NetasciiLemmas::unescaped_front, crate::proofs::NetasciiLemmas::run_ends))]
pub(crate) fn split_run(text: &[u8]) -> (&[u8], &[u8])
    ensures parts { text.now ≡ result.0.now ++ result.1.now }
    ensures unescaped { netascii_text result.0.now ≡ result.0.now }
    ensures ends { EndsAtLine result.1.now }
{
    text.split_at(run_length(text))
}
