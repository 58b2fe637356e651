//! The texts of a datagram, each ended by a zero byte.

ghost use Rattle.std.specs.Prelude.{◌≡◌, ◌==◌, ◌++◌, ◌↔◌, IsTrue, MatchOption, position};
ghost use Rattle.tftp_wire.specs.Texts.{IsText, zero_ended};

/// The first text of the bytes, and the bytes after its zero byte; `None` if no byte is zero.
pub fn split_text(bytes: &[u8]) -> Option<(&[u8], &[u8])>
    ensures { MatchOption result (IsText bytes.now) (λ parts.
        IsText parts.0.now × (bytes.now ≡ zero_ended parts.0.now ++ parts.1.now)) }
{
    let end = first_zero(bytes)?;
    Some((&bytes[..end], &bytes[end + 1..]))
}

/// The index of the first zero byte.
fn first_zero(bytes: &[u8]) -> Option<usize>
    ensures { result ≡ position (λ b. b == 0) bytes.now }
{
    bytes.iter().position(|b| *b == 0)
}

/// Whether the bytes are a text: they contain no zero byte.
pub fn is_text(bytes: &[u8]) -> bool
    ensures { IsTrue result ↔ IsText bytes.now }
{
    for byte in bytes {
        if *byte == 0 {
            return false;
        }
    }
    true
}
