//! Text in a picture, escaped for XML.

ghost use Rattle.std.specs.Prelude.{◌≡◌, ◌++◌, ◌∷◌, [], true, map, IfOk, OnOk};
ghost use Rattle.std.specs.List.{list_all};
ghost use Rattle.std.specs.String.{string_bytes};
ghost use Rattle.tftp_diagram.specs.Escape.{ascii_byte, escaped, escaped_byte, is_text_byte};

use std::alloc::{AllocError, Global};

/// Appends text so that XML reads it back, in an element and in an attribute alike (XML 1.0,
/// section 2.4). What is not visible ASCII or a space becomes a question mark, so that no byte is
/// left that XML forbids (section 2.2).
#[tactic(auto, using(crate::proofs::EscapeLemmas::escaped_is_text))]
pub(crate) fn push_escaped(out: &mut String, text: &str) -> Result<(), AllocError>
    ensures appended { OnOk result (string_bytes out.new
        ≡ string_bytes out.old ++ escaped text.now) }
    ensures text { list_all is_text_byte (escaped text.now) ≡ true }
{
    let bytes = text.as_bytes();
    for byte in bytes {
        push_escaped_byte(out, *byte)?;
    }
    Ok(())
}

/// Bytes as text, a letter each: a question mark for what is not visible ASCII or a space.
pub fn ascii_text(alloc: Global, bytes: &[u8]) -> Result<String, AllocError>
    ensures { IfOk result (λ text. string_bytes text ≡ map ascii_byte bytes.now) }
{
    let mut text = String::new(alloc);
    for byte in bytes {
        push_ascii_byte(&mut text, *byte)?;
    }
    Ok(text)
}

fn push_ascii_byte(out: &mut String, byte: u8) -> Result<(), AllocError>
    ensures { OnOk result (string_bytes out.new ≡ string_bytes out.old ++ ascii_byte byte ∷ []) }
{
    match byte {
        b' '..=b'~' => out.push(char::from(byte)),
        _ => out.push('?'),
    }
}

fn push_escaped_byte(out: &mut String, byte: u8) -> Result<(), AllocError>
    ensures { OnOk result (string_bytes out.new ≡ string_bytes out.old ++ escaped_byte byte) }
{
    match byte {
        b'<' => out.push_str("&lt;"),
        b'>' => out.push_str("&gt;"),
        b'&' => out.push_str("&amp;"),
        b'"' => out.push_str("&quot;"),
        b' '..=b'~' => out.push(char::from(byte)),
        _ => out.push('?'),
    }
}
