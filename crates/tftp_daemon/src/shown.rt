//! Words of a command line, as messages echo them.

use std::fmt;

/// A word of a command line, on one line whatever bytes it has: `%` and each byte that is no visible
/// ASCII and no space is `%` and two hexadecimal digits, as in a line of the log.
#[derive(Clone, Copy)]
pub(crate) struct Shown<'a>(pub(crate) &'a str);

impl fmt::Display for Shown<'_> {
    fn fmt<W: fmt::Write>(&self, f: &mut fmt::Formatter<W>) -> fmt::Result {
        for byte in self.0.bytes() {
            show(byte, f)?;
        }
        Ok(())
    }
}

/// Writes a byte, or its digits.
fn show<W: fmt::Write>(byte: u8, f: &mut fmt::Formatter<W>) -> fmt::Result {
    match byte {
        b'%' => f.write_str("%25"),
        b' '..=b'~' => f.write_char(char::from(byte)),
        _ => write!(f, "%{byte:02x}"),
    }
}
