//! Hexadecimal digits, two for a byte, as the crate `hex` decodes them.
//!
//! The loops have no branch on a digit, so that the compiler can vectorize them.

ghost use Rattle.std.specs.Prelude.{◌≡◌, ◌*◌, Ok, OnOk, is_ok, length, true};
ghost use Rattle.std.specs.List.{list_all};
ghost use Rattle.hex.specs.Hex.{decode_of, is_hex_digit};
ghost use Rattle.tftp_show.specs.Digits.{bytes_of, pair_value, value_of};

use std::alloc::AllocError;

/// Whether all are hexadecimal digits, two for a byte.
pub(crate) fn is_hex(digits: &[u8]) -> bool
    ensures { result ≡ is_ok (decode_of digits.now) }
{
    digits.len() % 2 == 0 && are_digits(digits)
}

/// Decodes digits into `bytes`, whose content is replaced.
pub(crate) fn decode_digits(digits: &[u8], bytes: &mut Vec<u8>) -> Result<(), AllocError>
    requires { is_ok (decode_of digits.now) ≡ true }
    ensures { OnOk result (decode_of digits.now ≡ Ok bytes.new.items) }
{
    bytes.resize(digits.len() / 2, 0)?;
    decode_pairs(digits, bytes.as_mut_slice());
    Ok(())
}

fn are_digits(bytes: &[u8]) -> bool
    ensures { result ≡ list_all is_hex_digit bytes.now }
{
    let mut all = true;
    for byte in bytes {
        all &= byte.is_ascii_hexdigit();
    }
    all
}

fn decode_pairs(digits: &[u8], bytes: &mut [u8])
    requires { length digits.now ≡ 2 * length bytes.old }
    ensures { bytes.new ≡ bytes_of digits.now }
{
    for i in 0..bytes.len() {
        bytes[i] = byte_of(digits[2 * i], digits[2 * i + 1]);
    }
}

/// The byte of two digits.
pub(crate) fn byte_of(high: u8, low: u8) -> u8
    ensures { result ≡ pair_value high low }
{
    digit_value(high)
        .wrapping_mul(16)
        .wrapping_add(digit_value(low))
}

/// The value of a digit: its low four bits, and nine more for a letter, which has bit 6 set.
fn digit_value(digit: u8) -> u8
    ensures { result ≡ value_of digit }
{
    digit % 16 + 9 * (digit / 64)
}
