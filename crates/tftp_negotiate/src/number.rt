//! The number of an option's value.

ghost use Rattle.std.specs.Prelude.{◌≡◌, ◌↔◌, ◌<◌, ◌^◌, ℕ, IfSome, IsTrue, None, get_or, length};
ghost use Rattle.std.specs.Fmt.{decimal};
ghost use Rattle.std.specs.Str.Parse.{AllDigits, digits_value};
ghost use Rattle.tftp_negotiate.specs.Options.{number_of};

/// The number below 2^64 whose decimal digits are this text: no sign, no space, and no leading zero
/// except in `0`. The RFCs require only ASCII; by our own choice one spelling is valid.
#[inline(never)]
pub(crate) fn number_of(text: &[u8]) -> Option<u64>
    ensures { result ≡ number_of text.now }
{
    if !begins_number(text) {
        return None;
    }
    value_of(text)
}

/// Whether the text has a first byte, and none after a first zero.
fn begins_number(text: &[u8]) -> bool
    ensures { IsTrue result
        ↔ ((0 < length text.now) × (get_or text.now 0 0 ≡ 48 → length text.now ≡ 1)) }
{
    !text.is_empty() && (text[0] != b'0' || text.len() == 1)
}

/// The number that decimal digits write, leading zeros or not, if it is below 2^64.
fn value_of(text: &[u8]) -> Option<u64>
    ensures value { IfSome result (λ n. n ≡ digits_value 10 text.now) }
    ensures digits { IfSome result (λ _. AllDigits 10 text.now) }
    ensures small { IfSome result (λ n. n < 2 ^ 64) }
    ensures none { result ≡ None → (n : ℕ) → n < 2 ^ 64 → text.now ≡ decimal n → ⊥ }
{
    let mut number = 0u64;
    for byte in text {
        if !byte.is_ascii_digit() {
            return None;
        }
        number = number
            .checked_mul(10)?
            .checked_add(u64::from(*byte - b'0'))?;
    }
    Some(number)
}
