//! Known options, as encoded in a packet.

ghost use Rattle.std.specs.Prelude.{◌≡◌, ◌≤◌, ◌-◌, ◌*◌, ◌^◌, ◌++◌, length, min, OnOk, vec_capacity};
ghost use Rattle.tftp_wire.specs.Options.{option_bytes, options_bytes};
ghost use Rattle.tftp_negotiate.specs.Agreed.{agreed_options, known_option};

use itoa::Buffer;
use std::alloc::AllocError;
use tftp_negotiate::Known;
use tftp_wire::append_option;

/// The encoded length of an option, in bytes: its name, its value and two zero bytes (RFC 2347,
/// "Packet Formats").
#[inline(never)]
fn option_len(option: Known) -> usize
    ensures { result ≡ length (option_bytes (known_option option)) }
{
    let mut digits = Buffer::new();
    option.name().text().len() + digits.format(option.value()).len() + 2
}

/// The encoded length of the options, in bytes, or the greatest `usize` if it is more.
pub(crate) fn options_len(options: &[Known]) -> usize
    ensures { result ≡ min (length (options_bytes (agreed_options options.now))) (2 ^ 64 - 1) }
{
    let mut len = 0usize;
    for option in options {
        len = len.saturating_add(option_len(*option));
    }
    len
}

/// Appends an option: a name of at most seven letters, decimal digits and two zero bytes. It fails
/// only if out of memory.
fn append_known(out: &mut Vec<u8>, option: Known) -> Result<(), AllocError>
    ensures ok { OnOk result
        (out.new.items ≡ out.old.items ++ option_bytes (known_option option)) }
    ensures short { length (option_bytes (known_option option)) ≤ 49 }
    ensures capacity { vec_capacity out.old ≤ vec_capacity out.new }
{
    let mut digits = Buffer::new();
    let value = digits.format(option.value());
    append_option(out, option.name().text().as_bytes(), value.as_bytes())
}

/// Appends options to a request, or to the opcode of an OACK. It fails only if out of memory.
pub(crate) fn append_options(out: &mut Vec<u8>, options: &[Known]) -> Result<(), AllocError>
    ensures ok { OnOk result
        (out.new.items ≡ out.old.items ++ options_bytes (agreed_options options.now)) }
    ensures short { OnOk result
        (length (options_bytes (agreed_options options.now)) ≤ 49 * length options.now) }
    ensures capacity { vec_capacity out.old ≤ vec_capacity out.new }
{
    for option in options {
        append_known(out, *option)?;
    }
    Ok(())
}
