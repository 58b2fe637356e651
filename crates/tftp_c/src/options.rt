//! The options of a packet, for C: by their index and by name.

ghost use Rattle.std.specs.Prelude.{◌≡◌, option_map, length, take};
ghost use Rattle.tftp_wire.specs.Borrowed.{owned, owned_option};
ghost use Rattle.tftp_wire.specs.Options.{option_bytes};
ghost use Rattle.tftp_c.specs.Listed.{options_of, option_at, is_named, option_named, Lists};
ghost use Rattle.tftp_c.specs.Listed.{WritesOption};

use crate::error::copy_whole;
use std::alloc::Global;
use tftp_wire::{OptionRef, OptionsIter, OptionsRef, PacketRef, append_option, decode_ref};

/// The options of a packet that may have some.
fn options_of(packet: PacketRef<'_>) -> Option<OptionsRef<'_>>
    ensures { option_map (λ o. o) result ≡ options_of (owned packet.entry) }
{
    match packet {
        PacketRef::Read(it) => Some(it.options),
        PacketRef::Write(it) => Some(it.options),
        PacketRef::Oack(options) => Some(options),
        PacketRef::Data { .. } => None,
        PacketRef::Ack { .. } => None,
        PacketRef::Error { .. } => None,
    }
}

/// The options of the packet that a datagram spells, if it spells one that may have some.
pub(crate) fn listed_in(datagram: &[u8]) -> Option<OptionsRef<'_>>
    ensures { Lists datagram.now (option_map (λ o. o) result) }
{
    match decode_ref(datagram) {
        Ok(packet) => options_of(packet),
        Err(_) => None,
    }
}

/// The option at this index.
fn option_at<'a>(mut options: OptionsIter<'a>, index: usize) -> Option<OptionRef<'a>>
    ensures { option_map owned_option result ≡ option_at index options.entry }
{
    let mut left = index;
    while let Some(option) = options.next() {
        if left == 0 {
            return Some(option);
        }
        left -= 1;
    }
    None
}

/// Whether an option has this name, in any case (RFC 2347, "Packet Formats").
fn is_named(option: &OptionRef<'_>, name: &[u8]) -> bool
    ensures { result ≡ is_named name.now (owned_option option.now) }
{
    option.name.eq_ignore_ascii_case(name)
}

/// The first option of this name.
fn option_named<'a>(mut options: OptionsIter<'a>, name: &[u8]) -> Option<OptionRef<'a>>
    ensures { option_map owned_option result ≡ option_named name.now options.entry }
{
    while let Some(option) = options.next() {
        if is_named(&option, name) {
            return Some(option);
        }
    }
    None
}

/// The name and the value, each ended by a zero byte, and how many bytes they are; 0 if they do not
/// fit, or without memory.
fn write(alloc: Global, option: OptionRef<'_>, text: &mut [u8]) -> usize
    ensures len { (result ≡ 0 → ⊥) → result ≡ length (option_bytes (owned_option option.entry)) }
    ensures written { (result ≡ 0 → ⊥)
        → take result text.new ≡ option_bytes (owned_option option.entry) }
{
    let mut out = Vec::new(alloc);
    match append_option(&mut out, option.name, option.value) {
        Ok(()) => copy_whole(out.as_slice(), text),
        Err(_) => 0,
    }
}

/// Writes the option at this index of the packet that a datagram spells, its name and its value each
/// ended by a zero byte, and returns how many bytes they are; 0 if there is none.
#[unsafe(no_mangle)]
pub extern "C" fn tftp_option(
    alloc: Global,
    datagram: &[u8],
    index: usize,
    text: &mut [u8],
) -> usize
    ensures { (result ≡ 0 → ⊥) → WritesOption (option_at index) datagram.now text.new result }
{
    match listed_in(datagram) {
        Some(options) => match option_at(options.iter(), index) {
            Some(option) => write(alloc, option, text),
            None => 0,
        },
        None => 0,
    }
}

/// As [`tftp_option`], the first option of this name, in any case.
#[unsafe(no_mangle)]
pub extern "C" fn tftp_find_option(
    alloc: Global,
    datagram: &[u8],
    name: &[u8],
    text: &mut [u8],
) -> usize
    ensures { (result ≡ 0 → ⊥) → WritesOption (option_named name.now) datagram.now text.new result }
{
    match listed_in(datagram) {
        Some(options) => match option_named(options.iter(), name) {
            Some(option) => write(alloc, option, text),
            None => 0,
        },
        None => 0,
    }
}
