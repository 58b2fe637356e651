//! Appends packets from borrowed parts, each in its canonical spelling.
//!
//! Each call appends all of its bytes or none. It fails only when out of memory, and never if the
//! capacity that it needs is reserved. One call begins a request or an OACK, and a further call
//! appends each option.

ghost use Rattle.std.specs.Prelude.{◌≡◌, ◌≤◌, ◌+◌, ◌++◌, [], ◌∷◌, length, IsOk, OnOk, OnErr};
ghost use Rattle.std.specs.Prelude.{vec_len, vec_capacity};
ghost use Rattle.byteorder.specs.Endian.{big_bytes};
ghost use Rattle.tftp_wire.specs.Modes.{mode_word};
ghost use Rattle.tftp_wire.specs.Options.{option_bytes};
ghost use Rattle.tftp_wire.specs.Spelling.{canonical, default_request, request_bytes};
ghost use Rattle.tftp_wire.specs.Texts.{zero_ended};
ghost use Rattle.tftp_wire.specs.declared.packet.Packet.TheVariants.{Read, Write, Data, Ack, Error};
ghost use Rattle.tftp_wire.specs.declared.packet.Packet.TheVariants.{Oack};

use crate::limits::HEADER;
use crate::mode::Mode;
use crate::opcode::{ACK, DATA, ERROR, OACK, READ, WRITE};
use byteorder::{BigEndian, ByteOrder};
use std::alloc::AllocError;

/// Appends an ACK.
pub fn append_ack(out: &mut Vec<u8>, block: u16) -> Result<(), AllocError>
    ensures ok { OnOk result (out.new.items ≡ out.old.items ++ canonical (Ack block)) }
    ensures err { OnErr result (out.new.items ≡ out.old.items) }
    ensures room { vec_len out.old + HEADER ≤ vec_capacity out.old → IsOk result }
    ensures capacity { vec_capacity out.old ≤ vec_capacity out.new }
{
    out.extend_from_slice(&header(ACK, block))
}

/// Appends the header of a DATA. The caller appends the bytes of the block.
pub fn append_data_header(out: &mut Vec<u8>, block: u16) -> Result<(), AllocError>
    ensures ok { OnOk result (out.new.items ≡ out.old.items ++ canonical (Data block [])) }
    ensures err { OnErr result (out.new.items ≡ out.old.items) }
    ensures room { vec_len out.old + HEADER ≤ vec_capacity out.old → IsOk result }
    ensures capacity { vec_capacity out.old ≤ vec_capacity out.new }
{
    out.extend_from_slice(&header(DATA, block))
}

/// Appends a DATA.
pub fn append_data(out: &mut Vec<u8>, block: u16, bytes: &[u8]) -> Result<(), AllocError>
    ensures ok { OnOk result (out.new.items ≡ out.old.items ++ canonical (Data block bytes.now)) }
    ensures err { OnErr result (out.new.items ≡ out.old.items) }
    ensures room { vec_len out.old + (HEADER + length bytes.now) ≤ vec_capacity out.old
        → IsOk result }
    ensures capacity { vec_capacity out.old ≤ vec_capacity out.new }
{
    out.reserve(HEADER + bytes.len())?;
    append_reserved(out, &header(DATA, block));
    append_reserved(out, bytes);
    Ok(())
}

/// Appends an ERROR.
pub fn append_error(out: &mut Vec<u8>, code: u16, text: &[u8]) -> Result<(), AllocError>
    ensures ok { OnOk result (out.new.items ≡ out.old.items ++ canonical (Error code text.now)) }
    ensures err { OnErr result (out.new.items ≡ out.old.items) }
    ensures room { vec_len out.old + (HEADER + length text.now + 1) ≤ vec_capacity out.old
        → IsOk result }
    ensures capacity { vec_capacity out.old ≤ vec_capacity out.new }
{
    out.reserve(HEADER + text.len() + 1)?;
    append_reserved(out, &header(ERROR, code));
    put_text(out, text);
    Ok(())
}

/// Appends a read request without options. [`append_option`] appends each option.
pub fn append_read(out: &mut Vec<u8>, name: &[u8], mode: Mode) -> Result<(), AllocError>
    ensures ok { OnOk result
        (out.new.items ≡ out.old.items ++ canonical (Read (default_request name.now mode))) }
    ensures err { OnErr result (out.new.items ≡ out.old.items) }
    ensures room { vec_len out.old + (length name.now + length (mode_word mode) + 4)
        ≤ vec_capacity out.old → IsOk result }
    ensures capacity { vec_capacity out.old ≤ vec_capacity out.new }
{
    append_request(out, READ, name, mode)
}

/// Appends a write request without options. [`append_option`] appends each option.
pub fn append_write(out: &mut Vec<u8>, name: &[u8], mode: Mode) -> Result<(), AllocError>
    ensures ok { OnOk result
        (out.new.items ≡ out.old.items ++ canonical (Write (default_request name.now mode))) }
    ensures err { OnErr result (out.new.items ≡ out.old.items) }
    ensures room { vec_len out.old + (length name.now + length (mode_word mode) + 4)
        ≤ vec_capacity out.old → IsOk result }
    ensures capacity { vec_capacity out.old ≤ vec_capacity out.new }
{
    append_request(out, WRITE, name, mode)
}

fn append_request(out: &mut Vec<u8>, opcode: u16, name: &[u8], mode: Mode) -> Result<(), AllocError>
    ensures ok { OnOk result (out.new.items
        ≡ out.old.items ++ request_bytes opcode (mode_word mode) (default_request name.now mode)) }
    ensures err { OnErr result (out.new.items ≡ out.old.items) }
    ensures room { vec_len out.old + (length name.now + length (mode_word mode) + 4)
        ≤ vec_capacity out.old → IsOk result }
    ensures capacity { vec_capacity out.old ≤ vec_capacity out.new }
{
    let word = mode.word().as_bytes();
    // The opcode has two bytes, and a zero byte ends each of the two texts.
    out.reserve(name.len() + word.len() + 4)?;
    append_reserved(out, &opcode.to_be_bytes());
    put_text(out, name);
    put_text(out, word);
    Ok(())
}

/// Appends the opcode of an OACK. [`append_option`] appends each option.
pub fn append_oack_header(out: &mut Vec<u8>) -> Result<(), AllocError>
    ensures ok { OnOk result (out.new.items ≡ out.old.items ++ canonical (Oack [])) }
    ensures err { OnErr result (out.new.items ≡ out.old.items) }
    ensures room { vec_len out.old + 2 ≤ vec_capacity out.old → IsOk result }
    ensures capacity { vec_capacity out.old ≤ vec_capacity out.new }
{
    out.extend_from_slice(&OACK.to_be_bytes())
}

/// Appends an option of a request or of an OACK.
pub fn append_option(out: &mut Vec<u8>, name: &[u8], value: &[u8]) -> Result<(), AllocError>
    ensures ok { OnOk result (out.new.items
        ≡ out.old.items ++ option_bytes (record { name = name.now; value = value.now })) }
    ensures err { OnErr result (out.new.items ≡ out.old.items) }
    ensures room { vec_len out.old + (length name.now + length value.now + 2) ≤ vec_capacity out.old
        → IsOk result }
    ensures capacity { vec_capacity out.old ≤ vec_capacity out.new }
{
    out.reserve(name.len().saturating_add(value.len()).saturating_add(2))?;
    put_text(out, name);
    put_text(out, value);
    Ok(())
}

fn header(opcode: u16, number: u16) -> [u8; 4]
    ensures { result ≡ big_bytes 2 opcode ++ big_bytes 2 number }
{
    let mut bytes = [0; HEADER];
    BigEndian::write_u16(&mut bytes, opcode);
    BigEndian::write_u16(&mut bytes[2..], number);
    bytes
}

// Inlined, the loop of each copy would be of some 300 bytes.
#[inline(never)]
fn put_text(out: &mut Vec<u8>, text: &[u8])
    requires { vec_len out.old + (length text.now + 1) ≤ vec_capacity out.old }
    ensures items { out.new.items ≡ out.old.items ++ zero_ended text.now }
    ensures capacity { vec_capacity out.old ≤ vec_capacity out.new }
    ensures len { vec_len out.new ≡ vec_len out.old + (length text.now + 1) }
{
    append_reserved(out, text);
    append_reserved(out, &[0]);
}

/// Appends bytes to a buffer with capacity for them. Its code is shared: each copy of bytes that is
/// inlined has some 300 bytes.
#[inline(never)]
pub fn append_reserved(out: &mut Vec<u8>, bytes: &[u8])
    requires { vec_len out.old + length bytes.now ≤ vec_capacity out.old }
    ensures items { out.new.items ≡ out.old.items ++ bytes.now }
    ensures capacity { vec_capacity out.old ≤ vec_capacity out.new }
    ensures len { vec_len out.new ≡ vec_len out.old + length bytes.now }
{
    out.extend_from_slice(bytes).unwrap();
}
