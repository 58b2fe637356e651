//! The length of a file on the wire.

ghost use Rattle.std.specs.Prelude.{◌≡◌, ◌≤◌, ◌+◌, ◌*◌, length, min, IfOk, IfErr, IfSome};
ghost use Rattle.tftp_file.specs.Netascii.{wire_text};
ghost use Rattle.tftp_file.specs.Length.{up_to};
ghost use Rattle.tftp_file.specs.declared.fault.FileFault.TheVariants.{Read as ReadFault};

use crate::fault::FileFault;
use crate::lines::line_byte_count;
use std::io::Read;
use tftp_wire::Mode;

/// The maximum length of a wire text at any block size, in bytes: 65,535 blocks of 65,464 bytes,
/// the last of them one byte short (RFC 2348, "Blocksize Option Specification").
pub const MAX_WIRE: u64 = 4_290_183_239;

// Our own number: what 65,535 blocks of the largest size hold, if the last is short.
const _: () = prove!(MAX_WIRE == 65_535 * 65_464 - 1);

const CHUNK: usize = 8192;

/// The length of the reader's text on the wire, in bytes, or `MAX_WIRE + 1` if it is greater; it
/// then reads no further. It returns `Read` if reading fails. Allocates no memory.
pub fn wire_length<R: Read + Drop>(reader: R, mode: Mode) -> Result<u64, FileFault>
    ensures ok { IfOk result (λ count. IfSome (R.remaining reader)
        (λ bytes. count ≡ min (length (wire_text mode bytes)) (MAX_WIRE + 1))) }
    ensures within { IfOk result (λ count. count ≤ MAX_WIRE + 1) }
    ensures read { IfErr result (λ fault. fault ≡ ReadFault) }
{
    match wire_length_up_to(reader, mode, MAX_WIRE) {
        Ok(Some(count)) => Ok(count),
        Ok(None) => Ok(MAX_WIRE + 1),
        Err(fault) => Err(fault),
    }
}

/// The length of the reader's text on the wire, in bytes, or `None` if it is greater than `most` or
/// [`MAX_WIRE`]; it then reads no further. It returns `Read` if reading fails. Allocates no memory.
pub fn wire_length_up_to<R: Read + Drop>(
    mut reader: R,
    mode: Mode,
    most: u64,
) -> Result<Option<u64>, FileFault>
    ensures ok { IfOk result (λ found. IfSome (R.remaining reader)
        (λ bytes. found ≡ up_to (min most MAX_WIRE) (length (wire_text mode bytes)))) }
    ensures within { IfOk result (λ found. IfSome found (λ count. count ≤ min most MAX_WIRE)) }
    ensures read { IfErr result (λ fault. fault ≡ ReadFault) }
{
    let limit = most.min(MAX_WIRE);
    let mut chunk = [0; CHUNK];
    let mut total = 0;
    while total <= limit {
        let Ok(count) = reader.read(&mut chunk) else {
            return Err(FileFault::Read);
        };
        if count == 0 {
            return Ok(Some(total));
        }
        total += wire_count(&chunk[..count], mode) as u64;
    }
    Ok(None)
}

/// The length of the wire text of the bytes in the mode, in bytes, or `most` if it is greater. It
/// takes linear time, and allocates no memory.
pub fn wire_length_within(bytes: &[u8], mode: Mode, most: u64) -> u64
    ensures { result ≡ min (length (wire_text mode bytes.now)) most }
{
    let length = bytes.len() as u64;
    match mode {
        Mode::Octet => length.min(most),
        Mode::Netascii => length
            .saturating_add(line_byte_count(bytes) as u64)
            .min(most),
    }
}

/// The length of the wire text of a chunk.
fn wire_count(bytes: &[u8], mode: Mode) -> usize
    requires { length bytes.now ≤ CHUNK }
    ensures value { result ≡ length (wire_text mode bytes.now) }
    ensures within { result ≤ 2 * CHUNK }
    ensures progress { length bytes.now ≤ result }
{
    match mode {
        Mode::Octet => bytes.len(),
        Mode::Netascii => bytes.len() + line_byte_count(bytes),
    }
}
