//! `tftp-show`: reads lines of hexadecimal digits, and writes a line for each datagram.

mod data;
mod digits;
mod fault;
mod lines;

ghost use Rattle.std.specs.Prelude.{◌≡◌, ◌≤◌, ◌++◌, ◌⊎◌, IfOk, IfSome, OnOk};
ghost use Rattle.std.specs.Io.BufRead.{strip_last};
ghost use Rattle.std.specs.Io.KnownBytes.{Appends};
ghost use Rattle.std.specs.String.{string_bytes};
ghost use Rattle.hex.specs.Hex.{decode_of};
ghost use Rattle.tftp_show.specs.Show.{line_shown, spells_packet, are_packets, input_shown};
ghost use Rattle.tftp_show.specs.Show.{shown_status};

use crate::show::data::line_of_data;
use crate::show::digits::{decode_digits, is_hex};
pub use fault::ShowFault;
pub(crate) use lines::read_line;
use std::alloc::{AllocError, Global};
use std::io::{self, BufRead, BufReader, BufWriter, Read, Write};
use tftp_wire::show_datagram;

/// The digits of the longest datagram, and a line end: what UDP carries over IPv4 is at most 65507
/// bytes (RFC 768, RFC 791).
pub(crate) const LONGEST_LINE: usize = 2 * 65_507 + 2;

/// Reads lines of hexadecimal digits, each a datagram, and writes for each its packet, or
/// `fault KIND AT`, or `not hex`.
///
/// The status is 0 if all lines were packets, 1 if not, and 2 if reading or writing failed or the
/// run was out of memory. Memory is bounded by the longest line.
pub fn show_run<R: Read + Drop, W: Write + Drop>(alloc: Global, input: R, output: W) -> u8
    ensures bound { result ≤ 2 }
    ensures known { IfSome (R.remaining input) (λ all. (result ≡ shown_status all) ⊎ (result ≡ 2)) }
{
    show_reported(alloc, input, output, io::sink())
}

/// As [`show_run`], and a status of 2 comes with the line of its [`ShowFault`] on `errors`; with
/// none if the output is a closed pipe.
pub fn show_reported<R: Read + Drop, W: Write + Drop, E: Write + Drop>(
    alloc: Global,
    input: R,
    output: W,
    mut errors: E,
) -> u8
    ensures bound { result ≤ 2 }
    ensures known { IfSome (R.remaining input) (λ all. (result ≡ shown_status all) ⊎ (result ≡ 2)) }
{
    match show_buffered(alloc, input, output) {
        Ok(true) => 0,
        Ok(false) => 1,
        Err(fault) => fault.report(&mut errors),
    }
}

/// As [`show_run`], and returns whether all lines were packets.
pub(crate) fn show_buffered<R: Read + Drop, W: Write + Drop>(
    alloc: Global,
    input: R,
    output: W,
) -> Result<bool, ShowFault>
    ensures { IfOk result (λ packets. IfSome (R.remaining input) (λ all.
        packets ≡ are_packets all)) }
{
    let mut input = BufReader::new(alloc, input)?;
    let mut output = BufWriter::new(alloc, output)?;
    show_lines(alloc, &mut input, &mut output)
}

/// Writes a line for each line of the input, to its end, and returns whether all were packets.
///
/// It fails if reading or writing fails or if it is out of memory; whole lines may then be written.
pub fn show_lines<R: BufRead, W: Write>(
    alloc: Global,
    input: &mut R,
    output: &mut W,
) -> Result<bool, ShowFault>
    ensures written { OnOk result (IfSome (R.remaining input.old) (λ all.
        Appends (W.contents output.old) (W.contents output.new) (input_shown all))) }
    ensures packets { IfOk result (λ packets. IfSome (R.remaining input.old) (λ all.
        packets ≡ are_packets all)) }
{
    let mut line = Vec::new(alloc);
    let mut bytes = Vec::new(alloc);
    let mut text = String::new(alloc);
    let mut packets = true;
    for _ in 0..u64::MAX {
        line.clear();
        if read_line(input, &mut line)? == 0 {
            output.flush()?;
            return Ok(packets);
        }
        if line.len() > LONGEST_LINE {
            return Err(ShowFault::Long);
        }
        text.clear();
        let digits = without_return(without_end(line.as_slice()));
        packets &= show_line(digits, &mut bytes, &mut text)?;
        text.push('\n')?;
        output.write_all(text.as_bytes())?;
    }
    Err(ShowFault::Unreadable)
}

/// The line without its line feed.
fn without_end(line: &[u8]) -> &[u8]
    ensures { result.now ≡ strip_last 10 line.now }
{
    match line {
        [front @ .., b'\n'] => front,
        _ => line,
    }
}

/// The line without a carriage return at its end.
fn without_return(line: &[u8]) -> &[u8]
    ensures { result.now ≡ strip_last 13 line.now }
{
    match line {
        [front @ .., b'\r'] => front,
        _ => line,
    }
}

/// Appends the line for a line of digits, and returns whether it is a packet. `bytes` is a buffer.
fn show_line(digits: &[u8], bytes: &mut Vec<u8>, text: &mut String) -> Result<bool, AllocError>
    ensures is_packet { IfOk result (λ is_packet.
        is_packet ≡ spells_packet (decode_of digits.now)) }
    ensures appended { OnOk result
        (string_bytes text.new ≡ string_bytes text.old ++ line_shown digits.now) }
{
    if !is_hex(digits) {
        text.push_str("not hex")?;
        return Ok(false);
    }
    if let Some(line) = line_of_data(digits) {
        write!(text, "{line}")?;
        return Ok(true);
    }
    decode_digits(digits, bytes)?;
    match show_datagram(bytes.as_slice(), text) {
        Ok(is_packet) => Ok(is_packet),
        Err(_) => Err(AllocError),
    }
}
