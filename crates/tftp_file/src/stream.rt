//! A source over a reader and a sink over a writer: neither keeps the file in memory.

ghost use Rattle.std.specs.Prelude.{◌≡◌, ◌≤◌, ◌<◌, ◌+◌, ◌*◌, false, None, length, take, drop};
ghost use Rattle.std.specs.Prelude.{vec_len, vec_capacity, option_map, Ok, IfOk, IfErr, OnErr};
ghost use Rattle.std.specs.Prelude.{is_ok, ◌||◌};
ghost use Rattle.std.specs.Io.KnownBytes.{Consumes, IsAtEnd};
ghost use Rattle.tftp_file.specs.Netascii.{wire_text};
ghost use Rattle.tftp_file.specs.Encoding.{netascii_left, encoding_of};
ghost use Rattle.tftp_file.specs.Source.{Fills};
ghost use Rattle.tftp_file.specs.Stream.{source_reader, source_encoding, source_left, text_held};
ghost use Rattle.tftp_file.specs.Stream.{sink_writer, sink_committed, Gives, Writes};

use crate::encoding::{Encoded, Encoding, encode};
use crate::{FileFault, Sink, Source, StoreFault};
use std::io::{self, Read, Write};
use tftp_wire::Mode;

/// The maximum number of host bytes that one read requests in netascii.
const CHUNK: usize = 512;

/// A source of the wire text of a reader's bytes.
///
/// In octet the reader writes into the buffer of the fill, with one read per block if it returns as
/// many bytes as are requested. In netascii the source keeps at most one byte of wire text between
/// calls. If a read fails, for any reason, the fill returns `Read`.
#[derive(Debug, Drop)]
pub struct ReadSource<R> {
    reader: R,
    encoding: Encoding,
}

impl<R: Read> ReadSource<R> {
    /// A source of the wire text in the mode. Allocates no memory and reads nothing.
    pub fn new(reader: R, mode: Mode) -> ReadSource<R>
        ensures reader { source_reader result ≡ reader }
        ensures encoding { source_encoding result ≡ encoding_of mode }
        ensures left { source_left R.remaining result
            ≡ option_map (wire_text mode) (R.remaining reader) }
    {
        ReadSource {
            reader,
            encoding: Encoding::from(mode),
        }
    }

    /// The number of wire bytes that are held back, 0 or 1.
    pub fn held(&self) -> usize
        ensures count { result ≡ length (text_held (source_encoding self.now)) }
        ensures bound { result ≤ 1 }
    {
        match self.encoding {
            Encoding::Netascii { held: Some(_) } => 1,
            _ => 0,
        }
    }

    /// The reader.
    pub fn get_ref(&self) -> &R
        ensures { result.now ≡ source_reader self.now }
    {
        &self.reader
    }

    /// The reader. A byte that is held back is lost.
    pub fn into_inner(self) -> R
        ensures { result ≡ source_reader self }
    {
        self.reader
    }
}

impl<R: Read> Source for ReadSource<R> {
    ghost use Rattle.std.specs.Prelude.{⊤};
    ghost use Rattle.tftp_file.specs.Stream.{source_left};

    ghost meaning = { record {
      left = source_left R.remaining;
      may_fail = λ _ _. ⊤;
      fails = λ _ _. ⊥;
      gives = λ _ _ _. ⊤;
      opens = λ _ _ _ _ _. ⊤;
    } };

    /// Always true: it does not constrain the reader.
    ghost is_same = { λ _ _. ⊤ };

    ghost stays = { λ _. tt };

    ghost joins = { λ _ _ _ _ _. tt };

    ghost unmoved = { λ _. tt };

    fn fill(&mut self, want: usize, out: &mut Vec<u8>) -> Result<usize, FileFault> {
        match &mut self.encoding {
            Encoding::Octet => fill_octet(&mut self.reader, want, out),
            Encoding::Netascii { held } => fill_netascii(&mut self.reader, held, want, out),
        }
    }
}

fn read_at<R: Read>(reader: &mut R, buffer: &mut [u8], at: usize) -> Result<usize, FileFault>
    requires { at ≤ length buffer.old }
    ensures front { take at buffer.new ≡ take at buffer.old }
    ensures bound { IfOk result (λ n. at + n ≤ length buffer.new) }
    ensures bytes { IfOk result (λ n. Consumes (R.remaining reader.old) (R.remaining reader.new)
        (take n (drop at buffer.new))) }
    ensures end { IfOk result (λ n. n ≡ 0 → at < length buffer.new
        → IsAtEnd (R.remaining reader.new)) }
    ensures fault { IfErr result (λ fault. fault ≡ FileFault.Read) }
{
    match reader.read(&mut buffer[at..]) {
        Ok(count) => Ok(count),
        Err(_) => Err(FileFault::Read),
    }
}

fn read_from<R: Read>(reader: &mut R, buffer: &mut [u8], start: usize) -> Result<usize, FileFault>
    requires { start ≤ length buffer.old }
    ensures front { take start buffer.new ≡ take start buffer.old }
    ensures bound { IfOk result (λ n. start + n ≤ length buffer.new) }
    ensures bytes { IfOk result (λ n. Consumes (R.remaining reader.old) (R.remaining reader.new)
        (take n (drop start buffer.new))) }
    ensures end { IfOk result (λ n. start + n < length buffer.new
        → IsAtEnd (R.remaining reader.new)) }
    ensures fault { IfErr result (λ fault. fault ≡ FileFault.Read) }
{
    let mut at = start;
    while at < buffer.len() {
        let count = read_at(reader, buffer, at)?;
        if count == 0 {
            return Ok(at - start);
        }
        at += count;
    }
    Ok(at - start)
}

fn fill_octet<R: Read>(reader: &mut R, want: usize, out: &mut Vec<u8>) -> Result<usize, FileFault>
    ensures fills { Fills (R.remaining reader.old) (R.remaining reader.new) want
        out.old.items out.new.items result }
    ensures capacity { vec_capacity out.old ≤ vec_capacity out.new }
{
    let start = out.len();
    let Some(end) = start.checked_add(want) else {
        return Err(FileFault::Memory);
    };
    out.resize(end, 0)?;
    let outcome = read_from(reader, out.as_mut_slice(), start);
    out.truncate(start + outcome.unwrap_or(0));
    outcome
}

fn read_encoded<R: Read>(
    reader: &mut R,
    chunk: &mut [u8],
    room: usize,
    out: &mut Vec<u8>,
) -> Result<Encoded, FileFault>
    requires some { 0 < length chunk.old }
    requires few { 2 * length chunk.old ≤ room + 1 }
    requires room { vec_len out.old + room ≤ vec_capacity out.old }
    ensures gives { IfOk result (λ e. Gives
        (option_map (netascii_left None) (R.remaining reader.old))
        (option_map (netascii_left e.held) (R.remaining reader.new))
        out.old.items out.new.items e.count) }
    ensures bound { IfOk result (λ e. e.count ≤ room) }
    ensures end { IfOk result (λ e. e.count ≡ 0
        → IsAtEnd (option_map (netascii_left e.held) (R.remaining reader.new))) }
    ensures capacity { vec_capacity out.new ≡ vec_capacity out.old }
    ensures err { OnErr result (out.new.items ≡ out.old.items) }
    ensures fault { IfErr result (λ fault. fault ≡ FileFault.Read) }
{
    let count = read_at(reader, chunk, 0)?;
    Ok(encode(&chunk[..count], None, room, out))
}

fn give_some<R: Read>(
    reader: &mut R,
    held: &mut Option<u8>,
    room: usize,
    out: &mut Vec<u8>,
) -> Result<usize, FileFault>
    requires some { 0 < room }
    requires room { vec_len out.old + room ≤ vec_capacity out.old }
    ensures gives { IfOk result (Gives
        (option_map (netascii_left held.old) (R.remaining reader.old))
        (option_map (netascii_left held.new) (R.remaining reader.new))
        out.old.items out.new.items) }
    ensures bound { IfOk result (λ n. n ≤ room) }
    ensures end { IfOk result (λ n. n ≡ 0
        → IsAtEnd (option_map (netascii_left held.new) (R.remaining reader.new))) }
    ensures capacity { vec_capacity out.new ≡ vec_capacity out.old }
    ensures err { OnErr result (out.new.items ≡ out.old.items) }
    ensures fault { IfErr result (λ fault. fault ≡ FileFault.Read) }
{
    if let Some(byte) = held.take() {
        out.push_reserved(byte);
        return Ok(1);
    }
    let mut chunk = [0; CHUNK];
    // A host byte has at most two wire bytes, so at most one of them does not fit.
    let most = CHUNK.min(room.div_ceil(2));
    let encoded = read_encoded(reader, &mut chunk[..most], room, out)?;
    *held = encoded.held;
    Ok(encoded.count)
}

fn fill_netascii<R: Read>(
    reader: &mut R,
    held: &mut Option<u8>,
    want: usize,
    out: &mut Vec<u8>,
) -> Result<usize, FileFault>
    ensures fills { Fills (option_map (netascii_left held.old) (R.remaining reader.old))
        (option_map (netascii_left held.new) (R.remaining reader.new)) want
        out.old.items out.new.items result }
    ensures capacity { vec_capacity out.old ≤ vec_capacity out.new }
{
    let start = out.len();
    out.reserve(want)?;
    let mut count = 0;
    while count < want {
        match give_some(reader, held, want - count, out) {
            Ok(0) => break,
            Ok(more) => count += more,
            Err(fault) => {
                out.truncate(start);
                return Err(fault);
            }
        }
    }
    Ok(count)
}

/// A sink that writes to a writer, and flushes it at the commit.
///
/// If a write fails or writes nothing, or if a flush fails, for any reason, the call returns `Io`.
#[derive(Debug, Drop)]
pub struct WriteSink<W> {
    writer: W,
    is_committed: bool,
}

impl<W: Write> WriteSink<W> {
    /// A sink over the writer. Allocates no memory.
    pub fn new(writer: W) -> WriteSink<W>
        ensures writer { sink_writer result ≡ writer }
        ensures uncommitted { sink_committed result ≡ false }
    {
        WriteSink {
            writer,
            is_committed: false,
        }
    }

    /// Whether the bytes written are committed.
    pub fn is_committed(&self) -> bool
        ensures { result ≡ sink_committed self.now }
    {
        self.is_committed
    }

    /// The writer.
    pub fn get_ref(&self) -> &W
        ensures { result.now ≡ sink_writer self.now }
    {
        &self.writer
    }

    /// The writer.
    pub fn into_inner(self) -> W
        ensures { result ≡ sink_writer self }
    {
        self.writer
    }
}

fn write_pieces<W: Write>(writer: &mut W, bytes: &[u8]) -> Result<(), StoreFault>
    ensures writes { Writes (W.contents writer.old) (W.contents writer.new) bytes.now result }
    ensures fault { IfErr result (λ fault. fault ≡ StoreFault.Io) }
{
    let mut rest = bytes;
    while !rest.is_empty() {
        match writer.write(rest) {
            Ok(0) | Err(_) => return Err(StoreFault::Io),
            Ok(count) => rest = &rest[count..],
        }
    }
    Ok(())
}

/// Commits the bytes written exactly if the flush succeeded.
fn commit_flushed(flushed: io::Result<()>, is_committed: &mut bool) -> Result<(), StoreFault>
    ensures answer { is_ok result ≡ is_ok flushed }
    ensures committed { is_committed.new ≡ (is_committed.old || is_ok flushed) }
    ensures fault { IfErr result (λ fault. fault ≡ StoreFault.Io) }
{
    match flushed {
        Ok(()) => {
            *is_committed = true;
            Ok(())
        }
        Err(_) => Err(StoreFault::Io),
    }
}

impl<W: Write> Sink for WriteSink<W> {
    ghost use Rattle.std.specs.Prelude.{◌≡◌, ⊤};
    ghost use Rattle.tftp_file.specs.declared.fault.StoreFault.TheVariants.{Io};
    ghost use Rattle.tftp_file.specs.Stream.{sink_holding};

    ghost meaning = { record {
      held = sink_holding W.contents;
      may_refuse_append = λ _ _ fault. fault ≡ Io;
      may_refuse_commit = λ _ fault. fault ≡ Io;
      becomes = λ _ _ _. ⊤;
      after_append = λ _ _ _ _. ⊤;
      after_commit = λ _ _ _. ⊤;
    } };

    /// Always true: it does not constrain the writer.
    ghost is_same = { λ _ _. ⊤ };

    ghost stays = { λ _. tt };

    ghost joins = { λ _ _ _ _ _. tt };

    ghost unmoved = { λ _. tt };

    fn append(&mut self, bytes: &[u8]) -> Result<(), StoreFault> {
        self.is_committed = false;
        write_pieces(&mut self.writer, bytes)
    }

    fn commit(&mut self) -> Result<(), StoreFault> {
        let flushed = self.writer.flush();
        commit_flushed(flushed, &mut self.is_committed)
    }
}
