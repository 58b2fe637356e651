//! A file to send. It is measured first.

ghost use Rattle.std.specs.Prelude.{◌≡◌, ◌≤◌, true, IfOk, OnOk};
ghost use Rattle.tftp_wire.specs.declared.mode.Mode.TheVariants.{Octet};
ghost use Rattle.tftp_disk.specs.DiskSource.{source_calls};
ghost use Rattle.tftp_disk.specs.Given.{is_at_start, opened_at};
ghost use Rattle.tftp_disk.specs.Measuring.{StaysOpen, calls_on};
ghost use Rattle.tftp_client.specs.Outbound.{HasLength, IsLongAs, IsPassed};
ghost use Rattle.tftp_client.specs.Sent.{IsOpenedAt};

use crate::local::LocalSource;
use crate::local_error::LocalError;
use std::alloc::Global;
use std::fs::OpenFile;
use std::io::{Read, Seek, SeekFrom};
use tftp_disk::{DiskFile, DiskSource, Kind, Looks, TextLength, View, count_netascii};
use tftp_file::MAX_WIRE;
use tftp_wire::Mode;

/// The capacity of the read buffer, in bytes. Blocks of this size and more bypass it.
const READ_BUFFER: usize = 32_768;

/// A file to send, and its length.
#[derive(Drop)]
pub(crate) struct Outbound<F: Read + Drop> {
    pub(crate) source: LocalSource<F>,
    /// On the wire `MAX_WIRE + 1` if it exceeds `MAX_WIRE`.
    pub(crate) length: TextLength,
}

impl<F: Read + Seek + OpenFile + Drop> Outbound<F> {
    /// Opens a regular file to send, at its start. Any other kind is refused before it is opened,
    /// since opening a FIFO would block. The length is that of the open file, as the system says,
    /// or in netascii as one pass over it counts; a file that states none and has a byte is
    /// refused, as many of `/proc` are.
    pub(crate) fn open<V: View<File = F>>(
        view: &mut V,
        alloc: Global,
        local: &str,
        mode: Mode,
    ) -> Result<Outbound<F>, LocalError>
        ensures opened { IfOk result (λ outbound. IsOpenedAt local.now mode outbound.source) }
        ensures told { IfOk result (λ outbound. mode ≡ Octet → IsLongAs outbound.length.bytes
            (source_calls outbound.source)) }
        ensures long { IfOk result (λ outbound. outbound.length.wire_bytes ≤ MAX_WIRE
            → HasLength mode outbound.length.bytes outbound.length.wire_bytes
            (source_calls outbound.source)) }
    {
        if view.follow(local)?.kind != Kind::Regular {
            return Err(LocalError::NotAFile);
        }
        let mut file = view.open(local)?;
        let length = text_length(&mut file, mode)?;
        Ok(Outbound {
            source: DiskSource::new(alloc, file, mode, READ_BUFFER)?,
            length,
        })
    }
}

/// Fails if a file that states a length of 0 has a byte.
fn check_known<F: Read>(file: &mut DiskFile<F>, host_bytes: u64) -> Result<(), LocalError>
    ensures stays { StaysOpen file.old file.new }
    ensures start { OnOk result (is_at_start file.new.trace.events
        ≡ is_at_start file.old.trace.events) }
{
    if host_bytes > 0 {
        return Ok(());
    }
    match file.read(&mut [0]) {
        Ok(0) => Ok(()),
        Ok(_) => Err(LocalError::LengthUnknown),
        Err(error) => Err(LocalError::System(error)),
    }
}

/// The length of a file that is at its start. In octet both lengths are that which the system says of
/// it, and no byte of a file that states one is read. On the wire it is `MAX_WIRE + 1` if it exceeds
/// `MAX_WIRE`.
fn text_length<F: Read + Seek + OpenFile + Drop>(
    file: &mut DiskFile<F>,
    mode: Mode,
) -> Result<TextLength, LocalError>
    requires { is_at_start (calls_on file.old) ≡ true }
    ensures start { OnOk result (is_at_start (calls_on file.new) ≡ true) }
    ensures told { IfOk result (λ length. mode ≡ Octet
        → IsLongAs length.bytes (calls_on file.new)) }
    ensures long { IfOk result (λ length. length.wire_bytes ≤ MAX_WIRE
        → HasLength mode length.bytes length.wire_bytes (calls_on file.new)) }
    ensures place { opened_at (calls_on file.new) ≡ opened_at (calls_on file.old) }
{
    let host_bytes = file.examine()?.bytes;
    check_known(file, host_bytes)?;
    match mode {
        Mode::Octet => Ok(TextLength {
            bytes: host_bytes,
            wire_bytes: host_bytes.min(MAX_WIRE + 1),
        }),
        Mode::Netascii => measure(file, host_bytes),
    }
}

/// The same in netascii. The file is read once, unless it is too long by its own length, and is
/// then at its start again.
#[tactic(auto, using(crate::proofs::SentFile::is_passed))]
fn measure<F: Read + Seek + Drop>(
    file: &mut DiskFile<F>,
    host_bytes: u64,
) -> Result<TextLength, LocalError>
    requires { is_at_start (calls_on file.old) ≡ true }
    ensures start { OnOk result (is_at_start (calls_on file.new) ≡ true) }
    ensures counted { IfOk result (λ length. length.wire_bytes ≤ MAX_WIRE
        → IsPassed length.bytes length.wire_bytes (calls_on file.new)) }
    ensures stays { StaysOpen file.old file.new }
{
    let too_long = TextLength {
        bytes: host_bytes,
        wire_bytes: MAX_WIRE + 1,
    };
    if host_bytes > MAX_WIRE {
        return Ok(too_long);
    }
    let Ok(counted) = count_netascii(file) else {
        return Err(LocalError::Unreadable);
    };
    let Ok(_) = file.seek(SeekFrom::Start(0)) else {
        return Err(LocalError::Unreadable);
    };
    match counted {
        Some(length) => Ok(length),
        None => Ok(too_long),
    }
}
