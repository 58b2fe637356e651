//! How long a file is on the wire, and by which calls that is known.

ghost use Rattle.std.specs.Prelude.{◌≡◌, ◌+◌, ◌≤◌, true, [], Some, IfOk, IfSome};
ghost use Rattle.std.specs.Coded.{Coded-set as is_set, coded_option as option};
ghost use Rattle.std.specs.Option.{option_map_or};
ghost use Rattle.tftp_file.specs.declared.length.TheConstants.{MAX_WIRE};
ghost use Rattle.tftp_disk.specs.Given.{examined, given, is_at_end};
ghost use Rattle.tftp_disk.specs.Measuring.{calls_on, StaysOpen};
ghost use Rattle.tftp_folder.specs.Counted.{IsSettled, IsUnchanged, length_counted};

use std::io::{self, Read};
use std::snapshot::Snapshot;
use tftp_disk::{DiskFile, DiskTrace, FileId, Found, TextLength, count_netascii};
use tftp_file::MAX_WIRE;

/// How long the text of a file is in netascii, as one pass over it counted.
#[derive(Drop)]
pub(crate) struct Measured {
    /// What the system said of the file.
    found: Found,
    /// The length in bytes, or `MAX_WIRE + 1` if it is longer.
    bytes: u64,
    /// The calls on the file, until the pass had ended. Only clauses read them: they use no memory.
    calls: Snapshot<DiskTrace>,
    ghost told: { examined calls.value.events ≡ Some found } by { is_set (option found-code) _ _ },
    ghost counted: { bytes ≡ length_counted (given calls.value.events) },
    ghost whole: { bytes ≤ MAX_WIRE → is_at_end calls.value.events ≡ true },
}

/// How long a file is on the wire.
#[derive(Drop)]
pub(crate) struct StatedLength {
    /// The length in bytes, or `MAX_WIRE + 1` if it is longer.
    pub(crate) bytes: u64,
    /// The pass that counted it, if one did. Only clauses read it.
    pub(crate) counted: Option<Snapshot<Measured>>,
}

impl StatedLength {
    /// A length that no pass counted.
    pub(crate) fn uncounted(bytes: u64) -> StatedLength
        ensures { result.bytes ≡ bytes }
    {
        StatedLength {
            bytes,
            counted: None,
        }
    }
}

impl Measured {
    ghost use Rattle.tftp_folder.specs.Counted.{IsCounted};
    ghost use Rattle.tftp_folder.specs.Source.{counted_by};

    /// Counts the text of a file: reads it to its end, or until the text is too long.
    pub(crate) fn of<F: Read + Drop>(file: &mut DiskFile<F>, found: &Found) -> io::Result<Measured>
        requires start { given (calls_on file.old) ≡ [] }
        requires told { examined (calls_on file.old) ≡ Some found.now }
        ensures found { IfOk result (λ measured. measured.found ≡ found.now) }
        ensures stays { StaysOpen file.old file.new }
    {
        match count_netascii(file) {
            Ok(text) => Ok(Measured {
                found: *found,
                bytes: bytes_of(text),
                calls: Snapshot::of(file.trace()),
            }),
            Err(error) => Err(error),
        }
    }

    /// The length.
    pub(crate) fn stated(&self) -> StatedLength
        ensures { IsCounted self.now.found (counted_by result) result.bytes }
    {
        StatedLength {
            bytes: self.bytes,
            counted: Some(Snapshot::of(self)),
        }
    }

    /// The length, if this is what was measured of the file, and that was not changed since.
    fn stated_of(&self, found: &Found) -> Option<StatedLength>
        ensures { IfSome result (λ stated. IsCounted found.now (counted_by stated) stated.bytes) }
    {
        if is_unchanged(&self.found, found) {
            Some(self.stated())
        } else {
            None
        }
    }
}

/// A length that is remembered. The file had not been changed for more than two seconds before the
/// pass: so long is the tick of the coarsest clock of a file system. A later change has another time.
#[derive(Drop)]
pub(crate) struct Kept {
    measured: Measured,
    /// The seconds since 1970 before the pass.
    seconds: i64,
    ghost settled: { IsSettled measured.found.changed seconds },
}

impl Kept {
    ghost use Rattle.tftp_folder.specs.Counted.{IsCounted};
    ghost use Rattle.tftp_folder.specs.Source.{counted_by};

    /// A length to be remembered; none if the file was changed shortly before these seconds, or if they
    /// are not known.
    pub(crate) fn of(measured: Measured, seconds: Option<i64>) -> Option<Kept> {
        let seconds = seconds?;
        if is_settled(measured.found.changed, seconds) {
            Some(Kept { measured, seconds })
        } else {
            None
        }
    }

    /// Which file it is.
    pub(crate) fn id(&self) -> FileId {
        self.measured.found.id
    }

    /// The length, if this is what was measured of the file, and that was not changed since.
    pub(crate) fn stated_of(&self, found: &Found) -> Option<StatedLength>
        ensures { IfSome result (λ stated. IsCounted found.now (counted_by stated) stated.bytes) }
    {
        self.measured.stated_of(found)
    }
}

/// Whether a change was more than two seconds before.
fn is_settled(changed: i64, seconds: i64) -> bool
    ensures { result ≡ true → IsSettled changed seconds }
{
    seconds >= 2 && changed < seconds - 2
}

/// The length of a text that was counted, or `MAX_WIRE + 1` if it is longer.
fn bytes_of(counted: Option<TextLength>) -> u64
    ensures { result ≡ option_map_or (λ text. text.wire_bytes) counted (MAX_WIRE + 1) }
{
    match counted {
        Some(text) => text.wire_bytes,
        None => MAX_WIRE + 1,
    }
}

/// Whether the same file was found twice, as long, and last changed at the same time.
fn is_unchanged(first: &Found, last: &Found) -> bool
    ensures { result ≡ true → IsUnchanged first.now last.now }
{
    first.id.is(last.id)
        && first.bytes == last.bytes
        && first.changed == last.changed
        && first.changed_nanos == last.changed_nanos
}
