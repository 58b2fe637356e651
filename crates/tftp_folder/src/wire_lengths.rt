//! The lengths of files in netascii, each measured once.

ghost use Rattle.std.specs.NonZero.{non_zero_usize_get};
ghost use Rattle.std.specs.Prelude.{◌≡◌, ◌≤◌, min, true, Some, IfErr, IfOk, IfSome, OnOk, length};
ghost use Rattle.tftp_wire.specs.declared.mode.Mode.TheVariants.{Netascii};
ghost use Rattle.tftp_disk.specs.Given.{examined, is_at_start};
ghost use Rattle.tftp_disk.specs.Measuring.{calls_on, StaysOpen};
ghost use Rattle.tftp_folder.specs.Counted.{IsCounted, lengths_in};
ghost use Rattle.tftp_folder.specs.Source.{StatesLength, counted_by};

use crate::measured::{Kept, Measured, StatedLength};
use lru::LruCache;
use std::alloc::{AllocError, Global};
use std::cell::RefCell;
use std::io::{self, ErrorKind, Read, Seek, SeekFrom};
use std::num::NonZeroUsize;
use tftp_disk::{DiskFile, FileId, Found};
use tftp_file::MAX_WIRE;
use tftp_wire::Mode;

/// How many bytes of memory a remembered length counts as, with its place among the others.
const LENGTH_COST: u64 = 192;

/// The measured lengths, and the longest length that can be sent.
#[derive(Drop)]
pub(crate) struct WireLengths {
    /// What was measured of each file last. It is its length as long as the file is not changed.
    measured: RefCell<LruCache<FileId, Kept>>,
    /// How many lengths are remembered at most.
    most: usize,
    /// The longest length on the wire that can be sent, in bytes.
    longest: u64,
}

impl WireLengths {
    /// No lengths yet, and room for as many as so many bytes of memory have room for.
    pub(crate) fn new(alloc: Global, memory: u64) -> Result<WireLengths, AllocError>
        ensures { IfOk result (λ lengths. lengths.most ≡ lengths_in memory) }
    {
        Ok(WireLengths {
            measured: RefCell::new(LruCache::unbounded(alloc)?),
            most: lengths_in(memory),
            longest: MAX_WIRE,
        })
    }

    /// Sets the longest length that can be sent.
    pub(crate) fn set_longest(&mut self, bytes: u64)
        ensures { self.new ≡ record self.old { longest = bytes } }
    {
        self.longest = bytes;
    }

    /// The length of an open file on the wire, or `MAX_WIRE + 1` if it is too long to be sent. In
    /// octet it is what the system states, whatever can be sent. In netascii a file is read to its end
    /// once, whatever the block size, and again after a change, or if it was changed too shortly before.
    /// The length on the wire is at least that of the file, so a file that is too long by its own length
    /// is not read. `seconds` are those since 1970, before the file was read.
    pub(crate) fn length_of<F: Read + Seek + Drop>(
        &self,
        file: &mut DiskFile<F>,
        found: &Found,
        mode: Mode,
        seconds: Option<i64>,
    ) -> io::Result<StatedLength>
        requires start { is_at_start (calls_on file.old) ≡ true }
        requires told { examined (calls_on file.old) ≡ Some found.now }
        ensures stated { IfOk result (λ stated. StatesLength self.now.longest mode found.now
            (counted_by stated) stated.bytes) }
        ensures unread { IfErr result (λ _. (mode ≡ Netascii)
            × (found.now.bytes ≤ min self.now.longest MAX_WIRE)) }
        ensures start { OnOk result (is_at_start (calls_on file.new) ≡ true) }
        ensures stays { StaysOpen file.old file.new }
    {
        match mode {
            Mode::Octet => Ok(StatedLength::uncounted(found.bytes.min(MAX_WIRE + 1))),
            Mode::Netascii => {
                if found.bytes > self.longest.min(MAX_WIRE) {
                    return Ok(StatedLength::uncounted(MAX_WIRE + 1));
                }
                self.netascii_length(file, found, seconds)
            }
        }
    }

    /// The length of a file in netascii, which is read once.
    fn netascii_length<F: Read + Seek + Drop>(
        &self,
        file: &mut DiskFile<F>,
        found: &Found,
        seconds: Option<i64>,
    ) -> io::Result<StatedLength>
        requires start { is_at_start (calls_on file.old) ≡ true }
        requires told { examined (calls_on file.old) ≡ Some found.now }
        ensures counted { IfOk result (λ stated. IsCounted found.now (counted_by stated)
            stated.bytes) }
        ensures start { OnOk result (is_at_start (calls_on file.new) ≡ true) }
        ensures stays { StaysOpen file.old file.new }
    {
        if let Some(stated) = self.recall(found) {
            return Ok(stated);
        }
        let measured = Measured::of(file, found)?;
        match file.seek(SeekFrom::Start(0)) {
            Ok(_) => {
                let stated = measured.stated();
                self.remember(measured, seconds);
                Ok(stated)
            }
            Err(error) => Err(error),
        }
    }

    /// What is remembered of the length of a file that was not changed since.
    fn recall(&self, found: &Found) -> Option<StatedLength>
        ensures { IfSome result (λ stated. IsCounted found.now (counted_by stated) stated.bytes) }
    {
        match self.measured.try_borrow_mut() {
            Ok(mut lengths) => match lengths.get(&found.id) {
                Some(kept) => kept.stated_of(found),
                None => None,
            },
            Err(_) => None,
        }
    }

    /// Remembers a length, if any are remembered and the file was not changed shortly before. When out
    /// of memory, it is measured again later.
    fn remember(&self, measured: Measured, seconds: Option<i64>) {
        let Some(most) = NonZeroUsize::new(self.most) else {
            return;
        };
        let Some(kept) = Kept::of(measured, seconds) else {
            return;
        };
        if let Ok(mut lengths) = self.measured.try_borrow_mut() {
            add_within(&mut lengths, kept, most);
        }
    }
}

/// Adds a length to those that are remembered, of which there are at most so many after that: the
/// length that was not asked for the longest goes.
fn add_within(lengths: &mut LruCache<FileId, Kept>, kept: Kept, most: NonZeroUsize)
    ensures { length lengths.new.entries ≤ non_zero_usize_get most }
{
    let _ = lengths.put(kept.id(), kept);
    lengths.resize(most);
}

/// How many lengths are remembered in so many bytes of memory.
fn lengths_in(bytes: u64) -> usize
    ensures { result ≡ lengths_in bytes }
{
    (bytes / LENGTH_COST) as usize
}

/// Fails if a file that states a length of 0 has a byte, as a file of `/proc` does: its length is
/// not known before it is read, and what was measured would be sent as an empty file. A file of
/// another length is not read.
///
/// `InvalidData` if it has a byte, else the error of the read.
pub(crate) fn check_empty<F: Read + Drop>(file: &mut DiskFile<F>, found: &Found) -> io::Result<()>
    requires { is_at_start (calls_on file.old) ≡ true }
    ensures start { OnOk result (is_at_start (calls_on file.new) ≡ true) }
    ensures stays { StaysOpen file.old file.new }
{
    if found.bytes > 0 {
        return Ok(());
    }
    match file.read(&mut [0]) {
        Ok(0) => Ok(()),
        Ok(_) => Err(io::Error::from(ErrorKind::InvalidData)),
        Err(error) => Err(error),
    }
}
