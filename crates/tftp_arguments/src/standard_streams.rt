//! Standard input, output and error are open before a program opens anything else.
//!
//! A program that starts with one of them closed would get its number for the next file or socket
//! that it opens, and print into that.

ghost use Rattle.tftp_arguments.specs.Streams.{IsStandard};

use std::fs::{OpenFile, OpenOptions};
use std::os::fd::AsRawFd;
use std::rt::Files;

/// The number of standard error, the last of the three.
const LAST_STREAM: i32 = 2;

/// Null devices in place of the standard streams that were closed. What is printed to one is lost.
/// Each is closed when this is dropped: keep it until the program ends.
#[derive(Drop)]
pub struct StandardStreams<F: Drop> {
    first: Option<F>,
    second: Option<F>,
    third: Option<F>,
}

/// Opens a null device for each standard stream that is closed. The system gives a new file the
/// lowest number that is free, so three openings are enough.
pub fn open_streams<R: Files<File = F>, F: OpenFile + AsRawFd + Drop>(
    files: &R,
) -> StandardStreams<F>
    ensures first { IsStandard F.raw_fd result.first }
    ensures second { IsStandard F.raw_fd result.second }
    ensures third { IsStandard F.raw_fd result.third }
{
    StandardStreams {
        first: open_stream(files),
        second: open_stream(files),
        third: open_stream(files),
    }
}

/// A null device, if it is a standard stream; any other is closed again.
fn open_stream<R: Files<File = F>, F: OpenFile + AsRawFd + Drop>(files: &R) -> Option<F>
    ensures { IsStandard F.raw_fd result }
{
    let file = OpenOptions::new()
        .read(true)
        .write(true)
        .open(files, "/dev/null")
        .ok()?;
    if file.as_raw_fd() <= LAST_STREAM {
        Some(file)
    } else {
        None
    }
}
