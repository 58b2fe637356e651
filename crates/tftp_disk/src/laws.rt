//! Laws of what sources of files give.

ghost use Rattle.tftp_disk.specs.DiskSourceLaws.{GivesInOrder};

use crate::DiskSource;
use std::io::Read;
use tftp_file::Source;

/// What the calls of a source have given since it had read nothing of its file is a beginning of
/// the wire text of what reads of that file returned, in order and each byte once; and it is all of
/// it but what the source still has, unless a read failed.
pub fn gives_in_order<F: Read>()
    ensures { GivesInOrder ⟦<DiskSource<F> as Source>⟧.meaning }
{}
