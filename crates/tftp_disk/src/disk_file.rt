//! An open file and an open folder, with the trace of their calls. The calls themselves are in
//! `disk_file/calls.rt`.
//!
//! No field is public, so that no other crate can exchange the trace of a file.

ghost use Rattle.std.specs.Prelude.{◌≡◌, ◌∷◌, [], IfOk};
ghost use Rattle.tftp_disk.specs.DiskEventRef.{disk_event};
ghost use Rattle.tftp_disk.specs.DiskTrace.{done};

mod calls;

use crate::disk_event_ref::DiskEventRef;
use crate::disk_trace::{DiskEvents, DiskTrace};
use std::io;

/// An open file, with the trace of its calls. The oldest is that which opened or made it.
#[derive(Drop)]
pub struct DiskFile<F> {
    file: F,
    trace: DiskTrace,
}

impl<F> DiskFile<F> {
    /// The open file that the system returned, if it did. Its trace begins with this event.
    pub(crate) fn of(opened: io::Result<F>, event: &DiskEventRef<'_>) -> io::Result<DiskFile<F>>
        ensures same { done result ≡ done opened }
        ensures begins { IfOk result (λ file. file.trace.events ≡ disk_event event.now ∷ []) }
    {
        match opened {
            Ok(file) => {
                let mut trace = DiskTrace::new(&DiskEvents::NONE);
                trace.note(event);
                Ok(DiskFile { file, trace })
            }
            Err(error) => Err(error),
        }
    }

    /// Notes a call on it, which its disk made.
    pub(crate) fn note(&mut self, event: &DiskEventRef<'_>)
        ensures { self.new.trace.events ≡ disk_event event.now ∷ self.old.trace.events }
    {
        self.trace.note(event);
    }

    /// The trace of its calls.
    pub fn trace(&self) -> &DiskTrace
        ensures { result.now ≡ self.now.trace }
    {
        &self.trace
    }
}

/// An open folder. Its trace has its opening alone.
#[derive(Drop)]
pub struct DiskFolder<F> {
    file: F,
    trace: DiskTrace,
}

impl<F> DiskFolder<F> {
    /// The open folder that the system returned, if it did. Its trace begins with this event.
    pub(crate) fn of(opened: io::Result<F>, event: &DiskEventRef<'_>) -> io::Result<DiskFolder<F>>
        ensures same { done result ≡ done opened }
        ensures begins { IfOk result (λ folder. folder.trace.events ≡ disk_event event.now ∷ []) }
    {
        match opened {
            Ok(file) => {
                let mut trace = DiskTrace::new(&DiskEvents::NONE);
                trace.note(event);
                Ok(DiskFolder { file, trace })
            }
            Err(error) => Err(error),
        }
    }

    /// The trace of the folder.
    pub(crate) fn trace(&self) -> &DiskTrace
        ensures { result.now ≡ self.now.trace }
    {
        &self.trace
    }
}
