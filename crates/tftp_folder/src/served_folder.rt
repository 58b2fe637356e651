//! The folder that a store serves, and why its calls were refused.

ghost use Rattle.std.specs.IoError.{error_kind};
ghost use Rattle.std.specs.Prelude.{◌≡◌, ◌≢◌, ◌↔◌};
ghost use Rattle.tftp_disk.specs.DiskFault.{IsNoSpace, IsNotThere, MayNotOpen, MayNotStore};
ghost use Rattle.tftp_disk.specs.DiskFault.{MayNotName, is_replaced};

use crate::folder_source::SharedReason;
use std::io::{self, ErrorKind};
use tftp_disk::{Existing, name_fault, open_fault, write_fault};
use tftp_file::StoreFault;
use tftp_lines::{Reason, reason_of};

/// The folder that a store serves, on the system.
#[derive(Drop)]
pub(crate) struct ServedFolder {
    /// The canonical path, without a trailing slash.
    pub(crate) root: String,
    /// The path of the folder of the drafts, without a trailing slash.
    pub(crate) drafts: String,
    /// The reason for the last refused call, until it is taken.
    pub(crate) reason: SharedReason,
}

impl ServedFolder {
    /// Keeps the reason for a refusal by a rule of the folder.
    pub(crate) fn refused(&self, reason: Reason) -> StoreFault
        ensures { result ≡ StoreFault.Io }
    {
        self.reason.set(reason);
        StoreFault::Io
    }

    /// Keeps the reason for a refusal of a name by a rule of the folder. If the name is locked, the
    /// fault is that of a file that is there: another server is about to make one.
    pub(crate) fn rule_refused(&self, reason: Reason, existing: Existing) -> StoreFault
        ensures named { MayNotName (is_replaced existing) result }
        ensures not_memory { result ≢ StoreFault.Memory }
        ensures exists { result ≡ StoreFault.Exists
            ↔ (reason ≡ Reason.NameLocked) × (existing ≡ Existing.Refused) }
        ensures full { result ≢ StoreFault.Full }
    {
        self.reason.set(reason);
        if reason == Reason::NameLocked && existing == Existing::Refused {
            StoreFault::Exists
        } else {
            StoreFault::Io
        }
    }

    /// Keeps the system's reason, unless the fault is `Missing` or `Exists`.
    fn keep_reason(&self, fault: StoreFault, reason: Reason) {
        if fault != StoreFault::Missing && fault != StoreFault::Exists {
            self.reason.set(reason);
        }
    }

    /// The fault of a failed open; keeps the reason.
    pub(crate) fn open_refused(&self, error: &io::Error) -> StoreFault
        ensures opened { MayNotOpen result }
        ensures missing { result ≡ StoreFault.Missing ↔ IsNotThere (error_kind error.now) }
        ensures memory { result ≡ StoreFault.Memory
            ↔ (error_kind error.now ≡ ErrorKind.OutOfMemory) }
    {
        let fault = open_fault(error);
        self.keep_reason(fault, reason_of(error));
        fault
    }

    /// The fault of a failed write; keeps the reason.
    pub(crate) fn write_refused(&self, error: &io::Error) -> StoreFault
        ensures stored { MayNotStore result }
        ensures not_memory { result ≢ StoreFault.Memory }
        ensures full { result ≡ StoreFault.Full ↔ IsNoSpace (error_kind error.now) }
    {
        let fault = write_fault(error);
        self.keep_reason(fault, reason_of(error));
        fault
    }

    /// The fault of a draft that was not made; keeps the reason. `DraftReplaced` if another file
    /// stays at its path: a draft of another port may then be made.
    pub(crate) fn draft_refused(&self, error: &io::Error) -> StoreFault
        ensures stored { MayNotStore result }
        ensures full { result ≡ StoreFault.Full ↔ IsNoSpace (error_kind error.now) }
    {
        if error.kind() == ErrorKind::AlreadyExists {
            self.refused(Reason::DraftReplaced)
        } else {
            self.write_refused(error)
        }
    }

    /// The fault of a failed rename or link; keeps the reason.
    pub(crate) fn name_refused(&self, error: &io::Error, existing: Existing) -> StoreFault
        ensures named { MayNotName (is_replaced existing) result }
        ensures not_memory { result ≢ StoreFault.Memory }
        ensures exists { result ≡ StoreFault.Exists ↔ (existing ≡ Existing.Refused)
            × (error_kind error.now ≡ ErrorKind.AlreadyExists) }
        ensures full { result ≡ StoreFault.Full ↔ IsNoSpace (error_kind error.now) }
    {
        let fault = name_fault(error, existing);
        self.keep_reason(fault, reason_of(error));
        fault
    }
}
