//! The handle of C: a client, or none.

ghost use Rattle.std.specs.Prelude.{◌≡◌, Some, None, is_some, option_map};
ghost use Rattle.std.specs.declared.option.Option.{Option};

use crate::client::Client;
use crate::slot::Slot;
use std::alloc::Global;
use std::mem;

/// A client, or none. All bits zero is none.
#[repr(C)]
#[derive(Drop)]
pub struct TftpEnd {
    is_open: bool,
    pub slot: Slot,
    ghost agrees: { is_open ≡ is_some slot.value },
}

const _: () = prove!(size_of::<TftpEnd>() == 16);

impl TftpEnd {
    pub(crate) fn is_open(&self) -> bool
        ensures { result ≡ is_some self.now.slot.value }
    {
        self.is_open
    }

    /// Takes the client, and leaves none.
    pub(crate) fn take(&mut self, alloc: Global) -> Option<Box<Client>>
        ensures taken { option_map (λ b. b.value) result ≡ self.old.slot.value }
        ensures left { self.new.slot.value ≡ None }
    {
        let none = TftpEnd {
            is_open: false,
            slot: Slot::empty(),
        };
        let held = mem::replace(self, none);
        if held.is_open {
            Some(held.slot.into_box(alloc))
        } else {
            None
        }
    }

    /// Puts a client where there is none.
    pub(crate) fn put(&mut self, client: Box<Client>)
        requires { self.old.slot.value ≡ None }
        ensures { self.new.slot.value ≡ Some client.value }
    {
        let held = TftpEnd {
            is_open: true,
            slot: Slot::of(client),
        };
        mem::replace(self, held);
    }

    #[inline(never)]
    pub(crate) fn close(&mut self, alloc: Global)
        ensures { self.new.slot.value ≡ None }
    {
        let held = self.take(alloc);
        drop(held);
    }
}

/// Closes the end and frees its memory, if there is one. `tftp_close` of `tftp.h` calls it, which
/// allows null.
#[unsafe(no_mangle)]
pub extern "C" fn tftp_close_end(alloc: Global, end: &mut TftpEnd)
    ensures { end.new.slot.value ≡ None }
{
    end.close(alloc);
}
