//! The handle of C: a server, or none.

ghost use Rattle.std.specs.Prelude.{◌≡◌, Some, None, is_some, option_map};
ghost use Rattle.std.specs.declared.option.Option.{Option};

use crate::held_server::HeldServer;
use crate::server_slot::ServerSlot;
use std::alloc::Global;
use std::mem;

/// A server, or none. All bits zero is none.
#[repr(C)]
#[derive(Drop)]
pub struct TftpServer {
    is_open: bool,
    pub slot: ServerSlot,
    ghost agrees: { is_open ≡ is_some slot.value },
}

const _: () = prove!(size_of::<TftpServer>() == 16);

impl TftpServer {
    pub(crate) fn is_open(&self) -> bool
        ensures { result ≡ is_some self.now.slot.value }
    {
        self.is_open
    }

    /// Takes the server, and leaves none.
    pub(crate) fn take(&mut self, alloc: Global) -> Option<Box<HeldServer>>
        ensures taken { option_map (λ b. b.value) result ≡ self.old.slot.value }
        ensures left { self.new.slot.value ≡ None }
    {
        let none = TftpServer {
            is_open: false,
            slot: ServerSlot::empty(),
        };
        let held = mem::replace(self, none);
        if held.is_open {
            Some(held.slot.into_box(alloc))
        } else {
            None
        }
    }

    /// Puts a server where there is none.
    pub(crate) fn put(&mut self, server: Box<HeldServer>)
        requires { self.old.slot.value ≡ None }
        ensures { self.new.slot.value ≡ Some server.value }
    {
        let held = TftpServer {
            is_open: true,
            slot: ServerSlot::of(server),
        };
        mem::replace(self, held);
    }

    pub(crate) fn close(&mut self, alloc: Global)
        ensures { self.new.slot.value ≡ None }
    {
        let held = self.take(alloc);
        drop(held);
    }
}
