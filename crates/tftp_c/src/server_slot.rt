//! A server behind a pointer, or nothing: what C holds, and cannot see into.

ghost use Rattle.std.specs.Prelude.{◌≡◌, Some, None, IsSome};
ghost use Rattle.std.specs.declared.option.Option.{Option};
ghost use Rattle.std.specs.Borrow.{sem};
ghost use Rattle.std.specs.Coded.{coded_option};
ghost use Rattle.tftp_c.specs.declared.held_server.HeldServer.{HeldServer};
ghost use Rattle.tftp_c.specs.contracts.held_server.HeldServer.{the_row};
ghost use Rattle.tftp_c.specs.Owned.{owned_at};

use crate::held_server::HeldServer;
use crate::loose::Loose;
use std::alloc::Global;
use std::marker::Model;
use std::ptr;

/// The pointer of a server's box, or null.
///
/// Its derived drop frees nothing: only [`ServerSlot::into_box`] gives the memory back.
#[repr(C)]
#[derive(Drop)]
pub struct ServerSlot {
    at: *mut u8,
    pub ghost value: { Option HeldServer } by { coded_option the_row.coded },
}

impl Model for ServerSlot {
    ghost also_owns = { λ s. owned_at the_row s.at s.value };
}

impl ServerSlot {
    ghost use Rattle.tftp_c.specs.Lending.{LendsServer};

    /// The server, in its place.
    pub(crate) fn server(&mut self) -> &mut HeldServer
        requires { IsSome self.old.value }
        ensures* writes_back { sem 𝓛 (LendsServer self.entry result) }
        ensures value { Some result.now ≡ self.old.value }
    {
        unsafe { &mut *(self.at as *mut HeldServer) }
    }

    /// Forgets the type of the pointer.
    fn seal(loose: Loose<HeldServer, Global>) -> ServerSlot
        ensures { result.value ≡ Some loose.value }
    {
        let Loose { at, alloc: _ } = loose;
        ServerSlot { at: at as *mut u8 }
    }

    /// Gives the pointer its type back.
    fn unseal(self, alloc: Global) -> Loose<HeldServer, Global>
        requires { IsSome self.value }
        ensures { Some result.value ≡ self.value }
    {
        let ServerSlot { at } = self;
        Loose {
            at: at as *mut HeldServer,
            alloc,
        }
    }

    pub(crate) fn empty() -> ServerSlot
        ensures { result.value ≡ None }
    {
        ServerSlot {
            at: ptr::null_mut(),
        }
    }
}

impl ServerSlot {
    pub(crate) fn of(server: Box<HeldServer>) -> ServerSlot
        ensures { result.value ≡ Some server.value }
    {
        ServerSlot::seal(Loose::of(server))
    }

    pub(crate) fn into_box(self, alloc: Global) -> Box<HeldServer>
        requires { IsSome self.value }
        ensures { Some result.value ≡ self.value }
    {
        self.unseal(alloc).into_box()
    }
}
