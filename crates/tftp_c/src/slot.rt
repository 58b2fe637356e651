//! A client behind a pointer, or nothing: what C holds, and cannot see into.

ghost use Rattle.std.specs.Prelude.{◌≡◌, Some, None, IsSome};
ghost use Rattle.std.specs.declared.option.Option.{Option};
ghost use Rattle.std.specs.Borrow.{sem};
ghost use Rattle.std.specs.Coded.{coded_option};
ghost use Rattle.tftp_c.specs.declared.client.Client.{Client};
ghost use Rattle.tftp_c.specs.contracts.client.Client.{the_row};
ghost use Rattle.tftp_c.specs.Owned.{owned_at};

use crate::client::Client;
use crate::loose::Loose;
use std::alloc::Global;
use std::marker::Model;
use std::ptr;

/// The pointer of a client's box, or null.
///
/// Its derived drop frees nothing: only [`Slot::into_box`] gives the memory back.
#[repr(C)]
#[derive(Drop)]
pub struct Slot {
    at: *mut u8,
    pub ghost value: { Option Client } by { coded_option the_row.coded },
}

impl Model for Slot {
    ghost also_owns = { λ s. owned_at the_row s.at s.value };
}

impl Slot {
    ghost use Rattle.tftp_c.specs.Lending.{LendsClient};

    /// The client, in its place.
    pub(crate) fn client(&mut self) -> &mut Client
        requires { IsSome self.old.value }
        ensures* writes_back { sem 𝓛 (LendsClient self.entry result) }
        ensures value { Some result.now ≡ self.old.value }
    {
        unsafe { &mut *(self.at as *mut Client) }
    }

    /// Forgets the type of the pointer.
    fn seal(loose: Loose<Client, Global>) -> Slot
        ensures { result.value ≡ Some loose.value }
    {
        let Loose { at, alloc: _ } = loose;
        Slot { at: at as *mut u8 }
    }

    /// Gives the pointer its type back.
    fn unseal(self, alloc: Global) -> Loose<Client, Global>
        requires { IsSome self.value }
        ensures { Some result.value ≡ self.value }
    {
        let Slot { at } = self;
        Loose {
            at: at as *mut Client,
            alloc,
        }
    }

    pub(crate) fn empty() -> Slot
        ensures { result.value ≡ None }
    {
        Slot {
            at: ptr::null_mut(),
        }
    }
}

impl Slot {
    pub(crate) fn of(client: Box<Client>) -> Slot
        ensures { result.value ≡ Some client.value }
    {
        Slot::seal(Loose::of(client))
    }

    pub(crate) fn into_box(self, alloc: Global) -> Box<Client>
        requires { IsSome self.value }
        ensures { Some result.value ≡ self.value }
    {
        self.unseal(alloc).into_box()
    }
}
