//! The transfers of a server by their identifiers.

ghost use Rattle.std.specs.Prelude.{◌≡◌, ◌↔◌, ◌++◌, [], map, length, option_copied, option_map};
ghost use Rattle.std.specs.Prelude.{is_some, None, IsTrue, IfOk, IfErr, OnOk, OnErr, List, ℕ};
ghost use Rattle.std.specs.Prelude.{vec_len, vec_capacity};
ghost use Rattle.tftp_ends.specs.Shortage.{HasNoRoom};
ghost use Rattle.tftp_wire.specs.Borrowed.{owned};
ghost use Rattle.tftp_server.specs.State.{IsRepeated, open_records};
ghost use Rattle.std.specs.Map.{lookup, keys_of, remove_entry, set_value};
ghost use Rattle.std.specs.Borrow.{LendsIf, sem};
ghost use Rattle.std.specs.Option.{option_copied_mut};
ghost use Rattle.tftp_server.specs.Table.{IsKeyFor, AnyKeyRepeats, IsSpot};
ghost use Rattle.std.specs.BTreeMap.{insert_entry, is_at};
ghost use Rattle.std.specs.Ordering.{nat_cmp};

use crate::fault::ServerFault;
use crate::open_transfers::OpenTransfers;
use crate::transfer::Transfer;
use slab::Slab;
use std::alloc::Global;
use std::collections::BTreeMap;
use std::marker::Model;
use tftp_ends::Endpoint;
use tftp_wire::PacketRef;

/// Values by identifier. Contracts see them as a list in rising order of identifier.
#[derive(Drop)]
pub(crate) struct Table<T> {
    slots: Slab<T>,
    index: BTreeMap<u16, usize>,
}

/// A table with reserved capacity for one more value: its index already has the identifier, with
/// the key of the slot to fill.
#[derive(Drop)]
pub(crate) struct Spot<T> {
    slots: Slab<T>,
    index: BTreeMap<u16, usize>,
}

impl<T> Model for Table<T> {
    ghost use Rattle.std.specs.Prelude.{List, ℕ};
    ghost use Rattle.tftp_server.specs.Table.{joined, IsJoined};

    ghost Value = { List (ℕ × T) };

    ghost view = { λ t. joined t.index.entries t.slots };

    ghost invariant = { λ t. IsJoined t.index.entries t.slots };
}

impl<T> Table<T> {
    ghost use Rattle.tftp_server.specs.contracts.table.Table.{the_row};

    /// An empty table. It does not allocate.
    pub(crate) fn new(alloc: Global) -> Table<T>
        ensures { result ≡ [] }
    {
        Table {
            slots: Slab::new(alloc),
            index: BTreeMap::new(alloc),
        }
    }

    /// The number of values.
    pub(crate) fn len(&self) -> usize
        ensures { result ≡ length self.now }
    {
        self.index.len()
    }

    /// The value at the identifier.
    pub(crate) fn get(&self, tid: u16) -> Option<&T>
        ensures { option_copied result ≡ lookup (is_at (nat_cmp tid)) self.now }
    {
        match self.index.get(&tid) {
            Some(key) => self.slots.get(*key),
            None => None,
        }
    }

    /// Appends the identifiers in rising order. It appends none when out of memory.
    pub(crate) fn append_tids(&self, out: &mut Vec<u16>) -> Result<(), ServerFault>
        ensures ok { OnOk result (out.new.items ≡ out.old.items ++ keys_of self.now) }
        ensures err { OnErr result (out.new.items ≡ out.old.items) }
        ensures why { OnErr result (HasNoRoom (vec_capacity out.old) (vec_len out.old)
            (length self.now)) }
        ensures memory { IfErr result (λ fault. fault ≡ ServerFault.Memory) }
    {
        append_keys(&self.index, out)
    }

    /// The value at the identifier, to be changed.
    pub(crate) fn get_mut(&mut self, tid: u16) -> Option<&mut T>
        ensures* writes_back { sem 𝓛 (LendsIf (the_row T.row) T.row self.entry result
            (λ w. set_value (is_at (nat_cmp tid)) self.old w) self.old) }
        ensures value { option_copied_mut result ≡ lookup (is_at (nat_cmp tid)) self.old }
    {
        let key = key_at(&self.index, &self.slots, tid);
        self.slots.get_mut(key)
    }

    /// Whether it holds a value at the identifier.
    pub(crate) fn contains(&self, tid: u16) -> bool
        ensures { result ≡ is_some (lookup (is_at (nat_cmp tid)) self.now) }
    {
        self.index.contains_key(&tid)
    }
}

impl<F, D> Table<Transfer<F, D>> {
    /// The open transfers, in rising order of identifier.
    pub(crate) fn open_transfers(&self) -> OpenTransfers<'_, F, D>
        ensures { result ≡ open_records self.now }
    {
        OpenTransfers {
            index: self.index.iter(),
            slots: &self.slots,
        }
    }

    /// Whether one of them is open and was requested from `from` by this packet.
    pub(crate) fn is_repeated(&self, from: Endpoint, decoded: &Option<PacketRef<'_>>) -> bool
        ensures { IsRepeated result from (option_map owned decoded.now) self.now }
    {
        match decoded {
            Some(packet) => any_repeats(&self.index, &self.slots, from, packet),
            None => false,
        }
    }
}

/// Whether one of the transfers that the index names is open and was requested from `from` by this
/// packet.
fn any_repeats<F, D>(
    index: &BTreeMap<u16, usize>,
    slots: &Slab<Transfer<F, D>>,
    from: Endpoint,
    packet: &PacketRef<'_>,
) -> bool
    ensures { IsTrue result ↔ AnyKeyRepeats from (owned packet.now) slots.now (map (λ e. e.1)
        index.now.entries) }
{
    for key in index.values() {
        let is_repeated = match slots.get(*key) {
            Some(transfer) => transfer.repeats(from, packet),
            None => false,
        };
        if is_repeated {
            return true;
        }
    }
    false
}

impl<T: Drop> Table<T> {
    /// Reserves capacity for a value at an identifier that holds none. When out of memory, it
    /// returns the unchanged table.
    pub(crate) fn reserve(self, tid: u16) -> Result<Spot<T>, Table<T>>
        requires { lookup (is_at (nat_cmp tid)) self ≡ None }
        ensures spot { IfOk result (λ spot. IsSpot tid self spot.index.entries spot.slots) }
        ensures err { IfErr result (λ table. table ≡ self) }
    {
        let Table {
            mut slots,
            mut index,
        } = self;
        let Ok(()) = slots.reserve(1) else {
            return Err(Table { slots, index });
        };
        match index.insert(tid, slots.vacant_key()) {
            Ok(_) => Ok(Spot { slots, index }),
            Err(_) => Err(Table { slots, index }),
        }
    }

    /// Puts a value at an identifier that holds none. When out of memory, nothing has changed.
    pub(crate) fn insert(&mut self, tid: u16, value: T) -> Result<(), ServerFault>
        requires { lookup (is_at (nat_cmp tid)) self.old ≡ None }
        ensures ok { OnOk result (self.new ≡ insert_entry nat_cmp self.old tid value) }
        ensures err { OnErr result (self.new ≡ self.old) }
        ensures memory { IfErr result (λ fault. fault ≡ ServerFault.Memory) }
    {
        let Ok(()) = self.slots.reserve(1) else {
            return Err(ServerFault::Memory);
        };
        let Ok(_) = self.index.insert(tid, self.slots.vacant_key()) else {
            return Err(ServerFault::Memory);
        };
        self.slots.insert_reserved(value);
        Ok(())
    }

    /// Removes the value at the identifier, if it holds one.
    pub(crate) fn remove(&mut self, tid: u16) -> Option<T>
        ensures value { result ≡ lookup (is_at (nat_cmp tid)) self.old }
        ensures others { self.new ≡ remove_entry (is_at (nat_cmp tid)) self.old }
    {
        match self.index.remove(&tid) {
            Some(key) => self.slots.try_remove(key),
            None => None,
        }
    }
}

impl<T: Drop> Spot<T> {
    /// The table with the value at the reserved identifier.
    pub(crate) fn fill(self, value: T) -> Table<T>
        requires { (tid : ℕ) × (held : List (ℕ × T))
            × IsSpot tid held self.index.entries self.slots }
        ensures { (tid : ℕ) → (held : List (ℕ × T))
            → IsSpot tid held self.index.entries self.slots
            → result ≡ insert_entry nat_cmp held tid value }
    {
        let Spot { mut slots, index } = self;
        slots.insert_reserved(value);
        Table { slots, index }
    }

    /// The table as it was before the reservation.
    pub(crate) fn give_up(self, tid: u16) -> Table<T>
        requires { (held : List (ℕ × T)) × IsSpot tid held self.index.entries self.slots }
        ensures { (held : List (ℕ × T)) → IsSpot tid held self.index.entries self.slots
            → result ≡ held }
    {
        let Spot { slots, mut index } = self;
        index.remove(&tid);
        Table { slots, index }
    }
}

/// Appends the keys in order. It appends none when out of memory.
fn append_keys(index: &BTreeMap<u16, usize>, out: &mut Vec<u16>) -> Result<(), ServerFault>
    ensures ok { OnOk result (out.new.items ≡ out.old.items ++ keys_of index.now.entries) }
    ensures err { OnErr result (out.new.items ≡ out.old.items) }
    ensures why { OnErr result (HasNoRoom (vec_capacity out.old) (vec_len out.old)
        (length index.now.entries)) }
    ensures memory { IfErr result (λ fault. fault ≡ ServerFault.Memory) }
{
    let Ok(()) = out.reserve(index.len()) else {
        return Err(ServerFault::Memory);
    };
    for tid in index.keys() {
        out.push_reserved(*tid);
    }
    Ok(())
}

/// The key of the slot of an identifier, or a vacant one if the index has none.
fn key_at<T>(index: &BTreeMap<u16, usize>, slots: &Slab<T>, tid: u16) -> usize
    ensures { IsKeyFor (lookup (is_at (nat_cmp tid)) index.now.entries) result slots.now }
{
    match index.get(&tid) {
        Some(key) => *key,
        None => slots.vacant_key(),
    }
}
