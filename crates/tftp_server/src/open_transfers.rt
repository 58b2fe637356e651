//! An iterator over the open transfers of a server.

ghost use Rattle.std.specs.Iterator.{YieldsFirst, item_count};

use crate::transfer::Transfer;
use slab::Slab;
use std::collections::btree_map::Iter;
use std::iter::FusedIterator;
use std::marker::Model;
use tftp_ends::Record;

/// An iterator over the open transfers of a server, in rising order of identifier: the identifier
/// and the record of each. It does not allocate.
///
/// `F` and `D` are the types of the store's sources and drafts.
#[derive(Drop)]
pub struct OpenTransfers<'a, F, D> {
    pub(crate) index: Iter<'a, u16, usize>,
    pub(crate) slots: &'a Slab<Transfer<F, D>>,
}

impl<'a, F, D> Model for OpenTransfers<'a, F, D> {
    ghost use Rattle.std.specs.Prelude.{List, ℕ};
    ghost use Rattle.tftp_ends.specs.declared.record.Record.{Record};
    ghost use Rattle.tftp_server.specs.State.{open_records};
    ghost use Rattle.tftp_server.specs.Table.{joined};

    ghost Value = { List (ℕ × Record) };

    ghost view = { λ o. open_records (joined o.index o.slots.now) };
}

impl<'a, F, D> Iterator for OpenTransfers<'a, F, D> {
    type Item = (u16, Record);

    ghost next_gives = { YieldsFirst (λ left. left) };

    ghost remaining = { item_count (λ left. left) };

    fn next(&mut self) -> Option<(u16, Record)> {
        while let Some((tid, key)) = self.index.next() {
            if let Some(transfer) = self.slots.get(*key) {
                let record = transfer.record();
                if record.outcome.is_none() {
                    return Some((*tid, record));
                }
            }
        }
        None
    }
}

impl<'a, F, D> FusedIterator for OpenTransfers<'a, F, D> {}
