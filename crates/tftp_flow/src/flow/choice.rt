//! Which datagrams of a transfer are drawn: all if each has a row, or else the first, the last and
//! those around a repeat.

use crate::flow::transfer_datagram::{Party, TransferDatagram, newest_same};
use std::alloc::{AllocError, Global};

/// The datagrams at the start of a long transfer that are drawn.
const FIRST: usize = 40;

/// The datagrams at its end that are drawn.
const LAST: usize = 60;

/// The most rows of a repeat, of what it repeats and of the answer to that: one each, and one each
/// for what is not drawn beside it.
const REPEAT_ROWS: usize = 6;

/// The datagrams that are drawn.
#[derive(Drop)]
pub(crate) struct Choice {
    /// Of each datagram, whether it is drawn.
    drawn: Vec<bool>,
    /// The rows of these, and one for each stretch that is not drawn.
    rows: usize,
}

impl Choice {
    /// The choice for so many rows. Of a long transfer each repeat is drawn with what it repeats
    /// and the first answer to that, from the first repeat on, while there are rows for them.
    pub(crate) fn new(
        alloc: Global,
        datagrams: &[TransferDatagram],
        rows: usize,
    ) -> Result<Choice, AllocError> {
        let mut choice = Choice {
            drawn: Vec::new(alloc),
            rows: FIRST + LAST + 1,
        };
        let is_long = datagrams.len() > rows;
        let last = datagrams.len().saturating_sub(LAST);
        for index in 0..datagrams.len() {
            choice
                .drawn
                .push(!is_long || index < FIRST || index >= last)?;
        }
        if is_long {
            choice.add_repeats(datagrams, rows);
        }
        Ok(choice)
    }

    /// Whether a datagram is drawn.
    pub(crate) fn has(&self, index: usize) -> bool {
        self.drawn.get(index).copied().unwrap_or(false)
    }

    fn add_repeats(&mut self, datagrams: &[TransferDatagram], rows: usize) {
        for (index, datagram) in datagrams.iter().enumerate() {
            if datagram.gap.is_some() && self.rows.saturating_add(REPEAT_ROWS) <= rows {
                self.add_repeat(datagrams, index, datagram);
            }
        }
    }

    fn add_repeat(
        &mut self,
        datagrams: &[TransferDatagram],
        index: usize,
        datagram: &TransferDatagram,
    ) {
        self.add(index);
        let Some(earlier) = datagrams.get(..index) else {
            return;
        };
        let Some((before, repeated)) = newest_same(earlier, datagram.by, datagram.what) else {
            return;
        };
        self.add(before);
        if repeated.gap.is_none() {
            if let Some(answer) = answer_to(datagrams, before, repeated.by) {
                self.add(answer);
            }
        }
    }

    /// Draws a datagram. It needs a row, and cuts a stretch that is not drawn in two, or shortens
    /// it, or was all of it.
    fn add(&mut self, index: usize) {
        if self.has(index) {
            return;
        }
        let is_after = index > 0 && self.has(index - 1);
        let is_before = self.has(index.saturating_add(1));
        let rows = usize::from(!is_after) + usize::from(!is_before);
        self.rows = self.rows.saturating_add(rows);
        if let Some(drawn) = self.drawn.get_mut(index) {
            *drawn = true;
        }
    }
}

/// The first datagram of the other end after this index that repeats nothing.
fn answer_to(datagrams: &[TransferDatagram], index: usize, by: Party) -> Option<usize> {
    for later in index..datagrams.len() {
        let datagram = datagrams[later];
        if datagram.by != by && datagram.gap.is_none() {
            return Some(later);
        }
    }
    None
}
