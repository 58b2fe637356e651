//! The classic format: a header, and records with a header of four numbers each.

ghost use Rattle.std.specs.Prelude.{vec_len};
ghost use Rattle.tftp_capture.specs.Record.{StaysWithin};

use crate::block::Found;
use crate::capture::{MAX_RECORD, Stamp};
use crate::clock::Clock;
use crate::fault::CaptureFault;
use crate::input::{begins, fill, take_bytes};
use crate::link::Link;
use crate::order::Order;
use std::io::{BufReader, Read};

/// What the header of a capture says.
#[derive(Clone, Copy)]
pub(crate) struct Classic {
    order: Order,
    clock: Clock,
    link: Link,
}

impl Classic {
    /// The byte order and the clock that the first four bytes say, if they are of this format.
    pub(crate) fn magic(head: [u8; 4]) -> Option<(Order, Clock)> {
        match u32::from_be_bytes(head) {
            0xa1b2_c3d4 => Some((Order::Big, Clock::MICROS)),
            0xa1b2_3c4d => Some((Order::Big, Clock::NANOS)),
            0xd4c3_b2a1 => Some((Order::Little, Clock::MICROS)),
            0x4d3c_b2a1 => Some((Order::Little, Clock::NANOS)),
            _ => None,
        }
    }

    /// Reads the header, of which the first four bytes are read.
    pub(crate) fn read<R: Read>(
        head: [u8; 4],
        input: &mut BufReader<R>,
    ) -> Result<Classic, CaptureFault> {
        let Some((order, clock)) = Classic::magic(head) else {
            return Err(CaptureFault::Format);
        };
        let mut header = [0; 20];
        match fill(input, &mut header) {
            // the upper half says whether a checksum follows each frame
            Ok(()) => Ok(Classic {
                order,
                clock,
                link: Link::of(order.number(&header, 16) % 0x1_0000),
            }),
            Err(fault) => Err(fault),
        }
    }

    /// Reads the next record.
    pub(crate) fn next<R: Read>(
        self,
        input: &mut BufReader<R>,
        bytes: &mut Vec<u8>,
    ) -> Result<Found, CaptureFault>
        ensures { StaysWithin (vec_len bytes.old) (vec_len bytes.new) }
    {
        let mut header = [0; 16];
        match begins(input, &mut header) {
            Ok(true) => self.read_record(input, &header, bytes),
            Ok(false) => Ok(Found::End),
            Err(fault) => Err(fault),
        }
    }

    fn read_record<R: Read>(
        self,
        input: &mut BufReader<R>,
        header: &[u8; 16],
        bytes: &mut Vec<u8>,
    ) -> Result<Found, CaptureFault>
        ensures { StaysWithin (vec_len bytes.old) (vec_len bytes.new) }
    {
        let count = self.order.number(header, 8) as usize;
        if count > MAX_RECORD {
            return Err(CaptureFault::TooLong);
        }
        let seconds = u64::from(self.order.number(header, 0));
        let ticks = u64::from(self.order.number(header, 4));
        let micros = self.clock.micros(ticks).saturating_add(seconds * 1_000_000);
        match take_bytes(input, count, bytes) {
            Ok(()) => Ok(Found::Packet(Stamp {
                link: self.link,
                micros,
            })),
            Err(fault) => Err(fault),
        }
    }
}
