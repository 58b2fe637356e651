//! A section of pcapng: its byte order, and its interfaces.

use crate::capture::Stamp;
use crate::clock::Clock;
use crate::fault::CaptureFault;
use crate::link::Link;
use crate::number::after;
use crate::order::Order;
use std::alloc::Global;

/// The most interfaces of a section.
const MOST_INTERFACES: usize = 4096;

/// The option of an interface that has its clock.
const IF_TSRESOL: u16 = 9;

/// An interface of a section.
#[derive(Clone, Copy)]
pub(crate) struct Interface {
    link: Link,
    clock: Clock,
    /// The most bytes of a frame that are captured; 0 for all.
    most: u32,
}

/// A section.
#[derive(Drop)]
pub(crate) struct Section {
    /// Its byte order.
    pub(crate) order: Order,
    interfaces: Vec<Interface>,
}

impl Section {
    /// A section of which no interface was read.
    pub(crate) fn new(alloc: Global, order: Order) -> Section {
        Section {
            order,
            interfaces: Vec::new(alloc),
        }
    }

    /// Adds the interface of a block's body.
    pub(crate) fn add_interface(&mut self, body: &[u8]) -> Result<(), CaptureFault> {
        if body.len() < 8 {
            return Err(CaptureFault::Block);
        }
        if self.interfaces.len() >= MOST_INTERFACES {
            return Err(CaptureFault::Interfaces);
        }
        let clock = match resolution_of(self.order, after(body, 8)) {
            Some(option) => Clock::of_resolution(option),
            None => Clock::MICROS,
        };
        let interface = Interface {
            link: Link::of(u32::from(self.order.pair(body, 0))),
            clock,
            most: self.order.number(body, 4),
        };
        match self.interfaces.push(interface) {
            Ok(()) => Ok(()),
            Err(_) => Err(CaptureFault::Memory),
        }
    }

    /// Link and time of a frame; of an interface that was not described, no link.
    pub(crate) fn stamp(&self, interface: u32, ticks: u64) -> Stamp {
        match self.interfaces.get(interface as usize) {
            Some(interface) => Stamp {
                link: interface.link,
                micros: interface.clock.micros(ticks),
            },
            None => Stamp {
                link: Link::Other,
                micros: 0,
            },
        }
    }

    /// How much of a frame of this length a simple packet block has.
    pub(crate) fn captured(&self, length: u32) -> u32 {
        match self.interfaces.first() {
            Some(interface) if interface.most > 0 => length.min(interface.most),
            _ => length,
        }
    }
}

/// The value of the option that has the clock.
fn resolution_of(order: Order, options: &[u8]) -> Option<u8> {
    let mut rest = options;
    for _ in 0..options.len() {
        let (code, value, others) = split_option(order, rest)?;
        if code == IF_TSRESOL {
            return value.first().copied();
        }
        rest = others;
    }
    None
}

/// The first option: its code, its value, and the options after it. A value is padded to four bytes.
fn split_option(order: Order, options: &[u8]) -> Option<(u16, &[u8], &[u8])> {
    if options.len() < 4 {
        return None;
    }
    let code = order.pair(options, 0);
    let length = usize::from(order.pair(options, 2));
    let rest = after(options, 4);
    let padded = (length + 3) / 4 * 4;
    if code == 0 || rest.len() < padded {
        return None;
    }
    let (value, _) = rest.split_at(length);
    Some((code, value, after(rest, padded)))
}
