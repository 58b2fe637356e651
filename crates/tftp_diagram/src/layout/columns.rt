//! The distances of the lanes: as wide as the texts between them need.

use crate::diagram::{Diagram, Flight, Host, Lane, Mark};
use crate::layout::{LaneSide, width_of};
use std::alloc::{AllocError, Global};

/// The least width of the picture.
const LEAST_WIDTH: u32 = 480;
/// The least distance of two lanes.
const LEAST_GAP: u32 = 132;
/// The least distance of a lane from the edge.
const LEAST_MARGIN: u32 = 84;
/// What a frame has beyond its text, and half of that between two frames.
const FRAME: u32 = 28;

/// The lanes from left to right, and their positions.
#[derive(Drop)]
pub(crate) struct Columns {
    /// The indices of the lanes, from left to right.
    order: Vec<usize>,
    /// The left edge, each lane and the right edge, once they have their space.
    stops: Vec<u32>,
    /// The width of the times at the left.
    times: u32,
}

/// Two stops and their least distance.
#[derive(Clone, Copy)]
struct Need {
    left: usize,
    right: usize,
    width: u32,
}

impl Columns {
    /// The clients are on the left, then the server, then all others; each has the space that its
    /// arrows and texts need.
    pub(crate) fn new(alloc: Global, diagram: &Diagram) -> Result<Columns, AllocError> {
        let mut columns = Columns {
            order: Vec::new(alloc),
            stops: Vec::new(alloc),
            times: width_of_times(diagram),
        };
        match columns.space(alloc, diagram) {
            Ok(()) => Ok(columns),
            Err(fault) => Err(fault),
        }
    }

    /// The position of a lane.
    pub(crate) fn x_of(&self, lane: usize) -> u32 {
        self.x_at(self.stop_of(lane))
    }

    /// The right edge of the times.
    pub(crate) fn left(&self) -> u32 {
        self.times
    }

    /// The width of the picture, without the texts at its right.
    pub(crate) fn width(&self) -> u32 {
        self.x_at(self.last_stop())
    }

    /// Whether the first lane is on the left of the other.
    pub(crate) fn is_left_of(&self, lane: usize, other: usize) -> bool {
        self.stop_of(lane) < self.stop_of(other)
    }

    /// The side of a lane that is not the other lane's.
    pub(crate) fn away_from(&self, lane: usize, other: usize) -> LaneSide {
        if self.is_left_of(lane, other) {
            LaneSide::Left
        } else {
            LaneSide::Right
        }
    }

    /// The side of the text of a mark.
    pub(crate) fn side_of(&self, mark: &Mark, host: Host) -> LaneSide {
        match mark.reply_to {
            Some(to) => self.away_from(mark.lane, to),
            None if host == Host::Client => LaneSide::Left,
            None => LaneSide::Right,
        }
    }

    /// Puts the lanes in their order, and gives them their space.
    fn space(&mut self, alloc: Global, diagram: &Diagram) -> Result<(), AllocError> {
        for host in [Host::Client, Host::Server, Host::Stranger] {
            self.add_host(diagram, host)?;
        }
        let mut needs = Vec::new(alloc);
        self.add_needs(diagram, &mut needs)?;
        for stop in 0..self.last_stop().saturating_add(1) {
            let x = self.stop_x(stop, needs.as_slice());
            self.stops.push(x)?;
        }
        Ok(())
    }

    fn add_host(&mut self, diagram: &Diagram, host: Host) -> Result<(), AllocError> {
        for (index, lane) in diagram.lanes.iter().enumerate() {
            if lane.host == host {
                self.order.push(index)?;
            }
        }
        Ok(())
    }

    /// The stop of the right edge; the left edge is stop 0.
    fn last_stop(&self) -> usize {
        self.order.len().saturating_add(1)
    }

    fn stop_of(&self, lane: usize) -> usize {
        for (place, index) in self.order.iter().enumerate() {
            if *index == lane {
                return place.saturating_add(1);
            }
        }
        0
    }

    fn x_at(&self, stop: usize) -> u32 {
        self.stops.get(stop).copied().unwrap_or(0)
    }

    /// The position of a stop, after those on its left.
    fn stop_x(&self, stop: usize, needs: &[Need]) -> u32 {
        let mut x = self.times;
        for need in needs {
            if need.right == stop {
                x = x.max(self.x_at(need.left).saturating_add(need.width));
            }
        }
        x
    }

    /// Adds the distances that the stops need.
    fn add_needs(&self, diagram: &Diagram, needs: &mut Vec<Need>) -> Result<(), AllocError> {
        self.add_frames(diagram, needs)?;
        for flight in &diagram.flights {
            needs.push(self.need_of_flight(flight))?;
        }
        for mark in &diagram.marks {
            needs.push(self.need_of_mark(mark, diagram.host_of(mark.lane)))?;
        }
        Ok(())
    }

    /// The width of the picture, and the distance of neighbours, whose frames are side by side.
    fn add_frames(&self, diagram: &Diagram, needs: &mut Vec<Need>) -> Result<(), AllocError> {
        let last = self.last_stop();
        let texts = width_of(diagram.summary.as_str()).max(width_of(diagram.title.as_str()));
        needs.push(Need {
            left: 0,
            right: last,
            width: LEAST_WIDTH.max(texts.saturating_add(2 * FRAME)),
        })?;
        let mut half_before = 0;
        for (place, index) in self.order.iter().enumerate() {
            let half = match diagram.lanes.get(*index) {
                Some(lane) => half_of_frame(lane),
                None => 0,
            };
            let width = half.saturating_add(half_before);
            needs.push(neighbours(place, last, width))?;
            half_before = half;
        }
        needs.push(neighbours(self.order.len(), last, half_before))?;
        Ok(())
    }

    /// The label of a datagram is between its sender's lane and the next.
    fn need_of_flight(&self, flight: &Flight) -> Need {
        let width = width_of(flight.label.as_str()).saturating_add(32);
        let from = self.stop_of(flight.from);
        if self.is_left_of(flight.to, flight.from) {
            beside(from, LaneSide::Left, width)
        } else {
            beside(from, LaneSide::Right, width)
        }
    }

    /// A text of a mark is between its lane and the next.
    fn need_of_mark(&self, mark: &Mark, host: Host) -> Need {
        let width = width_of(mark.text.as_str()).saturating_add(36);
        beside(self.stop_of(mark.lane), self.side_of(mark, host), width)
    }
}

/// The distance of a stop to the next one on a side.
fn beside(stop: usize, side: LaneSide, width: u32) -> Need {
    let left = match side {
        LaneSide::Left => stop.saturating_sub(1),
        LaneSide::Right => stop,
    };
    Need {
        left,
        right: left.saturating_add(1),
        width,
    }
}

/// The distance that two neighbours need, whose frames need this width.
fn neighbours(left: usize, last: usize, width: u32) -> Need {
    let right = left.saturating_add(1);
    let least = if left == 0 || right == last {
        LEAST_MARGIN
    } else {
        LEAST_GAP
    };
    Need {
        left,
        right,
        width: least.max(width),
    }
}

/// Half of the width of a lane's frame, and of the space between two.
fn half_of_frame(lane: &Lane) -> u32 {
    width_of(lane.name.as_str()).saturating_add(FRAME) / 2
}

/// The width of the times at the left.
fn width_of_times(diagram: &Diagram) -> u32 {
    let mut width = 0;
    for time in &diagram.times {
        width = width.max(width_of(time.as_str()).saturating_add(FRAME));
    }
    width
}
