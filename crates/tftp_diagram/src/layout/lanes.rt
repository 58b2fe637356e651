//! The lanes: a line for each port, with its name at both ends, and bold while an end is open.

use crate::diagram::{Diagram, Lane};
use crate::ink::Ink;
use crate::layout::columns::Columns;
use crate::layout::{
    Anchor, Font, Frame, Layout, Line, Point, Stroke, closing_of, foot_of, sending_of, width_of,
};
use std::alloc::AllocError;

/// The upper edge of the frames, and their height.
const BOX_TOP: u32 = 72;

const BOX_HEIGHT: u32 = 40;

impl Layout {
    /// Adds all lanes.
    pub(crate) fn add_lanes(
        &mut self,
        diagram: &Diagram,
        columns: &Columns,
    ) -> Result<(), AllocError> {
        for (index, lane) in diagram.lanes.iter().enumerate() {
            let x = columns.x_of(index);
            self.add_lane_line(diagram, x, lane)?;
            if lane.is_end {
                self.add_open_line(diagram, x, index, lane)?;
            }
            self.add_frame(x, lane)?;
            self.add_foot(diagram, x, lane)?;
        }
        Ok(())
    }

    fn add_lane_line(&mut self, diagram: &Diagram, x: u32, lane: &Lane) -> Result<(), AllocError> {
        let top = BOX_TOP + BOX_HEIGHT;
        let foot = foot_of(diagram).saturating_add(12);
        self.lines.push(Line {
            from: Point { x, y: top },
            to: Point { x, y: foot },
            ink: Ink::of_host(lane.host),
            stroke: Stroke::Lane,
        })?;
        Ok(())
    }

    /// From where the end sends its first datagram to where it closes, or to the foot.
    fn add_open_line(
        &mut self,
        diagram: &Diagram,
        x: u32,
        index: usize,
        lane: &Lane,
    ) -> Result<(), AllocError> {
        let Some(first) = first_sent(diagram, index) else {
            return Ok(());
        };
        let foot = match closing_in(diagram, index) {
            Some(close) => close,
            None => {
                let foot = foot_of(diagram);
                let y = foot.saturating_add(44);
                self.add_middle(x, y, Font::Plain, Ink::Timeout, "still open")?;
                foot.saturating_add(12)
            }
        };
        self.lines.push(Line {
            from: Point { x, y: first },
            to: Point { x, y: foot },
            ink: Ink::of_host(lane.host),
            stroke: Stroke::Open,
        })?;
        Ok(())
    }

    /// The frame at the head of a lane, with its endpoint and what is there.
    fn add_frame(&mut self, x: u32, lane: &Lane) -> Result<(), AllocError> {
        let width = width_of(lane.name.as_str()).saturating_add(20);
        let ink = Ink::of_host(lane.host);
        self.frames.push(Frame {
            corner: Point {
                x: x.saturating_sub(width / 2),
                y: BOX_TOP,
            },
            width,
            height: BOX_HEIGHT,
            edge: Some(ink),
        })?;
        self.add_middle(x, BOX_TOP + 17, Font::Code, ink, lane.name.as_str())?;
        self.add_middle(x, BOX_TOP + 33, Font::Plain, ink, lane.role)
    }

    /// The endpoint at the foot of a lane.
    fn add_foot(&mut self, diagram: &Diagram, x: u32, lane: &Lane) -> Result<(), AllocError> {
        let y = foot_of(diagram).saturating_add(28);
        let ink = Ink::of_host(lane.host);
        self.add_middle(x, y, Font::Code, ink, lane.name.as_str())
    }

    fn add_middle(
        &mut self,
        x: u32,
        y: u32,
        font: Font,
        ink: Ink,
        text: &str,
    ) -> Result<(), AllocError> {
        self.add_words(Point { x, y }, Anchor::Middle, font, ink, text)
    }
}

/// Where the end of a lane sends its first datagram.
fn first_sent(diagram: &Diagram, index: usize) -> Option<u32> {
    for flight in &diagram.flights {
        if flight.from == index {
            return Some(sending_of(flight.sent));
        }
    }
    None
}

/// Where the end of a lane closes.
fn closing_in(diagram: &Diagram, index: usize) -> Option<u32> {
    for mark in &diagram.marks {
        if mark.lane == index && mark.kind.is_close() {
            return Some(closing_of(mark.row));
        }
    }
    None
}
