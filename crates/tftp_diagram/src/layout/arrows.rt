//! The datagrams: an arrow from where each was sent to where it arrived, with its line.

use crate::diagram::{Course, Diagram, Flight};
use crate::ink::Ink;
use crate::layout::area::Area;
use crate::layout::columns::Columns;
use crate::layout::{
    ANSWER, LaneSide, Layout, Line, Point, Sign, SignKind, Stroke, arrival_of, foot_of, sending_of,
};
use std::alloc::AllocError;

/// How far before its lane a lost datagram ends.
const SHORT: u32 = 40;
/// How far below the start of its line.
const FALL: u32 = 10;
/// From the middle of a label to the start of the line below it.
const ABOVE: u32 = 8;
/// How far a sign reaches from its point.
const SIGN: u32 = 8;

impl Layout {
    /// Adds the arrows of all datagrams.
    pub(crate) fn add_arrows(
        &mut self,
        diagram: &Diagram,
        columns: &Columns,
    ) -> Result<(), AllocError> {
        for flight in &diagram.flights {
            let ink = Ink::of_host(diagram.host_of(flight.from));
            self.add_handover(diagram, flight, columns)?;
            match flight.course {
                Course::Seen => self.add_level(flight, columns, ink, Stroke::Arrow)?,
                Course::SeenAgain => self.add_level(flight, columns, ink, Stroke::Repeat)?,
                Course::Followed => self.add_deliveries(flight, columns, ink)?,
            }
            if flight.arrives_later {
                let end = Point {
                    x: columns.x_of(flight.to),
                    y: foot_of(diagram),
                };
                self.add_line(flight, columns, end, ink, Stroke::Stub)?;
            } else if flight.is_lost() {
                self.add_loss(flight, columns, ink)?;
            }
        }
        Ok(())
    }

    /// Adds the labels of all datagrams, each where its arrow begins.
    pub(crate) fn add_labels(
        &mut self,
        diagram: &Diagram,
        columns: &Columns,
    ) -> Result<(), AllocError> {
        for flight in &diagram.flights {
            let side = if columns.is_left_of(flight.to, flight.from) {
                LaneSide::Left
            } else {
                LaneSide::Right
            };
            let at = Point {
                x: columns.x_of(flight.from),
                y: sending_of(flight.sent).saturating_sub(ABOVE),
            };
            let ink = Ink::of_host(diagram.host_of(flight.from));
            self.add_beside(columns, at, side, ink, flight.label.as_str())?;
        }
        Ok(())
    }

    /// Adds a sign, which no text may cover.
    pub(crate) fn add_sign(
        &mut self,
        at: Point,
        ink: Ink,
        kind: SignKind,
    ) -> Result<(), AllocError> {
        self.taken.push(Area::round(at, SIGN))?;
        self.signs.push(Sign { at, ink, kind })?;
        Ok(())
    }

    /// A datagram that was seen on the wire.
    fn add_level(
        &mut self,
        flight: &Flight,
        columns: &Columns,
        ink: Ink,
        stroke: Stroke,
    ) -> Result<(), AllocError> {
        let end = Point {
            x: columns.x_of(flight.to),
            y: sending_of(flight.sent),
        };
        self.add_line(flight, columns, end, ink, stroke)
    }

    /// The first arrival, and each later one.
    fn add_deliveries(
        &mut self,
        flight: &Flight,
        columns: &Columns,
        ink: Ink,
    ) -> Result<(), AllocError> {
        for (count, row) in flight.arrivals.iter().enumerate() {
            let end = Point {
                x: columns.x_of(flight.to),
                y: arrival_of(*row),
            };
            let stroke = if count == 0 {
                Stroke::Arrow
            } else {
                Stroke::Repeat
            };
            self.add_line(flight, columns, end, ink, stroke)?;
        }
        Ok(())
    }

    /// A datagram that is lost: its line ends before the lane, in a cross.
    fn add_loss(&mut self, flight: &Flight, columns: &Columns, ink: Ink) -> Result<(), AllocError> {
        let lane = columns.x_of(flight.to);
        let x = if columns.is_left_of(flight.to, flight.from) {
            lane.saturating_add(SHORT)
        } else {
            lane.saturating_sub(SHORT)
        };
        let y = sending_of(flight.sent).saturating_add(FALL);
        let at = Point { x, y };
        self.add_line(flight, columns, at, ink, Stroke::Stub)?;
        self.add_sign(at, Ink::Lost, SignKind::Cross)
    }

    /// From the request port to the end that it opened.
    fn add_handover(
        &mut self,
        diagram: &Diagram,
        flight: &Flight,
        columns: &Columns,
    ) -> Result<(), AllocError> {
        let Some(port) = flight.opened_at else {
            return Ok(());
        };
        let y = sending_of(flight.sent).saturating_sub(ANSWER);
        self.lines.push(Line {
            from: Point {
                x: columns.x_of(port),
                y,
            },
            to: Point {
                x: columns.x_of(flight.from),
                y,
            },
            ink: Ink::of_host(diagram.host_of(port)),
            stroke: Stroke::Handover,
        })?;
        Ok(())
    }

    /// A line from where a datagram was sent.
    fn add_line(
        &mut self,
        flight: &Flight,
        columns: &Columns,
        to: Point,
        ink: Ink,
        stroke: Stroke,
    ) -> Result<(), AllocError> {
        self.lines.push(Line {
            from: Point {
                x: columns.x_of(flight.from),
                y: sending_of(flight.sent),
            },
            to,
            ink,
            stroke,
        })?;
        Ok(())
    }
}
