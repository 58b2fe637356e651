//! The texts beside a lane: timeouts, closes and repeats.

use crate::diagram::{Course, Diagram, Flight, Mark, MarkKind};
use crate::ink::Ink;
use crate::layout::columns::Columns;
use crate::layout::{Layout, Point, SignKind, arrival_of, closing_of, sending_of};
use std::alloc::AllocError;

/// The height of a note on a repeat above its arrow's tip.
const ABOVE: u32 = 6;

impl Layout {
    /// Adds the signs of the marks.
    pub(crate) fn add_signs(
        &mut self,
        diagram: &Diagram,
        columns: &Columns,
    ) -> Result<(), AllocError> {
        for mark in &diagram.marks {
            self.add_sign(
                point_of(mark, columns),
                Ink::of_mark(mark.kind),
                sign_of(mark.kind),
            )?;
        }
        Ok(())
    }

    /// Adds the texts of the marks and of the repeats, each beside its lane.
    pub(crate) fn add_notes(
        &mut self,
        diagram: &Diagram,
        columns: &Columns,
    ) -> Result<(), AllocError> {
        for mark in &diagram.marks {
            let side = columns.side_of(mark, diagram.host_of(mark.lane));
            let ink = Ink::of_mark(mark.kind);
            let at = point_of(mark, columns);
            self.add_beside(columns, at, side, ink, mark.text.as_str())?;
        }
        for flight in &diagram.flights {
            match flight.course {
                Course::Followed => self.add_repeats(flight, columns)?,
                Course::Seen => {}
                Course::SeenAgain => self.add_repeat(flight, columns)?,
            }
        }
        Ok(())
    }

    /// A note for each time that a datagram arrives again.
    fn add_repeats(&mut self, flight: &Flight, columns: &Columns) -> Result<(), AllocError> {
        let [_, later @ ..] = flight.arrivals.as_slice() else {
            return Ok(());
        };
        for row in later {
            let at = Point {
                x: columns.x_of(flight.to),
                y: arrival_of(*row).saturating_sub(ABOVE),
            };
            let side = columns.away_from(flight.to, flight.from);
            self.add_beside(columns, at, side, Ink::Quiet, flight.again.as_str())?;
        }
        Ok(())
    }

    /// A note for a datagram that is a repeat.
    fn add_repeat(&mut self, flight: &Flight, columns: &Columns) -> Result<(), AllocError> {
        let at = Point {
            x: columns.x_of(flight.from),
            y: sending_of(flight.sent),
        };
        let side = columns.away_from(flight.from, flight.to);
        self.add_beside(columns, at, side, Ink::Quiet, flight.again.as_str())
    }
}

/// Where a mark is.
fn point_of(mark: &Mark, columns: &Columns) -> Point {
    let y = if mark.kind.is_close() {
        closing_of(mark.row)
    } else {
        arrival_of(mark.row)
    };
    Point {
        x: columns.x_of(mark.lane),
        y,
    }
}

pub(crate) fn sign_of(kind: MarkKind) -> SignKind {
    match kind {
        MarkKind::Timeout => SignKind::Clock,
        MarkKind::Refusal => SignKind::Square,
        MarkKind::Completed | MarkKind::Failed => SignKind::Bar,
    }
}
