//! Where a text beside a lane is put: where it covers no arrow, no sign and no other text.

use crate::ink::Ink;
use crate::layout::area::Area;
use crate::layout::columns::Columns;
use crate::layout::{Anchor, Aside, Font, Frame, LaneSide, Layout, Line, Point, Stroke, width_of};
use std::alloc::AllocError;
use std::mem;

/// From a lane to the text beside it.
const BESIDE: u32 = 12;
/// Half of the height of a text.
pub(crate) const HALF: u32 = 7;
/// How much lower or higher the next place is tried.
const STEP: u32 = 12;
/// The least distance of two texts at the right.
const ASIDE_STEP: u32 = 15;
/// From the lanes' part of the picture to the texts at its right, and from these to the edge.
const ASIDE_GAP: u32 = 24;
/// The letters of a text at the right that are not counted in the width.
const EDGE: u32 = 4;

/// A place for a text: beside a lane, with the middle of its line at this height.
#[derive(Clone, Copy)]
struct Spot {
    lane: u32,
    middle: u32,
    side: LaneSide,
}

impl Spot {
    /// The area of a text of this width.
    fn area(self, width: u32) -> Area {
        let (left, right) = match self.side {
            LaneSide::Left => {
                let right = self.lane.saturating_sub(BESIDE);
                (right.saturating_sub(width), right)
            }
            LaneSide::Right => {
                let left = self.lane.saturating_add(BESIDE);
                (left, left.saturating_add(width))
            }
        };
        Area {
            left,
            top: self.middle.saturating_sub(HALF),
            right,
            bottom: self.middle.saturating_add(HALF),
        }
    }

    /// The places to be tried, the best first.
    fn all(self) -> [Spot; 8] {
        let lower = self.middle.saturating_add(STEP);
        let higher = self.middle.saturating_sub(STEP);
        let lowest = lower.saturating_add(STEP);
        [
            self,
            self.across(),
            self.at(higher),
            self.at(lower),
            self.across().at(higher),
            self.across().at(lower),
            self.at(lowest),
            self.across().at(lowest),
        ]
    }

    /// The place on the other side of the lane.
    fn across(self) -> Spot {
        Spot {
            side: self.side.other(),
            ..self
        }
    }

    /// The place with another middle.
    fn at(self, middle: u32) -> Spot {
        Spot { middle, ..self }
    }
}

impl Layout {
    /// Adds a text beside a lane, with the middle of its line near this height, on this side if
    /// there is space; or else at the right of all lanes, with a line to it.
    pub(crate) fn add_beside(
        &mut self,
        columns: &Columns,
        at: Point,
        side: LaneSide,
        ink: Ink,
        text: &str,
    ) -> Result<(), AllocError> {
        let width = width_of(text);
        let wanted = Spot {
            lane: at.x,
            middle: at.y,
            side,
        };
        for spot in wanted.all() {
            if self.is_free(columns, spot.area(width)) {
                return self.add_spot(spot, width, ink, text);
            }
        }
        self.aside.push(Aside {
            from: at,
            middle: at.y,
            ink,
            text: String::from_str(self.alloc, text)?,
        })?;
        Ok(())
    }

    /// Whether a text may be here.
    fn is_free(&self, columns: &Columns, area: Area) -> bool {
        if area.left <= columns.left() || area.right >= columns.width() {
            return false;
        }
        for line in &self.lines {
            if line.stroke != Stroke::Lane && area.is_crossed_by(*line) {
                return false;
            }
        }
        for other in &self.taken {
            if area.overlaps(*other) {
                return false;
            }
        }
        true
    }

    /// Adds a text in its place, and hides the lane behind it.
    fn add_spot(&mut self, spot: Spot, width: u32, ink: Ink, text: &str) -> Result<(), AllocError> {
        let area = spot.area(width);
        let (x, anchor) = match spot.side {
            LaneSide::Left => (area.right, Anchor::End),
            LaneSide::Right => (area.left, Anchor::Start),
        };
        self.taken.push(area)?;
        self.add_text(Point { x, y: spot.middle }, anchor, width, ink, text)
    }

    /// Adds the texts at the right, from the lowest upwards, and the lines to them.
    pub(crate) fn add_aside(&mut self) -> Result<(), AllocError> {
        let x = self.width;
        let mut widest = 0;
        let mut most = u32::MAX;
        let mut texts = mem::replace(&mut self.aside, Vec::new(self.alloc));
        texts.sort_unstable_by_key(|aside| u32::MAX - aside.middle);
        for aside in &texts {
            let text = aside.text.as_str();
            let width = width_of(text);
            let middle = aside.middle.min(most);
            most = middle.saturating_sub(ASIDE_STEP);
            widest = widest.max(width.saturating_add(ASIDE_GAP));
            self.lines.push(Line {
                from: aside.from,
                to: Point {
                    x: x.saturating_sub(EDGE),
                    y: middle,
                },
                ink: Ink::Quiet,
                stroke: Stroke::Leader,
            })?;
            let at = Point { x, y: middle };
            self.add_text(at, Anchor::Start, width, aside.ink, text)?;
        }
        self.width = x.saturating_add(widest);
        Ok(())
    }

    /// Adds a text with the middle of its line here, and a rectangle that hides what is behind it.
    pub(crate) fn add_text(
        &mut self,
        at: Point,
        anchor: Anchor,
        width: u32,
        ink: Ink,
        text: &str,
    ) -> Result<(), AllocError> {
        let left = match anchor {
            Anchor::End => at.x.saturating_sub(width),
            Anchor::Start | Anchor::Middle => at.x,
        };
        self.frames.push(Frame {
            corner: Point {
                x: left.saturating_sub(2),
                y: at.y.saturating_sub(HALF),
            },
            width: width.saturating_add(4),
            height: 14,
            edge: None,
        })?;
        let at = Point {
            x: at.x,
            y: at.y.saturating_add(4),
        };
        self.add_words(at, anchor, Font::Code, ink, text)
    }
}
