//! A rectangle of a picture, and whether something else is in it.

use crate::layout::{Line, Point};

/// A rectangle, without its edges.
#[derive(Clone, Copy)]
pub(crate) struct Area {
    pub(crate) left: u32,
    pub(crate) top: u32,
    pub(crate) right: u32,
    pub(crate) bottom: u32,
}

impl Area {
    /// The square round a point, out to this distance.
    pub(crate) fn round(at: Point, distance: u32) -> Area {
        Area {
            left: at.x.saturating_sub(distance),
            top: at.y.saturating_sub(distance),
            right: at.x.saturating_add(distance),
            bottom: at.y.saturating_add(distance),
        }
    }

    /// Whether two rectangles have a point in common.
    pub(crate) fn overlaps(self, other: Area) -> bool {
        self.left < other.right
            && other.left < self.right
            && self.top < other.bottom
            && other.top < self.bottom
    }

    /// Whether a line comes through the rectangle: its ends are not both beyond one edge, and the
    /// corners are not all on one side of it.
    pub(crate) fn is_crossed_by(self, line: Line) -> bool {
        let (from, to) = (line.from, line.to);
        if from.x.max(to.x) <= self.left || from.x.min(to.x) >= self.right {
            return false;
        }
        if from.y.max(to.y) <= self.top || from.y.min(to.y) >= self.bottom {
            return false;
        }
        let upper_left = side_of(line, self.left, self.top);
        let upper_right = side_of(line, self.right, self.top);
        let lower_left = side_of(line, self.left, self.bottom);
        let lower_right = side_of(line, self.right, self.bottom);
        let least = upper_left.min(upper_right).min(lower_left).min(lower_right);
        let most = upper_left.max(upper_right).max(lower_left).max(lower_right);
        least <= 0 && most >= 0
    }
}

/// Positive on one side of a line, negative on the other, and 0 on it.
fn side_of(line: Line, x: u32, y: u32) -> i64 {
    let (across, down) = (
        distance(line.from.x, line.to.x),
        distance(line.from.y, line.to.y),
    );
    let (to_x, to_y) = (distance(line.from.x, x), distance(line.from.y, y));
    across
        .saturating_mul(to_y)
        .saturating_sub(down.saturating_mul(to_x))
}

/// How far the second is beyond the first.
fn distance(from: u32, to: u32) -> i64 {
    i64::from(to).saturating_sub(i64::from(from))
}
