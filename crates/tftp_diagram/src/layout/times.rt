//! The times of the rows, at the left of all lanes.

use crate::diagram::Diagram;
use crate::ink::Ink;
use crate::layout::{Anchor, Font, Layout, Point, sending_of};
use std::alloc::AllocError;

/// From the left edge to the times.
const BESIDE_EDGE: u32 = 16;
/// The line of their unit, beside the names of the lanes.
const UNIT: u32 = 97;

impl Layout {
    /// Adds the times of the rows, each where a datagram is sent in it, and their unit above them.
    pub(crate) fn add_times(&mut self, diagram: &Diagram) -> Result<(), AllocError> {
        if diagram.times.is_empty() {
            return Ok(());
        }
        self.add_time(UNIT, "s")?;
        for row in 0..diagram.rows {
            if let Some(time) = diagram.times.get(usize::from(row)) {
                self.add_time(sending_of(row).saturating_add(4), time.as_str())?;
            }
        }
        Ok(())
    }

    fn add_time(&mut self, y: u32, text: &str) -> Result<(), AllocError> {
        let at = Point { x: BESIDE_EDGE, y };
        self.add_words(at, Anchor::Start, Font::Code, Ink::Quiet, text)
    }
}
