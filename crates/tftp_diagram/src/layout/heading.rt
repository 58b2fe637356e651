//! The texts above and below the lanes: the title, the result, and what was left out.

use crate::diagram::Diagram;
use crate::ink::Ink;
use crate::layout::{Anchor, Font, Layout, Point, foot_of};
use std::alloc::AllocError;

/// The left edge of these texts.
pub(crate) const LEFT: u32 = 24;

impl Layout {
    /// Adds the texts above the lanes, and the number of events that were left out below them.
    pub(crate) fn add_heading(&mut self, diagram: &Diagram) -> Result<(), AllocError> {
        self.add_plain(LEFT, 32, Font::Title, diagram.title.as_str())?;
        self.add_plain(LEFT, 52, Font::Plain, diagram.summary.as_str())?;
        let y = foot_of(diagram).saturating_add(64);
        match diagram.left_out {
            0 => Ok(()),
            1 => self.add_plain(LEFT, y, Font::Title, "The event after these is not drawn."),
            left_out => {
                let text = format!(in self.alloc;
                    "The {left_out} events after these are not drawn."
                )?;
                self.add_plain(LEFT, y, Font::Title, text.as_str())
            }
        }
    }

    /// Adds a text that begins here.
    pub(crate) fn add_plain(
        &mut self,
        x: u32,
        y: u32,
        font: Font,
        text: &str,
    ) -> Result<(), AllocError> {
        self.add_words(Point { x, y }, Anchor::Start, font, Ink::Quiet, text)
    }
}
