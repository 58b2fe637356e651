//! The comments: each at the height of its row, at the right of everything else, so that no arrow
//! passes behind one.

use crate::diagram::Diagram;
use crate::ink::Ink;
use crate::layout::{Anchor, Layout, Point, sending_of, width_of};
use std::alloc::{AllocError, Global};
use std::mem;

/// The most letters of a line, unless a word is longer.
const MOST_LETTERS: usize = 40;
/// From one line of a comment to the next.
const LINE_HEIGHT: u32 = 15;
/// From the last lane's texts to the comments, and from these to the edge.
const GAP: u32 = 24;

impl Layout {
    /// Adds the comments at the right of what is drawn so far, and makes room for them there.
    pub(crate) fn add_comments(&mut self, diagram: &Diagram) -> Result<(), AllocError> {
        let left = self.width;
        let mut widest = 0;
        for comment in &diagram.comments {
            let mut y = sending_of(comment.row);
            for line in &wrapped(self.alloc, comment.text.as_str())? {
                let line = line.as_str();
                let width = width_of(line);
                widest = widest.max(width.saturating_add(GAP));
                self.add_text(Point { x: left, y }, Anchor::Start, width, Ink::Quiet, line)?;
                y = y.saturating_add(LINE_HEIGHT);
            }
        }
        self.width = left.saturating_add(widest);
        Ok(())
    }
}

/// A text in lines, which are broken between words.
fn wrapped(alloc: Global, text: &str) -> Result<Vec<String>, AllocError> {
    let mut lines = Vec::new(alloc);
    let mut line = String::new(alloc);
    for word in text.split(' ') {
        if !line.is_empty() {
            if line.len().saturating_add(word.len()) < MOST_LETTERS {
                line.push(' ')?;
            } else {
                lines.push(mem::replace(&mut line, String::new(alloc)))?;
            }
        }
        line.push_str(word)?;
    }
    lines.push(line)?;
    Ok(lines)
}
