//! The legend: a sample of each mark that is in the picture, and what it means.

use crate::diagram::{Course, Diagram, MarkKind};
use crate::ink::Ink;
use crate::layout::heading::LEFT;
use crate::layout::notes::sign_of;
use crate::layout::{Font, Layout, Line, Point, Sign, SignKind, Stroke, foot_of};
use std::alloc::AllocError;

/// From the last text below the lanes to the first line of the legend.
const BELOW: u32 = 24;
/// The height of a line.
const HEIGHT: u32 = 19;
/// The length of a sample.
const SAMPLE: u32 = 30;
/// From the left edge to the text.
const INDENT: u32 = 66;

/// What a picture may have.
#[derive(Clone, Copy)]
enum Entry {
    Line(Stroke),
    Lost,
    Mark(MarkKind),
}

/// The entries of a legend, from above, and what each means.
static ENTRIES: [(Entry, &str); 10] = [
    (Entry::Line(Stroke::Open), "an end of a transfer is open"),
    (
        Entry::Line(Stroke::Arrow),
        "a datagram, from where it was sent to where it arrived",
    ),
    (
        Entry::Line(Stroke::Repeat),
        "the same datagram, delivered again",
    ),
    (
        Entry::Line(Stroke::Handover),
        "a request opens an end at a port of its own",
    ),
    (
        Entry::Line(Stroke::Leader),
        "from a port to its text at the right",
    ),
    (Entry::Lost, "a datagram that never arrived"),
    (Entry::Mark(MarkKind::Timeout), "a timeout"),
    (
        Entry::Mark(MarkKind::Refusal),
        "the store is set to refuse its next write",
    ),
    (
        Entry::Mark(MarkKind::Completed),
        "an end closes, its transfer complete",
    ),
    (
        Entry::Mark(MarkKind::Failed),
        "an end closes for another reason",
    ),
];

impl Entry {
    /// What it means: this text, or another where the datagrams were seen on the wire.
    fn meaning(self, text: &'static str, is_seen: bool) -> &'static str {
        match self {
            Entry::Line(Stroke::Arrow) if is_seen => "a datagram, when it was seen on the wire",
            Entry::Line(Stroke::Repeat) if is_seen => "the same datagram, sent again",
            _ => text,
        }
    }
}

impl Layout {
    /// Adds a line for each kind of mark that the picture has, and sets its height.
    pub(crate) fn add_legend(&mut self, diagram: &Diagram) -> Result<(), AllocError> {
        let is_seen = has_seen(diagram);
        let mut middle = self.lowest(diagram).saturating_add(BELOW);
        for (entry, text) in &ENTRIES {
            if self.has(diagram, *entry) {
                self.add_entry(middle, *entry, entry.meaning(text, is_seen))?;
                middle = middle.saturating_add(HEIGHT);
            }
        }
        self.height = middle.saturating_add(4);
        Ok(())
    }

    /// Whether the picture has this.
    fn has(&self, diagram: &Diagram, entry: Entry) -> bool {
        match entry {
            Entry::Line(stroke) => {
                for line in &self.lines {
                    if line.stroke == stroke {
                        return true;
                    }
                }
            }
            Entry::Lost => {
                for flight in &diagram.flights {
                    if flight.is_lost() {
                        return true;
                    }
                }
            }
            Entry::Mark(kind) => {
                for mark in &diagram.marks {
                    if mark.kind == kind {
                        return true;
                    }
                }
            }
        }
        false
    }

    /// The line of the lowest text.
    fn lowest(&self, diagram: &Diagram) -> u32 {
        let mut lowest = foot_of(diagram);
        for text in &self.texts {
            lowest = lowest.max(text.at.y);
        }
        lowest
    }

    /// Adds a sample and its text.
    fn add_entry(&mut self, middle: u32, entry: Entry, text: &str) -> Result<(), AllocError> {
        match entry {
            Entry::Line(stroke) => self.lines.push(Line {
                from: Point { x: LEFT, y: middle },
                to: Point {
                    x: LEFT + SAMPLE,
                    y: middle,
                },
                ink: Ink::Client,
                stroke,
            })?,
            Entry::Lost => self.add_sample(middle, Ink::Lost, SignKind::Cross)?,
            Entry::Mark(kind) => self.add_sample(middle, Ink::of_mark(kind), sign_of(kind))?,
        }
        self.add_plain(INDENT, middle.saturating_add(4), Font::Plain, text)
    }

    fn add_sample(&mut self, middle: u32, ink: Ink, kind: SignKind) -> Result<(), AllocError> {
        let x = LEFT + SAMPLE / 2;
        self.signs.push(Sign {
            at: Point { x, y: middle },
            ink,
            kind,
        })?;
        Ok(())
    }
}

/// Whether a datagram was seen on the wire, in place of being followed.
fn has_seen(diagram: &Diagram) -> bool {
    for flight in &diagram.flights {
        if flight.course == Course::Seen {
            return true;
        }
    }
    false
}
