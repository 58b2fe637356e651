//! The positions of a diagram's parts, in pixels: lanes from left to right, time downwards.

ghost use Rattle.std.specs.Prelude.{◌≡◌, ◌+◌, ◌*◌};

mod area;
mod arrows;
mod columns;
mod comments;
mod heading;
mod lanes;
mod legend;
mod notes;
mod spots;
mod times;

use crate::diagram::{Diagram, Row};
use crate::ink::Ink;
use crate::layout::area::Area;
use crate::layout::columns::Columns;
use std::alloc::{AllocError, Global};

/// From one row to the next.
const ROW_HEIGHT: u32 = 40;
/// The first row.
const FIRST_ROW: u32 = 136;
/// From where a datagram arrives to where the answer is sent: space for a label.
const ANSWER: u32 = 20;
/// From where a datagram arrives to where an end closes.
const CLOSE: u32 = 26;

/// A point: to the right, and downwards.
#[derive(Clone, Copy)]
pub(crate) struct Point {
    pub(crate) x: u32,
    pub(crate) y: u32,
}

/// A whole picture.
#[derive(Drop)]
pub(crate) struct Layout {
    alloc: Global,
    pub(crate) width: u32,
    pub(crate) height: u32,
    pub(crate) lines: Vec<Line>,
    pub(crate) frames: Vec<Frame>,
    pub(crate) signs: Vec<Sign>,
    pub(crate) texts: Vec<Text>,
    /// What no text beside a lane may cover: signs and other such texts.
    taken: Vec<Area>,
    /// The texts that found no place at their lane, which are at the right.
    aside: Vec<Aside>,
}

/// A rectangle that hides the lines behind it.
#[derive(Clone, Copy)]
pub(crate) struct Frame {
    /// Its left upper corner.
    pub(crate) corner: Point,
    pub(crate) width: u32,
    pub(crate) height: u32,
    /// The colour of its edge; none if it has no edge.
    pub(crate) edge: Option<Ink>,
}

/// A line.
#[derive(Clone, Copy)]
pub(crate) struct Line {
    pub(crate) from: Point,
    pub(crate) to: Point,
    pub(crate) ink: Ink,
    pub(crate) stroke: Stroke,
}

/// How a line is drawn.
#[derive(Clone, Copy, PartialEq, Eq)]
pub(crate) enum Stroke {
    /// A port.
    Lane,
    /// An end that is open.
    Open,
    /// A datagram that arrives, or that was seen.
    Arrow,
    /// A datagram that arrives again, or that was seen again.
    Repeat,
    /// A datagram that does not arrive.
    Stub,
    /// A request that opens an end.
    Handover,
    /// From a lane to a text at the right.
    Leader,
}

/// A sign in a lane, or at the end of a line.
#[derive(Clone, Copy)]
pub(crate) struct Sign {
    pub(crate) at: Point,
    pub(crate) ink: Ink,
    pub(crate) kind: SignKind,
}

/// What a sign looks like.
#[derive(Clone, Copy)]
pub(crate) enum SignKind {
    /// A datagram was lost.
    Cross,
    /// A timeout of an end.
    Clock,
    /// An end closed.
    Bar,
    /// A store is set to refuse.
    Square,
}

/// A text on one line.
#[derive(Drop)]
pub(crate) struct Text {
    pub(crate) at: Point,
    pub(crate) anchor: Anchor,
    pub(crate) font: Font,
    pub(crate) ink: Ink,
    pub(crate) text: String,
}

/// A text that is at the right of all lanes, and the point of its lane.
#[derive(Drop)]
struct Aside {
    from: Point,
    /// The middle of its line.
    middle: u32,
    ink: Ink,
    text: String,
}

/// The part of a text that is at its point.
#[derive(Clone, Copy)]
pub(crate) enum Anchor {
    Start,
    Middle,
    End,
}

/// How a text is set.
#[derive(Clone, Copy)]
pub(crate) enum Font {
    /// The words of packets and ports.
    Code,
    /// Explanations.
    Plain,
    /// The title.
    Title,
}

impl Layout {
    /// The layout of a diagram. The lines come first, so that each text finds a place beside them,
    /// and the comments last, at the right of all others.
    pub(crate) fn new(alloc: Global, diagram: &Diagram) -> Result<Layout, AllocError> {
        let columns = Columns::new(alloc, diagram)?;
        let mut layout = Layout {
            alloc,
            width: columns.width(),
            height: 0,
            lines: Vec::new(alloc),
            frames: Vec::new(alloc),
            signs: Vec::new(alloc),
            texts: Vec::new(alloc),
            taken: Vec::new(alloc),
            aside: Vec::new(alloc),
        };
        match layout.add_all(diagram, &columns) {
            Ok(()) => Ok(layout),
            Err(fault) => Err(fault),
        }
    }

    fn add_all(&mut self, diagram: &Diagram, columns: &Columns) -> Result<(), AllocError> {
        self.add_lanes(diagram, columns)?;
        self.add_times(diagram)?;
        self.add_arrows(diagram, columns)?;
        self.add_signs(diagram, columns)?;
        self.add_labels(diagram, columns)?;
        self.add_notes(diagram, columns)?;
        self.add_aside()?;
        self.add_comments(diagram)?;
        self.add_heading(diagram)?;
        self.add_legend(diagram)
    }

    /// Adds a text at a point.
    fn add_words(
        &mut self,
        at: Point,
        anchor: Anchor,
        font: Font,
        ink: Ink,
        words: &str,
    ) -> Result<(), AllocError> {
        self.texts.push(Text {
            at,
            anchor,
            font,
            ink,
            text: String::from_str(self.alloc, words)?,
        })?;
        Ok(())
    }
}

/// A side of a lane.
#[derive(Clone, Copy)]
pub(crate) enum LaneSide {
    Left,
    Right,
}

impl LaneSide {
    /// The other side.
    fn other(self) -> LaneSide {
        match self {
            LaneSide::Left => LaneSide::Right,
            LaneSide::Right => LaneSide::Left,
        }
    }
}

/// Where a datagram arrives in a row.
fn arrival_of(row: Row) -> u32
    ensures { result ≡ FIRST_ROW + row * ROW_HEIGHT }
{
    FIRST_ROW + u32::from(row) * ROW_HEIGHT
}

/// Where a datagram is sent in a row.
fn sending_of(row: Row) -> u32
    ensures { result ≡ FIRST_ROW + row * ROW_HEIGHT + ANSWER }
{
    arrival_of(row) + ANSWER
}

/// Where an end closes in a row.
fn closing_of(row: Row) -> u32
    ensures { result ≡ FIRST_ROW + row * ROW_HEIGHT + CLOSE }
{
    arrival_of(row) + CLOSE
}

/// Below the last row, where a datagram that was sent in it would arrive.
fn foot_of(diagram: &Diagram) -> u32 {
    arrival_of(diagram.rows)
}

/// The width of a text in the font for code, whose letters have 7.25 pixels; one of 255 letters and
/// more is as wide as one of 255.
fn width_of(text: &str) -> u32 {
    text.len().min(255) as u32 * 29 / 4
}
