//! Sequence diagrams of datagrams, as SVG: lanes from left to right, time downwards.
//!
//! It knows no protocol, opens no file and reads no clock: whoever has a run or a capture fills a
//! [`Diagram`], and [`svg_text`] draws it. Begin with these two.
#![tactic(auto)]

mod count;
mod diagram;
mod escape;
mod ink;
mod layout;
mod svg;

pub use count::Count;
pub use diagram::{
    Comment, Course, Diagram, Flight, Host, Lane, MAX_ROWS, Mark, MarkKind, Row, shortened,
};
pub use escape::ascii_text;
pub use svg::svg_text;
