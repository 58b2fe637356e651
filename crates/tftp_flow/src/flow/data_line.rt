//! The line of a DATA.

use std::fmt;

/// The line of a DATA, which has no more of it than its number and its length.
#[derive(Clone, Copy)]
pub struct DataLine {
    /// The number of the block.
    pub block: u16,
    /// The length of the block in bytes.
    pub length: usize,
}

impl fmt::Display for DataLine {
    ghost use Rattle.std.specs.Prelude.{Some};
    ghost use Rattle.tftp_flow.specs.DataLine.{data_line};

    ghost output = { λ line. Some (data_line line.block line.length) };

    fn fmt<W: fmt::Write>(&self, f: &mut fmt::Formatter<W>) -> fmt::Result {
        let DataLine { block, length } = *self;
        write!(f, "DATA {block} {length}")
    }
}
