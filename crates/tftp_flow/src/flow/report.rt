//! What is printed of a capture: a line for what belongs to no transfer, and some for a transfer.

use crate::flow::captured_transfer::{Aside, CapturedTransfer, Ending};
use crate::flow::transfer_datagram::Party;
use crate::flow::{Stray, Unread};
use std::fmt;

/// The most datagrams sent again that are printed of a transfer; the others are counted.
const MAX_REPEATS: usize = 20;

impl fmt::Display for Unread {
    fn fmt<W: fmt::Write>(&self, f: &mut fmt::Formatter<W>) -> fmt::Result {
        let (line, fault) = (self.line, self.fault);
        write!(f, "line {line}: {fault}")
    }
}

impl fmt::Display for Stray {
    fn fmt<W: fmt::Write>(&self, f: &mut fmt::Formatter<W>) -> fmt::Result {
        let (spot, from, to) = (self.spot, self.from, self.to);
        let text = self.text.as_str();
        write!(f, "{spot}: {from} > {to} {text}, of no transfer")
    }
}

impl fmt::Display for Aside {
    fn fmt<W: fmt::Write>(&self, f: &mut fmt::Formatter<W>) -> fmt::Result {
        let (spot, from, to, why) = (self.spot, self.from, self.to, self.why);
        let text = self.text.as_str();
        write!(f, "{spot}: {from} > {to} {text}, {why}")
    }
}

/// The report of a transfer, some lines.
impl fmt::Display for CapturedTransfer {
    fn fmt<W: fmt::Write>(&self, f: &mut fmt::Formatter<W>) -> fmt::Result {
        let (ends, request) = (Ends(self), self.request.as_str());
        let (answer, moved, cut) = (Answer(self), Moved(self), self.cut);
        writeln!(
            f,
            "{ends}\n  asked    {request}\n  answered by {answer}\n  sent     {moved}"
        )?;
        if cut > 0 {
            writeln!(
                f,
                "  cut      the capture has the beginning of {cut} of them"
            )?;
        }
        self.write_repeats(f)?;
        self.write_asides(f)?;
        let conclusion = Conclusion(self);
        writeln!(f, "  ended    {conclusion}")
    }
}

/// The line of a transfer that begins.
#[derive(Clone, Copy)]
pub struct Opened<'t>(pub &'t CapturedTransfer);

impl fmt::Display for Opened<'_> {
    fn fmt<W: fmt::Write>(&self, f: &mut fmt::Formatter<W>) -> fmt::Result {
        let (ends, request) = (Ends(self.0), self.0.request.as_str());
        write!(f, "{ends}: {request}")
    }
}

/// The line of a transfer that ended, or that is over.
#[derive(Clone, Copy)]
pub struct Ended<'t>(pub &'t CapturedTransfer);

impl fmt::Display for Ended<'_> {
    fn fmt<W: fmt::Write>(&self, f: &mut fmt::Formatter<W>) -> fmt::Result {
        let (number, again) = (self.0.number, self.0.again);
        let (conclusion, moved) = (Conclusion(self.0), Moved(self.0));
        write!(
            f,
            "transfer {number}: {conclusion}; {moved}, {again} sent again"
        )
    }
}

/// The number of a transfer, and which end does what.
#[derive(Clone, Copy)]
struct Ends<'t>(&'t CapturedTransfer);

impl fmt::Display for Ends<'_> {
    fn fmt<W: fmt::Write>(&self, f: &mut fmt::Formatter<W>) -> fmt::Result {
        let CapturedTransfer {
            number,
            client,
            asked_at,
            ..
        } = self.0;
        let does = match self.0.sender() {
            Party::Server => "reads from",
            Party::Client => "writes to",
        };
        write!(f, "transfer {number}: {client} {does} {asked_at}")
    }
}

/// How much was sent, and how long it took.
#[derive(Clone, Copy)]
struct Moved<'t>(&'t CapturedTransfer);

impl fmt::Display for Moved<'_> {
    fn fmt<W: fmt::Write>(&self, f: &mut fmt::Formatter<W>) -> fmt::Result {
        let (blocks, bytes) = (self.0.block_count(), self.0.byte_count());
        let time = self.0.lasted();
        write!(f, "{blocks}, {bytes} in {time} s")
    }
}

/// Who answered, and what was agreed.
#[derive(Clone, Copy)]
struct Answer<'t>(&'t CapturedTransfer);

impl fmt::Display for Answer<'_> {
    fn fmt<W: fmt::Write>(&self, f: &mut fmt::Formatter<W>) -> fmt::Result {
        let Some(server) = self.0.server else {
            return f.write_str("nobody");
        };
        let agreed = match &self.0.agreed {
            Some(agreed) => agreed.as_str(),
            None if self.0.blocks == 0 => return write!(f, "{server}"),
            None => "no options",
        };
        let size = self.0.block_size();
        write!(f, "{server}\n  agreed   {agreed}: blocks of {size}")
    }
}

/// How a transfer ended. Of one that did not: its last datagram, and who did not answer it.
#[derive(Clone, Copy)]
struct Conclusion<'t>(&'t CapturedTransfer);

impl fmt::Display for Conclusion<'_> {
    fn fmt<W: fmt::Write>(&self, f: &mut fmt::Formatter<W>) -> fmt::Result {
        match &self.0.ending {
            Ending::Complete => return f.write_str("complete"),
            Ending::Error { by, text } => return write!(f, "{text} of the {by}"),
            Ending::Open => {}
        }
        let Some(last) = self.0.datagrams.last() else {
            return f.write_str("nothing was sent");
        };
        let (what, by, silent) = (last.what, last.by, last.by.other());
        write!(
            f,
            "nothing after {what} of the {by}: the {silent} was silent"
        )
    }
}

impl CapturedTransfer {
    /// The datagrams that were sent again, each with how long after the one before.
    fn write_repeats<W: fmt::Write>(&self, f: &mut fmt::Formatter<W>) -> fmt::Result {
        let mut left = MAX_REPEATS;
        for datagram in &self.datagrams {
            if let Some(gap) = datagram.gap {
                if left > 0 {
                    writeln!(f, "  again    {datagram} after {gap} s")?;
                    left -= 1;
                }
            }
        }
        let more = self.again.saturating_sub(MAX_REPEATS);
        if more == 0 {
            return Ok(());
        }
        writeln!(f, "  again    {more} more")
    }

    /// The datagrams beside it.
    fn write_asides<W: fmt::Write>(&self, f: &mut fmt::Formatter<W>) -> fmt::Result {
        for aside in &self.asides {
            writeln!(f, "  beside   {aside}")?;
        }
        Ok(())
    }
}
