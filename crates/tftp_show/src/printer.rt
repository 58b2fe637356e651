//! Prints the transfers of a capture as they begin, end and are over.

ghost use Rattle.std.specs.Prelude.{◌≡◌, false, IfOk, IsSome};
ghost use Rattle.tftp_flow.specs.Flow.{is_whole};
ghost use Rattle.tftp_show.specs.Outcome.{whole_by};

use crate::show::ShowFault;
use crate::task::{Style, Task};
use std::alloc::Global;
use std::io::Write;
use tftp_capture::{CaptureFault, FrameFault, Record, read_datagram};
use tftp_diagram::Diagram;
use tftp_flow::{
    Assigned, CapturedTransfer, Ended, Flow, Json, Moment, Opened, Payload, Seen, Spot,
};

/// The frames that have no datagram.
#[derive(Clone, Copy)]
struct LeftOut {
    /// Of a link that is not supported.
    links: u64,
    /// Later fragments.
    fragments: u64,
    /// All others.
    others: u64,
}

/// What is printed of a capture, and what is to be said in the end.
#[derive(Drop)]
pub(crate) struct Printer<W> {
    output: W,
    task: Task,
    flow: Flow,
    text: String,
    left_out: LeftOut,
    /// Whether each line that was printed is that of a packet.
    are_packets: bool,
    /// Whether a transfer ended that was not printed yet.
    has_ended: bool,
    /// Whether the transfer that alone is printed was there.
    is_found: bool,
    /// The picture of the transfer that is drawn.
    diagram: Option<Diagram>,
}

/// How a run over a capture ended.
#[derive(Drop)]
pub(crate) struct Outcome {
    /// Whether each datagram was as it should be: a packet, or of a transfer.
    pub(crate) is_whole: bool,
    /// The picture of the transfer that is drawn.
    pub(crate) diagram: Option<Diagram>,
    /// The frame at which the capture could not be read on, and why.
    pub(crate) cut: Option<(u64, CaptureFault)>,
}

impl<W: Write> Printer<W> {
    /// A printer of lines, all of which are TFTP, or of frames.
    pub(crate) fn new(alloc: Global, output: W, task: Task, port: Option<u16>) -> Printer<W> {
        Printer {
            output,
            task,
            flow: Flow::new(alloc, port),
            text: String::new(alloc),
            left_out: LeftOut {
                links: 0,
                fragments: 0,
                others: 0,
            },
            are_packets: true,
            has_ended: false,
            is_found: false,
            diagram: None,
        }
    }

    /// Adds a line of a capture.
    pub(crate) fn add_line(&mut self, number: u64, line: &[u8]) -> Result<(), ShowFault> {
        let assigned = self.flow.add_line(number, line)?;
        self.print_assigned(assigned)
    }

    /// Adds a frame of a capture.
    pub(crate) fn add_frame(&mut self, record: Record, frame: &[u8]) -> Result<(), ShowFault> {
        let datagram = match read_datagram(record.link, frame) {
            Ok(datagram) => datagram,
            Err(fault) => {
                self.leave_out(fault);
                return Ok(());
            }
        };
        let seen = Seen {
            spot: Spot::Frame(record.number),
            at: Moment::of_micros(record.micros),
            from: datagram.from,
            to: datagram.to,
            payload: Payload::new(datagram.payload, datagram.length),
        };
        let assigned = self.flow.add_seen(&seen)?;
        if self.task.style == Style::Packets && !matches!(assigned, Assigned::Ignored) {
            self.print_packet(&seen.payload)?;
        }
        self.print_assigned(assigned)
    }

    /// Prints what ended, if no more input is at hand and that is wanted.
    pub(crate) fn rest(&mut self, is_used_up: bool) -> Result<(), ShowFault> {
        if !is_used_up || !self.task.is_live {
            return Ok(());
        }
        if self.has_ended {
            self.print_ended()?;
            self.has_ended = false;
        }
        self.output.flush()?;
        Ok(())
    }

    /// Prints the transfers that are left, and what was left out. `cut` says where the capture could
    /// not be read on.
    pub(crate) fn finish(&mut self, cut: Option<(u64, CaptureFault)>) -> Result<Outcome, ShowFault>
        ensures whole { IfOk result (λ outcome. outcome.is_whole
            ≡ whole_by self.new.task.style self.new.are_packets (is_whole self.new.flow)) }
        ensures drawn { IfOk result (λ outcome.
            IsSome self.new.task.drawn → IsSome outcome.diagram) }
        ensures cut { IfOk result (λ outcome. outcome.cut ≡ cut) }
    {
        for index in 0..self.flow.transfers.len() {
            self.print_last(index)?;
        }
        if self.task.wants_others() {
            self.print_left_out()?;
        }
        self.output.flush()?;
        if self.is_missing() {
            return Err(ShowFault::NoTransfer);
        }
        Ok(Outcome {
            is_whole: self.is_whole(),
            diagram: self.diagram.take(),
            cut,
        })
    }

    /// Whether the transfer that alone is printed, or the one that is drawn, was not there.
    fn is_missing(&self) -> bool
        ensures { result ≡ false → IsSome self.now.task.drawn → IsSome self.now.diagram }
    {
        if self.task.only.is_some() && !self.is_found {
            return true;
        }
        self.task.drawn.is_some() && self.diagram.is_none()
    }

    /// Whether each datagram was as it should be: a packet where packets are printed, and of a
    /// transfer where transfers are.
    fn is_whole(&self) -> bool
        ensures { result
            ≡ whole_by self.now.task.style self.now.are_packets (is_whole self.now.flow) }
    {
        match self.task.style {
            Style::Packets => self.are_packets,
            Style::Report => self.flow.is_whole(),
            Style::Follow => self.flow.is_whole(),
            Style::Json => self.flow.is_whole(),
        }
    }

    fn leave_out(&mut self, fault: FrameFault) {
        let left_out = self.left_out;
        match fault {
            FrameFault::Link => self.left_out.links = left_out.links.saturating_add(1),
            FrameFault::Fragment => self.left_out.fragments = left_out.fragments.saturating_add(1),
            _ => self.left_out.others = left_out.others.saturating_add(1),
        }
    }

    fn print_left_out(&mut self) -> Result<(), ShowFault> {
        let LeftOut {
            links,
            fragments,
            others,
        } = self.left_out;
        let counts = [
            ("not UDP over IPv4", others),
            ("later fragments", fragments),
            ("of another link type", links),
        ];
        for (what, frames) in &counts {
            if *frames > 0 {
                writeln!(self.output, "{what}: frames {frames}")?;
            }
        }
        Ok(())
    }

    fn print_packet(&mut self, payload: &Payload<'_>) -> Result<(), ShowFault> {
        self.text.clear();
        self.are_packets &= payload.show(&mut self.text)?;
        self.text.push('\n')?;
        self.output.write_all(self.text.as_bytes())?;
        Ok(())
    }

    /// Prints what a datagram changed.
    fn print_assigned(&mut self, assigned: Assigned) -> Result<(), ShowFault> {
        match assigned {
            Assigned::Begun => self.print_begun(),
            Assigned::Given(index) => self.print_given(index),
            Assigned::Stray | Assigned::Unread => self.print_others(),
            Assigned::Ignored => Ok(()),
        }?;
        if self.flow.is_due() {
            return self.print_over();
        }
        Ok(())
    }

    fn print_begun(&mut self) -> Result<(), ShowFault> {
        if self.task.style != Style::Follow {
            return Ok(());
        }
        if let Some(transfer) = self.flow.transfers.last() {
            if self.task.wants(transfer.number) {
                let opened = Opened(transfer);
                writeln!(self.output, "{opened}")?;
            }
        }
        Ok(())
    }

    fn print_given(&mut self, index: usize) -> Result<(), ShowFault> {
        let Some(transfer) = self.flow.transfers.get(index) else {
            return Ok(());
        };
        if transfer.is_open() || transfer.is_told() {
            return Ok(());
        }
        if self.task.style == Style::Follow {
            return self.tell(index);
        }
        self.has_ended = true;
        Ok(())
    }

    /// Prints the datagrams of no transfer, and the lines that are not read.
    fn print_others(&mut self) -> Result<(), ShowFault> {
        if self.task.wants_others() {
            for unread in &self.flow.unread {
                writeln!(self.output, "{unread}")?;
            }
            for stray in &self.flow.strays {
                writeln!(self.output, "{stray}")?;
            }
        }
        self.flow.unread.clear();
        self.flow.strays.clear();
        Ok(())
    }

    /// Prints the transfers that ended.
    fn print_ended(&mut self) -> Result<(), ShowFault> {
        for index in 0..self.flow.transfers.len() {
            if self.is_to_tell(index) {
                self.tell(index)?;
            }
        }
        Ok(())
    }

    fn is_to_tell(&self, index: usize) -> bool {
        match self.flow.transfers.get(index) {
            Some(transfer) => !transfer.is_open() && !transfer.is_told(),
            None => false,
        }
    }

    /// Prints the transfers that are over, and drops them.
    fn print_over(&mut self) -> Result<(), ShowFault> {
        for index in 0..self.flow.transfers.len() {
            if self.is_over(index) {
                self.print_last(index)?;
            }
        }
        self.flow.drop_over();
        Ok(())
    }

    fn is_over(&self, index: usize) -> bool {
        match self.flow.transfers.get(index) {
            Some(transfer) => self.flow.is_over(transfer),
            None => false,
        }
    }

    /// Prints a transfer for the last time: all of it, or how much came after its report.
    fn print_last(&mut self, index: usize) -> Result<(), ShowFault> {
        let Some(transfer) = self.flow.transfers.get(index) else {
            return Ok(());
        };
        let (number, more, is_told) = (transfer.number, transfer.untold(), transfer.is_told());
        if self.task.drawn == Some(number) {
            self.diagram = Some(transfer.diagram()?);
        }
        if !is_told {
            return self.tell(index);
        }
        if more > 0 && self.task.style == Style::Report && self.task.wants(number) {
            writeln!(
                self.output,
                "transfer {number}: datagrams after its report {more}"
            )?;
        }
        Ok(())
    }

    /// Prints a transfer.
    fn tell(&mut self, index: usize) -> Result<(), ShowFault> {
        let Some(transfer) = self.flow.transfers.get_mut(index) else {
            return Ok(());
        };
        transfer.tell();
        if !self.task.wants(transfer.number) {
            return Ok(());
        }
        self.is_found = true;
        write_transfer(&mut self.output, self.task.style, transfer)
    }
}

fn write_transfer<W: Write>(
    output: &mut W,
    style: Style,
    transfer: &CapturedTransfer,
) -> Result<(), ShowFault> {
    match style {
        Style::Packets => Ok(()),
        Style::Report => write!(output, "{transfer}"),
        Style::Follow => {
            let ended = Ended(transfer);
            writeln!(output, "{ended}")
        }
        Style::Json => {
            let object = Json(transfer);
            writeln!(output, "{object}")
        }
    }?;
    Ok(())
}
