//! A transfer of a capture as a sequence diagram, with times at the left.

use crate::flow::captured_transfer::{Aside, CapturedTransfer, Ending};
use crate::flow::choice::Choice;
use crate::flow::moment::Span;
use crate::flow::transfer_datagram::{Party, TransferDatagram, What};
use std::alloc::{AllocError, Global};
use std::net::SocketAddrV4;
use tftp_diagram::{
    Count, Course, Diagram, Flight, Host, Lane, MAX_ROWS, Mark, MarkKind, Row, shortened,
};

/// A diagram of a transfer that is being made.
#[derive(Drop)]
struct Picture {
    alloc: Global,
    diagram: Diagram,
    /// The endpoint of each lane.
    ports: Vec<SocketAddrV4>,
    /// The datagrams since the last row that are not drawn.
    skipped: u64,
    /// Whether a datagram was drawn that opens the server's end.
    is_opened: bool,
}

/// What the endpoint of a lane is.
#[derive(Clone, Copy)]
enum LaneRole {
    ReadingClient,
    WritingClient,
    /// The server's port of a read, and of a write.
    ServedRead,
    ServedWrite,
    RequestPort,
    Stranger,
}

impl LaneRole {
    /// The lane of an endpoint with this name.
    fn lane(self, name: String) -> Lane {
        let (host, role, is_end) = match self {
            LaneRole::ReadingClient => (Host::Client, "client, reads", true),
            LaneRole::WritingClient => (Host::Client, "client, writes", true),
            LaneRole::ServedRead => (Host::Server, "server, a read", true),
            LaneRole::ServedWrite => (Host::Server, "server, a write", true),
            LaneRole::RequestPort => (Host::Server, "request port", false),
            LaneRole::Stranger => (Host::Stranger, "stranger", false),
        };
        Lane {
            host,
            name,
            role,
            is_end,
        }
    }
}

impl CapturedTransfer {
    /// Its picture. Of a long transfer the first and the last datagrams are drawn, and those around
    /// one that was sent again.
    pub fn diagram(&self) -> Result<Diagram, AllocError> {
        let mut picture = Picture::new(self.alloc, self.title()?);
        match picture.draw(self) {
            Ok(()) => Ok(picture.diagram),
            Err(fault) => Err(fault),
        }
    }

    fn title(&self) -> Result<String, AllocError> {
        let (number, request) = (self.number, self.request.as_str());
        let title = format!(in self.alloc; "Transfer {number}: {request}")?;
        shortened(self.alloc, title)
    }

    /// Writes what the picture shows, and how much was sent.
    fn write_summary(&self, out: &mut String) -> Result<(), AllocError> {
        let seen = Count {
            number: self.len() as u64,
            name: "datagram",
        };
        write!(out, "{seen}")?;
        let parts = [
            (self.again, "of them sent again"),
            (self.asides.len(), "beside it"),
        ];
        for (number, what) in &parts {
            if *number > 0 {
                write!(out, ", {number} {what}")?;
            }
        }
        let (blocks, bytes) = (self.block_count(), self.byte_count());
        write!(out, ": {blocks}, {bytes}.")
    }

    /// The line of a datagram, as a label.
    fn label_of(&self, datagram: &TransferDatagram) -> Result<String, AllocError> {
        let what = datagram.what;
        let note = if datagram.is_cut {
            " (its beginning)"
        } else {
            ""
        };
        let line = match self.kept_line_of(datagram) {
            Some(line) => format!(in self.alloc; "{line}{note}")?,
            None => format!(in self.alloc; "{what}{note}")?,
        };
        shortened(self.alloc, line)
    }

    /// The line of a datagram where it was kept.
    fn kept_line_of(&self, datagram: &TransferDatagram) -> Option<&str> {
        match datagram.what {
            What::Read | What::Write => Some(self.request.as_str()),
            What::Options => match &self.agreed {
                Some(agreed) => Some(agreed.as_str()),
                None => None,
            },
            What::Error { .. } => match &self.ending {
                Ending::Error { by, text } if *by == datagram.by => Some(text.as_str()),
                _ => None,
            },
            _ => None,
        }
    }

    /// The server's end, or else where the request was sent.
    fn server_end(&self) -> SocketAddrV4 {
        self.server.unwrap_or(self.asked_at)
    }

    /// Whence and where a datagram was sent.
    fn way_of(&self, datagram: &TransferDatagram) -> (SocketAddrV4, SocketAddrV4) {
        match datagram.by {
            Party::Server => (self.server_end(), self.client),
            Party::Client if datagram.what.is_request() => (self.client, self.asked_at),
            Party::Client => (self.client, self.server_end()),
        }
    }
}

impl Picture {
    fn new(alloc: Global, title: String) -> Picture {
        Picture {
            alloc,
            diagram: Diagram {
                title,
                summary: String::new(alloc),
                lanes: Vec::new(alloc),
                flights: Vec::new(alloc),
                marks: Vec::new(alloc),
                comments: Vec::new(alloc),
                times: Vec::new(alloc),
                rows: 0,
                left_out: 0,
            },
            ports: Vec::new(alloc),
            skipped: 0,
            is_opened: false,
        }
    }

    fn draw(&mut self, transfer: &CapturedTransfer) -> Result<(), AllocError> {
        transfer.write_summary(&mut self.diagram.summary)?;
        self.add_ends(transfer)?;
        let rows = usize::from(MAX_ROWS).saturating_sub(transfer.asides.len());
        let choice = Choice::new(self.alloc, transfer.datagrams.as_slice(), rows)?;
        self.add_datagrams(transfer, &choice)?;
        self.close(transfer)
    }

    /// Adds the datagrams of the transfer that are chosen, and between them those beside it.
    fn add_datagrams(
        &mut self,
        transfer: &CapturedTransfer,
        choice: &Choice,
    ) -> Result<(), AllocError> {
        let mut before = 0;
        for (index, datagram) in transfer.datagrams.iter().enumerate() {
            self.add_asides(transfer, before, datagram.spot.number())?;
            if choice.has(index) {
                self.add_datagram(transfer, datagram)?;
            } else {
                self.skipped = self.skipped.saturating_add(1);
            }
            before = datagram.spot.number();
        }
        self.add_asides(transfer, before, u64::MAX)
    }

    /// The lanes of the client, of the request port and of the server.
    fn add_ends(&mut self, transfer: &CapturedTransfer) -> Result<(), AllocError> {
        let (client, server) = match transfer.sender() {
            Party::Server => (LaneRole::ReadingClient, LaneRole::ServedRead),
            Party::Client => (LaneRole::WritingClient, LaneRole::ServedWrite),
        };
        self.add_lane(transfer.client, client)?;
        if transfer.server == Some(transfer.asked_at) {
            return self.add_lane(transfer.asked_at, server);
        }
        self.add_lane(transfer.asked_at, LaneRole::RequestPort)?;
        match transfer.server {
            Some(at) => self.add_lane(at, server),
            None => Ok(()),
        }
    }

    fn add_lane(&mut self, at: SocketAddrV4, role: LaneRole) -> Result<(), AllocError> {
        let lane = role.lane(at.to_string(self.alloc)?);
        self.diagram.lanes.push(lane)?;
        self.ports.push(at)?;
        Ok(())
    }

    /// The lane of an endpoint; that of a stranger is added.
    fn lane_of(&mut self, at: SocketAddrV4) -> Result<usize, AllocError> {
        for (lane, port) in self.ports.iter().enumerate() {
            if *port == at {
                return Ok(lane);
            }
        }
        let lane = self.ports.len();
        match self.add_lane(at, LaneRole::Stranger) {
            Ok(()) => Ok(lane),
            Err(fault) => Err(fault),
        }
    }

    /// The lanes of two endpoints.
    fn lanes_of(
        &mut self,
        from: SocketAddrV4,
        to: SocketAddrV4,
    ) -> Result<(usize, usize), AllocError> {
        Ok((self.lane_of(from)?, self.lane_of(to)?))
    }

    /// The next row, at this time, if one is left. Before it there is one for what is not drawn.
    fn next_row(&mut self, time: Span) -> Result<Option<Row>, AllocError> {
        if self.skipped > 0 && self.diagram.rows < MAX_ROWS {
            let skipped = self.skipped;
            let text = format!(in self.alloc; "({skipped} not drawn)")?;
            self.diagram.times.push(text)?;
            self.diagram.rows += 1;
            self.skipped = 0;
        }
        if self.diagram.rows >= MAX_ROWS {
            self.diagram.left_out = self.diagram.left_out.saturating_add(1);
            return Ok(None);
        }
        let row = self.diagram.rows;
        self.diagram.times.push(time.to_string(self.alloc)?)?;
        self.diagram.rows += 1;
        Ok(Some(row))
    }

    /// Adds a datagram of the transfer.
    fn add_datagram(
        &mut self,
        transfer: &CapturedTransfer,
        datagram: &TransferDatagram,
    ) -> Result<(), AllocError> {
        let Some(sent) = self.next_row(transfer.time_of(datagram.at))? else {
            return Ok(());
        };
        let opened_at = self.opened_by(transfer, datagram)?;
        let way = transfer.way_of(datagram);
        let label = transfer.label_of(datagram)?;
        self.add_flight(way, sent, label, opened_at, datagram.gap)
    }

    /// Adds a datagram between two endpoints, whose line this is.
    fn add_flight(
        &mut self,
        (from, to): (SocketAddrV4, SocketAddrV4),
        sent: Row,
        label: String,
        opened_at: Option<usize>,
        gap: Option<Span>,
    ) -> Result<(), AllocError> {
        let (from, to) = self.lanes_of(from, to)?;
        let again = self.note_of(gap)?;
        self.diagram.flights.push(Flight {
            from,
            to,
            label,
            again,
            opened_at,
            sent,
            course: course_of(gap),
            arrivals: Vec::new(self.alloc),
            arrives_later: false,
        })?;
        Ok(())
    }

    /// The lane at which a datagram opens the server's end: the first one that comes from a port
    /// other than that of requests.
    fn opened_by(
        &mut self,
        transfer: &CapturedTransfer,
        datagram: &TransferDatagram,
    ) -> Result<Option<usize>, AllocError> {
        if datagram.by == Party::Client || self.is_opened {
            return Ok(None);
        }
        if transfer.server_end() == transfer.asked_at {
            return Ok(None);
        }
        self.is_opened = true;
        Ok(Some(self.lane_of(transfer.asked_at)?))
    }

    /// What is noted of a datagram that was sent again.
    fn note_of(&self, gap: Option<Span>) -> Result<String, AllocError> {
        match gap {
            Some(gap) => format!(in self.alloc; "again after {gap} s"),
            None => Ok(String::new(self.alloc)),
        }
    }

    /// Adds the datagrams that are not of the transfer, of the lines between two.
    fn add_asides(
        &mut self,
        transfer: &CapturedTransfer,
        from: u64,
        to: u64,
    ) -> Result<(), AllocError> {
        for aside in &transfer.asides {
            let at = aside.spot.number();
            if from < at && at < to {
                self.add_aside(transfer, aside)?;
            }
        }
        Ok(())
    }

    fn add_aside(&mut self, transfer: &CapturedTransfer, aside: &Aside) -> Result<(), AllocError> {
        let Some(sent) = self.next_row(transfer.time_of(aside.at))? else {
            return Ok(());
        };
        let label = shortened(self.alloc, aside.text.clone()?)?;
        self.add_flight((aside.from, aside.to), sent, label, None, None)
    }

    /// Marks both ends as closed, if the transfer ended.
    fn close(&mut self, transfer: &CapturedTransfer) -> Result<(), AllocError> {
        let (kind, text) = match &transfer.ending {
            Ending::Complete => (MarkKind::Completed, "complete"),
            Ending::Error { .. } => (MarkKind::Failed, "ended by ERROR"),
            Ending::Open => return Ok(()),
        };
        let (client, server) = self.lanes_of(transfer.client, transfer.server_end())?;
        let row = self.diagram.rows.saturating_sub(1);
        for (lane, other) in [(client, server), (server, client)] {
            let text = String::from_str(self.alloc, text)?;
            self.diagram.marks.push(Mark {
                lane,
                row,
                kind,
                text,
                reply_to: Some(other),
            })?;
        }
        Ok(())
    }
}

fn course_of(gap: Option<Span>) -> Course {
    match gap {
        Some(_) => Course::SeenAgain,
        None => Course::Seen,
    }
}
