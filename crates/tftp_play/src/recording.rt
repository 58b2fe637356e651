//! The record of a run, to be drawn: what happens in a world, as a sequence diagram.

use std::alloc::{AllocError, Global};
use tftp_diagram::{
    Comment, Count, Course, Diagram, Flight, Host, Lane, MAX_ROWS, Mark, MarkKind, Row, ascii_text,
    shortened,
};
use tftp_ends::{Endpoint, Outcome, Record, Side};
use tftp_player::{Datagram, Event, Report, World};
use tftp_rules::{CLIENT_IP, SERVER_IP, is_foreign};
use tftp_wire::show_datagram;

/// The part of a run that is drawn.
#[derive(Drop)]
pub(crate) struct Recording {
    alloc: Global,
    /// The picture, in which the roles of the lanes are missing until the run is over, and the
    /// title and the summary until it is described.
    pub(crate) diagram: Diagram,
    /// The endpoint of each lane.
    ports: Vec<Endpoint>,
    /// The index of each datagram of the picture in all that was sent; none for a stray.
    indices: Vec<Option<usize>>,
    /// An allocation failed, so the recording is incomplete.
    pub(crate) is_broken: bool,
}

/// The cause of a row.
#[derive(Clone, Copy)]
pub(crate) enum Cause {
    /// A client opened.
    Opening,
    /// The flight at this index arrived; none if it has no row.
    Arrival(Option<usize>),
    /// A timeout of the end at this port.
    Timeout(u16),
    /// The store of the end at this port is set to refuse.
    Refusal(u16),
}

/// What happens at an end, which a mark shows.
#[derive(Clone, Copy)]
enum Marked {
    /// A timeout.
    Timeout,
    /// Its store is set to refuse.
    Refusal,
    /// It closed.
    Closed(Outcome),
}

/// A datagram that is sent in a row.
#[derive(Clone, Copy)]
struct Sending<'a> {
    row: Row,
    /// Its index in all that was sent; none for a stray.
    index: Option<usize>,
    from: Endpoint,
    to: Endpoint,
    bytes: &'a [u8],
    /// The endpoint of its cause, if it has one. It is another than `from` if a new end answers a
    /// request.
    caused_at: Option<Endpoint>,
}

impl Recording {
    /// An empty recording.
    pub(crate) fn new(alloc: Global) -> Recording {
        Recording {
            alloc,
            diagram: Diagram {
                title: String::new(alloc),
                summary: String::new(alloc),
                lanes: Vec::new(alloc),
                flights: Vec::new(alloc),
                marks: Vec::new(alloc),
                comments: Vec::new(alloc),
                times: Vec::new(alloc),
                rows: 0,
                left_out: 0,
            },
            ports: Vec::new(alloc),
            indices: Vec::new(alloc),
            is_broken: false,
        }
    }

    /// The cause of an event, before it happens. A stray is sent then.
    pub(crate) fn cause_of(&mut self, event: &Event) -> Cause {
        match event {
            Event::Get { .. } | Event::Put { .. } => Cause::Opening,
            Event::Deliver(index) => Cause::Arrival(self.flight_of(*index)),
            Event::Timeout(port) => Cause::Timeout(*port),
            Event::RefuseStore(port) => Cause::Refusal(*port),
            Event::Stray(from, to, bytes) => {
                Cause::Arrival(self.add_stray(*from, *to, bytes.as_slice()))
            }
        }
    }

    /// Records the report of an event.
    pub(crate) fn add(&mut self, cause: Cause, report: &Report, world: &World) {
        if self.try_add(cause, report, world).is_err() {
            self.is_broken = true;
        }
    }

    /// Records a comment, in a row of its own unless it is empty or no row is left.
    pub(crate) fn comment(&mut self, text: &[u8]) {
        if self.try_comment(text).is_err() {
            self.is_broken = true;
        }
    }

    /// Records what is at the lanes: the ends of these records.
    pub(crate) fn name_sides(&mut self, records: &[(u16, Record)]) {
        for (lane, at) in self.diagram.lanes.iter_mut().zip(self.ports.iter()) {
            let side = side_at(records, *at);
            lane.role = role_of(side, at);
            lane.is_end = side.is_some();
        }
    }

    /// Gives the picture its title and its summary.
    pub(crate) fn describe(&mut self) -> Result<(), AllocError> {
        self.diagram.title = String::from_str(self.alloc, title_of(&self.diagram))?;
        self.diagram.summary = summary_of(self.alloc, &self.diagram)?;
        Ok(())
    }

    fn try_add(&mut self, cause: Cause, report: &Report, world: &World) -> Result<(), AllocError> {
        let Some(row) = self.next_row() else {
            self.miss(cause);
            return Ok(());
        };
        let reply = reply_of(report, world);
        let reply_to = match reply {
            Some(datagram) => Some(datagram.to),
            None => None,
        };
        let at = self.happen(cause, row, reply_to, world.records())?;
        if let Some(datagram) = reply {
            self.send(Sending {
                row,
                index: report.added,
                from: datagram.from,
                to: datagram.to,
                bytes: datagram.bytes.as_slice(),
                caused_at: at,
            })?;
        }
        if let Some((port, outcome)) = report.closed {
            let closed = end_at(world.records(), port);
            self.mark(closed, row, Marked::Closed(outcome), reply_to)?;
        }
        Ok(())
    }

    fn try_comment(&mut self, text: &[u8]) -> Result<(), AllocError> {
        let text = match text {
            [b' ', rest @ ..] => rest,
            _ => text,
        };
        if text.is_empty() {
            return Ok(());
        }
        if let Some(row) = self.next_row() {
            let text = shortened(self.alloc, ascii_text(self.alloc, text)?)?;
            self.diagram.comments.push(Comment { row, text })?;
        }
        Ok(())
    }

    /// The next row, if one is left.
    fn next_row(&mut self) -> Option<Row> {
        if self.diagram.rows >= MAX_ROWS {
            return None;
        }
        let row = self.diagram.rows;
        self.diagram.rows += 1;
        Some(row)
    }

    /// Counts an event that has no row.
    fn miss(&mut self, cause: Cause) {
        self.diagram.left_out = self.diagram.left_out.saturating_add(1);
        if let Cause::Arrival(Some(index)) = cause
            && let Some(flight) = self.diagram.flights.get_mut(index)
        {
            flight.arrives_later = true;
        }
    }

    /// Records a cause, and returns its endpoint.
    fn happen(
        &mut self,
        cause: Cause,
        row: Row,
        reply_to: Option<Endpoint>,
        records: &[(u16, Record)],
    ) -> Result<Option<Endpoint>, AllocError> {
        match cause {
            Cause::Opening => Ok(None),
            Cause::Arrival(index) => self.arrive(index, row),
            Cause::Timeout(port) => {
                self.mark(end_at(records, port), row, Marked::Timeout, reply_to)
            }
            Cause::Refusal(port) => {
                self.mark(end_at(records, port), row, Marked::Refusal, reply_to)
            }
        }
    }

    /// Records that a flight arrived, and returns its destination.
    fn arrive(&mut self, index: Option<usize>, row: Row) -> Result<Option<Endpoint>, AllocError> {
        let Some(index) = index else {
            return Ok(None);
        };
        let Some(flight) = self.diagram.flights.get_mut(index) else {
            return Ok(None);
        };
        flight.arrivals.push(row)?;
        Ok(self.ports.get(flight.to).copied())
    }

    /// Records a mark, and returns its endpoint.
    fn mark(
        &mut self,
        at: Option<Endpoint>,
        row: Row,
        marked: Marked,
        reply_to: Option<Endpoint>,
    ) -> Result<Option<Endpoint>, AllocError> {
        let Some(endpoint) = at else {
            return Ok(None);
        };
        let reply_to = match reply_to {
            Some(to) => Some(self.lane_of(to)?),
            None => None,
        };
        let lane = self.lane_of(endpoint)?;
        let text = text_of(self.alloc, marked)?;
        self.diagram.marks.push(Mark {
            lane,
            row,
            kind: kind_of(marked),
            text,
            reply_to,
        })?;
        Ok(at)
    }

    /// Records that a datagram was sent.
    fn send(&mut self, sending: Sending<'_>) -> Result<(), AllocError> {
        let from = self.lane_of(sending.from)?;
        let to = self.lane_of(sending.to)?;
        let opened_at = match sending.caused_at {
            Some(at) if at != sending.from => Some(self.lane_of(at)?),
            _ => None,
        };
        self.indices.push(sending.index)?;
        let label = label_of(self.alloc, sending.index, sending.bytes)?;
        let again = again_of(self.alloc, sending.index)?;
        self.diagram.flights.push(Flight {
            from,
            to,
            label,
            again,
            opened_at,
            sent: sending.row,
            course: Course::Followed,
            arrivals: Vec::new(self.alloc),
            arrives_later: false,
        })?;
        Ok(())
    }

    /// Records that a stray is sent, and returns its index if it has a row.
    fn add_stray(&mut self, from: Endpoint, to: Endpoint, bytes: &[u8]) -> Option<usize> {
        let row = self.next_row()?;
        let index = self.diagram.flights.len();
        let stray = Sending {
            row,
            index: None,
            from,
            to,
            bytes,
            caused_at: None,
        };
        if self.send(stray).is_err() {
            self.is_broken = true;
            return None;
        }
        Some(index)
    }

    /// The lane of an endpoint, which is added if there is none.
    fn lane_of(&mut self, at: Endpoint) -> Result<usize, AllocError> {
        for (lane, port) in self.ports.iter().enumerate() {
            if *port == at {
                return Ok(lane);
            }
        }
        let lane = self.ports.len();
        self.ports.push(at)?;
        let name = format!(in self.alloc; "{at}")?;
        self.diagram.lanes.push(Lane {
            host: host_of(at),
            name,
            role: "",
            is_end: false,
        })?;
        Ok(lane)
    }

    /// The index of the flight of this datagram.
    fn flight_of(&self, index: usize) -> Option<usize> {
        for (flight, sent) in self.indices.iter().enumerate() {
            if *sent == Some(index) {
                return Some(flight);
            }
        }
        None
    }
}

/// The datagram that an event sent.
fn reply_of<'w>(report: &Report, world: &'w World) -> Option<&'w Datagram> {
    world.sent().get(report.added?)
}

/// The title of a picture: a network that lost nothing is not called lossy.
fn title_of(diagram: &Diagram) -> &'static str {
    if lost_of(diagram.flights.as_slice()) > 0 {
        "tftp-play: TFTP over a lossy network"
    } else {
        "tftp-play: TFTP transfers"
    }
}

/// How many datagrams were never delivered.
fn lost_of(flights: &[Flight]) -> usize {
    flights.iter().filter(|flight| flight.is_lost()).count()
}

/// The result of the run: how many datagrams were sent, and what happened otherwise than once.
fn summary_of(alloc: Global, diagram: &Diagram) -> Result<String, AllocError> {
    let mut text = String::new(alloc);
    let flights = diagram.flights.as_slice();
    write!(text, "{}", count_of(flights.len(), "datagram"))?;
    let lost = lost_of(flights);
    if lost > 0 {
        write!(text, ", {lost} never delivered")?;
    }
    let again = flights.iter().filter(|flight| flight.is_repeated()).count();
    if again > 0 {
        write!(text, ", {again} delivered more than once")?;
    }
    let timeouts = diagram
        .marks
        .iter()
        .filter(|mark| mark.kind == MarkKind::Timeout)
        .count();
    if timeouts > 0 {
        write!(text, ", {}", count_of(timeouts, "timeout"))?;
    }
    Ok(text)
}

/// A number of things with this name.
fn count_of(number: usize, name: &'static str) -> Count {
    let number = number as u64;
    Count { number, name }
}

/// The label of a datagram: its number, or that it is a stray, and its line.
fn label_of(alloc: Global, index: Option<usize>, bytes: &[u8]) -> Result<String, AllocError> {
    let mut label = String::new(alloc);
    match index {
        Some(index) => write!(label, "#{index} ")?,
        None => label.push_str("stray ")?,
    }
    if show_datagram(bytes, &mut label).is_err() {
        return Err(AllocError);
    }
    shortened(alloc, label)
}

/// The note beside a repeat of a datagram.
fn again_of(alloc: Global, index: Option<usize>) -> Result<String, AllocError> {
    match index {
        Some(index) => format!(in alloc; "#{index} again"),
        None => String::from_str(alloc, "stray again"),
    }
}

/// The text of a mark.
fn text_of(alloc: Global, marked: Marked) -> Result<String, AllocError> {
    match marked {
        Marked::Timeout => String::from_str(alloc, "timeout"),
        Marked::Refusal => String::from_str(alloc, "store refuses next"),
        Marked::Closed(outcome) => format!(in alloc; "closed {outcome}"),
    }
}

/// How a mark is drawn.
fn kind_of(marked: Marked) -> MarkKind {
    match marked {
        Marked::Timeout => MarkKind::Timeout,
        Marked::Refusal => MarkKind::Refusal,
        Marked::Closed(Outcome::Complete) => MarkKind::Completed,
        Marked::Closed(_) => MarkKind::Failed,
    }
}

/// The host of an endpoint.
fn host_of(at: Endpoint) -> Host {
    if at.ip == CLIENT_IP {
        Host::Client
    } else if at.ip == SERVER_IP {
        Host::Server
    } else {
        Host::Stranger
    }
}

/// What is at a lane.
fn role_of(side: Option<Side>, at: &Endpoint) -> &'static str {
    match side {
        Some(Side::ClientRead) => "client, reads",
        Some(Side::ClientWrite) => "client, writes",
        Some(Side::ServerRead) => "server, a read",
        Some(Side::ServerWrite) => "server, a write",
        None if is_foreign(at) => "stranger",
        None if at.port == 69 => "request port",
        None => "no end",
    }
}

/// The record of the end at this port.
fn record_at(records: &[(u16, Record)], port: u16) -> Option<&Record> {
    for (at, record) in records {
        if *at == port {
            return Some(record);
        }
    }
    None
}

/// The address of an end.
fn ip_of(record: &Record) -> [u8; 4] {
    if record.side.is_client() {
        CLIENT_IP
    } else {
        SERVER_IP
    }
}

/// The endpoint of the end at this port.
fn end_at(records: &[(u16, Record)], port: u16) -> Option<Endpoint> {
    let ip = ip_of(record_at(records, port)?);
    Some(Endpoint { ip, port })
}

/// The side of the end there, if there is one.
fn side_at(records: &[(u16, Record)], at: Endpoint) -> Option<Side> {
    let record = record_at(records, at.port)?;
    if ip_of(record) == at.ip {
        Some(record.side)
    } else {
        None
    }
}
