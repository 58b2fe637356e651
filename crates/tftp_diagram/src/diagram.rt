//! What a picture shows: lanes, datagrams, marks, comments and the times of the rows.

ghost use Rattle.std.specs.Prelude.{◌≡◌, ◌<◌, ◌≤◌, ◌↔◌, ◌⊎◌, false, IfOk, IsTrue, vec_len};
ghost use Rattle.std.specs.String.{string_len};
ghost use Rattle.tftp_diagram.specs.declared.diagram.Course.TheVariants.{Followed, SeenAgain};

use std::alloc::{AllocError, Global};

/// The most rows of a diagram. Whoever fills it counts later events, and leaves them out.
pub const MAX_ROWS: u16 = 200;

/// The most letters of a label. A longer one is cut, and ends in two dots.
const MAX_LABEL: usize = 96;

/// A row of a diagram: a moment of its time, counted from 0.
pub type Row = u16;

/// A sequence diagram. Lanes are named by their index in `lanes`.
#[derive(Drop)]
pub struct Diagram {
    /// The title.
    pub title: String,
    /// The result, below the title.
    pub summary: String,
    /// The ports, in any order: the clients are drawn on the left, then the server, then others.
    pub lanes: Vec<Lane>,
    /// The datagrams, in the order in which they were sent.
    pub flights: Vec<Flight>,
    /// What happened at the lanes, in order.
    pub marks: Vec<Mark>,
    /// What is said between the events, in order.
    pub comments: Vec<Comment>,
    /// The time of each row in seconds, which is written at the left; empty if the picture has no
    /// times.
    pub times: Vec<String>,
    /// The number of rows.
    pub rows: Row,
    /// The number of events without a row.
    pub left_out: u64,
}

/// The host of a lane, which has its colour and its place.
#[derive(Clone, Copy, PartialEq, Eq)]
pub enum Host {
    /// On the left.
    Client,
    /// Right of the clients.
    Server,
    /// On the right.
    Stranger,
}

/// A port of a host.
#[derive(Drop)]
pub struct Lane {
    /// Its host.
    pub host: Host,
    /// Its endpoint.
    pub name: String,
    /// What is there, as `request port`.
    pub role: &'static str,
    /// Whether an end of a transfer is there: it is open from its first datagram to where it
    /// closes, or to the foot.
    pub is_end: bool,
}

/// A datagram that was sent.
#[derive(Drop)]
pub struct Flight {
    /// The lane of its source.
    pub from: usize,
    /// The lane of its destination.
    pub to: usize,
    /// Its line.
    pub label: String,
    /// The note beside each repeat.
    pub again: String,
    /// The lane of the request port, if this answers a request that opened its sender.
    pub opened_at: Option<usize>,
    /// The row in which it was sent.
    pub sent: Row,
    /// How it is drawn.
    pub course: Course,
    /// The rows in which it arrived, if it is followed.
    pub arrivals: Vec<Row>,
    /// Whether it arrived after the last row, too.
    pub arrives_later: bool,
}

/// What is known of a datagram on its way.
#[derive(Clone, Copy, PartialEq, Eq)]
pub enum Course {
    /// Its arrivals: one without any was lost.
    Followed,
    /// It was seen on the wire, and no more is known.
    Seen,
    /// It was seen on the wire, the same as an earlier one.
    SeenAgain,
}

/// An event at a lane.
#[derive(Drop)]
pub struct Mark {
    /// The lane.
    pub lane: usize,
    /// The row.
    pub row: Row,
    /// What happened.
    pub kind: MarkKind,
    /// The text beside it.
    pub text: String,
    /// The destination of the datagram that was sent then: the text is on the other side.
    pub reply_to: Option<usize>,
}

/// A comment on what follows, at the right of the picture: a row in which nothing happens.
#[derive(Drop)]
pub struct Comment {
    /// Its row.
    pub row: Row,
    /// Its text.
    pub text: String,
}

/// What happened at a lane.
#[derive(Clone, Copy, PartialEq, Eq)]
pub enum MarkKind {
    /// A timeout of an end.
    Timeout,
    /// A store is set to refuse.
    Refusal,
    /// An end closed, and its transfer is complete.
    Completed,
    /// An end closed for another reason.
    Failed,
}

impl MarkKind {
    /// Whether an end closed.
    pub(crate) fn is_close(self) -> bool {
        match self {
            MarkKind::Completed | MarkKind::Failed => true,
            MarkKind::Timeout | MarkKind::Refusal => false,
        }
    }
}

impl Flight {
    /// Whether it never arrived.
    pub fn is_lost(&self) -> bool
        ensures { IsTrue result ↔ ((self.now.course ≡ Followed)
            × (vec_len self.now.arrivals ≡ 0) × (self.now.arrives_later ≡ false)) }
    {
        self.course == Course::Followed && self.arrivals.is_empty() && !self.arrives_later
    }

    /// Whether it is drawn more than once, or is a repeat itself.
    pub fn is_repeated(&self) -> bool
        ensures { IsTrue result ↔ ((self.now.course ≡ SeenAgain)
            ⊎ (1 < vec_len self.now.arrivals)) }
    {
        self.course == Course::SeenAgain || self.arrivals.len() > 1
    }
}

impl Diagram {
    /// The host of a lane; a stranger if there is no such lane.
    pub(crate) fn host_of(&self, lane: usize) -> Host {
        match self.lanes.get(lane) {
            Some(lane) => lane.host,
            None => Host::Stranger,
        }
    }
}

/// A text as a label: one of more than 96 letters is cut, and ends in two dots.
pub fn shortened(alloc: Global, text: String) -> Result<String, AllocError>
    ensures { IfOk result (λ label. string_len text ≤ MAX_LABEL → label ≡ text) }
{
    if text.len() <= MAX_LABEL {
        return Ok(text);
    }
    let mut short: String = text.chars().take(MAX_LABEL).collect(alloc)?;
    short.push_str("..")?;
    Ok(short)
}
