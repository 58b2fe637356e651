//! Why a transfer failed, in words: the second line on standard error.

ghost use Rattle.std.specs.Prelude.{◌≡◌};
ghost use Rattle.tftp_client.specs.Cause.{hint_text};

use crate::local_error::LocalError;
use crate::transfer::Job;
use std::fmt;
use tftp_ends::Outcome;
use tftp_lines::Reason;
use tftp_negotiate::{Kind, Refusal};

/// Why a transfer failed, or was not opened.
#[derive(Drop)]
pub(crate) enum Cause {
    /// The file here cannot be used.
    File(LocalError),
    /// No socket can be opened.
    Socket(Reason),
    /// The server ended the transfer by an ERROR with these words.
    Server(String),
    /// The server sent this ERROR, which is no packet: as a line, as far as it can be read.
    NoPacket(String),
    /// The server did this.
    Peer(&'static str),
    /// The system refused to send the newest datagram to the server.
    Unsent(Reason),
    /// The file here is so.
    Local(&'static str),
    /// The file at the server is so.
    Remote(&'static str),
    /// No request can be made.
    Request,
}

impl Cause {
    /// The cause of an outcome, as far as that says it.
    pub(crate) fn of(outcome: Outcome, kind: Kind) -> Cause {
        match outcome {
            Outcome::TimedOut => Cause::Peer("no answer; check address, port and firewalls"),
            Outcome::PeerError(_) => Cause::Peer("an ERROR"),
            Outcome::Illegal => Cause::Peer("sent what no server may send"),
            Outcome::Refused(refusal) => Cause::Peer(refusal_words(refusal)),
            Outcome::TooLarge => Cause::too_large(kind),
            Outcome::StoreFault => Cause::Local("cannot be stored"),
            Outcome::SourceFault => Cause::Local("shorter than it was"),
            Outcome::NotNetascii => Cause::Remote("not netascii"),
            Outcome::Complete => Cause::Local("complete"),
        }
    }

    /// The file has too many blocks.
    pub(crate) fn too_large(kind: Kind) -> Cause {
        let words = "more than 65,535 blocks; try a larger --blksize";
        match kind {
            Kind::Read => Cause::Remote(words),
            Kind::Write => Cause::Local(words),
        }
    }
}

/// What a server did whose options were refused.
fn refusal_words(refusal: Refusal) -> &'static str {
    match refusal {
        Refusal::Repeated => "agreed to an option twice",
        Refusal::TooLarge => "the file is too large",
        Refusal::NotAsked => "agreed to an option that was not requested",
        Refusal::BadValue => "agreed to a value that was not requested",
    }
}

/// A cause as a line. `{}` writes it with what it is about: a path or an address.
#[derive(Clone, Copy)]
pub(crate) struct CauseLine<'a> {
    pub(crate) job: &'a Job<'a>,
    pub(crate) cause: &'a Cause,
}

impl fmt::Display for CauseLine<'_> {
    ghost use Rattle.std.specs.Prelude.{Some};
    ghost use Rattle.tftp_client.specs.Cause.{cause_text};

    ghost output = { λ line. Some (cause_text line.job.now line.cause.now) };

    fn fmt<W: fmt::Write>(&self, f: &mut fmt::Formatter<W>) -> fmt::Result {
        let job = self.job;
        let (server, name, local) = (job.server, job.name, job.local);
        match self.cause {
            Cause::File(error) => write!(f, "tftp: {local}: {error}"),
            Cause::Socket(reason) => write!(f, "tftp: no socket: {reason}"),
            Cause::Server(words) => {
                let hint = hint_for(words.as_str(), job.asked.blksize);
                write!(f, "tftp: the server says: {words}{hint}")
            }
            Cause::NoPacket(line) => {
                write!(f, "tftp: {server}: sent what no server may send: {line}")
            }
            Cause::Peer(words) => write!(f, "tftp: {server}: {words}"),
            Cause::Unsent(reason) => write!(f, "tftp: {server}: {reason}"),
            Cause::Local(words) => write!(f, "tftp: {local}: {words}"),
            Cause::Remote(words) => write!(f, "tftp: {name}: {words}"),
            Cause::Request => {
                f.write_str("tftp: the name is empty, or the request longer than 512 bytes")
            }
        }
    }
}

/// What to try after an ERROR with these words, where this block size was requested.
fn hint_for(words: &str, blksize: Option<u16>) -> &'static str
    ensures { result.now ≡ hint_text words.now blksize }
{
    match blksize {
        Some(_) => "",
        None => {
            if words == "file too large" {
                "; try --blksize 1428"
            } else {
                ""
            }
        }
    }
}
