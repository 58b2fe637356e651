//! The state of an end between two events.

ghost use Rattle.std.specs.Prelude.{◌≡◌, if◌then◌else◌};
ghost use Rattle.tftp_ends.specs.End.{terms_of, number_of, is_complete, outcome_of, is_progress};
ghost use Rattle.tftp_ends.specs.End.{step_of};
ghost use Rattle.tftp_ends.specs.Next.{HasNext, numbered};
ghost use Rattle.tftp_ends.specs.Phase.{waited};

use crate::endpoint::Endpoint;
use crate::outcome::Outcome;
use crate::record::Step;
use tftp_negotiate::Asked;

/// The parameters of a transfer. A client has them once its peer is known.
#[derive(Clone, Copy, Debug)]
pub struct Terms {
    /// The other end. A datagram from another endpoint does not affect the transfer.
    pub peer: Endpoint,
    /// The block size in bytes, 8 to 65,464 (RFC 2348); 512 if none was agreed.
    pub size: u16,
    /// The agreed timeout in seconds (RFC 2349).
    pub timeout: Option<u8>,
    /// Whether an OACK opened the transfer (RFC 2347) instead of DATA 1 or ACK 0.
    pub by_oack: bool,
}

/// Whether a dallying receiver has had its first timeout (RFC 1350, section 6).
#[derive(Clone, Copy, Debug)]
pub enum Dally {
    /// No timeout yet.
    Fresh,
    /// One timeout; the next one closes the end.
    Waited,
}

/// The state of an end.
///
/// ```text
///   get ──> Waiting ──DATA 1, OACK──> Receiving ──last DATA──> Dallying
///   put ──> Waiting ──ACK 0, OACK───> Sending                     │ second timeout
///   serve_write ────────────────────> Receiving                   v
///   serve_read ─────────────────────> Sending ──last ACK──────> Closed
///
///   any ──ERROR, no retry left, fault──> Closed
/// ```
#[derive(Clone, Copy, Debug)]
pub enum Phase {
    /// A client that waits for the first answer to its request.
    Waiting {
        /// The requested options.
        asked: Asked,
        /// The largest file accepted, in bytes, if the server's OACK has its length (`tsize`).
        limit: u64,
    },
    /// It sends: the last datagram sent is DATA `number`, or an OACK if `number` is 0.
    Sending {
        terms: Terms,
        number: u16,
    },
    /// It receives: `number` blocks are stored.
    Receiving {
        terms: Terms,
        number: u16,
    },
    /// It has stored and committed the whole file, and acknowledges the last DATA again.
    Dallying {
        terms: Terms,
        number: u16,
        dally: Dally,
    },
    /// It handles no more events.
    Closed {
        terms: Option<Terms>,
        number: u16,
        complete: bool,
        outcome: Outcome,
    },
}

impl Phase {
    /// The parameters of the transfer, once the peer is known.
    #[inline(always)]
    pub(crate) fn terms(self) -> Option<Terms>
        ensures { result ≡ terms_of self }
    {
        match self {
            Phase::Waiting { .. } => None,
            Phase::Sending { terms, .. }
            | Phase::Receiving { terms, .. }
            | Phase::Dallying { terms, .. } => Some(terms),
            Phase::Closed { terms, .. } => terms,
        }
    }

    /// A sender's newest DATA number, or how many blocks a receiver has stored.
    #[inline(always)]
    pub(crate) fn number(self) -> u16
        ensures { result ≡ number_of self }
    {
        match self {
            Phase::Waiting { .. } => 0,
            Phase::Sending { number, .. }
            | Phase::Receiving { number, .. }
            | Phase::Dallying { number, .. }
            | Phase::Closed { number, .. } => number,
        }
    }

    /// Whether the whole file was acknowledged, or stored and committed.
    #[inline(always)]
    pub(crate) fn is_complete(self) -> bool
        ensures { result ≡ is_complete self }
    {
        match self {
            Phase::Waiting { .. } | Phase::Sending { .. } | Phase::Receiving { .. } => false,
            Phase::Dallying { .. } => true,
            Phase::Closed { complete, .. } => complete,
        }
    }

    /// How the end closed, once it is closed.
    #[inline(always)]
    pub(crate) fn outcome(self) -> Option<Outcome>
        ensures { result ≡ outcome_of self }
    {
        match self {
            Phase::Closed { outcome, .. } => Some(outcome),
            _ => None,
        }
    }

    /// Whether the peer became known, the number rose or the end became complete in `next`.
    #[inline(always)]
    pub(crate) fn is_progress(self, next: Phase) -> bool
        ensures { result ≡ is_progress self next }
    {
        (self.terms().is_none() && next.terms().is_some())
            || self.number() < next.number()
            || (!self.is_complete() && next.is_complete())
    }

    /// How many retries are left in `next`: progress restores them all.
    #[inline(always)]
    pub(crate) fn retries_left(self, next: Phase, retries: u8, left: u8) -> u8
        ensures { result ≡ (if is_progress self next then retries else left) }
    {
        if self.is_progress(next) {
            return retries;
        }
        left
    }

    /// The step from here to `next`, with the destination of its datagram.
    #[inline(always)]
    pub(crate) fn step_to(self, next: Phase, to: Option<Endpoint>) -> Step
        ensures { result ≡ step_of self next to }
    {
        Step {
            to,
            progress: self.is_progress(next),
            closed: next.outcome(),
        }
    }

    /// Changes the number of a phase that sends or receives. Nothing else is written.
    #[inline(always)]
    pub(crate) fn set_number(&mut self, next: u16)
        requires { HasNext self.old }
        ensures { self.new ≡ numbered next self.old }
    {
        match self {
            Phase::Sending { number, .. } => *number = next,
            Phase::Receiving { number, .. } => *number = next,
            Phase::Waiting { .. } => unreachable!(),
            Phase::Dallying { .. } => unreachable!(),
            Phase::Closed { .. } => unreachable!(),
        }
    }

    /// A dally after its first timeout.
    pub(crate) fn waited(self) -> Phase
        ensures { result ≡ waited self }
    {
        match self {
            Phase::Dallying { terms, number, .. } => Phase::Dallying {
                terms,
                number,
                dally: Dally::Waited,
            },
            phase => phase,
        }
    }
}
