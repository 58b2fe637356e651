//! The counts of what a server noted.

ghost use Rattle.std.specs.Prelude.{◌≡◌, ◌∷◌, [], ◌+◌, ◌-◌, List};
ghost use Rattle.tftp_status.specs.Counts.{after, closed_with, counts_of, ended_with, saturated};
ghost use Rattle.tftp_status.specs.Counts.{transfers_of};
ghost use Rattle.tftp_sockets.specs.declared.entry.Direction.{Direction as Way};
ghost use Rattle.tftp_sockets.specs.declared.entry.Entry.{Entry as Noted};
ghost use Rattle.tftp_sockets.specs.declared.entry.Entry.TheVariants.{Closed, Opened};

use tftp_ends::Outcome;
use tftp_sockets::{Direction, Entry};

/// The counts of what a server noted. A count stays at 2^64 - 1 once it is there.
#[derive(Clone, Copy)]
pub struct Counts {
    /// The datagrams to the request port that opened no transfer.
    pub requests: RequestCounts,
    /// The transfers whose client reads.
    pub reads: TransferCounts,
    /// The transfers whose client writes.
    pub writes: TransferCounts,
    /// The datagrams that closed transfers sent again.
    pub again: u64,
}

/// The datagrams to the request port that opened no transfer, by their answer.
#[derive(Clone, Copy)]
pub struct RequestCounts {
    pub refused: u64,
    pub busy: u64,
    pub ignored: u64,
    pub lost: u64,
}

/// The transfers of one direction.
#[derive(Clone, Copy)]
pub struct TransferCounts {
    pub opened: u64,
    pub closed: u64,
    /// The bytes of DATA of the closed ones, each block once.
    pub bytes: u64,
    pub outcomes: OutcomeCounts,
}

/// The closed transfers by their outcome.
#[derive(Clone, Copy)]
pub struct OutcomeCounts {
    pub complete: u64,
    pub timed_out: u64,
    pub peer_error: u64,
    pub illegal: u64,
    pub refused: u64,
    pub too_large: u64,
    pub store_fault: u64,
    pub source_fault: u64,
    pub not_netascii: u64,
}

impl Counts {
    /// The counts of nothing.
    pub fn new() -> Counts
        ensures { result ≡ counts_of [] }
    {
        Counts {
            requests: RequestCounts {
                refused: 0,
                busy: 0,
                ignored: 0,
                lost: 0,
            },
            reads: TransferCounts::new(),
            writes: TransferCounts::new(),
            again: 0,
        }
    }

    /// Counts an entry.
    pub fn add(&mut self, entry: Entry)
        ensures step { self.new ≡ after entry self.old }
        ensures counts { (entries : List Noted) → self.old ≡ counts_of entries
            → self.new ≡ counts_of (entry ∷ entries) }
    {
        match entry {
            Entry::Opened(direction) => self.open(direction),
            Entry::Refused => count(&mut self.requests.refused),
            Entry::Busy => count(&mut self.requests.busy),
            Entry::Ignored => count(&mut self.requests.ignored),
            Entry::Lost => count(&mut self.requests.lost),
            Entry::Closed {
                direction,
                outcome,
                bytes,
                again,
            } => self.close(direction, outcome, bytes, again),
        }
    }

    /// Counts an opened transfer.
    fn open(&mut self, direction: Direction)
        ensures { self.new ≡ after (Opened direction) self.old }
    {
        match direction {
            Direction::Read => count(&mut self.reads.opened),
            Direction::Write => count(&mut self.writes.opened),
        }
    }

    /// Counts a closed transfer.
    fn close(&mut self, direction: Direction, outcome: Outcome, bytes: u64, again: u64)
        ensures { self.new ≡ after (Closed direction outcome bytes again) self.old }
    {
        self.again = self.again.saturating_add(again);
        match direction {
            Direction::Read => self.reads.close(outcome, bytes),
            Direction::Write => self.writes.close(outcome, bytes),
        }
    }
}

impl TransferCounts {
    /// The counts of no transfer of a direction.
    fn new() -> TransferCounts
        ensures { (way : Way) → result ≡ transfers_of way [] }
    {
        TransferCounts {
            opened: 0,
            closed: 0,
            bytes: 0,
            outcomes: OutcomeCounts {
                complete: 0,
                timed_out: 0,
                peer_error: 0,
                illegal: 0,
                refused: 0,
                too_large: 0,
                store_fault: 0,
                source_fault: 0,
                not_netascii: 0,
            },
        }
    }

    /// The number of open transfers.
    pub fn open(&self) -> u64
        ensures { result ≡ self.now.opened - self.now.closed }
    {
        self.opened.saturating_sub(self.closed)
    }

    /// Counts a closed transfer of this direction.
    fn close(&mut self, outcome: Outcome, bytes: u64)
        ensures { self.new ≡ closed_with outcome bytes self.old }
    {
        count(&mut self.closed);
        self.bytes = self.bytes.saturating_add(bytes);
        self.outcomes.add(outcome);
    }
}

impl OutcomeCounts {
    /// Counts an outcome.
    fn add(&mut self, outcome: Outcome)
        ensures { self.new ≡ ended_with outcome self.old }
    {
        match outcome {
            Outcome::Complete => count(&mut self.complete),
            Outcome::TimedOut => count(&mut self.timed_out),
            Outcome::PeerError(_) => count(&mut self.peer_error),
            Outcome::Illegal => count(&mut self.illegal),
            Outcome::Refused(_) => count(&mut self.refused),
            Outcome::TooLarge => count(&mut self.too_large),
            Outcome::StoreFault => count(&mut self.store_fault),
            Outcome::SourceFault => count(&mut self.source_fault),
            Outcome::NotNetascii => count(&mut self.not_netascii),
        }
    }
}

/// Counts one more.
fn count(number: &mut u64)
    ensures { number.new ≡ saturated (1 + number.old) }
{
    *number = number.saturating_add(1);
}
