//! Where a datagram belongs, among the transfers that have one of its endpoints.

use crate::flow::captured_transfer::{CapturedTransfer, Part};
use crate::flow::recent::index_of;
use crate::flow::seen::Seen;

/// A transfer, by its index, and how a datagram belongs to it.
#[derive(Clone, Copy)]
pub(crate) struct Candidate {
    pub(crate) index: usize,
    pub(crate) part: Part,
}

/// The newest transfers that a datagram may belong to, of each kind.
#[derive(Clone, Copy)]
pub(crate) struct Candidates {
    /// It is between the endpoints of this one.
    own: Option<Candidate>,
    /// The same, and this one is open.
    open: Option<Candidate>,
    /// It is the first answer to this one.
    answer: Option<Candidate>,
    /// It has a port of this one.
    beside: Option<Candidate>,
}

impl Candidates {
    /// None so far.
    pub(crate) fn new() -> Candidates {
        Candidates {
            own: None,
            open: None,
            answer: None,
            beside: None,
        }
    }

    /// Looks at the newest transfer of an endpoint, and at those before it from there: at so many.
    pub(crate) fn look(
        &mut self,
        transfers: &[CapturedTransfer],
        newest: Option<u64>,
        most: usize,
        seen: &Seen<'_>,
    ) {
        let mut next = newest;
        for _ in 0..most {
            let Some(number) = next else {
                return;
            };
            let Some(index) = index_of(transfers, number) else {
                return;
            };
            let Some(transfer) = transfers.get(index) else {
                return;
            };
            if let Some(part) = transfer.part_of(seen) {
                self.add(Candidate { index, part }, transfer.is_open());
            }
            next = transfer.before;
        }
    }

    /// Adds a transfer.
    fn add(&mut self, candidate: Candidate, is_open: bool) {
        match candidate.part {
            Part::Own(_) => {
                self.own = newer(self.own, candidate);
                if is_open {
                    self.open = newer(self.open, candidate);
                }
            }
            Part::Answer => self.answer = newer(self.answer, candidate),
            Part::Beside(_) => self.beside = newer(self.beside, candidate),
        }
    }

    /// The transfer that the datagram belongs to: the newest between its two endpoints, or else the
    /// newest whose port it has. One that is still without an answer comes before an older one that
    /// ended, since ports are used again.
    pub(crate) fn chosen(self) -> Option<Candidate> {
        if is_after(self.own, self.answer) {
            return self.own;
        }
        self.open.or(self.answer).or(self.beside)
    }
}

fn newer(so_far: Option<Candidate>, candidate: Candidate) -> Option<Candidate> {
    match so_far {
        Some(other) if other.index >= candidate.index => so_far,
        _ => Some(candidate),
    }
}

/// Whether the first is there, and newer than the second.
fn is_after(first: Option<Candidate>, second: Option<Candidate>) -> bool {
    let Some(first) = first else {
        return false;
    };
    match second {
        Some(second) => second.index < first.index,
        None => true,
    }
}
