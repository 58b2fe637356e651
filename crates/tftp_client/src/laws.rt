//! Laws of every run of a client, over the definitions alone.

ghost use Rattle.tftp_client.specs.Given.{CountsWhatItSent, SendsWhatItsFileGave};
ghost use Rattle.tftp_client.specs.Sent.{SendsTheTextWhole, SendsWhatReadsReturned};
ghost use Rattle.tftp_client.specs.Seconds.{ClosesByTheClock, ClosesWithoutProgress};
ghost use Rattle.tftp_client.specs.Seconds.{PassesWithTheClock, TimesOutByTheClock};
ghost use Rattle.tftp_client.specs.Witness.{SomeAreSent, SomeAreStored};
ghost use Rattle.tftp_client.specs.Silence.{TimesOut, WaitsForEachSending};

use std::io::Read;
use tftp_disk::DiskSource;
use tftp_disk::laws::gives_in_order;
use tftp_file::{Sink, Source};

/// A client to whom nothing comes ends by itself. In each run of a client in which nothing is
/// received and each wait lasts as long as it was to, an end that is still open has waited at most
/// once, for a second at most, for each second of the waits behind its request and behind each
/// retransmission: these have a second each, or, with `Backoff::Doubling`, 1, 2, 4, 8 and then 8
/// seconds each. The end that closes then has timed out, and never as complete (RFC 1350, section 2;
/// RFC 1123, section 4.2.3.2).
pub fn a_client_alone_times_out<S: Source, K: Sink>()
    ensures waits { WaitsForEachSending S.meaning K.meaning }
    ensures outcome { TimesOut S.meaning K.meaning }
{}

/// A client's time is what its clock read. Between two states of a run it advances at least as much
/// as the readings of the clock, if none of these is more than a second later than the one before.
/// So a client to whom nothing comes times out by the clock: once the readings have advanced by the
/// waits for its request and for each retry, of a second each or as they grow, and by a second more
/// for each, by which the reading that finds a timeout due may be late. Whatever comes, an end that
/// makes no progress closes, from its request on or from any later state: each of its timeouts takes
/// its interval at most, or eight times as long if the waits grow, and after each datagram the clock
/// is read twice, so that each may be late by two seconds (RFC 1350, section 2; RFC 1123, section
/// 4.2.3.2).
pub fn a_client_times_out_by_the_clock<S: Source, K: Sink>()
    ensures passes { PassesWithTheClock S.meaning K.meaning }
    ensures outcome { TimesOutByTheClock S.meaning K.meaning }
    ensures closes { ClosesByTheClock S.meaning K.meaning }
    ensures idle { ClosesWithoutProgress S.meaning K.meaning }
{}

/// What moved in the run of a complete put is what its source gave, in order and each byte once,
/// from the state in which the run began with it to that in which it ended. In octet N, which its
/// line has, is the number of these bytes (RFC 1350, section 6).
pub fn a_put_sends_what_its_file_gave<S: Source, K: Sink>()
    ensures given { SendsWhatItsFileGave S.meaning K.meaning }
    ensures counted { CountsWhatItSent S.meaning K.meaning }
{}

/// What moved in the run of a complete put from a [`DiskSource`] that was opened at LOCAL, and of
/// which nothing was read before, is a beginning of the wire text of what reads of that file
/// returned, in order and each byte once: all of it but what was read and not sent yet. In octet N
/// is the number of these bytes. In netascii it is that of the bytes that one pass over the file
/// read before; if what was read after it begins with these, their wire text is what moved.
pub fn a_put_sends_what_reads_returned<F: Read, K: Sink>()
    ensures given { SendsWhatItsFileGave ⟦<DiskSource<F> as Source>⟧.meaning K.meaning }
    ensures reads { SendsWhatReadsReturned ⟦<DiskSource<F> as Source>⟧.meaning K.meaning }
    ensures text { SendsTheTextWhole ⟦<DiskSource<F> as Source>⟧.meaning K.meaning }
{
    gives_in_order::<F>();
}

/// What is proved of a complete get and of a complete put can be met: arguments, traces of the network
/// and calls of a disk are given that have it all (RFC 1350, section 4).
pub fn some_transfers_are_complete()
    ensures stored { SomeAreStored }
    ensures sent { SomeAreSent }
{}
