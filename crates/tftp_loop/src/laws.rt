//! Laws of a server's runs, over the definitions alone. Its store is of any type.

ghost use Rattle.tftp_loop.specs.Draining.{DrainsByASignal, OnlyFinishes};
ghost use Rattle.tftp_loop.specs.Dropped.{AnswersOnlyRequests, DropsNoRequest, DropsOnlyIfTold};
ghost use Rattle.tftp_loop.specs.Expiry.{ClosesAfterDoubling, ClosesAfterIntervals};
ghost use Rattle.tftp_loop.specs.Expiry.{ClosesOverAge, ClosesWithoutProgress, TimesOutInSilence};
ghost use Rattle.tftp_loop.specs.Fair.{CountsReceived, ReceivesFew, ReceivesFewAtAPort};
ghost use Rattle.tftp_loop.specs.Handled.{HandlesBeforeItSleeps, HandlesByTheNextWait};
ghost use Rattle.tftp_loop.specs.Handled.{ReadsTheRequestPort};
ghost use Rattle.tftp_loop.specs.Leaving.{SendsOnlyGiven};
ghost use Rattle.tftp_loop.specs.PortsInTurn.{UsesNoPortTwice};
ghost use Rattle.tftp_loop.specs.Reflected.{ReflectsFew};
ghost use Rattle.tftp_loop.specs.Reported.{ReadsWhatIsReported};
ghost use Rattle.tftp_loop.specs.Seconds.{ClosesByTheClock, ClosesOverAgeByTheClock};
ghost use Rattle.tftp_loop.specs.Seconds.{PassesWithTheClock, TimesOutByTheClock};
ghost use Rattle.tftp_loop.specs.Sleeps.{RestsBeforeItSleeps};

use tftp_negotiate::laws::answers_within_request;
use tftp_store::Store;

/// A server whose wait may sleep has nothing to do: a receive found nothing at its request port,
/// and no wait has reported the port since; no datagram is pending, and no port of a transfer is
/// marked. The same holds of each such port, or it is left for a while after an opening or
/// progress, and read again within half a second. The server sleeps no longer than until the next
/// port is read, which is at a deadline at the latest, and at most a second.
pub fn a_server_rests_before_it_sleeps<T: Store>()
    ensures { RestsBeforeItSleeps T.meaning T.Source.meaning }
{}

/// What a wait reported is read by the next wait: a receive is tried at each port that it reported
/// and that had a transfer then.
pub fn a_server_reads_what_is_reported<T: Store>()
    ensures { ReadsWhatIsReported T.meaning T.Source.meaning }
{}

/// A request is handled before the server sleeps. What a wait reported at the request port is read
/// by the next wait. Each datagram that is received there is handled, or lost for one of the
/// reasons of `RequestLoss`, before a wait that takes time, and before the second wait whatever
/// that takes (RFC 1350, section 4).
pub fn a_server_handles_before_it_sleeps<T: Store>()
    ensures reads { ReadsTheRequestPort T.meaning T.Source.meaning }
    ensures handles { HandlesBeforeItSleeps T.meaning T.Source.meaning }
    ensures soon { HandlesByTheNextWait T.meaning T.Source.meaning }
{}

/// Once a server drains it receives nothing at its request port, whatever comes there, and goes on
/// with what is open. It drains only if it awaits a signal for that.
pub fn a_server_that_drains_only_finishes<T: Store>()
    ensures finishes { OnlyFinishes T.meaning T.Source.meaning }
    ensures signal { DrainsByASignal T.meaning T.Source.meaning }
{}

/// No request is dropped for what it says, whatever the server is told: what is dropped so spells
/// neither an RRQ nor a WRQ (RFC 1350, section 5). A server that is to handle only requests answers nothing at its
/// request port that begins as neither, and one that is not drops nothing there.
pub fn a_server_drops_no_request<T: Store>()
    ensures requests { DropsNoRequest T.meaning T.Source.meaning }
    ensures told { DropsOnlyIfTold T.meaning T.Source.meaning }
    ensures only { AnswersOnlyRequests T.meaning T.Source.meaning }
{}

/// A transfer that makes no progress is closed in time, whatever is sent to its port. At each wait
/// later than its waits for a timeout, and a second for each retry, its line was printed: in a
/// round the clock is read once, which advances the time by a second at most. Each of these waits is
/// an interval, or twice as long as the one before, up to eight intervals (RFC 1123, section
/// 4.2.3.2). If nothing came to the port, it was not complete, unless it was before. A transfer that
/// is over age is closed so whatever it receives (RFC 1350, section 2).
pub fn a_server_closes_what_makes_no_progress<T: Store>()
    // When it closes.
    ensures closes { ClosesWithoutProgress T.meaning T.Source.meaning }
    ensures silent { TimesOutInSilence T.meaning T.Source.meaning }
    ensures over_age { ClosesOverAge T.meaning T.Source.meaning }
    // How long its waits are together.
    ensures intervals { ClosesAfterIntervals }
    ensures doubling { ClosesAfterDoubling }
{}

/// The same by the clock that the server read. At each wait before which the readings of the clock
/// have advanced by more than that time, and by what the rounds did not count of them, the line of
/// the transfer was printed. A reading counts up to a second after the round before the newest wait
/// began: so a clock that jumps closes no transfer. A transfer that is over age is closed so whatever
/// it receives. Between any two states the server's time advances at least as much as the readings,
/// without what the rounds did not count (RFC 1350, section 2).
pub fn a_server_closes_by_the_clock<T: Store>()
    ensures closes { ClosesByTheClock T.meaning T.Source.meaning }
    ensures silent { TimesOutByTheClock T.meaning T.Source.meaning }
    ensures over_age { ClosesOverAgeByTheClock T.meaning T.Source.meaning }
    ensures passes { PassesWithTheClock T.meaning T.Source.meaning }
{}

/// A server with a range of ports takes a port of it again only after half of the range: the port is
/// drawn from the other half.
pub fn a_range_gives_no_port_twice()
    ensures { UsesNoPortTwice }
{}

/// No port starves another. Between two waits at most 64 datagrams are received at the port of a
/// transfer, each of which its timer counts, and one at the request port (`ReceivesRequest`). The
/// trace has at most 192 of a port, whatever transfers close and open there.
pub fn a_server_receives_few_between_waits<T: Store>()
    ensures counts { CountsReceived T.meaning T.Source.meaning }
    ensures few { ReceivesFew T.meaning T.Source.meaning }
    ensures trace { ReceivesFewAtAPort T.meaning T.Source.meaning }
{}

/// What a server sends to an endpoint is bounded by what it received from there: for each datagram
/// one, and one for each retry. So a datagram with a forged address brings its victim so many at
/// most, a request as well as one of a transfer that makes progress (RFC 1350, section 2).
pub fn a_server_reflects_few<T: Store>()
    ensures { ReflectsFew T.meaning T.Source.meaning }
{}

/// Each datagram that a server sends is an ERROR, an ACK, an OACK, or DATA, and goes to an endpoint
/// that sent one before. DATA goes to the endpoint that requested to read, and its block is what a
/// call of the source gave that was opened at the path of that request, in its mode, in the root of
/// the store; so nothing else of what is stored leaves. A block has at most as many bytes as the
/// limit of the server allows, or 512 (RFC 1350, sections 2 and 4; RFC 2348, "Blocksize Option
/// Specification").
pub fn a_server_sends_only_what_was_asked<T: Store>()
    ensures { SendsOnlyGiven T.meaning T.Source.meaning }
{
    answers_within_request();
}
