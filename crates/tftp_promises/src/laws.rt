//! Laws of programs in an honest network, over the definitions alone. A program's files are of any
//! types: those of a store, and of the clients' sources and sinks.

ghost use Rattle.tftp_rules.specs.Machine.{Endpoint};
ghost use Rattle.tftp_promises.specs.Alone.{EachIsJoined, EachKeepsAnyFiles};
ghost use Rattle.tftp_promises.specs.Alone.{EachTakesOne, OthersHaveNothing};
ghost use Rattle.tftp_promises.specs.Blamed.{EachIsUnblamed, ProgramsAreUnblamed};
ghost use Rattle.tftp_promises.specs.ClientPrograms.{ClientsArePrograms};
ghost use Rattle.tftp_promises.specs.ClientRuns.{ClientsAreRuns};
ghost use Rattle.tftp_promises.specs.Explained.{ProgramsAreExplained, SeveralAreExplained};
ghost use Rattle.tftp_promises.specs.Fates.{RequestsAreSettled};
ghost use Rattle.tftp_promises.specs.Outlasting.{ProgramsOutlastLoss};
ghost use Rattle.tftp_promises.specs.GivesUp.{ClientsGiveUpUnanswered, ClientsTimeOutSo, TransfersGiveUpUnanswered};
ghost use Rattle.tftp_promises.specs.Hosts.{ClientsAreThere, ServerIsThere, StrangersAreElsewhere};
ghost use Rattle.tftp_promises.specs.Joined.{ProgramsKeepAnyFiles, ServersAloneAreJoined};
ghost use Rattle.tftp_promises.specs.Joint.{TracesAreJoint};
ghost use Rattle.tftp_promises.specs.Traces.{AsksFirst};
ghost use Rattle.tftp_promises.specs.Lines.{EachLineIsAClose};
ghost use Rattle.tftp_promises.specs.Openings.{DistinctPortsAreFresh};
ghost use Rattle.tftp_promises.specs.Order.{Programs};
ghost use Rattle.tftp_promises.specs.Others.{ClientsTakeOne};
ghost use Rattle.tftp_promises.specs.Programs.{ClientProgram, ServersAreRuns};
ghost use Rattle.tftp_promises.specs.Timers.{EachHasOneTimer};
ghost use Rattle.tftp_promises.specs.Witness.{SomeOutlastLoss};

use tftp_file::{Sink, Source};
use tftp_store::Store;

/// The ends of a server and its clients in an honest network keep the promises of a transfer. Over
/// any store and any files, in the end state of their traces: they have one block size; what a
/// receiver handed to its file is a prefix of what its peer's file gave, and all of it,
/// committed, once it is complete; a sender is complete only after its receiver. Other servers at
/// the address are strangers; of a server that is alone there nothing is asked of them (RFC 1350,
/// sections 2, 4 and 6).
pub fn programs_keep_promises<T: Store, G: Source, K: Sink>()
    ensures any_files { ProgramsKeepAnyFiles T.meaning T.Source.meaning G.meaning K.meaning }
    ensures alone { ServersAloneAreJoined T.meaning T.Source.meaning G.meaning K.meaning }
{}

/// Each of several servers at one address and each client that takes its answer keep the promises,
/// whatever ports the transfers of other clients have, before and after: for these two programs the
/// others are strangers, the other servers at the address, and the other clients at other addresses
/// and other endpoints. A transfer at a server whose answer the client passes over has nothing of
/// its file, and is not complete. Which server's answer it takes is in the traces. One server is
/// the list of one (RFC 1350, section 4).
pub fn each_client_keeps_promises<T: Store, G: Source, K: Sink>()
    ensures joined { EachIsJoined T.meaning T.Source.meaning G.meaning K.meaning }
    ensures any_files { EachKeepsAnyFiles T.meaning T.Source.meaning G.meaning K.meaning }
    ensures passed_over { OthersHaveNothing T.meaning T.Source.meaning G.meaning K.meaning }
    ensures takes_one { EachTakesOne T.meaning T.Source.meaning G.meaning K.meaning }
{}

/// No end of the programs whose peer is no stranger closes because of what that peer sent: neither
/// as `Illegal`, nor as `TooLarge` or `Refused`; as `NotNetascii` only if what the source of its peer
/// gave begins no netascii of the length that was measured; and as `SourceFault` only if it sends,
/// since its own source failed. So a transfer fails for no other cause than that no retry was left,
/// that a file or a store failed, or that an ERROR was received (RFC 1350, sections 2, 4 and 7). The
/// same holds for each of several servers at one address and a client that takes its answer.
pub fn no_program_is_blamed<T: Store, G: Source, K: Sink>()
    ensures programs { ProgramsAreUnblamed T.meaning T.Source.meaning G.meaning K.meaning }
    ensures several { EachIsUnblamed T.meaning T.Source.meaning G.meaning K.meaning }
{}

/// If no two ends of the run ever have one endpoint, the ports are fresh as the promises need them:
/// they ask it of the clients of the network and of their transfers only.
pub fn ports_that_all_differ_are_fresh<T: Store, G: Source, K: Sink>()
    ensures { (programs : Programs T.meaning T.Source.meaning G.meaning K.meaning)
        → DistinctPortsAreFresh programs }
{}

/// The programs of a network reach the end state of their traces by whole steps, one at a time,
/// and each step receives only what was sent in the steps before it, or what is a stranger's (RFC
/// 1350, sections 2 and 4).
#[tactic(auto, using(crate::proofs::JointRuns::traces_joint))]
pub fn traces_are_joint<T: Store, G: Source, K: Sink>()
    ensures { TracesAreJoint T.meaning T.Source.meaning G.meaning K.meaning }
{}

/// In the network of the programs each client is at a client's endpoint, each port of the server
/// that its clients know at the server, and only strangers are elsewhere. The rules that open ends
/// need the first two, and by the third what is claimed of peers has no other exception.
pub fn programs_are_in_their_network<T: Store, G: Source, K: Sink>()
    ensures clients { (programs : Programs T.meaning T.Source.meaning G.meaning K.meaning)
        → ClientsAreThere programs }
    ensures server { (programs : Programs T.meaning T.Source.meaning G.meaning K.meaning)
        → ServerIsThere programs }
    ensures strangers { (programs : Programs T.meaning T.Source.meaning G.meaning K.meaning)
        → StrangersAreElsewhere programs }
{}

/// What `tftp_client` proves of a client is one run, as the laws here need it: from its request on,
/// and of one that is complete also its line and what it did after it (RFC 1350, section 6). If its
/// end opened by a valid request, to any server, it is the run of a program.
pub fn a_client_is_one_run<G: Source, K: Sink>()
    ensures runs { ClientsAreRuns G.meaning K.meaning }
    ensures programs { ClientsArePrograms G.meaning K.meaning }
{}

/// What `tftp_loop` proves of a server is the run of a server here, from its start or from any
/// later time at which it holds no transfer and no datagram is pending.
pub fn a_server_is_one_run<T: Store>()
    ensures { ServersAreRuns T.meaning T.Source.meaning }
{}

/// A client sends its request to the server first (RFC 1350, section 4), and then notes only events
/// of its own port, its waits, which report no other port, and the lines that it prints.
#[tactic(auto, using(crate::proofs::ClientTraces::asks_first))]
pub fn a_client_asks_first<G: Source, K: Sink>()
    ensures { (to : Endpoint) (client : ClientProgram G.meaning K.meaning to) → AsksFirst client }
{}

/// A client takes the answers of one port only (RFC 1350, section 4): of other servers at the
/// address, whatever other ports they have, it handles nothing but ERRORs before it has a peer.
#[tactic(auto, using(crate::proofs::TakesOne::takes_one))]
pub fn a_client_takes_one_answer<G: Source, K: Sink>()
    ensures { ClientsTakeOne G.meaning K.meaning }
{}

/// At each time of a run each transfer that the server holds has one timer, at its port, and no
/// timer is of another. So a datagram or a timeout at a port is for one transfer only (RFC 1350,
/// section 4).
#[tactic(auto, using(crate::proofs::OneTimerEach::one_timer_each))]
pub fn each_transfer_has_one_timer<T: Store>()
    ensures { EachHasOneTimer T.meaning T.Source.meaning }
{}

/// At each time of a run the server has printed one line for each transfer that it removed, and no
/// other.
#[tactic(auto, using(crate::proofs::ClientsRun::lines_are_closes))]
pub fn each_line_is_a_close<T: Store>()
    ensures { EachLineIsAClose T.meaning T.Source.meaning }
{}

/// A client that has a peer times out only for want of an answer: it sent its newest datagram once
/// and for each retry. If the transfer that serves it handled a copy, then that transfer is
/// complete, or failed for another reason, or has sent the answer; and the client handled no copy
/// of it. So all copies of one datagram were lost (RFC 1350, section 2).
pub fn a_client_gives_up_unanswered<T: Store, G: Source, K: Sink>()
    ensures clients { ClientsGiveUpUnanswered T.meaning T.Source.meaning G.meaning K.meaning }
    // with or without a peer
    ensures all { ClientsTimeOutSo T.meaning T.Source.meaning G.meaning K.meaning }
    // and the transfer of a client that timed out
    ensures transfers { TransfersGiveUpUnanswered T.meaning T.Source.meaning G.meaning K.meaning }
{}

/// A server settles each datagram that it received at its request port: it opens a transfer, whose
/// first datagram it sends at once; it answers by an ERROR; it sends nothing, since the datagram
/// repeats the request of a transfer that is open; or it loses it, and states why (RFC 1350, section
/// 4).
pub fn each_request_is_settled<T: Store>()
    ensures { RequestsAreSettled T.meaning T.Source.meaning }
{}

/// A client that is not complete is so for a stated reason: it goes on; its file or its store failed,
/// an ERROR came, or its peer's file is no netascii; its file is too long, since it has more blocks
/// than can be numbered at the block size that the server agreed to, or since the file that the store
/// opened for it is longer than it accepts; or of one datagram, its request or a later one, all copies
/// were lost, or all answers. It sent that once and for each retry, and handled no answer; and the
/// server, if it handled a copy, answered, or its transfer failed. So it refuses an answer of its
/// server for no other reason than a file that is too long (RFC 1350, sections 2 and 7; RFC 2347,
/// "Negotiation Protocol").
pub fn a_client_ends_for_a_reason<T: Store, G: Source, K: Sink>()
    ensures one { ProgramsAreExplained T.meaning T.Source.meaning G.meaning K.meaning }
    // of each of several servers and a client that takes its answer
    ensures several { SeveralAreExplained T.meaning T.Source.meaning G.meaning K.meaning }
{}

/// A client and the transfer that serves it outlast a loss that is bounded: if each datagram of one
/// of the two is handled by the other before more than `limit` timeouts of the two have passed, or
/// the other has closed by then, if both answer before more than `slack` have, and both have at
/// least `2 * limit + slack` retries, then none of the two times out, but if the other is complete
/// or failed for another reason. So if none of the two failed, a get that has ended is complete; so
/// is the transfer of a put, once it has ended (RFC 1350, section 2).
pub fn a_client_outlasts_loss<T: Store, G: Source, K: Sink>()
    ensures { ProgramsOutlastLoss T.meaning T.Source.meaning G.meaning K.meaning }
{}

/// The premises of [`a_client_outlasts_loss`] can be met where something is lost. A client reads a file
/// of one block by an OACK, and the ACK 0 that it sends first is lost, within a bound of one timeout.
/// Both ends are complete, and the client has the file. All files are in memory: of the premises on
/// arguments and disks this says nothing (RFC 1350, sections 2 and 6; RFC 2347).
#[tactic(auto, using(crate::proofs::ExchangeLossy::some_outlast))]
pub fn some_programs_outlast_loss()
    ensures { SomeOutlastLoss }
{}
