//! The laws of every run of a world, over the definitions alone.
//!
//! The premise `Refines` of a law holds by the clauses `played` of `World`'s calls; `IsReached` by
//! their clauses `new`, `steps` and `settles`, for the events that were played.

ghost use Rattle.std.specs.Prelude.{[], ◌∷◌};
ghost use Rattle.tftp_wire.specs.declared.mode.Mode.TheVariants.{Octet, Netascii};
ghost use Rattle.tftp_negotiate.specs.declared.known.Known.TheVariants.{Blksize};
ghost use Rattle.tftp_player.specs.Closing.{NoneIsBlamed, OnlyRefusalsAreTold};
ghost use Rattle.tftp_player.specs.Closing.{EstablishedEndsCloseSo, SomeEndIsRefused};
ghost use Rattle.tftp_player.specs.Completing.{Transfers, nothing_asked, blocks_of_8};
ghost use Rattle.tftp_player.specs.Completing.{two_blocks, three_blocks};
ghost use Rattle.tftp_player.specs.declared.event.Event.TheVariants.{Get, Put};
ghost use Rattle.tftp_player.specs.OneAtMost.{EventsAddOneAtMost};
ghost use Rattle.tftp_player.specs.Recovering.{TransfersRecover, ReadsRecover, WritesRecover};
ghost use Rattle.tftp_player.specs.Recovering.{ReadRequestsRecover, WriteRequestsRecover};
ghost use Rattle.tftp_player.specs.Recovering.{TransfersSettle, AnsweredReadsSettle};
ghost use Rattle.tftp_player.specs.Recovering.{AnsweredWritesSettle, SomeTransferRecovers};
ghost use Rattle.tftp_player.specs.Recovering.{ReadRequestsSettle, WriteRequestsSettle};
ghost use Rattle.tftp_player.specs.Recovering.{SomeReadRecovers, SomeWriteRecovers};
ghost use Rattle.tftp_player.specs.Recovering.{SomeReadRequestRecovers};
ghost use Rattle.tftp_player.specs.Recovering.{SomeWriteRequestRecovers};
ghost use Rattle.tftp_player.specs.Recovering.{SendersHearTheEnd, SomeSenderHearsTheEnd};
ghost use Rattle.tftp_player.specs.Repeating.{RepeatsOpenNothing, OnlyNewRequestsOpen};
ghost use Rattle.tftp_player.specs.Repeating.{RequestsLast};
ghost use Rattle.tftp_player.specs.Straight.{ReadsComplete, WritesComplete, ReadsSettle};
ghost use Rattle.tftp_player.specs.Straight.{WritesSettle};
ghost use Rattle.tftp_player.specs.Straight.{SomeReadIsStraight, SomeWriteIsStraight};
ghost use Rattle.tftp_player.specs.Strangers.{StraysChangeNoRecord, ClientsHaveServers};
ghost use Rattle.tftp_player.specs.WorldRuns.{WorldsAreSafe, PeersStayHome, StepsKeep};
ghost use Rattle.tftp_player.specs.WorldRuns.{StepsAreRules, KeptIsSafe};
ghost use Rattle.tftp_player.specs.WorldRuns.{NewWorldsBegin};

/// After every list of events, from a world in which nothing has happened: the ends of an
/// established transfer have one block size, what a receiver stored is a prefix of its peer's
/// file, a receiver that is complete has stored and committed all of it, and a complete sender has
/// a complete peer. The peer of a client is an end of the server that was opened by the one request
/// that the client sent, for the path of the name in it. Nothing is claimed of a peer at neither
/// host; without strangers every peer is at one of the two.
pub fn every_world_is_safe()
    ensures safe { WorldsAreSafe }
    ensures home { PeersStayHome }
{}

/// The definitions are not empty: in a world some events transfer a file of one byte by a read and
/// by a write in octet, by a read in netascii, of a line end, and by a read in blocks of 8 bytes.
/// Both ends are then complete, and the receiver has the file.
pub fn some_worlds_transfer()
    ensures read { Transfers (Get (97 ∷ []) Octet nothing_asked) (65 ∷ []) }
    ensures write { Transfers (Put (97 ∷ []) Octet nothing_asked (65 ∷ [])) (65 ∷ []) }
    ensures netascii { Transfers (Get (97 ∷ []) Netascii nothing_asked) (10 ∷ []) }
    ensures options { Transfers (Get (97 ∷ []) Octet blocks_of_8) (65 ∷ []) }
{}

/// The invariant that makes a world safe holds of a new one, and each event preserves it. An event
/// is at most three rules of the guarded machine, or four for a stranger's datagram, from the
/// machine that the old world refines to one that the new world refines.
pub fn a_step_keeps_a_world()
    ensures begins { NewWorldsBegin }
    ensures kept { StepsKeep }
    ensures rules { StepsAreRules }
    ensures safe { KeptIsSafe }
{}

/// Each event appends at most one datagram to all that was sent, and removes none; so does each
/// call of `World::apply`.
pub fn an_event_sends_one_datagram_at_most()
    ensures events { EventsAddOneAtMost }
{}

/// A datagram of neither host changes no record, except of an end whose peer is a stranger, which a
/// stranger's own request opened. A client's peer is at the server.
pub fn a_stray_changes_no_record()
    ensures records { StraysChangeNoRecord }
    ensures clients { ClientsHaveServers }
{}

/// A run without loss, of a request that both ends accept, and of a write that the server's store
/// accepts, ends: it has at most `1 + 2N` deliveries for a read answered by DATA 1, `3 + 2N` for
/// one answered by an OACK, and `2 + 2N` for a write, where the text has `N` blocks of the agreed
/// size (RFC 1350, section 2; RFC 2347, "Negotiation Protocol"). Before the last of them a datagram
/// is to be delivered; after it both ends are complete, and none is. A `World::settle` with at
/// least that limit delivers that many.
///
/// There are such runs: of a read and of a write without options, of a read in netascii, of a read
/// of three blocks and of a write of two in blocks of 8 bytes.
pub fn a_straight_run_completes()
    ensures reads { ReadsComplete }
    ensures writes { WritesComplete }
    ensures reads_settle { ReadsSettle }
    ensures writes_settle { WritesSettle }
    // there are some
    ensures read { SomeReadIsStraight Octet nothing_asked (65 ∷ []) [] }
    ensures write { SomeWriteIsStraight Octet nothing_asked (65 ∷ []) [] }
    ensures netascii { SomeReadIsStraight Netascii nothing_asked (10 ∷ []) [] }
    ensures blocks { SomeReadIsStraight Octet blocks_of_8 three_blocks (Blksize 8 ∷ []) }
    ensures oack { SomeWriteIsStraight Octet blocks_of_8 two_blocks (Blksize 8 ∷ []) }
{}

/// At the request port a request that repeats that of an open transfer is ignored: nothing is sent,
/// and no end opens or changes (RFC 1350, section 4). A datagram that opens an end repeats no
/// request before, and the same datagram repeats it while that end is open.
pub fn a_repeat_opens_nothing()
    ensures ignored { RepeatsOpenNothing }
    ensures new_only { OnlyNewRequestsOpen }
    ensures lasts { RequestsLast }
{}

/// Whatever the network has done, an established transfer whose sender has a retry left completes
/// once the network behaves: one timeout of the sender, and then each datagram that was added is
/// delivered once, in order. It takes two datagrams for each block from the sender's newest one on
/// (RFC 1350, section 2). Where the client has no peer yet, and would accept the newest datagram of
/// the server's end, that end's timeout does the same.
pub fn a_transfer_recovers()
    ensures transfers { TransfersRecover }
    ensures reads { ReadsRecover }
    ensures writes { WritesRecover }
    // there are some: the ACK of an OACK was lost, or DATA 2, or the last ACK
    ensures oack { SomeTransferRecovers 0 }
    ensures data { SomeTransferRecovers 2 }
    ensures ack { SomeTransferRecovers 1 }
    // or the first datagram of the server's end, of a read and of a write
    ensures read { SomeReadRecovers }
    ensures write { SomeWriteRecovers }
{}

/// A client that waits, and has a retry left, completes with a new end of the server once the
/// network behaves, if the server's port accepts its request: one timeout of the client, and then
/// as many datagrams as in a run without loss.
pub fn a_request_recovers()
    ensures reads { ReadRequestsRecover }
    ensures writes { WriteRequestsRecover }
    // there are some
    ensures read { SomeReadRequestRecovers }
    ensures write { SomeWriteRequestRecovers }
{}

/// A `World::settle` after that timeout, with a limit of at least as many deliveries, makes just
/// that many, and both ends are complete.
pub fn a_recovery_settles()
    ensures transfers { TransfersSettle }
    ensures reads { AnsweredReadsSettle }
    ensures writes { AnsweredWritesSettle }
    // and where the request was lost
    ensures read_requests { ReadRequestsSettle }
    ensures write_requests { WriteRequestsSettle }
{}

/// A sender that is open is complete once it hears the last ACK of its peer, which is complete (RFC
/// 1350, section 6).
pub fn a_sender_hears_the_end()
    ensures ends { SendersHearTheEnd }
    // there is one
    ensures some { SomeSenderHearsTheEnd }
{}

/// No end whose peer is at one of the two hosts closes because of what that peer sent: neither as
/// `Illegal`, nor as `NotNetascii`, `TooLarge` or `Refused`. Nor does one close as `SourceFault`:
/// the files of a world have as many bytes as were measured. An ERROR of an end to its peer says
/// only that its store refused. So one of two ends that are each other's peers closes as complete,
/// as timed out, because its store refused, or by an ERROR 3 or 6 of the other, whose store
/// refused (RFC 1350, appendix I), and as nothing else.
pub fn no_end_is_blamed()
    ensures none { NoneIsBlamed }
    ensures told { OnlyRefusalsAreTold }
    ensures closes { EstablishedEndsCloseSo }
    // there is one that an ERROR 3 has closed
    ensures refused { SomeEndIsRefused }
{}
