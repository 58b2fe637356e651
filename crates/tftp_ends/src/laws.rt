//! Laws of every run of an end and of a receiver's text, over the definitions alone. The contracts
//! of [`End`](crate::End) state that its calls are such steps.

ghost use Rattle.std.specs.Prelude.{◌≡◌, ◌+◌, ◌*◌, ◌≤◌, ℕ, List, length, true};
ghost use Rattle.tftp_ends.specs.End.{EndState, is_sender};
ghost use Rattle.tftp_ends.specs.Laws.{DecodedBegins, DecodedEnds};
ghost use Rattle.tftp_ends.specs.Run.{IsOpening, IsOpen, IsRun, AnswersByProgress, Taken};
ghost use Rattle.tftp_ends.specs.Run.{end_after_run, progress_count, timeout_count, data_count};
ghost use Rattle.tftp_ends.specs.Run.{datagram_count, count_if, opened_by_data};
ghost use Rattle.tftp_ends.specs.SenderRows.{NewestAckSends, LastAckCompletes, OldAckIsNothing};
ghost use Rattle.tftp_ends.specs.SenderRows.{EarlyAckIsIllegal, ErrorClosesSender};
ghost use Rattle.tftp_ends.specs.SenderRows.{OackAgainIsNothing, SenderRefusesOthers};
ghost use Rattle.tftp_ends.specs.SenderRows.{SenderRefusesMalformed};
ghost use Rattle.tftp_ends.specs.ReceiverRows.{LastDataIsAckedAgain, DallyIgnoresOthers};
ghost use Rattle.tftp_ends.specs.ReceiverRows.{DallyIgnoresMalformed, NewestDataIsAckedAgain};
ghost use Rattle.tftp_ends.specs.ReceiverRows.{OldDataIsNothing, EarlyDataIsIllegal};
ghost use Rattle.tftp_ends.specs.ReceiverRows.{LongDataIsIllegal, BlocksRunOut, NextDataIsStored};
ghost use Rattle.tftp_ends.specs.ReceiverRows.{ErrorClosesReceiver, OackIsAckedAgain};
ghost use Rattle.tftp_ends.specs.ReceiverRows.{LateOackIsNothing, ReceiverRefusesOthers};
ghost use Rattle.tftp_ends.specs.ReceiverRows.{ReceiverRefusesMalformed};
ghost use Rattle.tftp_ends.specs.WaitingRows.{FirstDataIsStored, OackOpensReader};
ghost use Rattle.tftp_ends.specs.WaitingRows.{ReaderTakesNoOther, FirstAckBegins, OackOpensWriter};
ghost use Rattle.tftp_ends.specs.WaitingRows.{WriterTakesNoOther, ErrorClosesWaiting};
ghost use Rattle.tftp_ends.specs.WaitingRows.{MalformedClosesWaiting};
ghost use Rattle.tftp_ends.specs.SharedRows.{WrongPeerIsRefused, ErrorOfWrongPeerIsNothing};
ghost use Rattle.tftp_ends.specs.SharedRows.{MalformedErrorClosesSender};
ghost use Rattle.tftp_ends.specs.SharedRows.{MalformedErrorClosesReceiver};
ghost use Rattle.tftp_ends.specs.SharedRows.{MalformedErrorClosesWaiting, TimeoutRetransmits};
ghost use Rattle.tftp_ends.specs.SharedRows.{LastTimeoutCloses, FirstDallyTimeoutIsCounted};
ghost use Rattle.tftp_ends.specs.SharedRows.{SecondDallyTimeoutCompletes};

use tftp_file::{Sink, Source};

/// Every run of an end is bounded, whatever its peer and others send, and however often it times
/// out.
///
/// A sender answers a datagram by DATA only with progress, and never by an OACK: a repeated ACK
/// causes neither (RFC 1123, section 4.2.3.1). It sends at most one DATA or OACK at its opening,
/// one for each step with progress and one for each timeout. There are at most 65,536 steps with
/// progress. An end that is still open has had at most `r * (p + 1) + 1` timeouts, for `r` retries
/// and `p` steps with progress. A step sends at most one datagram.
pub fn run_bounds<S: Source, K: Sink>()
    ensures progress { (e : EndState) (run : List Taken) → IsOpening e
        → IsRun S.meaning K.meaning e run
        → progress_count e run ≤ 65536 }
    ensures timeouts { (e : EndState) (run : List Taken) → IsOpening e
        → IsRun S.meaning K.meaning e run
        → IsOpen (end_after_run e run)
        → timeout_count run ≤ e.role.retries * (progress_count e run + 1) + 1 }
    ensures sent { (e : EndState) (run : List Taken) → IsOpening e
        → IsRun S.meaning K.meaning e run
        → is_sender e.role.side ≡ true
        → count_if (opened_by_data e) + data_count run
        ≤ 1 + progress_count e run + timeout_count run }
    ensures answers { (e : EndState) (run : List Taken) → IsOpening e
        → IsRun S.meaning K.meaning e run
        → IsOpen (end_after_run e run) → is_sender e.role.side ≡ true
        → AnswersByProgress S.meaning K.meaning (end_after_run e run) }
    ensures datagrams { (run : List Taken) → datagram_count run ≤ length run }
{}

/// Text that decodes, after the text held back before it, begins a wire text. It ends in a CR
/// exactly if a CR is then held back (RFC 764).
pub fn decoded_text()
    ensures begins { DecodedBegins }
    ensures ends { DecodedEnds }
{}

/// The sender's table: how it handles each packet from its peer (RFC 1350, sections 2 and 6; RFC
/// 1123, section 4.2.3.1).
pub fn sender_rows<S: Source, K: Sink>()
    ensures newest_ack { NewestAckSends S.meaning K.meaning }
    ensures last_ack { LastAckCompletes S.meaning K.meaning }
    ensures old_ack { OldAckIsNothing S.meaning K.meaning }
    ensures early_ack { EarlyAckIsIllegal S.meaning K.meaning }
    ensures error { ErrorClosesSender S.meaning K.meaning }
    ensures oack { OackAgainIsNothing S.meaning K.meaning }
    ensures others { SenderRefusesOthers S.meaning K.meaning }
    ensures malformed { SenderRefusesMalformed S.meaning K.meaning }
{}

/// The receiver's table: how it handles each packet from its peer (RFC 1350, sections 2 and 6).
pub fn receiver_rows<S: Source, K: Sink>()
    ensures dally_last { LastDataIsAckedAgain S.meaning K.meaning }
    ensures dally_others { DallyIgnoresOthers S.meaning K.meaning }
    ensures dally_malformed { DallyIgnoresMalformed S.meaning K.meaning }
    ensures newest_data { NewestDataIsAckedAgain S.meaning K.meaning }
    ensures old_data { OldDataIsNothing S.meaning K.meaning }
    ensures early_data { EarlyDataIsIllegal S.meaning K.meaning }
    ensures long_data { LongDataIsIllegal S.meaning K.meaning }
    ensures last_number { BlocksRunOut S.meaning K.meaning }
    ensures next_data { NextDataIsStored S.meaning K.meaning }
    ensures error { ErrorClosesReceiver S.meaning K.meaning }
    ensures oack { OackIsAckedAgain S.meaning K.meaning }
    ensures late_oack { LateOackIsNothing S.meaning K.meaning }
    ensures others { ReceiverRefusesOthers S.meaning K.meaning }
    ensures malformed { ReceiverRefusesMalformed S.meaning K.meaning }
{}

/// The table of a client that waits for its first answer: how it handles each packet from the
/// server's address (RFC 1350, section 4; RFC 2347, "Negotiation Protocol").
pub fn waiting_rows<S: Source, K: Sink>()
    ensures first_data { FirstDataIsStored S.meaning K.meaning }
    ensures reader_oack { OackOpensReader S.meaning K.meaning }
    ensures reader_others { ReaderTakesNoOther S.meaning K.meaning }
    ensures first_ack { FirstAckBegins S.meaning K.meaning }
    ensures writer_oack { OackOpensWriter S.meaning K.meaning }
    ensures writer_others { WriterTakesNoOther S.meaning K.meaning }
    ensures error { ErrorClosesWaiting S.meaning K.meaning }
    ensures malformed { MalformedClosesWaiting S.meaning K.meaning }
{}

/// The rows that the tables share: a datagram with a wrong transfer identifier, a malformed ERROR,
/// and a timeout, in a dally and elsewhere (RFC 1350, sections 2, 4, 6 and 7).
pub fn shared_rows<S: Source, K: Sink>()
    ensures wrong_peer { WrongPeerIsRefused S.meaning K.meaning }
    ensures error_of_wrong_peer { ErrorOfWrongPeerIsNothing S.meaning K.meaning }
    ensures error_at_sender { MalformedErrorClosesSender S.meaning K.meaning }
    ensures error_at_receiver { MalformedErrorClosesReceiver S.meaning K.meaning }
    ensures error_at_waiting { MalformedErrorClosesWaiting S.meaning K.meaning }
    ensures timeout { TimeoutRetransmits }
    ensures last_timeout { LastTimeoutCloses }
    ensures first_dally { FirstDallyTimeoutIsCounted }
    ensures second_dally { SecondDallyTimeoutCompletes }
{}
