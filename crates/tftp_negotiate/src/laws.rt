//! Laws of negotiation, stated on the definitions alone.

ghost use Rattle.tftp_negotiate.specs.Laws.{NumbersArePrinted, EndsAgree, AnswersWithinRequest};
ghost use Rattle.tftp_negotiate.specs.Laws.{TakesNothingUnasked, AnswersMayBeAgreed};
ghost use Rattle.tftp_negotiate.specs.Laws.{TakenMayBeAgreed, AgreementsAreShort};
ghost use Rattle.tftp_negotiate.specs.Laws.{AgreementsHaveBlockSizes, KnownAreOptions};
ghost use Rattle.tftp_negotiate.specs.Laws.{AskedAreOptions, AnswersWhatIsKnown};
ghost use Rattle.tftp_negotiate.specs.Laws.{TooLargeForWrites, TakesWhatWasAsked};

/// A value is a number exactly if it is the decimal digits of a number below 2^64.
pub fn numbers_are_printed()
    ensures { NumbersArePrinted }
{}

/// A client accepts the server's answer to its request, option by option. So both ends agree on one
/// list, and with it on one block size and one timeout.
pub fn ends_agree()
    ensures { EndsAgree }
{}

/// A server answers no more than was requested, and no more than its limits allow.
pub fn answers_within_request()
    ensures { AnswersWithinRequest }
{}

/// An accepted OACK has no option that was not requested, and no value beyond the requested one.
pub fn takes_nothing_unasked()
    ensures { TakesNothingUnasked }
{}

/// If no option is repeated, a server answers each known option that the request may have, unless
/// it refuses a write as too large. A client accepts an OACK of answers within its request, and
/// agrees to each. So neither end drops an option.
pub fn drops_nothing()
    ensures answered { AnswersWhatIsKnown }
    ensures too_large { TooLargeForWrites }
    ensures taken { TakesWhatWasAsked }
{}

/// A server's answer and a client's result are agreements: their values are in range, and no name
/// is repeated (RFC 2347, "Negotiation Protocol"). An agreement has at most three options, and a
/// block size in range.
pub fn agreements()
    ensures answered { AnswersMayBeAgreed }
    ensures taken { TakenMayBeAgreed }
    ensures short { AgreementsAreShort }
    ensures sized { AgreementsHaveBlockSizes }
{}

/// Known options, and those that a client may request, are valid options of a packet; a known
/// option has at most 29 bytes (RFC 2347, "Packet Formats").
pub fn options_are_spelled()
    ensures known { KnownAreOptions }
    ensures asked { AskedAreOptions }
{}
