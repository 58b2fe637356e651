//! Laws of an end and its peer, over the definitions alone.

ghost use Rattle.tftp_lives.specs.Outlasting.{EndsOutlastLoss};
ghost use Rattle.tftp_lives.specs.Unanswered.{EndsAnswer, EndsGiveUpUnanswered, EndsGiveUpUnheard};

use tftp_file::{Sink, Source};

/// An end gives up only for want of an answer: it sent its newest datagram once and for each retry;
/// if its peer handled a copy of it, then the peer is complete, or failed for another reason, or has
/// sent the answer, and no copy of that came. So where an end gives up, all copies of one datagram
/// were lost (RFC 1350, section 2).
pub fn an_end_gives_up_unanswered<S: Source, K: Sink, T: Source, L: Sink>()
    // an end has answered what it handled of its peer
    ensures answers { EndsAnswer S.meaning K.meaning }
    ensures unanswered { EndsGiveUpUnanswered S.meaning K.meaning T.meaning L.meaning }
    // and one without a peer handled nothing from the address that it asked
    ensures unheard { EndsGiveUpUnheard S.meaning K.meaning }
{}

/// Two ends outlast a loss that is bounded: if each datagram of one is handled by the other before
/// more than `limit` timeouts of the two have passed, or the other has closed by then, if both
/// answer before more than `slack` have, and both have at least `2 * limit + slack` retries, then
/// none of the two times out, but if the other is complete or failed for another reason (RFC 1350,
/// section 2).
pub fn an_end_outlasts_loss<S: Source, K: Sink, T: Source, L: Sink>()
    ensures { EndsOutlastLoss S.meaning K.meaning T.meaning L.meaning }
{}
