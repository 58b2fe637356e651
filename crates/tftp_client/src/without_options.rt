//! Whether to retry a transfer without options.

ghost use Rattle.std.specs.Prelude.{◌≡◌, ◌↔◌, IsTrue};
ghost use Rattle.tftp_client.specs.Fallback.{FallsBack};

use tftp_ends::{ErrorReply, Outcome};
use tftp_negotiate::Asked;

/// Whether to retry a transfer that ended so without options: some were asked, and the peer refused
/// them by ERROR 8 (RFC 2347).
pub fn fallback(outcome: Outcome, asked: &Asked) -> bool
    ensures { IsTrue result ↔ FallsBack outcome asked.now }
{
    outcome == Outcome::PeerError(ErrorReply::OptionRefused.code())
        && (asked.blksize.is_some() || asked.timeout.is_some() || asked.tsize.is_some())
}
