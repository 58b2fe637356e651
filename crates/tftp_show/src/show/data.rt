//! The line of a DATA in digits. It has the number of the block and its length, so the bytes of the
//! block are not decoded.

ghost use Rattle.std.specs.Prelude.{◌≡◌, IfSome, is_ok, true};
ghost use Rattle.hex.specs.Hex.{decode_of};
ghost use Rattle.tftp_show.specs.Data.{IsShownAs};

use crate::show::digits::byte_of;
use tftp_flow::DataLine;
use tftp_wire::MAX_BLOCK;

/// The opcode of a DATA, in digits.
const OPCODE: &[u8] = b"0003";

/// The line of the DATA that these digits spell; `None` if they spell no DATA.
pub(crate) fn line_of_data(digits: &[u8]) -> Option<DataLine>
    requires { is_ok (decode_of digits.now) ≡ true }
    ensures { IfSome result (λ line. IsShownAs digits.now line.block line.length) }
{
    let [first, second, third, fourth, bytes @ ..] = digits.strip_prefix(OPCODE)? else {
        return None;
    };
    let block = u16::from(byte_of(*first, *second)) * 256 + u16::from(byte_of(*third, *fourth));
    let length = bytes.len() / 2;
    if block == 0 || length > usize::from(MAX_BLOCK) {
        return None;
    }
    Some(DataLine { block, length })
}
