//! Ends whose file fails during a transfer, in blocks of eight bytes (RFC 2348). The ERRORs are
//! those of RFC 1350, section 5 and appendix I.

ghost use Rattle.std.specs.Prelude.{◌<◌};

use crate::expect::expect_equal;
use crate::open_end::{
    ACK_0, ACK_1, ACK_2, CLIENT, CONFIG, DISK_FULL, EIGHT, Gives, OACK_8, Opening, PROGRESS, RRQ_8,
    SERVER_END, STORE_FAULT, WHOLE, open,
};
use std::alloc::Global;
use std::process::Abort;
use tftp_ends::{Endpoint, Outcome};
use tftp_wire::Mode;

const ACK_3: &[u8] = b"\x00\x04\x00\x03";

const ACK_4: &[u8] = b"\x00\x04\x00\x04";

/// A file of five blocks: four full ones, and one of four bytes.
const FILE: &[u8] = b"aaaaaaaabbbbbbbbccccccccddddddddeeee";

/// The first twenty bytes of it.
const TWENTY: &[u8] = b"aaaaaaaabbbbbbbbcccc";

/// The datagrams that request its blocks from a server's end, and the blocks.
const SERVED: &[(&[u8], &[u8]); 5] = &[
    (ACK_0, b"\x00\x03\x00\x01aaaaaaaa"),
    (ACK_1, b"\x00\x03\x00\x02bbbbbbbb"),
    (ACK_2, b"\x00\x03\x00\x03cccccccc"),
    (ACK_3, b"\x00\x03\x00\x04dddddddd"),
    (ACK_4, b"\x00\x03\x00\x05eeee"),
];

/// 36 letters: four full blocks of eight bytes, and one of four bytes.
const LETTERS: &[u8] = b"ABCDEFGHIJKLMNOPQRSTUVWXYZabcdefghij";

/// The datagrams that request their blocks from a client, and the blocks.
const WRITTEN: &[(&[u8], &[u8]); 5] = &[
    (OACK_8, b"\x00\x03\x00\x01ABCDEFGH"),
    (ACK_1, b"\x00\x03\x00\x02IJKLMNOP"),
    (ACK_2, b"\x00\x03\x00\x03QRSTUVWX"),
    (ACK_3, b"\x00\x03\x00\x04YZabcdef"),
    (ACK_4, b"\x00\x03\x00\x05ghij"),
];

/// A sender, its peer, and the requests of its blocks.
type Sender = (
    Opening,
    Endpoint,
    &'static [(&'static [u8], &'static [u8]); 5],
);

/// A server's end, and a client that writes.
static SENDERS: [Sender; 2] = [
    (
        Opening::ServeRead(RRQ_8, Mode::Octet, 36, FILE),
        CLIENT,
        SERVED,
    ),
    (
        Opening::Put(36, LETTERS, EIGHT, CONFIG),
        SERVER_END,
        WRITTEN,
    ),
];

static OF_TWENTY: Sender = (
    Opening::ServeRead(RRQ_8, Mode::Octet, 20, TWENTY),
    CLIENT,
    SERVED,
);

const FILE_CHANGED: &[u8] = b"\x00\x05\x00\x00file changed\x00";

/// The source gives `sent` blocks and then so many bytes, and ends or fails. The end sends ERROR 0
/// `file changed`, and its number stays.
fn breaks_off(rt: &impl Abort, alloc: Global, sender: &Sender, sent: usize, gives: Gives)
    requires { sent < 5 }
{
    let (opening, from, turns) = sender;
    let mut end = open(rt, alloc, opening, gives).expect(rt, "a sender");
    for &(asks, block) in &turns[..sent] {
        end.answers(rt, ("no fault", asks), *from, block, PROGRESS);
    }
    // the first answer to a client makes its peer known
    let is_progress = sent == 0 && *from == SERVER_END;
    let then = Ok((is_progress, Some(Outcome::SourceFault)));
    let asks = turns[sent].0;
    end.answers(rt, ("a source fault", asks), *from, FILE_CHANGED, then);
    let number = usize::from(end.as_end().record().number);
    expect_equal(rt, &number, &sent, "the blocks sent");
    end.finish();
}

/// Bytes of the block at which a source ends or fails, and whether it fails.
static CUTS: [(u64, bool); 4] = [(0, false), (0, true), (3, false), (3, true)];

fn breaks_off_at_each_block(rt: &impl Abort, alloc: Global, sender: &Sender) {
    for sent in 0..5 {
        for &(more, then_fails) in &CUTS {
            let bytes = 8 * sent as u64 + more;
            breaks_off(rt, alloc, sender, sent, Gives { bytes, then_fails });
        }
    }
}

#[test]
fn a_source_breaks_off(rt: HostRuntime) {
    for sender in &SENDERS {
        breaks_off_at_each_block(&rt, rt.alloc(), sender);
    }
    let gives = Gives {
        bytes: 16,
        then_fails: false,
    };
    breaks_off(&rt, rt.alloc(), &OF_TWENTY, 2, gives);
}

/// A server's end that receives blocks of eight bytes.
const RECEIVER: Opening = Opening::ServeWrite(RRQ_8, false);

/// The blocks of the file, and their ACKs.
static STORED: [(&[u8], &[u8]); 5] = [
    (b"\x00\x03\x00\x01aaaaaaaa", ACK_1),
    (b"\x00\x03\x00\x02bbbbbbbb", ACK_2),
    (b"\x00\x03\x00\x03cccccccc", ACK_3),
    (b"\x00\x03\x00\x04dddddddd", ACK_4),
    (b"\x00\x03\x00\x05eeee", b"\x00\x04\x00\x05"),
];

/// `stored` blocks are stored, and then the sink refuses the call for the next one.
fn is_full(rt: &impl Abort, alloc: Global, stored: usize, next: &[u8])
    requires { stored < 5 }
{
    let mut end = open(rt, alloc, &RECEIVER, WHOLE).expect(rt, "a receiver");
    for at in 0..stored {
        let (data, ack) = STORED[at];
        end.answers(rt, ("no fault", data), CLIENT, ack, PROGRESS);
    }
    end.set_sink();
    end.answers(rt, ("a full sink", next), CLIENT, DISK_FULL, STORE_FAULT);
    let number = usize::from(end.as_end().record().number);
    expect_equal(rt, &number, &stored, "the blocks stored");
    end.holds(rt, &FILE[..8 * stored], false, "what is stored");
    end.finish();
}

/// The sink refuses the append of a block with bytes. For an empty block, the last of a file of
/// full blocks, it refuses the commit.
#[test]
fn a_write_is_refused_at_each_block(rt: HostRuntime) {
    for stored in 0..5 {
        is_full(&rt, rt.alloc(), stored, STORED[stored].0);
    }
    is_full(&rt, rt.alloc(), 2, b"\x00\x03\x00\x03");
    is_full(&rt, rt.alloc(), 4, b"\x00\x03\x00\x05");
}
