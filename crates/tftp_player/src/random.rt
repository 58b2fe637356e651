//! Events drawn at random.

ghost use Rattle.std.specs.Prelude.{◌≡◌, IfSome};
ghost use Rattle.rand_pcg.specs.Pcg.{pcg32};
ghost use Rattle.tftp_player.specs.Draw.{drawn, words_drawn};
ghost use Rattle.tftp_player.specs.Arriving.{IsPlayable};

use crate::event::Event;
use crate::world::World;
use rand_core::utils::NextWord;
use rand_pcg::Pcg32;

/// Draws an event: in six cases of eight the delivery of any datagram that was sent, else a timeout
/// of any end that was opened.
///
/// It draws two words, the second of which chooses the datagram or the end. If no end was opened it
/// returns none, and draws no word. It does not allocate.
pub fn draw(rng: &mut Pcg32, world: &World) -> Option<Event>
    ensures event { result ≡ drawn world.now.state (pcg32 rng.old).0
        (pcg32 (pcg32 rng.old).1).0 }
    ensures playable { IfSome result (λ event. IsPlayable event) }
    ensures words { rng.new ≡ words_drawn world.now.state rng.old }
{
    let sent = world.sent();
    let records = world.records();
    if records.is_empty() {
        return None;
    }
    let kind = rng.next_word();
    let index = rng.next_word() as usize;
    if kind % 8 < 6 {
        return Some(Event::Deliver(index % sent.len()));
    }
    let (port, _) = records[index % records.len()];
    Some(Event::Timeout(port))
}
