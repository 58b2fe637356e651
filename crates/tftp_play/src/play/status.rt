//! The status of a run.

ghost use Rattle.std.specs.Prelude.{◌≡◌, ◌≤◌, IfErr, IfOk};
ghost use Rattle.std.specs.List.{list_all};
ghost use Rattle.tftp_play.specs.Status.{is_done, run_status};
ghost use Rattle.tftp_player.specs.Played.{records_from};

use crate::play::Played;
use crate::play::fault::{PlayFault, Playing};
use std::io::Write;
use tftp_ends::Record;
use tftp_player::World;

/// The status of `tftp-play` for what a run came to: 0 if every client is complete, and 1 if not.
pub fn status_of(world: &World) -> u8
    ensures { result ≡ run_status (records_from 1024 world.now.state.ends) }
{
    if are_done(world.records()) { 0 } else { 1 }
}

/// The status of a run, with a message on `errors` if it failed.
pub(crate) fn status_after<E: Write>(
    outcome: Result<Played, PlayFault>,
    how: Playing<'_>,
    script: &[u8],
    errors: &mut E,
) -> u8
    ensures ok { IfOk outcome (λ played. result
        ≡ run_status (records_from 1024 played.world.state.ends)) }
    ensures err { IfErr outcome (λ fault. result ≡ 2) }
    ensures bound { result ≤ 2 }
{
    match outcome {
        Ok(played) => status_of(&played.world),
        Err(fault) => fault.report(how, script, errors),
    }
}

fn are_done(records: &[(u16, Record)]) -> bool
    ensures { result ≡ list_all is_done records.now }
{
    records.iter().all(|entry| is_done(entry))
}

/// Whether an end is the server's, or a client that is complete.
fn is_done(entry: &(u16, Record)) -> bool
    ensures { result ≡ is_done entry.now }
{
    let (_, record) = entry;
    record.complete || !record.side.is_client()
}
