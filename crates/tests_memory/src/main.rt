//! Five scenes whose calls allocate memory, and reads between two ends. It announces each call of a
//! scene, and prints its result and the state after it; of the reads it prints the number of blocks.
//!
//! `tests/memory` runs the scenes once for each allocation of a call, with that one
//! refused. The call then has to return that it is out of memory and to leave the state unchanged,
//! and the same call again has to give its row. With three words, the block size and the file's
//! length in bytes and the number of reads, it plays such reads alone: `make bench` measures them.
#![tactic(auto)]

mod netascii_scene;
mod options_scene;
mod printed;
mod speed;
mod world_scenes;

use anyhow::{Result, anyhow};
use std::env;
use std::process::ExitCode;

fn main(rt: HostRuntime) -> ExitCode {
    match play_words(&rt) {
        Ok(()) => ExitCode::SUCCESS,
        Err(_) => ExitCode::FAILURE,
    }
}

/// Plays what the words ask for.
fn play_words(rt: &HostRuntime) -> Result<()> {
    let mut words = env::args(rt)?;
    let _ = words.next();
    let Some(size) = words.next() else {
        return play_all(rt);
    };
    let (size, length) = (number(Some(size))?, number(words.next())?);
    let rounds = number(words.next())?;
    let Ok(size) = u16::try_from(size) else {
        return Err(anyhow!("no block size"));
    };
    speed::play(rt, size, length, rounds)
}

/// The number in a word.
fn number(word: Option<String>) -> Result<usize> {
    match word.and_then(|word| word.parse().ok()) {
        Some(number) => Ok(number),
        None => Err(anyhow!("no number")),
    }
}

/// Plays all five, and two reads.
fn play_all(rt: &HostRuntime) -> Result<()> {
    options_scene::play(rt)?;
    netascii_scene::play(rt)?;
    world_scenes::play_repeated_ack(rt)?;
    world_scenes::play_race(rt)?;
    world_scenes::play_busy(rt)?;
    speed::play(rt, 512, 1024, 2)
}
