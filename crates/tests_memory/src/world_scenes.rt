//! Scenes of a world: an ACK that arrives three times, two writes that race for one name, and a
//! read at a busy server.

ghost use Rattle.std.specs.Prelude.{IfOk, IfSome};
ghost use Rattle.tftp_player.specs.Arriving.{IsPlayable};

use crate::printed::{announce, append_bytes, has_returned, was_refused};
use anyhow::{Result, anyhow};
use std::alloc::{AllocError, Global};
use tftp_ends::Record;
use tftp_file::{Path, path_of};
use tftp_negotiate::Asked;
use tftp_player::{Event, Report, World, WorldFault};
use tftp_server::Config;
use tftp_wire::{Bytes, Mode};

/// A move of a scene.
#[derive(Clone, Copy)]
enum Move {
    /// A client requests to read the file `a`.
    Get,
    /// A client requests to write a file `n` of this byte.
    Put(u8),
    /// The datagram at this index is delivered.
    Deliver(usize),
    /// The scene prints its file.
    Look,
}

impl Move {
    /// The words that announce the move.
    fn words(self, alloc: Global) -> Result<String, AllocError> {
        match self {
            Move::Get => String::from_str(alloc, "get a"),
            Move::Put(byte) => format!(in alloc; "put n {byte:02x}"),
            Move::Deliver(index) => format!(in alloc; "deliver {index}"),
            Move::Look => String::from_str(alloc, "look"),
        }
    }

    fn is_announced(self, rt: &HostRuntime) -> Result<()> {
        let words = self.words(rt.alloc())?;
        announce(rt, &words)
    }

    /// The event of the move, if it has one.
    fn event(self, alloc: Global) -> Result<Option<Event>, AllocError>
        ensures playable { IfOk result (λ found. IfSome found (λ event. IsPlayable event)) }
    {
        match self {
            Move::Get => Ok(Some(Event::Get {
                name: Bytes::from_slice(alloc, b"a")?,
                mode: Mode::Octet,
                asked: Asked::default(),
            })),
            Move::Put(byte) => Ok(Some(Event::Put {
                name: Bytes::from_slice(alloc, b"n")?,
                mode: Mode::Octet,
                asked: Asked::default(),
                bytes: Bytes::from_slice(alloc, &[byte])?,
            })),
            Move::Deliver(index) => Ok(Some(Event::Deliver(index))),
            Move::Look => Ok(None),
        }
    }
}

/// RRQ, DATA 1, ACK 1, DATA 2; the ACK arrives twice more, and is ignored (RFC 1123, section
/// 4.2.3.1).
static REPEATED_ACK: [Move; 6] = [
    Move::Get,
    Move::Deliver(0),
    Move::Deliver(1),
    Move::Deliver(2),
    Move::Deliver(2),
    Move::Deliver(2),
];

/// Two writes of one name: the first commit succeeds, and the other is refused (RFC 1350, appendix
/// I).
static RACE: [Move; 13] = [
    Move::Put(0x41),
    Move::Deliver(0),
    Move::Put(0x42),
    Move::Deliver(2),
    Move::Deliver(1),
    Move::Deliver(3),
    Move::Look,
    Move::Deliver(4),
    Move::Look,
    Move::Deliver(5),
    Move::Deliver(7),
    Move::Deliver(6),
    Move::Look,
];

/// Two clients request a read from a server with one slot. The server refuses the second as busy,
/// and that client closes.
static BUSY: [Move; 5] = [
    Move::Get,
    Move::Get,
    Move::Deliver(0),
    Move::Deliver(1),
    Move::Deliver(3),
];

/// A world, and the name and path of the file that the scene prints.
#[derive(Drop)]
struct Played {
    alloc: Global,
    world: World,
    name: &'static str,
    path: Path,
}

/// A get of 1,024 bytes, of which DATA 1 is acknowledged three times.
pub(crate) fn play_repeated_ack(rt: &HostRuntime) -> Result<()> {
    println!(rt; "a repeated ACK")?;
    let mut bytes = Vec::from_elem(rt.alloc(), 0x61, 512)?;
    bytes.extend_from_slice(&[0x62; 512])?;
    play(rt, 16, bytes, "a", &REPEATED_ACK)
}

/// Two puts of one name.
pub(crate) fn play_race(rt: &HostRuntime) -> Result<()> {
    println!(rt; "a race for a name")?;
    let bytes = Vec::from_slice(rt.alloc(), b"ABC")?;
    play(rt, 16, bytes, "n", &RACE)
}

/// Two gets at a server with one slot.
pub(crate) fn play_busy(rt: &HostRuntime) -> Result<()> {
    println!(rt; "a busy server")?;
    let bytes = Vec::from_slice(rt.alloc(), b"ABC")?;
    play(rt, 1, bytes, "a", &BUSY)
}

/// Runs a scene of a world whose file `a` has these bytes, and prints the state after it.
fn play(
    rt: &HostRuntime,
    cap: u8,
    bytes: Vec<u8>,
    name: &'static str,
    moves: &[Move],
) -> Result<()> {
    let mut played = played_of(rt.alloc(), cap, bytes, name)?;
    let done = played.plays(rt, moves);
    drop(played);
    done
}

/// A world whose server has so many slots, and whose file `a` has these bytes.
fn played_of(alloc: Global, cap: u8, bytes: Vec<u8>, name: &'static str) -> Result<Played> {
    let mut config = Config::default();
    config.cap = cap;
    if !config.is_valid() {
        return Err(anyhow!("no valid configuration"));
    }
    let path = path_of(alloc, name.as_bytes())?;
    let files = vec![in alloc; (path_of(alloc, b"a")?, bytes)]?;
    match World::new(alloc, files, config) {
        Ok(world) => Ok(Played {
            alloc,
            world,
            name,
            path,
        }),
        Err(fault) => Err(fault.into()),
    }
}

impl Played {
    /// Makes the moves, and prints the state after them.
    fn plays(&mut self, rt: &HostRuntime, moves: &[Move]) -> Result<()> {
        for &next in moves {
            self.does(rt, next)?;
        }
        print!(rt; "{}", self.seen()?)?;
        Ok(())
    }

    /// Makes the next move, and again if it was out of memory.
    fn does(&mut self, rt: &HostRuntime, next: Move) -> Result<()> {
        let before = self.seen()?;
        let done = self.makes(rt, next, &before);
        drop(before);
        done
    }

    /// Announces and makes a move, before which the state was so.
    fn makes(&mut self, rt: &HostRuntime, next: Move, before: &str) -> Result<()> {
        match next.event(self.alloc)? {
            Some(event) => {
                next.is_announced(rt)?;
                let answer = self.world.apply(event);
                has_returned(rt)?;
                match answer {
                    Err(WorldFault::Memory) => {
                        was_refused(rt, before, &self.seen()?)?;
                        self.does_again(rt, next)
                    }
                    answer => prints(rt, answer?),
                }
            }
            None => self.prints_file(rt),
        }
    }

    /// Prints the file.
    fn prints_file(&self, rt: &HostRuntime) -> Result<()> {
        let file = self.file()?;
        println!(rt; "{file}")?;
        Ok(())
    }

    /// Makes the same move again.
    fn does_again(&mut self, rt: &HostRuntime, next: Move) -> Result<()> {
        match next.event(self.alloc)? {
            Some(event) => prints(rt, self.world.apply(event)?),
            None => Ok(()),
        }
    }

    /// The file.
    fn file(&self) -> Result<String> {
        let mut text = String::new(self.alloc);
        match self.append_file(&mut text) {
            Ok(()) => Ok(text),
            Err(error) => Err(error),
        }
    }

    fn append_file(&self, text: &mut String) -> Result<()> {
        write!(text, "{} ", self.name)?;
        match self.world.file(&self.path) {
            Some(bytes) => append_bytes(text, bytes)?,
            None => text.push_str("is not there")?,
        }
        Ok(())
    }

    /// The visible state of the world: the datagrams sent, each end and the bytes that it stored,
    /// the file.
    fn seen(&self) -> Result<String> {
        let mut text = String::new(self.alloc);
        match self.append_state(&mut text) {
            Ok(()) => Ok(text),
            Err(error) => Err(error),
        }
    }

    fn append_state(&self, text: &mut String) -> Result<()> {
        for (index, sent) in self.world.sent().iter().enumerate() {
            write!(text, "#{index} {} > {} ", sent.from, sent.to)?;
            append_bytes(text, sent.bytes.as_slice())?;
            text.push('\n')?;
        }
        for (port, record) in self.world.records() {
            self.append_end(text, *port, record)?;
        }
        self.append_file(text)?;
        text.push('\n')?;
        Ok(())
    }

    /// Appends an end, and the bytes that it stored.
    fn append_end(&self, text: &mut String, port: u16, record: &Record) -> Result<()> {
        write!(text, "{port} {record:?}")?;
        if let Some(stored) = self.world.stored(port) {
            text.push_str(" stored ")?;
            append_bytes(text, stored)?;
        }
        if self.world.committed(port) {
            text.push_str(" committed")?;
        }
        text.push('\n')?;
        Ok(())
    }
}

/// Prints the report of an event.
fn prints(rt: &HostRuntime, report: Report) -> Result<()> {
    match (report.added, report.closed) {
        (Some(index), Some((port, outcome))) => {
            println!(rt; "#{index}, closed {port} {outcome}")?;
        }
        (Some(index), None) => println!(rt; "#{index}")?,
        (None, Some((port, outcome))) => println!(rt; "closed {port} {outcome}")?,
        (None, None) => println!(rt; "nothing")?,
    }
    Ok(())
}
