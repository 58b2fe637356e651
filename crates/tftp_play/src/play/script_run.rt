//! The run of a script: its statements are events of a world, and their effects are printed.

ghost use Rattle.std.specs.Prelude.{◌≡◌, true};
ghost use Rattle.tftp_player.specs.Arriving.{IsPlayable};

use crate::play::datagram_line::DatagramLine;
use crate::play::event_name::{EventName, EventNames};
use crate::recording::Recording;
use crate::script::Statement;
use rand_core::SeedableRng;
use rand_pcg::Pcg32;
use std::io::{self, BufWriter, Write};
use tftp_ends::{Record, Side};
use tftp_player::{Event, Report, World, WorldFault, draw};

/// The most deliveries of one `settle`.
const MAX_SETTLED: usize = 1_000_000;

/// A world whose events are recorded if there is to be a picture.
#[derive(Drop)]
pub(crate) struct RecordedWorld {
    pub(crate) world: World,
    /// The recording, if there is to be a picture.
    pub(crate) recording: Option<Recording>,
}

impl RecordedWorld {
    /// Plays an event, and records its effect.
    fn apply(&mut self, event: Event) -> Result<Report, WorldFault>
        requires { IsPlayable event }
    {
        let Some(recording) = &mut self.recording else {
            return self.world.apply(event);
        };
        let cause = recording.cause_of(&event);
        let effect = self.world.apply(event);
        if let Ok(report) = &effect {
            recording.add(cause, report, &self.world);
        }
        effect
    }

    /// Records a comment.
    fn comment(&mut self, text: &[u8]) {
        if let Some(recording) = &mut self.recording {
            recording.comment(text);
        }
    }
}

/// A script that runs: its world, and the output for its events.
#[derive(Drop)]
pub(crate) struct ScriptRun<W: Write + Drop> {
    pub(crate) recorded: RecordedWorld,
    pub(crate) line: DatagramLine,
    pub(crate) output: BufWriter<W>,
    /// Whether `-` has its event beside it.
    pub(crate) events: EventNames,
}

impl<W: Write + Drop> ScriptRun<W> {
    /// Executes statements one after another, and writes their effects, and then the record of each
    /// end.
    pub(crate) fn execute_all(&mut self, statements: Vec<Statement>) -> io::Result<()> {
        for statement in statements {
            self.execute(statement)?;
        }
        self.finish()
    }

    /// Executes a statement, and writes its effect.
    fn execute(&mut self, statement: Statement) -> io::Result<()> {
        match statement {
            Statement::Event(playable) => self.play(playable.into_event()),
            Statement::Settle(index) => self.settle(index),
            Statement::Random { seed, count } => self.play_drawn(seed, count),
            Statement::Comment(text) => {
                self.recorded.comment(text.as_slice());
                Ok(())
            }
        }
    }

    /// Plays an event, and writes its effect.
    fn play(&mut self, event: Event) -> io::Result<()>
        requires { IsPlayable event }
    {
        let name = EventName::of(&event);
        match self.recorded.apply(event) {
            Ok(report) => self.write_report(name, &report),
            Err(fault) => writeln!(self.output, "refused {fault:?}"),
        }
    }

    /// Plays `count` events that the generator of this seed draws, none if no end was opened.
    fn play_drawn(&mut self, seed: u64, count: u64) -> io::Result<()> {
        let mut rng = Pcg32::seed_from_u64(seed);
        for _ in 0..count {
            if let Some(event) = draw(&mut rng, &self.recorded.world) {
                self.play(event)?;
            }
        }
        Ok(())
    }

    /// Writes the record of each end.
    fn finish(&mut self) -> io::Result<()>
        ensures { self.new.recorded.world ≡ self.old.recorded.world }
    {
        for (port, record) in self.recorded.world.records() {
            write_end(&mut self.output, *port, record)?;
        }
        self.output.flush()
    }

    /// Delivers the datagrams from this index on, until none is left or one is refused.
    fn settle(&mut self, from: usize) -> io::Result<()> {
        for index in from..from.saturating_add(MAX_SETTLED) {
            match self.recorded.apply(Event::Deliver(index)) {
                Ok(report) => self.write_report(EventName::Deliver(index), &report)?,
                Err(WorldFault::NoSuchDatagram) => return Ok(()),
                Err(fault) => return writeln!(self.output, "refused {fault:?}"),
            }
        }
        Ok(())
    }

    fn write_report(&mut self, name: EventName, report: &Report) -> io::Result<()> {
        if let Some(index) = report.added {
            self.write_datagram(index)?;
        }
        match report.closed {
            Some((port, outcome)) => writeln!(self.output, "closed {port} {outcome}"),
            None if report.added.is_none() => self.write_silence(name),
            None => Ok(()),
        }
    }

    /// Writes that an event sent nothing and closed no end.
    fn write_silence(&mut self, name: EventName) -> io::Result<()> {
        match self.events {
            EventNames::Hidden => writeln!(self.output, "-"),
            EventNames::Shown => writeln!(self.output, "- {name}"),
        }
    }

    fn write_datagram(&mut self, index: usize) -> io::Result<()> {
        let Some(datagram) = self.recorded.world.sent().get(index) else {
            return Ok(());
        };
        self.output.write_all(self.line.show(index, datagram)?)
    }
}

/// Writes the record of an end.
fn write_end<W: Write>(output: &mut W, port: u16, record: &Record) -> io::Result<()> {
    let side = side_word(record.side);
    match record.peer {
        Some(peer) => write!(output, "end {port} {side} peer={}", peer.port)?,
        None => write!(output, "end {port} {side} peer=none")?,
    }
    let size = record.size;
    let number = record.number;
    let complete = if record.complete { "yes" } else { "no" };
    match record.outcome {
        Some(outcome) => writeln!(
            output,
            " size={size} number={number} complete={complete} {outcome}"
        ),
        None => writeln!(
            output,
            " size={size} number={number} complete={complete} open"
        ),
    }
}

/// The word for a side.
fn side_word(side: Side) -> &'static str {
    match side {
        Side::ClientRead => "client-read",
        Side::ClientWrite => "client-write",
        Side::ServerRead => "server-read",
        Side::ServerWrite => "server-write",
    }
}
