//! `tftp-play`: reads a script, and prints a line for each event.

ghost use Rattle.std.specs.Prelude.{◌≡◌, ◌≤◌, ◌⊎◌, true, false, IfErr, IfOk, IfSome, OnOk};
ghost use Rattle.tftp_play.specs.Play.{is_undrawn, is_unreadable};
ghost use Rattle.tftp_play.specs.declared.play.fault.PlayFault.TheVariants.{Memory};

mod datagram_line;
mod event_name;
mod fault;
mod script_run;
mod status;

use crate::recording::Recording;
use crate::script::{Script, Statement};
use datagram_line::DatagramLine;
pub(crate) use event_name::EventNames;
pub(crate) use fault::{PlayFault, Playing};
use script_run::{RecordedWorld, ScriptRun};
pub(crate) use status::status_after;
pub use status::status_of;
use std::alloc::Global;
use std::io::{self, BufWriter, Read, Write};
use tftp_diagram::{Diagram, svg_text};
use tftp_player::World;

/// A run over readers and writers, which have no names, as the specification has it.
pub(crate) const PLAIN: Playing<'static> = Playing {
    script: "the script",
    picture: "the picture",
};

/// A run that is over.
#[derive(Drop)]
pub(crate) struct Played {
    /// What it came to.
    pub(crate) world: World,
    /// The text of the picture, if there is to be one.
    svg: Option<String>,
}

/// Plays a script in a world of its own, and writes the effect of each event, and at the end the
/// record of each end.
///
/// The status is 0 if every client is complete, and 1 if not. It is 2, with a message on `errors`,
/// if the script cannot be read or has a faulty line, and then nothing is played; and if writing
/// fails or an allocation fails outside of an event.
pub fn play_run<R: Read + Drop, W: Write + Drop, E: Write + Drop>(
    alloc: Global,
    script: R,
    output: W,
    mut errors: E,
) -> u8
    ensures { result ≤ 2 }
{
    match read_script(alloc, script) {
        Ok(text) => {
            let outcome = play(alloc, text.as_slice(), output, None, EventNames::Hidden);
            status_after(outcome, PLAIN, text.as_slice(), &mut errors)
        }
        Err(fault) => fault.report(PLAIN, &[], &mut errors),
    }
}

/// As [`play_run`], and draws the run: a sequence diagram as SVG, on the writer that `picture`
/// opens after the run.
///
/// What is written on `output` is the same. The status is 2, with a message on `errors`, also if
/// the picture cannot be opened or written, or an allocation for it fails.
pub fn play_drawn<R, W, E, P, F>(
    alloc: Global,
    script: R,
    output: W,
    picture: F,
    mut errors: E,
) -> u8
where
    R: Read + Drop,
    W: Write + Drop,
    E: Write + Drop,
    P: Write + Drop,
    F: FnOnce() -> io::Result<P> + Drop,
    requires { F.IsAlwaysCallable picture }
    ensures { result ≤ 2 }
{
    match read_script(alloc, script) {
        Ok(text) => {
            let recording = Some(Recording::new(alloc));
            let outcome = play(
                alloc,
                text.as_slice(),
                output,
                recording,
                EventNames::Hidden,
            );
            let drawing = draw(&outcome, picture);
            status_after(
                outcome_after(outcome, drawing),
                PLAIN,
                text.as_slice(),
                &mut errors,
            )
        }
        Err(fault) => fault.report(PLAIN, &[], &mut errors),
    }
}

/// Writes the picture of a run, if it has one, on the writer that `picture` opens.
pub(crate) fn draw<P, F>(outcome: &Result<Played, PlayFault>, picture: F) -> Result<(), PlayFault>
where
    P: Write + Drop,
    F: FnOnce() -> io::Result<P> + Drop,
    requires { F.IsAlwaysCallable picture }
{
    let Ok(Played { svg: Some(svg), .. }) = outcome else {
        return Ok(());
    };
    match picture() {
        Ok(file) => write_picture(file, svg.as_str()),
        Err(error) => Err(PlayFault::of_drawing(&error)),
    }
}

/// What a run came to, after its picture was written or was not.
pub(crate) fn outcome_after(
    outcome: Result<Played, PlayFault>,
    drawing: Result<(), PlayFault>,
) -> Result<Played, PlayFault> {
    match drawing {
        Ok(()) => outcome,
        Err(fault) => Err(fault),
    }
}

/// What a run came to, with its picture if it was recorded.
fn finished(alloc: Global, recorded: RecordedWorld) -> Result<Played, PlayFault>
    ensures { IfOk result (λ played. played.world ≡ recorded.world) }
{
    let RecordedWorld { world, recording } = recorded;
    let Some(mut recording) = recording else {
        return Ok(Played { world, svg: None });
    };
    recording.name_sides(world.records());
    match picture_of(alloc, recording) {
        Ok(svg) => Ok(Played {
            world,
            svg: Some(svg),
        }),
        Err(fault) => Err(fault),
    }
}

/// The text of a picture.
fn picture_of(alloc: Global, mut recording: Recording) -> Result<String, PlayFault>
    ensures memory { IfErr result (λ fault. fault ≡ Memory) }
    ensures broken { OnOk result (recording.is_broken ≡ false) }
{
    if recording.is_broken {
        return Err(PlayFault::Memory);
    }
    match recording.describe() {
        Ok(()) => drawn(alloc, &recording.diagram),
        Err(_) => Err(PlayFault::Memory),
    }
}

/// A diagram as the text of an SVG file.
fn drawn(alloc: Global, diagram: &Diagram) -> Result<String, PlayFault>
    ensures memory { IfErr result (λ fault. fault ≡ Memory) }
{
    match svg_text(alloc, diagram) {
        Ok(svg) => Ok(svg),
        Err(_) => Err(PlayFault::Memory),
    }
}

/// Writes a picture.
fn write_picture<P: Write + Drop>(mut file: P, svg: &str) -> Result<(), PlayFault>
    ensures { IfErr result (λ fault. (fault ≡ Memory) ⊎ (is_undrawn fault ≡ true)) }
{
    match file.write_all(svg.as_bytes()) {
        Ok(()) => {}
        Err(error) => return Err(PlayFault::of_drawing(&error)),
    }
    match file.flush() {
        Ok(()) => Ok(()),
        Err(error) => Err(PlayFault::of_drawing(&error)),
    }
}

/// Plays a script, and returns what it came to.
pub(crate) fn play<W: Write + Drop>(
    alloc: Global,
    script: &[u8],
    output: W,
    recording: Option<Recording>,
    events: EventNames,
) -> Result<Played, PlayFault> {
    let (recorded, statements) = match opened(alloc, script, recording) {
        Ok(opened) => opened,
        Err(fault) => return Err(fault),
    };
    let output = match BufWriter::new(alloc, output) {
        Ok(output) => output,
        Err(error) => return Err(PlayFault::from(error)),
    };
    let mut run = ScriptRun {
        recorded,
        line: DatagramLine::new(alloc),
        output,
        events,
    };
    match run.execute_all(statements) {
        Ok(()) => finished(alloc, run.recorded),
        Err(error) => Err(PlayFault::from(error)),
    }
}

/// The world of a script, in which nothing has happened, and the statements of the script.
fn opened(
    alloc: Global,
    script: &[u8],
    recording: Option<Recording>,
) -> Result<(RecordedWorld, Vec<Statement>), PlayFault> {
    let Script {
        config,
        files,
        statements,
    } = match Script::parse(alloc, script) {
        Ok(script) => script,
        Err(fault) => return Err(PlayFault::from(fault)),
    };
    match World::new(alloc, files, config) {
        Ok(world) => Ok((RecordedWorld { world, recording }, statements)),
        Err(_) => Err(PlayFault::Memory),
    }
}

/// All bytes of a script.
pub(crate) fn read_script<R: Read + Drop>(
    alloc: Global,
    mut script: R,
) -> Result<Vec<u8>, PlayFault>
    ensures whole { IfOk result (λ text. IfSome (R.remaining script) (λ all. text.items ≡ all)) }
    ensures fault { IfErr result (λ fault. (fault ≡ Memory) ⊎ (is_unreadable fault ≡ true)) }
{
    let mut text = Vec::new(alloc);
    match script.read_to_end(&mut text) {
        Ok(_) => Ok(text),
        Err(error) => Err(PlayFault::of_reading(&error)),
    }
}
