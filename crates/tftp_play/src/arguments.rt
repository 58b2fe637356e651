//! The command line of `tftp-play`.

ghost use Rattle.std.specs.Prelude.{◌≤◌};

use crate::play::{
    EventNames, PLAIN, PlayFault, Played, Playing, draw, outcome_after, play, read_script,
    status_after,
};
use crate::recording::Recording;
use clap::{Arg, ArgMatches, Command};
use std::alloc::{AllocError, Global};
use std::convert::AsStr;
use std::io::Write;
use std::rt::Runtime;
use std::{fs, io};
use tftp_arguments::{VERSION, flag, own_words, print_usage, print_words_fault};

/// Runs `tftp-play` with the program's own command line, and returns its status. `errors` is
/// standard error.
///
/// See [`play_words`].
pub fn play_command<R: Runtime + AllocGlobal, E: Write + Drop>(rt: &R, errors: E) -> u8
    ensures { result ≤ 2 }
{
    match own_words(rt) {
        Ok(words) => play_words(rt, words.as_slice(), errors),
        Err(fault) => print_words_fault(rt, "tftp-play", fault),
    }
}

/// Runs `tftp-play` with a command line, and returns its status. The first word is the program's
/// name. The script is the file that the second names, or standard input; `errors` is standard
/// error.
///
/// `--help` and `--version` print and return 0. A faulty command line and a script that cannot be
/// opened or read are reported on standard error with status 2. Out of memory is status 2 too.
pub fn play_words<R: Runtime + AllocGlobal, S: AsStr, E: Write + Drop>(
    rt: &R,
    words: &[S],
    mut errors: E,
) -> u8
    ensures { result ≤ 2 }
{
    let Ok(command) = play_syntax(rt.alloc()) else {
        return PlayFault::Memory.report(PLAIN, &[], &mut errors);
    };
    match command.try_get_matches_from(words) {
        Ok(matches) => play_matches(rt, &matches, &mut errors),
        Err(error) => print_usage(rt, &error),
    }
}

/// The command line of `tftp-play`.
fn play_syntax<'a>(alloc: Global) -> Result<Command<'a>, AllocError> {
    let script = Arg::new(alloc, "SCRIPT").help("The script; standard input if there is none");
    let svg = Arg::new(alloc, "svg")
        .long("svg")
        .value_name("FILE")
        .help("Draws the run as a sequence diagram into this file");
    let events = flag(alloc, "events", "Prints the event beside each -");
    let arguments = vec![in alloc; script, svg, events]?;
    Command::new(alloc, "tftp-play")
        .about("Plays a script of TFTP transfers over a lossy network in memory")
        .version(VERSION)
        .args(arguments)
}

/// Plays a script on standard output, and draws the run, as a command line says.
fn play_matches<R: Runtime + AllocGlobal, E: Write>(
    rt: &R,
    matches: &ArgMatches<'_>,
    errors: &mut E,
) -> u8
    ensures { result ≤ 2 }
{
    let path = matches.get_str("SCRIPT");
    let svg = matches.get_str("svg");
    let events = if matches.get_flag("events") {
        EventNames::Shown
    } else {
        EventNames::Hidden
    };
    let how = Playing {
        script: path.unwrap_or("standard input"),
        picture: svg.unwrap_or("the picture"),
    };
    match script_text(rt, path) {
        Ok(text) => {
            let outcome = outcome_of(rt, text.as_slice(), svg, events);
            status_after(outcome, how, text.as_slice(), errors)
        }
        Err(fault) => fault.report(how, &[], errors),
    }
}

/// All bytes of the script in the file at the path, or on standard input.
fn script_text<R: Runtime + AllocGlobal>(rt: &R, path: Option<&str>) -> Result<Vec<u8>, PlayFault> {
    let Some(path) = path else {
        return read_script(rt.alloc(), rt.reader());
    };
    match fs::open(rt, path) {
        Ok(script) => read_script(rt.alloc(), script),
        Err(error) => Err(PlayFault::of_reading(&error)),
    }
}

/// Plays a script on standard output, draws the run into the file at the path, if any, and returns
/// what it came to.
fn outcome_of<R: Runtime + AllocGlobal>(
    rt: &R,
    script: &[u8],
    svg: Option<&str>,
    events: EventNames,
) -> Result<Played, PlayFault> {
    let output = io::writer(rt);
    let Some(path) = svg else {
        return play(rt.alloc(), script, output, None, events);
    };
    let recording = Some(Recording::new(rt.alloc()));
    let outcome = play(rt.alloc(), script, output, recording, events);
    let drawing = draw(&outcome, || fs::create(rt, path));
    outcome_after(outcome, drawing)
}
