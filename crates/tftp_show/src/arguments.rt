//! The command line of `tftp-show`.

ghost use Rattle.std.specs.Prelude.{◌≤◌};

use crate::run::{drawn, shown};
use crate::show::ShowFault;
use crate::task::{Style, Task};
use clap::{Arg, ArgMatches, Command, value_parser};
use std::alloc::{AllocError, Global};
use std::convert::AsStr;
use std::fs;
use std::io::{self, Read, Write};
use std::rt::Runtime;
use tftp_arguments::{VERSION, flag, number, own_words, print_usage, print_words_fault};

const EXAMPLES: &str = "\
The packets of a capture, a line each:
  tftp-show boot.pcap
What happened in each transfer of a capture, and of what is captured now:
  tftp-show --flow boot.pcap
  tcpdump -i eth0 -U -w - udp | tftp-show --follow
The fields of a capture that tshark wrote are read too:
  tshark -r FILE -Y 'tftp and not icmp' -T fields -e frame.time_relative -e ip.src \\
    -e udp.srcport -e ip.dst -e udp.dstport -e udp.payload | tftp-show --flow";

/// Runs `tftp-show` with the program's own command line, and returns its status. `errors` is
/// standard error.
///
/// See [`show_words`].
pub fn show_command<R: Runtime + AllocGlobal, E: Write + Drop>(rt: &R, errors: E) -> u8
    ensures { result ≤ 2 }
{
    match own_words(rt) {
        Ok(words) => show_words(rt, words.as_slice(), errors),
        Err(fault) => print_words_fault(rt, "tftp-show", fault),
    }
}

/// Runs `tftp-show` over a file, or over standard input, with a command line, and returns its status.
/// The first word is the program's name; `errors` is standard error.
///
/// `--help` and `--version` print and return 0. A faulty command line is reported on standard error
/// with status 2, as is the [`ShowFault`] of a run.
pub fn show_words<R: Runtime + AllocGlobal, S: AsStr, E: Write + Drop>(
    rt: &R,
    words: &[S],
    mut errors: E,
) -> u8
    ensures { result ≤ 2 }
{
    let Ok(command) = show_syntax(rt.alloc()) else {
        return ShowFault::Memory.report(&mut errors);
    };
    match command.try_get_matches_from(words) {
        Ok(matches) => show_matched(rt, &matches, errors),
        Err(error) => print_usage(rt, &error),
    }
}

/// The command line of `tftp-show`: what is read, how it is printed, and of what it is printed or
/// drawn.
fn show_syntax<'a>(alloc: Global) -> Result<Command<'a>, AllocError> {
    let svg = svg(alloc)?;
    let arguments = vec![in alloc;
        Arg::new(alloc, "FILE").help("A capture, or lines; standard input if there is none"),
        flag(
            alloc,
            "flow",
            "Prints what happened in each transfer, when it is over"
        ),
        flag(
            alloc,
            "follow",
            "Prints a line as a transfer begins, and one as it ends"
        ),
        flag(
            alloc,
            "json",
            "Prints an object of JSON for each transfer, when it is over"
        ),
        svg,
        transfer(alloc),
        port(alloc),
    ]?;
    Command::new(alloc, "tftp-show")
        .about("Prints TFTP datagrams of a capture, or of lines of hexadecimal digits")
        .version(VERSION)
        .after_help(EXAMPLES)
        .args(arguments)
}

/// The argument for the file into which a transfer is drawn.
fn svg<'a>(alloc: Global) -> Result<Arg<'a>, AllocError> {
    let svg = Arg::new(alloc, "svg")
        .long("svg")
        .value_name("FILE")
        .help("Draws a transfer as a sequence diagram into this file");
    svg.requires_arg("flow")
}

/// The argument for the number of a transfer.
fn transfer<'a>(alloc: Global) -> Arg<'a> {
    number(
        alloc,
        "transfer",
        "N",
        value_parser!(u32).range(1..),
        "The transfer that is drawn or alone printed, by its number in the report",
    )
}

/// The argument for the port of requests.
fn port<'a>(alloc: Global) -> Arg<'a> {
    number(
        alloc,
        "port",
        "1-65535",
        value_parser!(u16).range(1..),
        "The port of requests in a capture [default: 69]",
    )
}

/// Shows packets, or the transfers of a capture.
fn show_matched<R: Runtime + AllocGlobal, E: Write + Drop>(
    rt: &R,
    matches: &ArgMatches<'_>,
    mut errors: E,
) -> u8
    ensures { result ≤ 2 }
{
    let Some(path) = matches.get_str("FILE") else {
        return show_source(rt, rt.reader(), matches, true, errors);
    };
    match fs::open(rt, path) {
        Ok(file) => show_source(rt, file, matches, false, errors),
        Err(error) => ShowFault::of_reading(&error).report(&mut errors),
    }
}

/// Shows an input on standard output, and draws a transfer into the file of `--svg`, if any.
fn show_source<R: Runtime + AllocGlobal, I: Read + Drop, E: Write + Drop>(
    rt: &R,
    input: I,
    matches: &ArgMatches<'_>,
    is_live: bool,
    errors: E,
) -> u8
    ensures { result ≤ 2 }
{
    let output = io::writer(rt);
    let task = task_of(matches, is_live);
    match matches.get_str("svg") {
        Some(path) => {
            let picture = || fs::create(rt, path);
            drawn(rt.alloc(), input, output, task, picture, errors)
        }
        None => shown(rt.alloc(), input, output, task, errors),
    }
}

/// What a command line asks for.
fn task_of(matches: &ArgMatches<'_>, is_live: bool) -> Task {
    let number = match matches.get_one::<u32>("transfer") {
        Some(number) => Some(u64::from(number)),
        None => None,
    };
    let style = style_of(matches);
    let draws = matches.get_str("svg").is_some();
    Task {
        style,
        only: if draws || style == Style::Packets {
            None
        } else {
            number
        },
        drawn: if draws {
            Some(number.unwrap_or(1))
        } else {
            None
        },
        port: matches.get_one::<u16>("port").unwrap_or(69),
        is_live,
    }
}

fn style_of(matches: &ArgMatches<'_>) -> Style {
    if matches.get_flag("json") {
        Style::Json
    } else if matches.get_flag("follow") {
        Style::Follow
    } else if matches.get_flag("flow") {
        Style::Report
    } else {
        Style::Packets
    }
}
