//! What a command line is refused for beside what `clap` refuses, and how that is reported.
//!
//! `clap` would look at options that exclude or need one another, too, but then its contract would
//! say nothing of the words that it refuses.

ghost use Rattle.std.specs.Prelude.{◌≡◌, ◌↔◌, codes, false, map, option_map};
ghost use Rattle.std.specs.Prelude.{IfNone, IfOk, IsTrue, OnSome};
ghost use Rattle.std.specs.List.{list_any};
ghost use Rattle.std.specs.Path.{PathStartsWith};
ghost use Rattle.std.specs.Str.{bytes_eq};
ghost use Rattle.clap.specs.Matches.{first_value, found_of};
ghost use Rattle.clap.specs.Values.{kind_of};
ghost use Rattle.tftp_arguments.specs.Fault.{is_text};
ghost use Rattle.tftp_daemon.specs.Refused.{AddressesTogether, EndsTogether, JudgesStatus};
ghost use Rattle.tftp_daemon.specs.Refused.{LogsTogether, ManyTogether, OneTogether};
ghost use Rattle.tftp_daemon.specs.Refused.{ServersTogether, StandTogether, WritesTogether};
ghost use Rattle.tftp_daemon.specs.Refused.{root_of};

use crate::listen::Listen;
use crate::matched::{is_given, is_on, listen_words, server_count};
use crate::options::{
    DRAIN, FOREVER, LISTEN, LOG, LOG_TIME, READ_ONLY, ROOT, ROUNDS, SERVER, STATUS, TRANSFERS,
    UPLOADS,
};
use crate::shown::Shown;
use crate::status::{draft_of, is_drain, names_file};
use clap::error::ErrorKind;
use clap::{ArgMatches, Command};
use std::alloc::{AllocError, Global};
use std::path::Path;
use tftp_arguments::print_usage;

/// Two options that are not used together.
const FOREVER_TRANSFERS: &str =
    "the argument '--forever' cannot be used with '--transfers <1..4294967295>'";

const FOREVER_ROUNDS: &str =
    "the argument '--forever' cannot be used with '--rounds <1..4294967295>'";

const SERVERS_SERVER: &str =
    "the argument '--servers <1..64|auto>' cannot be used with '--server <1..64>'";

const READ_ONLY_UPLOADS: &str =
    "the argument '--read-only' cannot be used with '--uploads <FOLDER>'";

const LISTEN_STDIN: &str =
    "the argument '--listen stdin' cannot be used with another '--listen <ADDR:PORT|stdin>'";

const LISTEN_TWICE: &str = "two of '--listen <ADDR:PORT|stdin>' are the same address";

const MANY_SERVERS: &str =
    "'--listen <ADDR:PORT|stdin>' and '--servers <1..64|auto>' ask for more than 64 servers";

/// An option that another one needs.
const SERVERS_FOREVER: &str = "more than one of '--servers <1..64|auto>' needs '--forever'";

const LISTEN_FOREVER: &str = "more than one '--listen <ADDR:PORT|stdin>' needs '--forever'";

const SERVER_STDIN: &str = "the argument '--server <1..64>' needs '--listen stdin'";

const LOG_TIME_LOG: &str = "the argument '--log-time' needs '--log'";

/// Why an option's word is no value of it.
const NO_ADDRESS: &str =
    "for '--listen <ADDR:PORT|stdin>': neither an IPv4 address and a port nor 'stdin'";

const NO_STATUS: &str = "for '--status <FILE>': no name of a file";

const STATUS_DRAIN: &str =
    "for '--status <FILE>': it, or '~' behind it, is the file of '--drain <FILE>'";

const STATUS_ROOT: &str = "for '--status <FILE>': in ROOT or below it";

/// The most servers of one command line.
pub(crate) const MOST_SERVERS: u8 = 64;

/// Why the options do not stand together, where so many servers start at each address, if they do
/// not.
pub(crate) fn excluded(matches: &ArgMatches<'_>, each: u8) -> Option<&'static str>
    ensures stand { IfNone result (StandTogether (found_of matches.now) each) }
    ensures refused { OnSome result (¬ (StandTogether (found_of matches.now) each)) }
{
    if let Some(message) = excluded_of_ends(matches) {
        return Some(message);
    }
    if let Some(message) = excluded_of_writes(matches) {
        return Some(message);
    }
    if let Some(message) = excluded_of_logs(matches) {
        return Some(message);
    }
    excluded_of_servers(matches, each)
}

/// As [`excluded`], of when the server ends.
fn excluded_of_ends(matches: &ArgMatches<'_>) -> Option<&'static str>
    ensures stand { IfNone result (EndsTogether (found_of matches.now)) }
    ensures refused { OnSome result (¬ (EndsTogether (found_of matches.now))) }
{
    if !is_on(matches, FOREVER) {
        return None;
    }
    if is_given(matches, TRANSFERS) {
        return Some(FOREVER_TRANSFERS);
    }
    if is_given(matches, ROUNDS) {
        return Some(FOREVER_ROUNDS);
    }
    None
}

/// As [`excluded`], of writes.
fn excluded_of_writes(matches: &ArgMatches<'_>) -> Option<&'static str>
    ensures stand { IfNone result (WritesTogether (found_of matches.now)) }
    ensures refused { OnSome result (¬ (WritesTogether (found_of matches.now))) }
{
    if !is_on(matches, READ_ONLY) {
        return None;
    }
    match matches.get_str(UPLOADS) {
        Some(_) => Some(READ_ONLY_UPLOADS),
        None => None,
    }
}

/// As [`excluded`], of the log.
fn excluded_of_logs(matches: &ArgMatches<'_>) -> Option<&'static str>
    ensures stand { IfNone result (LogsTogether (found_of matches.now)) }
    ensures refused { OnSome result (¬ (LogsTogether (found_of matches.now))) }
{
    if !is_on(matches, LOG_TIME) {
        return None;
    }
    if is_on(matches, LOG) {
        None
    } else {
        Some(LOG_TIME_LOG)
    }
}

/// As [`excluded`], of the options for several servers.
fn excluded_of_servers(matches: &ArgMatches<'_>, each: u8) -> Option<&'static str>
    ensures stand { IfNone result (ServersTogether (found_of matches.now) each) }
    ensures refused { OnSome result (¬ (ServersTogether (found_of matches.now) each)) }
{
    if let Some(message) = excluded_of_addresses(matches, each) {
        return Some(message);
    }
    if let Some(message) = excluded_of_many(matches, each) {
        return Some(message);
    }
    excluded_of_one(matches)
}

/// As [`excluded`], of several addresses.
fn excluded_of_addresses(matches: &ArgMatches<'_>, each: u8) -> Option<&'static str>
    ensures stand { IfNone result (AddressesTogether (found_of matches.now) each) }
    ensures refused { OnSome result (¬ (AddressesTogether (found_of matches.now) each)) }
{
    let words = listen_words(matches);
    if words.len() < 2 {
        return None;
    }
    if has_stdin(words) {
        return Some(LISTEN_STDIN);
    }
    if server_count(matches, each) > usize::from(MOST_SERVERS) {
        return Some(MANY_SERVERS);
    }
    if is_on(matches, FOREVER) {
        None
    } else {
        Some(LISTEN_FOREVER)
    }
}

/// Whether `stdin` is one of these words.
fn has_stdin(words: &[&str]) -> bool
    ensures { result
        ≡ list_any (λ word. bytes_eq word (codes "stdin")) (map (λ word. word.now) words.now) }
{
    match words {
        [word, others @ ..] => *word == "stdin" || has_stdin(others),
        [] => false,
    }
}

/// As [`excluded`], of several servers at each address.
fn excluded_of_many(matches: &ArgMatches<'_>, each: u8) -> Option<&'static str>
    ensures stand { IfNone result (ManyTogether (found_of matches.now) each) }
    ensures refused { OnSome result (¬ (ManyTogether (found_of matches.now) each)) }
{
    if each < 2 {
        return None;
    }
    if matches.get_str(SERVER).is_some() {
        return Some(SERVERS_SERVER);
    }
    if is_on(matches, FOREVER) {
        None
    } else {
        Some(SERVERS_FOREVER)
    }
}

/// As [`excluded`], of one of several servers.
fn excluded_of_one(matches: &ArgMatches<'_>) -> Option<&'static str>
    ensures stand { IfNone result (OneTogether (found_of matches.now)) }
    ensures refused { OnSome result (¬ (OneTogether (found_of matches.now))) }
{
    match matches.get_str(SERVER) {
        Some(_) => excluded_of_listen(matches),
        None => None,
    }
}

/// As [`excluded`], of where the requests of one of several servers arrive.
fn excluded_of_listen(matches: &ArgMatches<'_>) -> Option<&'static str>
    ensures stand { IfNone result (first_value (found_of matches.now) (codes "listen")
        ≡ Some (codes "stdin")) }
    ensures refused { OnSome result (¬ (first_value (found_of matches.now) (codes "listen")
        ≡ Some (codes "stdin"))) }
{
    match matches.get_str(LISTEN) {
        Some("stdin") => None,
        _ => Some(SERVER_STDIN),
    }
}

/// Why a word is no file for `--status`.
#[derive(Clone, Copy)]
pub(crate) enum NoStatus {
    /// It is no name of a file.
    Name,
    /// It or its temporary file is that of `--drain`.
    Drain,
    /// It is the root, or below it.
    InRoot,
}

impl NoStatus {
    pub(crate) fn why(self) -> &'static str {
        match self {
            NoStatus::Name => NO_STATUS,
            NoStatus::Drain => STATUS_DRAIN,
            NoStatus::InRoot => STATUS_ROOT,
        }
    }
}

/// Why the word of `--status` is no file for it, if it is none. Where links lead is not asked here.
pub(crate) fn faulty_status(
    alloc: Global,
    matches: &ArgMatches<'_>,
) -> Result<Option<NoStatus>, AllocError>
    ensures { IfOk result (JudgesStatus (first_value (found_of matches.now) (codes "status"))
        (first_value (found_of matches.now) (codes "drain")) (root_of (found_of matches.now))) }
{
    match matches.get_str(STATUS) {
        Some(file) => {
            let root = matches.get_str(ROOT).unwrap_or("");
            fault_of_file(alloc, file, matches.get_str(DRAIN), root)
        }
        None => Ok(None),
    }
}

/// Why a path is no file for `--status`, if it is none, beside the file of `--drain` and this root.
fn fault_of_file(
    alloc: Global,
    file: &str,
    drain: Option<&str>,
    root: &str,
) -> Result<Option<NoStatus>, AllocError>
    ensures { IfOk result (JudgesStatus (Some file.now)
        (option_map (λ path. path.now) drain.entry) root.now) }
{
    if !names_file(file) {
        return Ok(Some(NoStatus::Name));
    }
    let draft = draft_of(alloc, file)?;
    if is_drain(drain, file, draft.as_str()) {
        return Ok(Some(NoStatus::Drain));
    }
    if is_in_root(file, root) {
        return Ok(Some(NoStatus::InRoot));
    }
    Ok(None)
}

/// Whether a path is that of the folder that is served, or below it, by its words.
fn is_in_root(file: &str, root: &str) -> bool
    ensures { IsTrue result ↔ PathStartsWith file.now root.now }
{
    Path::new(file).starts_with(root)
}

/// Why matched words are refused.
#[derive(Clone, Copy)]
pub(crate) enum Refusal<'a> {
    /// Options do not stand together, as this message says.
    Conflict(&'static str),
    /// This word is no value of its option, for this reason.
    Value(Option<&'a str>, &'static str),
}

impl<'a> Refusal<'a> {
    /// The word of an option is no value of it, for this reason.
    pub(crate) fn of_value(
        matches: &ArgMatches<'a>,
        option: &str,
        why: &'static str,
    ) -> Refusal<'a> {
        Refusal::Value(matches.get_str(option), why)
    }

    /// The first word of `--listen` that is no address and not `stdin`, or else that two addresses are
    /// the same.
    pub(crate) fn of_addresses(matches: &ArgMatches<'a>) -> Refusal<'a> {
        for word in listen_words(matches) {
            if Listen::named(word).is_none() {
                return Refusal::Value(Some(*word), NO_ADDRESS);
            }
        }
        Refusal::Conflict(LISTEN_TWICE)
    }
}

/// Reports why the words are refused.
pub(crate) fn report<P: Print + Eprint>(
    rt: &P,
    alloc: Global,
    command: &mut Command<'_>,
    refusal: Refusal<'_>,
) -> Result<u8, AllocError>
    ensures { IfOk result (λ status. status ≡ 2) }
{
    match refusal {
        Refusal::Conflict(message) => {
            print_refusal(rt, command.error(ErrorKind::ArgumentConflict, message))
        }
        Refusal::Value(word, why) => print_refusal(rt, invalid_value(alloc, command, word, why)),
    }
}

/// Prints why words are refused, if there was memory for that.
fn print_refusal<P: Print + Eprint>(
    rt: &P,
    refusal: Result<clap::Error, AllocError>,
) -> Result<u8, AllocError>
    requires { IfOk refusal (λ error. is_text (kind_of error) ≡ false) }
    ensures { IfOk result (λ status. status ≡ 2) }
{
    match refusal {
        Ok(error) => Ok(print_usage(rt, &error)),
        Err(error) => Err(error),
    }
}

/// The fault of a word that is no value of an option, for this reason.
fn invalid_value(
    alloc: Global,
    command: &mut Command<'_>,
    word: Option<&str>,
    why: &str,
) -> Result<clap::Error, AllocError>
    ensures { IfOk result (λ error. is_text (kind_of error) ≡ false) }
{
    let word = Shown(word.unwrap_or(""));
    let message = format!(in alloc; "invalid value '{word}' {why}")?;
    command.error(ErrorKind::InvalidValue, message.as_str())
}
