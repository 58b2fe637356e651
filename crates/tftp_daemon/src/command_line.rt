//! The command line of `tftpd`, and the configuration that its words name.

ghost use Rattle.std.specs.Prelude.{◌≡◌, ◌≤◌, ℕ, List, Some, codes, drop, length, map, IfOk};
ghost use Rattle.std.specs.Prelude.{IfSome};
ghost use Rattle.clap.specs.Matches.{first_value, found_of};
ghost use Rattle.clap.specs.Walk.{rows_of};
ghost use Rattle.tftp_server.specs.Config.{IsConfig};
ghost use Rattle.tftp_arguments.specs.Fault.{AskForText};
ghost use Rattle.tftp_arguments.specs.Read.{IsNumber, read_of};
ghost use Rattle.tftp_arguments.specs.Rules.{IsApp};
ghost use Rattle.tftp_daemon.specs.CommandLine.{ConfiguresAs, EndsAs, HasApart, IfExit, IfRun};
ghost use Rattle.tftp_daemon.specs.CommandLine.{NameEndpoints, NamesListen};
ghost use Rattle.tftp_daemon.specs.CommandLine.{NamesServer, PortsAs, ServersAs, ServersFor};
ghost use Rattle.tftp_daemon.specs.CommandLine.{StartsInRows, backoff_of, most_each, words_of};
ghost use Rattle.tftp_daemon.specs.Refused.{Configures};
ghost use Rattle.tftp_daemon.specs.Words.{StartsFor, WordsConfigure, tftpd_app};

use crate::daemon::{DaemonConfig, Instance};
use crate::error_output::ErrorOutput;
use crate::listen::{Listen, has_apart};
use crate::matched::{is_on, listen_words, server_count};
use crate::options::{
    BACKOFF, DRAIN, FOREVER, LENGTH_MEMORY, LISTEN, LOG, LOG_TIME, LONGEST, PER_CLIENT, PORTS,
    READ_ONLY, REQUESTS_ONLY, ROOT, ROUNDS, SERVER, SERVERS, STATUS, TRANSFERS, Texts, UPLOADS,
    command,
};
use crate::ports::{NoPorts, port_range};
use crate::refused::{MOST_SERVERS, Refusal, excluded, faulty_status, report};
use crate::surroundings::Surroundings;
use clap::{ArgMatches, Command};
use std::alloc::{AllocError, Global};
use std::convert::AsStr;
use tftp_arguments::print_usage;
use tftp_ends::{Backoff, Endpoint};
use tftp_loop::{Ending, PortRange};
use tftp_negotiate::Limits;
use tftp_server::Config;
use tftp_sockets::endpoint_in;

/// Why a word of `--servers` is no value of it.
const NO_SERVERS: &str = "for '--servers <1..64|auto>': neither a number from 1 to 64 nor 'auto'";

/// What a command line has the program do.
#[derive(Drop)]
pub(crate) enum CommandLine<'a> {
    /// Serve by this configuration.
    Run(DaemonConfig<'a>),
    /// End with this status: what was to be printed is printed.
    Exit(u8),
}

/// Reads the words.
pub(crate) fn read_words<'a, P: Print + Eprint, S: AsStr>(
    rt: &P,
    alloc: Global,
    texts: &'a Texts,
    words: &'a [S],
    surroundings: Surroundings,
) -> Result<CommandLine<'a>, AllocError>
    ensures valid { IfOk result (λ line. IfRun line (λ config. IsConfig config.config)) }
    ensures names { IfOk result (λ line. IfRun line (WordsConfigure (map S.text words.now))) }
    ensures servers { IfOk result (λ line. IfRun line
        (StartsFor surroundings.processors (map S.text words.now))) }
    ensures status { IfOk result (λ line. IfExit line (λ status. status ≤ 2)) }
    ensures text { IfOk result (λ line. IfExit line (λ status. status ≡ 0
        → AskForText tftpd_app (map S.text words.now))) }
{
    match command(alloc, texts) {
        Ok(mut command) => match_words(rt, alloc, &mut command, words, surroundings),
        Err(error) => Err(error),
    }
}

/// Reads the words by the command.
fn match_words<'a, P: Print + Eprint, S: AsStr>(
    rt: &P,
    alloc: Global,
    command: &mut Command<'a>,
    words: &'a [S],
    surroundings: Surroundings,
) -> Result<CommandLine<'a>, AllocError>
    requires { IsApp tftpd_app command.old }
    ensures valid { IfOk result (λ line. IfRun line (λ config. IsConfig config.config)) }
    ensures names { IfOk result (λ line. IfRun line (WordsConfigure (map S.text words.now))) }
    ensures servers { IfOk result (λ line. IfRun line
        (StartsFor surroundings.processors (map S.text words.now))) }
    ensures status { IfOk result (λ line. IfExit line (λ status. status ≤ 2)) }
    ensures text { IfOk result (λ line. IfExit line (λ status. status ≡ 0
        → AskForText tftpd_app (map S.text words.now))) }
{
    match command.try_get_matches_from_mut(words) {
        Ok(matches) => read_matches(rt, alloc, command, &matches, surroundings),
        Err(error) => Ok(CommandLine::Exit(print_usage(rt, &error))),
    }
}

/// What the matched words have the program do.
fn read_matches<'a, P: Print + Eprint>(
    rt: &P,
    alloc: Global,
    command: &mut Command<'a>,
    matches: &ArgMatches<'a>,
    surroundings: Surroundings,
) -> Result<CommandLine<'a>, AllocError>
    ensures valid { IfOk result (λ line. IfRun line (λ config. IsConfig config.config)) }
    ensures names { IfOk result (λ line. IfRun line
        (Configures (rows_of (found_of matches.now)))) }
    ensures servers { IfOk result (λ line. IfRun line
        (StartsInRows surroundings.processors (rows_of (found_of matches.now)))) }
    ensures status { IfOk result (λ line. IfExit line (λ status. status ≡ 2)) }
{
    match read_config(alloc, matches, surroundings) {
        Ok(Ok(config)) => Ok(CommandLine::Run(config)),
        Ok(Err(refusal)) => exit(report(rt, alloc, command, refusal)),
        Err(error) => Err(error),
    }
}

/// The configuration of the matched words, or why they are refused.
fn read_config<'a>(
    alloc: Global,
    matches: &ArgMatches<'a>,
    surroundings: Surroundings,
) -> Result<Result<DaemonConfig<'a>, Refusal<'a>>, AllocError>
    ensures valid { IfOk result (λ read. IfOk read (λ config. IsConfig config.config)) }
    ensures names { IfOk result (λ read. IfOk read
        (Configures (rows_of (found_of matches.now)))) }
    ensures servers { IfOk result (λ read. IfOk read
        (StartsInRows surroundings.processors (rows_of (found_of matches.now)))) }
{
    let Some(servers) = servers_each(matches, surroundings.processors) else {
        return Ok(Err(Refusal::of_value(matches, SERVERS, NO_SERVERS)));
    };
    if let Some(message) = excluded(matches, servers) {
        return Ok(Err(Refusal::Conflict(message)));
    }
    if let Some(no) = faulty_status(alloc, matches)? {
        return Ok(Err(Refusal::of_value(matches, STATUS, no.why())));
    }
    let ports = match port_range(matches.get_str(PORTS), server_count(matches, servers)) {
        Ok(ports) => ports,
        Err(NoPorts(why)) => return Ok(Err(Refusal::of_value(matches, PORTS, why))),
    };
    match read_service(alloc, matches, ports, servers, surroundings.errors)? {
        Some(service) => Ok(Ok(service)),
        None => Ok(Err(Refusal::of_addresses(matches))),
    }
}

/// Ends with the status for what was reported.
fn exit<'a>(status: Result<u8, AllocError>) -> Result<CommandLine<'a>, AllocError>
    ensures status { IfOk status (λ status. status ≡ 2)
        → IfOk result (λ line. IfExit line (λ status. status ≡ 2)) }
    ensures ends { IfOk result (λ line. IfRun line (λ _. ⊥)) }
{
    match status {
        Ok(status) => Ok(CommandLine::Exit(status)),
        Err(error) => Err(error),
    }
}

/// The number of servers that are to start at each address, if the word of `--servers` is one.
fn servers_each(matches: &ArgMatches<'_>, processors: u8) -> Option<u8>
    ensures number { IfSome result
        (ServersFor processors (length (words_of (found_of matches.now) (codes "listen")))
        (first_value (found_of matches.now) (codes "servers"))) }
    ensures bounds { IfSome result
        (ServersAs (first_value (found_of matches.now) (codes "servers"))) }
{
    let addresses = listen_words(matches).len();
    servers_in(matches.get_str(SERVERS)?, processors, addresses)
}

/// The number of servers at each of so many addresses in a word, from 1 to 64; for `auto` that of the
/// processors, as far as there may be so many. Else `None`.
fn servers_in(word: &str, processors: u8, addresses: usize) -> Option<u8>
    ensures number { IfSome result (ServersFor processors addresses (Some word.now)) }
    ensures bounds { IfSome result (ServersAs (Some word.now)) }
{
    match word {
        "auto" => Some(processors.min(most_each(addresses)).max(1)),
        _ => number_of_servers(word),
    }
}

/// The most servers at each of so many addresses: 64 in all, but one at each address.
fn most_each(addresses: usize) -> u8
    ensures most { result ≡ most_each addresses }
    ensures bounds { (1 ≤ result) × (result ≤ 64) }
{
    let addresses = addresses.max(1);
    match u8::try_from(usize::from(MOST_SERVERS) / addresses) {
        Ok(most) => most.max(1),
        Err(_) => MOST_SERVERS,
    }
}

/// The number in a word, from 1 to 64; else `None`.
fn number_of_servers(word: &str) -> Option<u8>
    ensures number { IfSome result (λ servers. IsNumber 8 (Some word.now) (Some servers)) }
    ensures bounds { IfSome result (λ servers. (1 ≤ servers) × (servers ≤ 64)) }
{
    match word.parse::<u8>() {
        Ok(servers) if servers > 0 && servers <= MOST_SERVERS => Some(servers),
        _ => None,
    }
}

/// The configuration of the matched words, or `None` if an address is invalid or stands twice.
fn read_service<'a>(
    alloc: Global,
    matches: &ArgMatches<'a>,
    ports: Option<PortRange>,
    servers: u8,
    errors: ErrorOutput,
) -> Result<Option<DaemonConfig<'a>>, AllocError>
    requires ports { PortsAs (first_value (found_of matches.now) (codes "ports")) ports }
    requires servers { ServersAs (first_value (found_of matches.now) (codes "servers")) servers }
    ensures valid { IfOk result (λ read. IfSome read (λ config. IsConfig config.config)) }
    ensures names { IfOk result (λ read. IfSome read (NamesServer (read_of matches.now)
        (words_of (found_of matches.now) (codes "listen")))) }
    ensures ports { IfOk result (λ read. IfSome read (λ config. config.ports ≡ ports)) }
    ensures servers { IfOk result (λ read. IfSome read (λ config.
        config.instance.servers ≡ servers)) }
{
    let read = other_addresses(alloc, listen_words(matches))?;
    let Some(others) = read else {
        return Ok(None);
    };
    Ok(service(matches, ports, servers, others, errors))
}

/// The addresses of all words but the first, or `None` if one is invalid.
fn other_addresses(alloc: Global, words: &[&str]) -> Result<Option<Vec<Endpoint>>, AllocError>
    ensures { IfOk result (λ read. IfSome read (λ endpoints.
        NameEndpoints (drop 1 (map (λ word. word.now) words.now)) endpoints.items)) }
{
    match words {
        [_, others @ ..] => endpoints_in(alloc, others),
        [] => Ok(Some(Vec::new(alloc))),
    }
}

/// The addresses of these words, or `None` if one is invalid.
fn endpoints_in(alloc: Global, words: &[&str]) -> Result<Option<Vec<Endpoint>>, AllocError>
    ensures { IfOk result (λ read. IfSome read (λ endpoints.
        NameEndpoints (map (λ word. word.now) words.now) endpoints.items)) }
{
    let mut endpoints = Vec::new(alloc);
    for word in words {
        match endpoint_in(word) {
            Some(endpoint) => endpoints.push(endpoint)?,
            None => return Ok(None),
        }
    }
    Ok(Some(endpoints))
}

/// The configuration of the matched words with these other addresses, or `None` if the first one is
/// invalid, or one stands twice.
fn service<'a>(
    matches: &ArgMatches<'a>,
    ports: Option<PortRange>,
    servers: u8,
    others: Vec<Endpoint>,
    errors: ErrorOutput,
) -> Option<DaemonConfig<'a>>
    requires ports { PortsAs (first_value (found_of matches.now) (codes "ports")) ports }
    requires servers { ServersAs (first_value (found_of matches.now) (codes "servers")) servers }
    requires others { NameEndpoints
        (drop 1 (words_of (found_of matches.now) (codes "listen"))) others.items }
    ensures valid { IfSome result (λ config. IsConfig config.config) }
    ensures names { IfSome result (NamesServer (read_of matches.now)
        (words_of (found_of matches.now) (codes "listen"))) }
    ensures ports { IfSome result (λ config. config.ports ≡ ports) }
    ensures servers { IfSome result (λ config. config.instance.servers ≡ servers) }
{
    let Some(required) = required_in(matches, others.as_slice()) else {
        return None;
    };
    Some(DaemonConfig {
        root: required.root,
        config: required.config,
        read_only: is_on(matches, READ_ONLY),
        uploads: matches.get_str(UPLOADS),
        listen: required.listen,
        others,
        ports,
        requests_only: is_on(matches, REQUESTS_ONLY),
        per_client: matches.get_one::<u8>(PER_CLIENT),
        ending: required.ending,
        longest: matches.get_one::<u32>(LONGEST),
        length_memory: required.length_memory,
        backoff: backoff(is_on(matches, BACKOFF)),
        drain: matches.get_str(DRAIN),
        status: matches.get_str(STATUS),
        logs: is_on(matches, LOG),
        log_times: is_on(matches, LOG_TIME),
        instance: Instance {
            servers,
            server: matches.get_one::<u8>(SERVER),
        },
        has_priority: errors.has_priority(),
    })
}

/// What each command line has: ROOT, and the values of the options with a default.
#[derive(Clone, Copy)]
struct Required<'a> {
    root: &'a str,
    listen: Listen,
    config: Config,
    ending: Ending,
    length_memory: u64,
}

/// These values of the matched words, or `None` if the first address is invalid, or one of it and these
/// others stands twice.
fn required_in<'a>(matches: &ArgMatches<'a>, others: &[Endpoint]) -> Option<Required<'a>>
    ensures root { IfSome result (λ required.
        (read_of matches.now).word (codes "ROOT") ≡ Some required.root.now) }
    ensures listen { IfSome result (λ required. (word : List ℕ)
        × ((read_of matches.now).word (codes "listen") ≡ Some word)
        × NamesListen word required.listen) }
    ensures apart { IfSome result (λ required. HasApart required.listen others.now) }
    ensures valid { IfSome result (λ required. IsConfig required.config) }
    ensures limits { IfSome result (λ required. ConfiguresAs (read_of matches.now) required.config) }
    ensures ending { IfSome result (λ required. EndsAs (read_of matches.now) required.ending) }
    ensures length_memory { IfSome result (λ required. IsNumber 64
        ((read_of matches.now).text (codes "length-memory")) (Some required.length_memory)) }
{
    let root = matches.get_str(ROOT)?;
    let listen = Listen::named(matches.get_str(LISTEN)?)?;
    if !has_apart(listen, others) {
        return None;
    }
    Some(Required {
        root,
        listen,
        config: config(matches)?,
        ending: ending(matches)?,
        length_memory: length_memory(matches)?,
    })
}

/// The memory for the lengths of netascii files, in bytes.
fn length_memory(matches: &ArgMatches<'_>) -> Option<u64>
    ensures { IfSome result (λ bytes.
        IsNumber 64 ((read_of matches.now).text (codes "length-memory")) (Some bytes)) }
{
    matches.get_one::<u64>(LENGTH_MEMORY)
}

/// How long a transfer waits after timeouts without progress, by the flag.
fn backoff(is_doubling: bool) -> Backoff
    ensures { result ≡ backoff_of is_doubling }
{
    if is_doubling {
        Backoff::Doubling
    } else {
        Backoff::Constant
    }
}

/// When the server ends.
fn ending(matches: &ArgMatches<'_>) -> Option<Ending>
    ensures { IfSome result (EndsAs (read_of matches.now)) }
{
    if is_on(matches, FOREVER) {
        return Some(Ending::NEVER);
    }
    Some(Ending {
        transfers: u64::from(matches.get_one::<u32>(TRANSFERS)?),
        rounds: u64::from(matches.get_one::<u32>(ROUNDS)?),
    })
}

/// The limits of transfers.
fn config(matches: &ArgMatches<'_>) -> Option<Config>
    ensures valid { IfSome result IsConfig }
    ensures limits { IfSome result (ConfiguresAs (read_of matches.now)) }
{
    let config = Config {
        limits: Limits {
            max_block: matches.get_one::<u16>("max-block")?,
            max_file: matches.get_one::<u64>("max-file")?,
        },
        retries: matches.get_one::<u8>("retries")?,
        cap: matches.get_one::<u8>("cap")?,
        overwrite: is_on(matches, "overwrite"),
    };
    if config.is_valid() {
        Some(config)
    } else {
        None
    }
}
