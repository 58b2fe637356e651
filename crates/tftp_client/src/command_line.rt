//! The command line of `tftp`, and the job that its words name.

ghost use Rattle.std.specs.Prelude.{◌≡◌, ◌≢◌, ◌⊎◌, true, false, codes, Some, None, map};
ghost use Rattle.std.specs.Prelude.{IfOk, IfSome};
ghost use Rattle.clap.specs.Simple.{subcommand_rows_of};
ghost use Rattle.clap.specs.Values.{kind_of};
ghost use Rattle.tftp_wire.specs.declared.mode.Mode.TheVariants.{Octet, Netascii};
ghost use Rattle.tftp_disk.specs.declared.existing.Existing.TheVariants.{Refused, Replaced};
ghost use Rattle.tftp_arguments.specs.Fault.{AskForText};
ghost use Rattle.tftp_ends.specs.declared.backoff.Backoff.TheVariants.{Constant, Doubling};
ghost use Rattle.tftp_arguments.specs.Read.{IsChosen, read_of, value_text};
ghost use Rattle.tftp_arguments.specs.Rules.{HasRule, HaveRules, IsApp, by_default, flag_rule};
ghost use Rattle.tftp_arguments.specs.Rules.{within, word_rule};
ghost use Rattle.tftp_sockets.specs.Address.{Names};
ghost use Rattle.tftp_client.specs.CommandLine.{AsksAs, IfExit, IfRun, NamesJob, kind_named};
ghost use Rattle.tftp_client.specs.Words.{NamesBy, WordsName, bare_app, get_app, put_app, tftp_app};
ghost use Rattle.tftp_client.specs.Words.{option_rules};

use crate::transfer::{Job, Progress};
use clap::error::ErrorKind;
use clap::{Arg, ArgMatches, Command, Error, value_parser};
use std::alloc::{AllocError, Global};
use std::convert::AsStr;
use std::io::IsTerminal;
use tftp_arguments::{VERSION, flag, is_set, number, print_usage, word};
use tftp_disk::Existing;
use tftp_ends::{Backoff, Endpoint};
use tftp_negotiate::{Asked, DEFAULT_BLOCK, Kind, MAX_BLOCK, MIN_BLOCK};
use tftp_sockets::endpoint_in;
use tftp_wire::Mode;

const EXAMPLES: &str = "\
Examples:
  tftp get 192.0.2.1:69 boot.img boot.img --blksize 1428 --tsize --progress
  tftp put 127.0.0.1:6969 notes.txt notes.txt --netascii";

const DALLYING: &str = "\
Once LOCAL has its name, `complete N` is printed. The client then dallies for two timeouts, 2
seconds or twice the agreed timeout, to acknowledge the last block again if the server repeats it
(RFC 1350, section 6).";

/// What standard error writes to.
#[derive(Clone, Copy)]
pub(crate) enum ErrorOutput {
    Terminal,
    /// A file, a pipe or another device.
    Other,
}

impl ErrorOutput {
    pub(crate) fn of<E: IsTerminal>(errors: &E) -> ErrorOutput {
        if errors.is_terminal() {
            ErrorOutput::Terminal
        } else {
            ErrorOutput::Other
        }
    }
}

/// What a command line has the program do.
#[derive(Clone, Copy)]
pub(crate) enum CommandLine<'a> {
    /// Run this job.
    Run(Job<'a>),
    /// End with this status: what was to be printed is printed.
    Exit(u8),
}

/// Parses the words as a command line of `tftp`.
pub(crate) fn read_words<'a, P: Print + Eprint, S: AsStr>(
    rt: &P,
    alloc: Global,
    texts: &'a BlockTexts,
    words: &'a [S],
    errors: ErrorOutput,
) -> Result<CommandLine<'a>, AllocError>
    ensures ends { IfOk result (λ line. IfExit line (λ status. (status ≡ 0) ⊎ (status ≡ 2))) }
    ensures names { IfOk result (λ line. IfRun line (λ job.
        WordsName (map S.text words.now) job)) }
    ensures text { IfOk result (λ line. IfExit line (λ status. status ≡ 0
        → AskForText tftp_app (map S.text words.now))) }
{
    match command(alloc, texts) {
        Ok(mut command) => match_words(rt, alloc, texts, &mut command, words, errors),
        Err(error) => Err(error),
    }
}

/// Parses the words with the command.
fn match_words<'a, P: Print + Eprint, S: AsStr>(
    rt: &P,
    alloc: Global,
    texts: &'a BlockTexts,
    command: &mut Command<'a>,
    words: &'a [S],
    errors: ErrorOutput,
) -> Result<CommandLine<'a>, AllocError>
    requires { IsApp tftp_app command.old }
    ensures ends { IfOk result (λ line. IfExit line (λ status. (status ≡ 0) ⊎ (status ≡ 2))) }
    ensures names { IfOk result (λ line. IfRun line (λ job.
        WordsName (map S.text words.now) job)) }
    ensures text { IfOk result (λ line. IfExit line (λ status. status ≡ 0
        → AskForText tftp_app (map S.text words.now))) }
{
    match command.try_get_matches_from_mut(words) {
        Ok(matches) => read_matches(rt, alloc, texts, &matches, errors),
        Err(error) => Ok(CommandLine::Exit(print_usage(rt, &error))),
    }
}

/// The order of a valid command line, if its address is valid too.
fn read_matches<'a, P: Print + Eprint>(
    rt: &P,
    alloc: Global,
    texts: &'a BlockTexts,
    matches: &ArgMatches<'a>,
    errors: ErrorOutput,
) -> Result<CommandLine<'a>, AllocError>
    ensures status { IfOk result (λ line. IfExit line (λ status. status ≡ 2)) }
    ensures names { IfOk result (λ line. IfRun line (λ job.
        NamesBy (subcommand_rows_of matches.now) job)) }
{
    let Some((word, matches)) = matches.subcommand() else {
        return Ok(CommandLine::Exit(2));
    };
    match job_of(kind_of(word), matches, errors) {
        Some(job) => Ok(CommandLine::Run(job)),
        None => {
            let status = report_address(rt, alloc, texts, word, matches)?;
            Ok(CommandLine::Exit(status))
        }
    }
}

/// The kind of request of a subcommand.
fn kind_of(word: &str) -> Kind
    ensures { result ≡ kind_named word.now }
{
    if word == "put" {
        Kind::Write
    } else {
        Kind::Read
    }
}

/// Reports an invalid address of the server, with the usage of the subcommand, and returns the
/// status.
fn report_address<'a, P: Print + Eprint>(
    rt: &P,
    alloc: Global,
    texts: &'a BlockTexts,
    word: &str,
    matches: &ArgMatches<'a>,
) -> Result<u8, AllocError>
    ensures { IfOk result (λ status. status ≡ 2) }
{
    let address = matches.get_str("ADDR:PORT").unwrap_or("");
    let mut command = subcommand(kind_of(word), alloc, texts)?;
    match invalid_address(alloc, &mut command, address) {
        Ok(error) => Ok(print_usage(rt, &error)),
        Err(error) => Err(error),
    }
}

/// A subcommand of its own, with the words that it is called by in its usage.
fn subcommand<'a>(
    kind: Kind,
    alloc: Global,
    texts: &'a BlockTexts,
) -> Result<Command<'a>, AllocError> {
    match kind {
        Kind::Read => get_command(alloc, texts)?.bin_name("tftp get"),
        Kind::Write => put_command(alloc, texts)?.bin_name("tftp put"),
    }
}

/// The fault of a word that is not the address of a server.
fn invalid_address(
    alloc: Global,
    command: &mut Command<'_>,
    address: &str,
) -> Result<Error, AllocError>
    ensures { IfOk result (λ error. kind_of error ≡ ErrorKind.InvalidValue) }
{
    let message = format!(in alloc;
        "invalid value '{address}' for '<ADDR:PORT>': \
         not an IPv4 address and a port of 1 to 65535"
    )?;
    command.error(ErrorKind::InvalidValue, message.as_str())
}

/// The job of a valid command line, or `None` if its address is invalid.
fn job_of<'a>(kind: Kind, matches: &ArgMatches<'a>, errors: ErrorOutput) -> Option<Job<'a>>
    ensures { IfSome result (NamesJob kind (read_of matches.now)) }
{
    Some(Job {
        kind,
        server: server_in(matches.get_str("ADDR:PORT")?)?,
        name: matches.get_str("NAME")?,
        local: matches.get_str("LOCAL")?,
        existing: existing(matches),
        mode: mode(matches),
        asked: asked(matches),
        retries: matches.get_one::<u8>("retries")?,
        backoff: backoff(matches),
        falls_back: is_set(matches, "fallback"),
        progress: progress(matches, errors),
        dallies: dallies(matches),
    })
}

/// The endpoint of the server that a word names. No request is sent to port 0.
fn server_in(word: &str) -> Option<Endpoint>
    ensures { IfSome result (λ server. Names word.now (Some server) × (server.port ≢ 0)) }
{
    match endpoint_in(word) {
        Some(server) => { if server.port == 0 { None } else { Some(server) } }
        None => None,
    }
}

/// What becomes of a LOCAL that exists.
fn existing(matches: &ArgMatches<'_>) -> Existing
    ensures { IsChosen (value_text matches.now (codes "replace")) Replaced Refused result }
{
    if is_set(matches, "replace") {
        Existing::Replaced
    } else {
        Existing::Refused
    }
}

/// Whether progress is shown: if that is asked for, and standard error is a terminal.
fn progress(matches: &ArgMatches<'_>, errors: ErrorOutput) -> Progress {
    match errors {
        ErrorOutput::Terminal if matches.get_flag("progress") => Progress::Shown,
        _ => Progress::Hidden,
    }
}

/// How long the client waits for the server after timeouts.
fn backoff(matches: &ArgMatches<'_>) -> Backoff
    ensures { IsChosen (value_text matches.now (codes "backoff")) Doubling Constant result }
{
    if is_set(matches, "backoff") {
        Backoff::Doubling
    } else {
        Backoff::Constant
    }
}

/// Whether a receiver dallies.
fn dallies(matches: &ArgMatches<'_>) -> bool
    ensures { IsChosen (value_text matches.now (codes "no-dally")) false true result }
{
    if is_set(matches, "no-dally") {
        false
    } else {
        true
    }
}

/// The transfer mode.
fn mode(matches: &ArgMatches<'_>) -> Mode
    ensures { IsChosen (value_text matches.now (codes "netascii")) Netascii Octet result }
{
    if is_set(matches, "netascii") {
        Mode::Netascii
    } else {
        Mode::Octet
    }
}

/// The requested options.
fn asked(matches: &ArgMatches<'_>) -> Asked
    ensures { AsksAs (read_of matches.now) result }
{
    Asked {
        blksize: matches.get_one::<u16>("blksize"),
        timeout: matches.get_one::<u8>("timeout"),
        tsize: asked_length(matches),
    }
}

/// The value of a requested `tsize`.
fn asked_length(matches: &ArgMatches<'_>) -> Option<u64>
    ensures { IsChosen (value_text matches.now (codes "tsize")) (Some 0) None result }
{
    if is_set(matches, "tsize") {
        Some(0)
    } else {
        None
    }
}

/// The command line of `tftp`.
fn command<'a>(alloc: Global, texts: &'a BlockTexts) -> Result<Command<'a>, AllocError>
    ensures { IfOk result (IsApp tftp_app) }
{
    let command = bare_command(alloc)?;
    let command = command.subcommand(get_command(alloc, texts)?)?;
    command.subcommand(put_command(alloc, texts)?)
}

/// The command line of `tftp` without its subcommands.
fn bare_command<'a>(alloc: Global) -> Result<Command<'a>, AllocError>
    ensures { IfOk result (IsApp bare_app) }
{
    Command::new(alloc, "tftp")
        .about("Transfers a file by TFTP (RFC 1350, RFC 2347 to 2349)")
        .version(VERSION)
        .after_help(EXAMPLES)
        .subcommand_required(true)
        .arg_required_else_help(true)
        .bin_name("tftp")
}

/// The command line of `tftp get`.
fn get_command<'a>(alloc: Global, texts: &'a BlockTexts) -> Result<Command<'a>, AllocError>
    ensures { IfOk result (IsApp get_app) }
{
    let options = options(alloc, texts)?;
    let replace = flag(
        alloc,
        "replace",
        "Replaces LOCAL, if it is a regular file, once the new file is whole",
    );
    let no_dally = flag(
        alloc,
        "no-dally",
        "Ends once LOCAL has its name; a lost last ACK is then not sent again",
    );
    let flags = vec![in alloc; replace, no_dally]?;
    let local = word(
        alloc,
        "LOCAL",
        "The path of the file here, which must not exist without --replace",
    );
    let words = vec![in alloc; server(alloc), name(alloc), local]?;
    let command = Command::new(alloc, "get")
        .about("Fetches a file")
        .after_help(DALLYING);
    command.args(words)?.args(options)?.args(flags)
}

/// The command line of `tftp put`.
fn put_command<'a>(alloc: Global, texts: &'a BlockTexts) -> Result<Command<'a>, AllocError>
    ensures { IfOk result (IsApp put_app) }
{
    let options = options(alloc, texts)?;
    let local = word(alloc, "LOCAL", "The path of the file here");
    let words = vec![in alloc; server(alloc), local, name(alloc)]?;
    let command = Command::new(alloc, "put").about("Sends a file");
    command.args(words)?.args(options)
}

/// The argument for the server's address.
fn server<'a>(alloc: Global) -> Arg<'a>
    ensures { HasRule (word_rule (codes "ADDR:PORT")) result }
{
    word(
        alloc,
        "ADDR:PORT",
        "IPv4 address and UDP port of the server's requests",
    )
}

/// The argument for the file's name at the server.
fn name<'a>(alloc: Global) -> Arg<'a>
    ensures { HasRule (word_rule (codes "NAME")) result }
{
    word(alloc, "NAME", "The name of the file at the server")
}

/// The arguments for the options of a transfer.
fn options<'a>(alloc: Global, texts: &'a BlockTexts) -> Result<Vec<Arg<'a>>, AllocError>
    ensures { IfOk result (λ args. HaveRules option_rules args.items) }
{
    let netascii = flag(
        alloc,
        "netascii",
        "The file is text, and travels with CR LF at its line ends",
    );
    let tsize = flag(alloc, "tsize", "Asks for the length of the file");
    let backoff = flag(
        alloc,
        "backoff",
        "Waits twice as long after each timeout, up to eight times",
    );
    let fallback = flag(
        alloc,
        "fallback",
        "Tries again without options where the server refuses them",
    );
    let progress = flag(
        alloc,
        "progress",
        "Shows how far the transfer came, where standard error is a terminal",
    );
    Ok(vec![in alloc;
        netascii,
        blksize(alloc, texts),
        timeout(alloc),
        tsize,
        retries(alloc),
        backoff,
        fallback,
        progress,
        verbose(alloc),
    ]?)
}

/// The flag that earlier versions needed to print the cause of a failure.
fn verbose<'a>(alloc: Global) -> Arg<'a>
    ensures { HasRule (record (flag_rule (codes "verbose")) { short = Some 118 }) result }
{
    let verbose = flag(
        alloc,
        "verbose",
        "No effect: the cause of a failure is always printed",
    );
    verbose.short('v')
}

/// The argument for the limit of retransmissions.
fn retries<'a>(alloc: Global) -> Arg<'a>
    ensures { HasRule (by_default (codes "5") (within (codes "retries") 0 10)) result }
{
    let retries = number(
        alloc,
        "retries",
        "0..10",
        value_parser!(u8).range(0..=10),
        "How often a datagram is sent again without progress",
    );
    retries.default_value("5")
}

/// The help texts for the block size.
#[derive(Drop)]
pub(crate) struct BlockTexts {
    range: String,
    help: String,
}

impl BlockTexts {
    pub(crate) fn new(alloc: Global) -> Result<BlockTexts, AllocError> {
        Ok(BlockTexts {
            range: format!(in alloc; "{MIN_BLOCK}..{MAX_BLOCK}")?,
            help: format!(in alloc;
                "Block size that is asked, in bytes; without it blocks have {DEFAULT_BLOCK}"
            )?,
        })
    }
}

/// The argument for the requested block size (RFC 2348, "Blocksize Option Specification").
fn blksize<'a>(alloc: Global, texts: &'a BlockTexts) -> Arg<'a>
    ensures { HasRule (record (within (codes "blksize") 8 65464) { short = Some 98 }) result }
{
    let blksize = number(
        alloc,
        "blksize",
        texts.range.as_str(),
        value_parser!(u16).range(i64::from(MIN_BLOCK)..=i64::from(MAX_BLOCK)),
        texts.help.as_str(),
    );
    blksize.short('b')
}

/// The argument for the requested timeout (RFC 2349, "Timeout Interval Option Specification").
fn timeout<'a>(alloc: Global) -> Arg<'a>
    ensures { HasRule (within (codes "timeout") 1 255) result }
{
    number(
        alloc,
        "timeout",
        "1..255",
        value_parser!(u8).range(1..=255),
        "Timeout that is asked, in seconds; without it a datagram is sent again after 1",
    )
}
