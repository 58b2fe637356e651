//! The options of `tftpd`, with their texts.

ghost use Rattle.std.specs.Prelude.{◌≡◌, List, codes, IfOk};
ghost use Rattle.std.specs.Fmt.{decimal};
ghost use Rattle.std.specs.String.{string_bytes};
ghost use Rattle.clap.specs.Simple.{App};
ghost use Rattle.clap.specs.Walk.{Rule};
ghost use Rattle.tftp_server.specs.Config.{default_config};
ghost use Rattle.tftp_arguments.specs.Rules.{HasRule, HaveRules, IsApp, by_default, flag_rule};
ghost use Rattle.tftp_arguments.specs.Rules.{with_rules, within};
ghost use Rattle.tftp_daemon.specs.Words.{any_number, bare_app, option_rule, repeated, tftpd_app};
ghost use Rattle.tftp_daemon.specs.Words.{folder_and_ports, limits, servers_and_log};
ghost use Rattle.tftp_daemon.specs.Words.{writes_and_ending};

use clap::{Arg, ArgAction, Command, value_parser};
use std::alloc::{AllocError, Global};
use tftp_arguments::{VERSION, flag, number, word};
use tftp_negotiate::{MAX_BLOCK, MIN_BLOCK};
use tftp_server::Config;

const EXAMPLES: &str = "\
Examples:
  tftpd /srv/tftp --listen 192.0.2.1:6969 --requests-only --forever --read-only
  tftpd /srv/tftp --listen 192.0.2.1:6969 --listen 198.51.100.1:6969 --requests-only --forever --uploads incoming
  tftpd . --listen 127.0.0.1:0 --max-block 8192 --cap 64";

/// The name of the folder that is served.
pub(crate) const ROOT: &str = "ROOT";

/// The names of the options, as they are read from the matches.
pub(crate) const LISTEN: &str = "listen";

pub(crate) const REQUESTS_ONLY: &str = "requests-only";

pub(crate) const PORTS: &str = "ports";

pub(crate) const PER_CLIENT: &str = "per-client";

pub(crate) const LONGEST: &str = "longest";

pub(crate) const LENGTH_MEMORY: &str = "length-memory";

pub(crate) const BACKOFF: &str = "backoff";

pub(crate) const READ_ONLY: &str = "read-only";

pub(crate) const UPLOADS: &str = "uploads";

pub(crate) const TRANSFERS: &str = "transfers";

pub(crate) const ROUNDS: &str = "rounds";

pub(crate) const FOREVER: &str = "forever";

pub(crate) const DRAIN: &str = "drain";

pub(crate) const SERVERS: &str = "servers";

pub(crate) const SERVER: &str = "server";

pub(crate) const LOG: &str = "log";

pub(crate) const LOG_TIME: &str = "log-time";

pub(crate) const STATUS: &str = "status";

/// The texts of the help and the defaults with numbers that other crates define.
#[derive(Drop)]
pub(crate) struct Texts {
    block_range: String,
    max_block: String,
    max_file: String,
    retries: String,
    cap: String,
    ghost max_block_is: { string_bytes max_block ≡ decimal default_config.limits.max_block },
    ghost max_file_is: { string_bytes max_file ≡ decimal default_config.limits.max_file },
    ghost retries_is: { string_bytes retries ≡ decimal default_config.retries },
    ghost cap_is: { string_bytes cap ≡ decimal default_config.cap },
}

impl Texts {
    /// The range of a block size, and the defaults of a server.
    pub(crate) fn new(alloc: Global) -> Result<Texts, AllocError> {
        let config = Config::default();
        Ok(Texts {
            block_range: format!(in alloc; "{MIN_BLOCK}..{MAX_BLOCK}")?,
            max_block: config.limits.max_block.to_string(alloc)?,
            max_file: config.limits.max_file.to_string(alloc)?,
            retries: config.retries.to_string(alloc)?,
            cap: config.cap.to_string(alloc)?,
        })
    }
}

/// The command line of `tftpd`.
pub(crate) fn command<'a>(alloc: Global, texts: &'a Texts) -> Result<Command<'a>, AllocError>
    ensures { IfOk result (IsApp tftpd_app) }
{
    let command = bare_command(alloc)?;
    let command = with_args(command, folder_and_ports(alloc))?;
    let command = with_args(command, limits(alloc, texts))?;
    let command = with_args(command, writes_and_ending(alloc))?;
    with_args(command, servers_and_log(alloc))
}

/// A command with these arguments too, if there was memory for them.
fn with_args<'a>(
    command: Command<'a>,
    args: Result<Vec<Arg<'a>>, AllocError>,
) -> Result<Command<'a>, AllocError>
    ensures { (app : App) (rules : List Rule) → IsApp app command.entry
        → IfOk args.entry (λ args. HaveRules rules args.items)
        → IfOk result (IsApp (with_rules app rules)) }
{
    match args {
        Ok(args) => command.args(args),
        Err(error) => Err(error),
    }
}

/// The command line of `tftpd` without arguments.
fn bare_command<'a>(alloc: Global) -> Result<Command<'a>, AllocError>
    ensures { IfOk result (IsApp bare_app) }
{
    Command::new(alloc, "tftpd")
        .about("Serves the files of a folder by TFTP (RFC 1350, RFC 2347 to 2349)")
        .version(VERSION)
        .after_help(EXAMPLES)
        .bin_name("tftpd")
}

/// An option `--name WORD`.
fn option<'a>(alloc: Global, name: &'a str, value: &'a str, help: &'a str) -> Arg<'a>
    ensures { HasRule (option_rule name.now) result }
{
    Arg::new(alloc, name)
        .long(name)
        .value_name(value)
        .help(help)
}

/// The arguments for the folder, the address of the request port, what is handled there, and the
/// ports of transfers.
fn folder_and_ports<'a>(alloc: Global) -> Result<Vec<Arg<'a>>, AllocError>
    ensures { IfOk result (λ args. HaveRules folder_and_ports args.items) }
{
    let root = word(alloc, ROOT, "The folder whose files are served");
    let requests_only = flag(
        alloc,
        REQUESTS_ONLY,
        "Drops what arrives at the request port and begins neither as RRQ nor as WRQ, without an ERROR",
    );
    let ports = option(
        alloc,
        PORTS,
        "A:B",
        "UDP ports of transfers, A to B, each drawn at random",
    );
    Ok(vec![in alloc; root, listen(alloc), requests_only, ports]?)
}

/// The argument for the address of the request port, which may be given again.
fn listen<'a>(alloc: Global) -> Arg<'a>
    ensures { HasRule
        (repeated (by_default (codes "127.0.0.1:6969") (option_rule (codes "listen")))) result }
{
    let listen = option(
        alloc,
        LISTEN,
        "ADDR:PORT|stdin",
        "IPv4 address and UDP port of the requests, 0 for any, once or more; or the socket that is standard input",
    );
    listen
        .default_value("127.0.0.1:6969")
        .action(ArgAction::Append)
}

/// The arguments for the limits of transfers.
fn limits<'a>(alloc: Global, texts: &'a Texts) -> Result<Vec<Arg<'a>>, AllocError>
    ensures { IfOk result (λ args. HaveRules limits args.items) }
{
    let max_file = any_number(
        alloc,
        "max-file",
        texts.max_file.as_str(),
        "Longest file that a write may announce by tsize, in bytes",
    );
    let backoff = flag(
        alloc,
        BACKOFF,
        "Waits twice as long after each further timeout without progress, up to eight times (RFC 1123)",
    );
    let cap = up_to_64(alloc, "cap", "Transfers that are open at once");
    let per_client = up_to_64(
        alloc,
        PER_CLIENT,
        "Transfers of one address that are open at once; a further request is dropped",
    );
    let longest = up_to_32_bits(
        alloc,
        LONGEST,
        "Longest age of a transfer in seconds; later datagrams are dropped until it times out",
    );
    let length_memory = any_number(
        alloc,
        LENGTH_MEMORY,
        "12582912",
        "Memory in bytes for the lengths of netascii files, which are measured once; 192 for a file",
    );
    Ok(vec![in alloc;
        max_block(alloc, texts),
        max_file,
        retries(alloc, texts),
        backoff,
        cap.default_value(texts.cap.as_str()),
        per_client,
        longest,
        length_memory,
    ]?)
}

/// An option with a number from 1 to 64.
fn up_to_64<'a>(alloc: Global, name: &'a str, help: &'a str) -> Arg<'a>
    ensures { HasRule (within name.now 1 64) result }
{
    number(alloc, name, "1..64", value_parser!(u8).range(1..=64), help)
}

/// An option with a number from 1 to 2^32 - 1.
fn up_to_32_bits<'a>(alloc: Global, name: &'a str, help: &'a str) -> Arg<'a>
    ensures { HasRule (within name.now 1 4294967295) result }
{
    number(
        alloc,
        name,
        "1..4294967295",
        value_parser!(u32).range(1..=4_294_967_295),
        help,
    )
}

/// An option with any number below 2^64, which has a default.
fn any_number<'a>(alloc: Global, name: &'a str, default: &'a str, help: &'a str) -> Arg<'a>
    ensures { HasRule (by_default default.now (any_number name.now)) result }
{
    number(alloc, name, "0..2^64-1", value_parser!(u64), help).default_value(default)
}

/// The argument for the largest block size (RFC 2348, "Blocksize Option Specification").
fn max_block<'a>(alloc: Global, texts: &'a Texts) -> Arg<'a>
    ensures { HasRule (by_default (decimal default_config.limits.max_block)
        (within (codes "max-block") 8 65464)) result }
{
    let max_block = number(
        alloc,
        "max-block",
        texts.block_range.as_str(),
        value_parser!(u16).range(i64::from(MIN_BLOCK)..=i64::from(MAX_BLOCK)),
        "Largest block size that is agreed, in bytes",
    );
    max_block.default_value(texts.max_block.as_str())
}

/// The argument for the limit of retransmissions.
fn retries<'a>(alloc: Global, texts: &'a Texts) -> Arg<'a>
    ensures { HasRule (by_default (decimal default_config.retries)
        (within (codes "retries") 0 10)) result }
{
    let retries = number(
        alloc,
        "retries",
        "0..10",
        value_parser!(u8).range(0..=10),
        "How often a datagram is sent again without progress",
    );
    retries.default_value(texts.retries.as_str())
}

/// The arguments for writes, and for when the server ends.
fn writes_and_ending<'a>(alloc: Global) -> Result<Vec<Arg<'a>>, AllocError>
    ensures { IfOk result (λ args. HaveRules writes_and_ending args.items) }
{
    let overwrite = flag(alloc, "overwrite", "A write replaces a file that is there");
    let read_only = flag(
        alloc,
        READ_ONLY,
        "Refuses every write as an access violation (ERROR 2), and touches no file for it",
    );
    let uploads = option(
        alloc,
        UPLOADS,
        "FOLDER",
        "Takes writes below this folder of ROOT alone, and makes its temporary files there",
    );
    let transfers = up_to_32_bits(alloc, TRANSFERS, "Ends after so many closed transfers");
    let rounds = up_to_32_bits(
        alloc,
        ROUNDS,
        "Ends after so many waits, each of a second at most",
    );
    let forever = flag(
        alloc,
        FOREVER,
        "Ends by no count of transfers or waits; not beside --transfers or --rounds",
    );
    let drain = option(
        alloc,
        DRAIN,
        "FILE",
        "Takes no new request once this file is there, and ends when no transfer is open",
    );
    Ok(vec![in alloc;
        overwrite,
        read_only,
        uploads,
        transfers.default_value("1"),
        rounds.default_value("1000000"),
        forever,
        drain,
    ]?)
}

/// The arguments for the number of servers, which of them this is, what is logged, and what is
/// counted.
fn servers_and_log<'a>(alloc: Global) -> Result<Vec<Arg<'a>>, AllocError>
    ensures { IfOk result (λ args. HaveRules servers_and_log args.items) }
{
    let server = up_to_64(
        alloc,
        SERVER,
        "Internal: number of this server of several, passed by --servers; with --listen stdin",
    );
    let log = flag(
        alloc,
        LOG,
        "Writes a line on standard error for each request and each close",
    );
    let log_time = flag(
        alloc,
        LOG_TIME,
        "Begins each line of --log with its time in UTC, to the millisecond",
    );
    let status = option(
        alloc,
        STATUS,
        "FILE",
        "Writes what the server has counted to this file, once a second at most, for Prometheus and people",
    );
    Ok(vec![in alloc; servers(alloc), server, log, log_time, status]?)
}

/// The argument for the number of servers.
fn servers<'a>(alloc: Global) -> Arg<'a>
    ensures { HasRule (by_default (codes "1") (option_rule (codes "servers"))) result }
{
    let servers = option(
        alloc,
        SERVERS,
        "1..64|auto",
        "Starts so many servers at one request port, for as many processors, or one for each; with --forever",
    );
    servers.default_value("1")
}
