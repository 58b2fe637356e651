//! Several servers, at one address or at several: their command lines, and their supervisor.

ghost use Rattle.std.specs.Prelude.{◌≡◌, ◌++◌, ◌∷◌, [], length, map, IfOk, IsTrue, OnOk};
ghost use Rattle.std.specs.String.{string_bytes};
ghost use Rattle.tftp_daemon.specs.Configured.{servers_of};
ghost use Rattle.tftp_daemon.specs.Servers.{NamesServerOf};
ghost use Rattle.tftp_daemon.specs.Supervised.{AreServerLines, Supervised};

use crate::command_line::{CommandLine, read_words};
use crate::daemon::{DaemonConfig, DaemonFault};
use crate::error_output::ErrorOutput;
use crate::options::Texts;
use crate::places::places_of;
use crate::server_config::is_server;
use crate::server_words::words_of;
use crate::surroundings::Surroundings;
use std::alloc::Global;
use std::convert::AsStr;
use std::time::Clock;
use tftp_lines::reason_of;
use tftp_loop::LoopFault;
use tftp_service::Input;
use tftp_supervisor::{Supervise, SupervisorFault};

/// Starts the servers of a configuration, so many at each address, and supervises them until they
/// have ended.
pub(crate) fn supervise<R: Supervise + Clock + Print + Eprint>(
    rt: &R,
    alloc: Global,
    config: &DaemonConfig<'_>,
    input: Input,
) -> Result<(), DaemonFault>
    ensures { OnOk result (Supervised R.supervised config.now) }
{
    let places = places_of(rt, alloc, config, input)?;
    let servers = command_lines(rt, alloc, config)?;
    let (ended, _history) = rt.supervise(places.as_slice(), servers.as_slice());
    match ended {
        Ok(()) => Ok(()),
        Err(fault) => Err(fault_of(fault)),
    }
}

/// The fault of a supervisor.
fn fault_of(fault: SupervisorFault) -> DaemonFault {
    match fault {
        SupervisorFault::Ended(server, status) => DaemonFault::Server(server, status),
        SupervisorFault::Program(error) => DaemonFault::Program(reason_of(&error)),
        SupervisorFault::System(error) => DaemonFault::Start(reason_of(&error)),
        SupervisorFault::Output => DaemonFault::Loop(LoopFault::Output),
        SupervisorFault::Memory => DaemonFault::Memory,
    }
}

/// The command lines of the servers of a configuration.
fn command_lines<P: Print + Eprint>(
    rt: &P,
    alloc: Global,
    config: &DaemonConfig<'_>,
) -> Result<Vec<Vec<String>>, DaemonFault>
    ensures count { IfOk result (λ lines. length lines.items ≡ servers_of config.now) }
    ensures named { IfOk result (λ lines. AreServerLines config.now
        (map (λ line. map string_bytes line.items) lines.items)) }
{
    let texts = Texts::new(alloc)?;
    let mut lines = Vec::new(alloc);
    match add_lines(rt, alloc, &texts, config, &mut lines) {
        Ok(()) => Ok(lines),
        Err(fault) => Err(fault),
    }
}

/// Adds the command line of each server.
fn add_lines<P: Print + Eprint>(
    rt: &P,
    alloc: Global,
    texts: &Texts,
    config: &DaemonConfig<'_>,
    lines: &mut Vec<Vec<String>>,
) -> Result<(), DaemonFault>
    requires { lines.old.items ≡ [] }
    ensures count { OnOk result (length lines.new.items ≡ servers_of config.now) }
    ensures named { OnOk result (AreServerLines config.now
        (map (λ line. map string_bytes line.items) lines.new.items)) }
{
    let Some(count) = config.servers() else {
        return Err(DaemonFault::Words);
    };
    for before in 0..count {
        let line = command_line_of(rt, alloc, texts, config, before + 1)?;
        add_line(lines, line)?;
    }
    Ok(())
}

/// Adds a command line.
fn add_line(lines: &mut Vec<Vec<String>>, line: Vec<String>) -> Result<(), DaemonFault>
    ensures { OnOk result (lines.new.items ≡ lines.old.items ++ line ∷ []) }
{
    match lines.push(line) {
        Ok(()) => Ok(()),
        Err(_) => Err(DaemonFault::Memory),
    }
}

/// The command line of a server, which names its configuration: it is read, and compared.
fn command_line_of<P: Print + Eprint>(
    rt: &P,
    alloc: Global,
    texts: &Texts,
    config: &DaemonConfig<'_>,
    server: u8,
) -> Result<Vec<String>, DaemonFault>
    ensures { IfOk result (λ words. NamesServerOf config.now server
        (map ⟦<String as AsStr>⟧.text words.items)) }
{
    let words = words_of(alloc, config, server)?;
    if names(rt, alloc, texts, config, server, words.as_slice()) {
        Ok(words)
    } else {
        Err(DaemonFault::Words)
    }
}

/// Whether these words name a server of the configuration.
fn names<P: Print + Eprint>(
    rt: &P,
    alloc: Global,
    texts: &Texts,
    config: &DaemonConfig<'_>,
    server: u8,
    words: &[String],
) -> bool
    ensures { IsTrue result → NamesServerOf config.now server
        (map ⟦<String as AsStr>⟧.text words.now) }
{
    let surroundings = Surroundings {
        errors: ErrorOutput::Other,
        processors: 1,
    };
    match read_words(rt, alloc, texts, words, surroundings) {
        Ok(CommandLine::Run(own)) => is_server(&own, config, server),
        _ => false,
    }
}
