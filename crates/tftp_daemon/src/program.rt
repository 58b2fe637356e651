//! Runs `tftpd` by a command line.

ghost use Rattle.std.specs.Prelude.{◌≡◌, ◌≤◌, IfSome, None, map};
ghost use Rattle.tftp_server.specs.Config.{IsConfig};
ghost use Rattle.tftp_daemon.specs.CommandLine.{IfExit, IfRun};
ghost use Rattle.tftp_daemon.specs.Configured.{MayServe, ServesWords, daemon_status};
ghost use Rattle.tftp_daemon.specs.Reported.{ReportsWords};
ghost use Rattle.tftp_daemon.specs.Reports.{IsReportOf};
ghost use Rattle.tftp_daemon.specs.Supervised.{MaySupervise, SupervisesWords};

use crate::command_line::{CommandLine, read_words};
use crate::daemon::{DaemonConfig, DaemonFault, StatusFault, serve};
use crate::host::{Devices, Host};
use crate::listen::Listen;
use crate::options::Texts;
use crate::shown::Shown;
use crate::surroundings::Surroundings;
use std::convert::AsStr;
use std::net::Net;
use std::process::ExitStatus;
use std::random::RandomSource;
use std::rt::Runtime;
use std::time::Clock;
use std::{fmt, io};
use tftp_arguments::{own_words, print_no_memory, print_words_fault};
use tftp_disk::{Disk, LockFiles, SystemDisk};
use tftp_file::Source;
use tftp_folder::{FolderSource, FolderStore};
use tftp_lines::Reason;
use tftp_loop::LoopFault;
use tftp_server::Store;
use tftp_service::{HandedFault, Input};
use tftp_sockets::{ErrorLines, ServerUdp, SystemUdp, WholeLines};
use tftp_status::UnusedDisk;
use tftp_supervisor::Supervise;

/// What is refused if a server of several does not start.
const START: &str = "a server did not start";

/// What is refused if lines cannot be written, or nobody reads them.
const OUTPUT: &str = "standard output";

/// Runs `tftpd` with the program's own command line, and this standard input, and returns its status.
///
/// See [`tftpd_words`].
pub fn tftpd_command<
    R: Runtime + LockFiles + AllocGlobal + Net + RandomSource + ErrorLines + Supervise,
>(rt: &R, input: Input) -> u8
    ensures { result ≤ 2 }
{
    match own_words(rt) {
        Ok(words) => tftpd_words(rt, words.as_slice(), input),
        Err(fault) => print_words_fault(rt, "tftpd", fault),
    }
}

/// Runs `tftpd` by a command line, and returns its status. The first word is the program's name.
///
/// `--help` and `--version` print and return 0. The status is 2 for a command line that is not
/// understood, a root or an `--uploads` that is no folder, a port that cannot be bound, a standard
/// input that is no request port where it is to be one, and output that cannot be written, each
/// reported on standard error, and when out of memory. A second line names the folder or the address
/// that was refused, and why.
pub fn tftpd_words<
    R: Runtime + LockFiles + AllocGlobal + Net + RandomSource + ErrorLines + Supervise,
    S: AsStr,
>(rt: &R, words: &[S], input: Input) -> u8
    ensures { result ≤ 2 }
{
    let host = Host {
        rt,
        alloc: rt.alloc(),
        net: SystemUdp::new(rt),
        served: SystemDisk::new(rt),
        counts: UnusedDisk::new(SystemDisk::new(rt)),
    };
    status_on(host, words, input, Surroundings::of(rt, words))
}

/// As [`tftpd_on`], which returns the status alone.
fn status_on<
    P: Print + ErrorLines + Clock + Supervise,
    N: ServerUdp + Eprint + Drop,
    D: Disk,
    S: AsStr,
>(host: Host<'_, P, N, D>, words: &[S], input: Input, surroundings: Surroundings) -> u8
    ensures { result ≤ 2 }
{
    let (status, _devices) = tftpd_on(host, words, input, surroundings);
    status
}

/// As [`tftpd_words`], on this host: it does nothing over UDP, as for `--help`, or runs one server with
/// the configuration that the words name. With a status of 0 that server served to its end, or the
/// words ask for the help or the version, or for several servers: then their supervisor has started
/// each of them, and each has ended with status 0. If it reports, it does so in the file that the words
/// name (`laws::a_run_reports_in_its_file_alone`).
pub fn tftpd_on<
    P: Print + ErrorLines + Clock + Supervise,
    N: ServerUdp + Eprint,
    D: Disk,
    S: AsStr,
>(
    host: Host<'_, P, N, D>,
    words: &[S],
    input: Input,
    surroundings: Surroundings,
) -> (u8, Devices<N, D>)
    ensures status { result.0 ≤ 2 }
    ensures runs { ServesWords D.log (D.log host.entry.served) ⟦<FolderStore<D> as Store>⟧.meaning
        ⟦<FolderSource<D::View> as Source>⟧.meaning (map S.text words.now) result.0
        (N.log host.entry.net) (N.log result.1.net) }
    ensures several { SupervisesWords P.supervised (map S.text words.now) result.0 }
    ensures reports { IfSome result.1.reporting.report
        (λ report. ReportsWords (map S.text words.now) report.status) }
{
    let Ok(texts) = Texts::new(host.alloc) else {
        return (print_no_memory(host.rt, "tftpd"), host.into_devices());
    };
    match read_words(host.rt, host.alloc, &texts, words, surroundings) {
        Ok(line) => serve_command_line(host, &line, input),
        Err(_) => (print_no_memory(host.rt, "tftpd"), host.into_devices()),
    }
}

/// Does what the command line has the program do: serves by a configuration, and reports a fault.
fn serve_command_line<P: Print + ErrorLines + Clock + Supervise, N: ServerUdp + Eprint, D: Disk>(
    host: Host<'_, P, N, D>,
    line: &CommandLine<'_>,
    input: Input,
) -> (u8, Devices<N, D>)
    requires config { IfRun line.now (λ config. IsConfig config.config) }
    requires status { IfExit line.now (λ status. status ≤ 2) }
    ensures status { result.0 ≤ 2 }
    ensures same { IfExit line.now (λ status. result.0 ≡ status) }
    ensures runs { IfRun line.now (λ config. MayServe D.log (D.log host.entry.served)
        ⟦<FolderStore<D> as Store>⟧.meaning ⟦<FolderSource<D::View> as Source>⟧.meaning config
        result.0 (N.log host.entry.net) (N.log result.1.net)) }
    ensures several { IfRun line.now (λ config. MaySupervise P.supervised config result.0) }
    ensures reports { IfRun line.now (λ config. IfSome result.1.reporting.report
        (λ report. IsReportOf config report.status)) }
    ensures none { IfExit line.now (λ _. N.log result.1.net ≡ N.log host.entry.net) }
    ensures unreported { IfExit line.now (λ _. result.1.reporting.report ≡ None) }
{
    match line {
        CommandLine::Run(config) => {
            let rt = host.rt;
            let (served, devices) = serve(host, config, input);
            (report(rt, config, served), devices)
        }
        CommandLine::Exit(status) => (*status, host.into_devices()),
    }
}

/// Prints the fault, if there is one, and returns the status. A server of several whose supervisor
/// has gone says nothing: nobody asked it, and a shell shows its prompt by then.
fn report<R: ErrorLines>(
    rt: &R,
    config: &DaemonConfig<'_>,
    served: std::result::Result<(), DaemonFault>,
) -> u8
    ensures { result ≡ daemon_status served }
{
    match served {
        Ok(()) => 0,
        Err(fault) => {
            let mark = Mark(config.instance.server);
            if !mark.is_left_by_supervisor(fault) {
                let _ = print_fault(&WholeLines::new(rt), config, mark, fault);
            }
            2
        }
    }
}

/// Which of several servers a line is of, before the line; nothing for one that is alone.
#[derive(Clone, Copy)]
struct Mark(Option<u8>);

impl Mark {
    /// Whether a server ends because its supervisor, which reads what it prints, has gone.
    fn is_left_by_supervisor(self, fault: DaemonFault) -> bool {
        match fault {
            DaemonFault::Loop(LoopFault::Output | LoopFault::NoReader) => self.0.is_some(),
            _ => false,
        }
    }
}

impl fmt::Display for Mark {
    fn fmt<W: fmt::Write>(&self, f: &mut fmt::Formatter<W>) -> fmt::Result {
        match self.0 {
            Some(server) => write!(f, "server {server}: "),
            None => Ok(()),
        }
    }
}

/// Prints a fault. A second line has what was refused, and why, if that is known.
fn print_fault<R: Eprint>(
    rt: &R,
    config: &DaemonConfig<'_>,
    mark: Mark,
    fault: DaemonFault,
) -> io::Result<()> {
    eprintln!(rt; "{mark}tftpd: {}", name_of(fault))?;
    match refused(config, fault) {
        Some((subject, cause)) => eprintln!(rt; "{mark}tftpd: {subject}: {cause}"),
        None => Ok(()),
    }
}

/// What was refused.
#[derive(Clone, Copy)]
enum Subject<'a> {
    /// What these words say.
    Named(&'static str),
    /// A path, behind the option that it is of.
    Path(&'static str, &'a str),
    /// The socket where requests arrive.
    Requests(Listen),
    /// This server of several.
    Server(u8),
}

impl fmt::Display for Subject<'_> {
    fn fmt<W: fmt::Write>(&self, f: &mut fmt::Formatter<W>) -> fmt::Result {
        match *self {
            Subject::Named(words) => f.write_str(words),
            Subject::Path(option, path) => write!(f, "{option}{}", Shown(path)),
            Subject::Requests(listen) => write!(f, "{listen}"),
            Subject::Server(server) => write!(f, "server {server}"),
        }
    }
}

/// Why it was refused.
#[derive(Clone, Copy)]
enum Cause {
    /// As these words say.
    Words(&'static str),
    /// For this reason, with a note behind it.
    Reason(Reason, &'static str),
    /// Standard input is no request port.
    Handed(HandedFault),
    /// The server ended so.
    Ended(ExitStatus),
}

impl fmt::Display for Cause {
    fn fmt<W: fmt::Write>(&self, f: &mut fmt::Formatter<W>) -> fmt::Result {
        match *self {
            Cause::Words(words) => f.write_str(words),
            Cause::Reason(reason, note) => write!(f, "{reason}{note}"),
            Cause::Handed(fault) => write!(f, "{fault}"),
            Cause::Ended(status) => write!(f, "{status}"),
        }
    }
}

/// What a fault refused, and why; `None` of one whose name says all.
fn refused<'a>(config: &DaemonConfig<'a>, fault: DaemonFault) -> Option<(Subject<'a>, Cause)> {
    let refused = match fault {
        DaemonFault::Root(reason) => (Subject::Path("", config.root), Cause::Reason(reason, "")),
        DaemonFault::Uploads(reason) => {
            let folder = config.uploads.unwrap_or("");
            (
                Subject::Path("--uploads ", folder),
                Cause::Reason(reason, note_on(folder)),
            )
        }
        DaemonFault::Status(fault) => {
            let file = config.status.unwrap_or("");
            (
                Subject::Path("--status ", file),
                Cause::Words(why_not(fault)),
            )
        }
        DaemonFault::Handed(fault) => (Subject::Requests(config.listen), Cause::Handed(fault)),
        DaemonFault::Bind(at, reason) => {
            (Subject::Requests(Listen::At(at)), Cause::Reason(reason, ""))
        }
        DaemonFault::Loop(fault) => return refused_in_loop(config.listen, fault),
        DaemonFault::Program(reason) => {
            (
                Subject::Named("--servers: /proc/self/exe"),
                Cause::Reason(reason, ""),
            )
        }
        DaemonFault::Start(reason) => (Subject::Named(START), Cause::Reason(reason, "")),
        DaemonFault::Server(server, status) => (Subject::Server(server), Cause::Ended(status)),
        DaemonFault::Words => (Subject::Named(START), Cause::Words("its words")),
        DaemonFault::Memory => return None,
    };
    Some(refused)
}

/// As [`refused`], of a fault while a server served.
fn refused_in_loop<'a>(listen: Listen, fault: LoopFault) -> Option<(Subject<'a>, Cause)> {
    match fault {
        LoopFault::Socket(reason) => Some((Subject::Requests(listen), Cause::Reason(reason, ""))),
        LoopFault::Output => Some((Subject::Named(OUTPUT), Cause::Words("cannot be written"))),
        LoopFault::NoReader => {
            Some((
                Subject::Named(OUTPUT),
                Cause::Words("nobody reads it any more"),
            ))
        }
        LoopFault::Memory => None,
    }
}

/// The name of a fault.
fn name_of(fault: DaemonFault) -> &'static str {
    match fault {
        DaemonFault::Root(_) | DaemonFault::Uploads(_) | DaemonFault::Status(_) => "file fault",
        DaemonFault::Handed(_) | DaemonFault::Bind(..) | DaemonFault::Loop(LoopFault::Socket(_)) =>
            { "socket fault" }
        DaemonFault::Loop(LoopFault::Output | LoopFault::NoReader) => "output fault",
        DaemonFault::Program(_)
        | DaemonFault::Start(_)
        | DaemonFault::Server(..)
        | DaemonFault::Words => "server fault",
        DaemonFault::Memory | DaemonFault::Loop(LoopFault::Memory) => "out of memory",
    }
}

/// Why a status file cannot be where it is to be.
fn why_not(fault: StatusFault) -> &'static str {
    match fault {
        StatusFault::InRoot => "in ROOT or below it",
        StatusFault::Drain => "of this server it would be the file of --drain",
    }
}

/// What is noted of a folder that takes no uploads: an absolute one is named below ROOT, as clients name
/// files.
fn note_on(folder: &str) -> &'static str {
    if folder.starts_with('/') {
        " (an absolute FOLDER is below ROOT, too)"
    } else {
        ""
    }
}
