//! Runs `tftp` by a command line.

ghost use Rattle.std.specs.Prelude.{◌≡◌, ◌≤◌, map};
ghost use Rattle.tftp_lines.specs.ClientOutcome.{status_of};
ghost use Rattle.tftp_sockets.specs.Quiet.{waits as waits_in};
ghost use Rattle.tftp_client.specs.Converses.{most_waits};
ghost use Rattle.tftp_client.specs.OnDisk.{StoresWords};
ghost use Rattle.tftp_client.specs.Sent.{DoesOrder, SendsWords};

use crate::cause::CauseLine;
use crate::command_line::{BlockTexts, CommandLine, ErrorOutput, read_words};
use crate::local::{FileOf, LocalFile, SourceOf};
use crate::transfer::{Failure, Job, MAX_WAITS, transfer};
use std::alloc::Global;
use std::convert::AsStr;
use std::io::IsTerminal;
use std::net::Net;
use std::rt::Runtime;
use tftp_arguments::{own_words, print_no_memory, print_words_fault};
use tftp_disk::laws::gives_in_order;
use tftp_disk::{Disk, LockFiles, Looks, SystemDisk};
use tftp_file::{Sink, Source};
use tftp_sockets::{ClientUdp, SystemUdp, Udp};

/// Runs `tftp` with the program's own command line, as [`tftp_words`] does, and returns its exit
/// status.
pub fn tftp_command<R: Runtime + LockFiles + AllocGlobal + Net, E: IsTerminal>(
    rt: &R,
    errors: &E,
) -> u8
    ensures { result ≤ 2 }
{
    match own_words(rt) {
        Ok(words) => tftp_words(rt, words.as_slice(), errors),
        Err(fault) => print_words_fault(rt, "tftp", fault),
    }
}

/// Runs `tftp` with a command line, and returns its exit status. The first word is the program's
/// name. `errors` is standard error; progress is shown only if it is a terminal.
///
/// `--help` and `--version` return 0. The status of a transfer is that of the [`ClientOutcome`]
/// whose line is printed, or 2 if the line of a complete one cannot be. The status is 2 for an
/// invalid command line, which is reported on standard error, when out of memory, and if the text
/// of `--help` or `--version` cannot be written.
pub fn tftp_words<R: Runtime + LockFiles + AllocGlobal + Net, S: AsStr, E: IsTerminal>(
    rt: &R,
    words: &[S],
    errors: &E,
) -> u8
    ensures { result ≤ 2 }
{
    let mut net = SystemUdp::new(rt);
    status_on(rt, &mut net, SystemDisk::new(rt), rt.alloc(), words, errors)
}

/// As [`tftp_on`], which returns the status alone.
fn status_on<P: Print + Eprint, N: ClientUdp, D: Disk, S: AsStr, E: IsTerminal>(
    rt: &P,
    net: &mut N,
    disk: D,
    alloc: Global,
    words: &[S],
    errors: &E,
) -> u8
    ensures { result ≤ 2 }
{
    let (status, _disk) = tftp_on(rt, net, disk, alloc, words, errors);
    status
}

/// As [`tftp_words`], over devices that keep their own traces; it hands the disk back. It did
/// nothing, as for `--help`, or the job that the words name: its direction, its endpoint, its
/// names, its mode and its options. Without a job the status is 0, just if the words ask for the
/// help or the version, or 2. With one it is 0 if the job is complete and its line was printed, 2 if
/// the system refused that line, 1 if the transfer was opened and failed, and 2 if none was opened.
/// All its runs and its dally make 1,000,000 waits at most. On the disk it changed no other name
/// than LOCAL and LOCAL.part, and none if it sends a file.
pub fn tftp_on<P: Print + Eprint, N: ClientUdp, D: Disk, S: AsStr, E: IsTerminal>(
    rt: &P,
    net: &mut N,
    disk: D,
    alloc: Global,
    words: &[S],
    errors: &E,
) -> (u8, D)
    ensures status { result.0 ≤ 2 }
    ensures runs { StoresWords
        ⟦<SourceOf<D> as Source>⟧.meaning ⟦<LocalFile<D> as Sink>⟧.meaning
        (map S.text words.now) result.0 (N.log net.old) (N.log net.new)
        (D.log disk) (D.log result.1) }
    ensures sends { SendsWords
        ⟦<SourceOf<D> as Source>⟧.meaning ⟦<LocalFile<D> as Sink>⟧.meaning
        (map S.text words.now) result.0 (N.log net.old) (N.log net.new) }
    ensures waits { waits_in (N.log net.new) ≤ most_waits (N.log net.old) }
{
    let Ok(texts) = BlockTexts::new(alloc) else {
        return (print_no_memory(rt, "tftp"), disk);
    };
    match read_words(rt, alloc, &texts, words, ErrorOutput::of(errors)) {
        Ok(CommandLine::Run(job)) => run_job(rt, net, alloc, &job, disk),
        Ok(CommandLine::Exit(status)) => (status, disk),
        Err(_) => (print_no_memory(rt, "tftp"), disk),
    }
}

/// Runs the transfer, prints its outcome, and returns the status.
fn run_job<E: Eprint, N: ClientUdp, D: Disk>(
    rt: &E,
    net: &mut N,
    alloc: Global,
    job: &Job<'_>,
    disk: D,
) -> (u8, D)
    ensures status { result.0 ≤ 2 }
    ensures runs { DoesOrder
        ⟦<SourceOf<D> as Source>⟧.meaning ⟦<LocalFile<D> as Sink>⟧.meaning
        job.now result.0 (N.log net.old) (N.log net.new) (D.log disk) (D.log result.1) }
    ensures waits { waits_in (N.log net.new) ≤ most_waits (N.log net.old) }
{
    gives_in_order::<FileOf<D>>();
    let mut waits = MAX_WAITS;
    let (ended, disk) = transfer(rt, net, alloc, job, disk, &mut waits);
    match ended {
        Ok(status) => (status, disk),
        Err(failure) => (report(rt, &failure, job), disk),
    }
}

/// Prints how a transfer failed, and its cause, and returns the status. It is the same if standard
/// error cannot be written.
fn report<R: Eprint>(rt: &R, failure: &Failure, job: &Job<'_>) -> u8
    ensures status { result ≡ status_of failure.now.end }
    ensures fails { (1 ≤ result) × (result ≤ 2) }
{
    if rt.eprintln(failure.end).is_ok()
        && let Some(cause) = &failure.cause
    {
        let _ = rt.eprintln(CauseLine { job, cause });
    }
    failure.end.status()
}
