//! A transfer over UDP, and a second one without options if the server refuses them.

mod asking;
mod concluding;
mod conversation;
mod failure;
mod notes;

ghost use Rattle.std.specs.Prelude.{◌≡◌, ◌≤◌, ◌+◌, ◌↔◌, IfOk, IfErr, IsTrue, false};
ghost use Rattle.tftp_negotiate.specs.declared.known.Kind.TheVariants.{Read, Write};
ghost use Rattle.tftp_disk.specs.DiskSource.{source_calls};
ghost use Rattle.tftp_ends.specs.End.{is_complete};
ghost use Rattle.tftp_ends.specs.Files.{AreFilesOf};
ghost use Rattle.tftp_lines.specs.declared.client_outcome.ClientOutcome.TheVariants as ends;
ghost use Rattle.tftp_sockets.specs.Quiet.{waits as waits_in};
ghost use Rattle.tftp_client.specs.Conversation.{IsReady, state_of};
ghost use Rattle.tftp_client.specs.Converses.{IsOpen};
ghost use Rattle.tftp_client.specs.OnDisk.{IsOut, KeepsDisk, LeavesTransfer, RunsTo, WritesOut};
ghost use Rattle.tftp_client.specs.Outbound.{HasLength};
ghost use Rattle.tftp_client.specs.Sent.{Finishes, IsOpenedAt, RunsOnce};
ghost use Rattle.tftp_client.specs.Stored.{HasDisk, IsReceived, count_of, stored};
ghost use Rattle.tftp_client.specs.Runs.{MayFallBack, plain};

use crate::cause::Cause;
use crate::local::{FileOf, LocalFile, SourceOf, read_error};
use crate::local_error::LocalError;
use crate::outbound::Outbound;
use crate::part_file::Place;
use crate::transfer::asking::{ask_to_get, ask_to_put};
use crate::transfer::concluding::conclude;
use crate::transfer::conversation::Conversation;
pub(crate) use crate::transfer::conversation::{MAX_WAITS, Progress};
pub(crate) use crate::transfer::failure::Failure;
use crate::without_options::fallback;
use std::alloc::Global;
use tftp_disk::{Disk, Existing, Looks, View};
use tftp_ends::{Backoff, EndConfig, Endpoint, Outcome};
use tftp_file::{Files, MAX_WIRE, Sink, Source};
use tftp_lines::ClientOutcome;
use tftp_negotiate::{Asked, Kind, Limits, MAX_BLOCK};
use tftp_sockets::{ClientUdp, Udp};
use tftp_wire::Mode;

/// What `tftp` is to transfer.
#[derive(Clone, Copy)]
pub(crate) struct Job<'a> {
    /// The direction of the transfer.
    pub(crate) kind: Kind,
    /// The server's request port.
    pub(crate) server: Endpoint,
    /// The name of the file at the server.
    pub(crate) name: &'a str,
    /// The path of the file here.
    pub(crate) local: &'a str,
    /// What becomes of a file there, if one is fetched.
    pub(crate) existing: Existing,
    /// The transfer mode.
    pub(crate) mode: Mode,
    /// The options to request. When a file is sent, its length replaces the value of `tsize`.
    pub(crate) asked: Asked,
    /// The limit of retransmissions of a datagram.
    pub(crate) retries: u8,
    /// How long the client waits for the server after timeouts.
    pub(crate) backoff: Backoff,
    /// Whether to try again without options if the server refuses them.
    pub(crate) falls_back: bool,
    /// Whether progress is shown on standard error.
    pub(crate) progress: Progress,
    /// Whether a receiver dallies to repeat its last acknowledgement.
    pub(crate) dallies: bool,
}

impl Job<'_> {
    /// The configuration of the end, with the largest limits.
    fn config(&self) -> EndConfig
        ensures limit { result.limits.max_file ≡ MAX_WIRE }
        ensures retries { result.retries ≡ self.now.retries }
    {
        EndConfig {
            limits: Limits {
                max_block: MAX_BLOCK,
                max_file: MAX_WIRE,
            },
            retries: self.retries,
        }
    }
}

/// Transfers a file, and returns the status of a complete transfer. It makes so many waits at most,
/// in both of its runs and in its dally.
pub(crate) fn transfer<E: Eprint, N: ClientUdp, D: Disk>(
    rt: &E,
    net: &mut N,
    alloc: Global,
    job: &Job<'_>,
    disk: D,
    waits: &mut u32,
) -> (Result<u8, Failure>, D)
    ensures ok { IfOk result.0 (λ status. Finishes
        ⟦<SourceOf<D> as Source>⟧.meaning ⟦<LocalFile<D> as Sink>⟧.meaning status
        (waits.old + waits_in (N.log net.old)) job.now (N.log net.old) (N.log net.new)
        (D.log result.1)) }
    ensures err { IfErr result.0 (λ failure. LeavesTransfer
        ⟦<SourceOf<D> as Source>⟧.meaning ⟦<LocalFile<D> as Sink>⟧.meaning
        (waits.old + waits_in (N.log net.old)) job.now (N.log net.old) (N.log net.new)
        (D.log result.1) failure.end) }
    ensures keeps { KeepsDisk job.now (D.log disk) (D.log result.1) }
    ensures within { waits_in (N.log net.new) ≤ waits.old + waits_in (N.log net.old) }
{
    let (ended, disk) = transfer_once(rt, net, alloc, job, disk, waits);
    let failure = match ended {
        Ok(status) => return (Ok(status), disk),
        Err(failure) => failure,
    };
    if !falls_back(job, failure.end) {
        return (Err(failure), disk);
    }
    transfer_once(rt, net, alloc, &plain(job), disk, waits)
}

/// Whether to try a job with this outcome again without options.
fn falls_back(job: &Job<'_>, end: ClientOutcome) -> bool
    ensures { IsTrue result ↔ MayFallBack job.now end }
{
    match end {
        ClientOutcome::Failed(outcome) => job.falls_back && fallback(outcome, &job.asked),
        _ => false,
    }
}

/// The job without options.
fn plain<'a>(job: &Job<'a>) -> Job<'a>
    ensures { result ≡ plain job.now }
{
    Job {
        asked: Asked {
            blksize: None,
            timeout: None,
            tsize: None,
        },
        ..*job
    }
}

/// Runs one transfer, on a new socket.
fn transfer_once<E: Eprint, N: ClientUdp, D: Disk>(
    rt: &E,
    net: &mut N,
    alloc: Global,
    job: &Job<'_>,
    disk: D,
    waits: &mut u32,
) -> (Result<u8, Failure>, D)
    ensures { RunsOnce ⟦<SourceOf<D> as Source>⟧.meaning ⟦<LocalFile<D> as Sink>⟧.meaning
        (waits.old + waits_in (N.log net.old)) waits.new job.now.kind job.now result.0
        (N.log net.old) (N.log net.new) (D.log disk) (D.log result.1) }
{
    match job.kind {
        Kind::Read => get(rt, net, alloc, job, disk, waits),
        Kind::Write => {
            let ended = put(rt, net, alloc, job, &disk, waits);
            (ended, disk)
        }
    }
}

/// Fetches a file.
fn get<E: Eprint, N: ClientUdp, D: Disk>(
    rt: &E,
    net: &mut N,
    alloc: Global,
    job: &Job<'_>,
    mut disk: D,
    waits: &mut u32,
) -> (Result<u8, Failure>, D)
    ensures { RunsOnce ⟦<SourceOf<D> as Source>⟧.meaning ⟦<LocalFile<D> as Sink>⟧.meaning
        (waits.old + waits_in (N.log net.old)) waits.new Read job.now result.0
        (N.log net.old) (N.log net.new) (D.log disk) (D.log result.1) }
{
    let place = match Place::of(&mut disk, alloc, job.local, job.existing) {
        Ok(place) => place,
        Err(error) => return (Err(Failure::of_file(error)), disk),
    };
    let local = LocalFile::new(disk, alloc, place);
    let conversation = match ask_to_get(net, alloc, job) {
        Ok(conversation) => conversation,
        Err(failure) => return (Err(failure), local.into_disk()),
    };
    let mut files: Files<SourceOf<D>, LocalFile<D>> = Files::Sink(local);
    let ended = converse(rt, net, conversation, &mut files, 0, job, waits);
    (ended, disk_of(files))
}

/// The disk of a received file.
fn disk_of<S: Drop, D: Disk>(files: Files<S, LocalFile<D>>) -> D
    requires { IsReceived files }
    ensures { HasDisk files result }
{
    match files {
        Files::Sink(local) => local.into_disk(),
        Files::Source(_) => unreachable!(),
    }
}

/// Sends a file.
fn put<E: Eprint, N: ClientUdp, D: Disk>(
    rt: &E,
    net: &mut N,
    alloc: Global,
    job: &Job<'_>,
    disk: &D,
    waits: &mut u32,
) -> Result<u8, Failure>
    ensures { RunsOnce ⟦<SourceOf<D> as Source>⟧.meaning ⟦<LocalFile<D> as Sink>⟧.meaning
        (waits.old + waits_in (N.log net.old)) waits.new Write job.now result
        (N.log net.old) (N.log net.new) (D.log disk.now) (D.log disk.now) }
{
    let outbound = match open_outbound(disk, alloc, job) {
        Ok(outbound) => outbound,
        Err(error) => return Err(Failure::of_file(error)),
    };
    let Outbound { source, length } = outbound;
    match ask_to_put(net, alloc, job, length.wire_bytes) {
        Ok(conversation) => {
            let mut files: Files<SourceOf<D>, LocalFile<D>> = Files::Source(source);
            converse(rt, net, conversation, &mut files, length.bytes, job, waits)
        }
        Err(failure) => Err(failure),
    }
}

/// Opens the file of a job that sends it.
fn open_outbound<D: Disk>(
    disk: &D,
    alloc: Global,
    job: &Job<'_>,
) -> Result<Outbound<FileOf<D>>, LocalError>
    ensures opened { IfOk result (λ outbound.
        IsOpenedAt job.now.local.now job.now.mode outbound.source) }
    ensures long { IfOk result (λ outbound. outbound.length.wire_bytes ≤ MAX_WIRE
        → HasLength job.now.mode outbound.length.bytes outbound.length.wire_bytes
        (source_calls outbound.source)) }
{
    Outbound::open(&mut disk.view(), alloc, job.local, job.mode)
}

/// Runs a transfer until it is complete or fails, and concludes a complete one. `sent` is the
/// length of a local file that is sent, in bytes.
fn converse<E: Eprint, N: ClientUdp, D: Disk>(
    rt: &E,
    net: &mut N,
    mut conversation: Conversation,
    files: &mut Files<SourceOf<D>, LocalFile<D>>,
    sent: u64,
    job: &Job<'_>,
    waits: &mut u32,
) -> Result<u8, Failure>
    requires files { AreFilesOf conversation.end.role.side files.old }
    requires not_closed { IsOpen conversation.end }
    requires incomplete { is_complete conversation.end.position.phase ≡ false }
    requires ready { IsReady conversation }
    ensures { RunsTo ⟦<SourceOf<D> as Source>⟧.meaning ⟦<LocalFile<D> as Sink>⟧.meaning
        job.now.dallies (waits.old + waits_in (N.log net.old)) waits.new conversation.socket.port
        (state_of conversation (N.log net.old)) files.old sent (N.log net.new) files.new result }
{
    let ended = conversation.run(rt, net, files, waits);
    conversation.finish(rt, stored(files));
    match ended {
        Ok(()) => {
            let count = count_of(files, sent);
            Ok(conclude(rt, net, conversation, files, count, job, *waits))
        }
        Err(outcome) => {
            write_out(files);
            Err(failed(outcome, files, conversation.into_cause(outcome)))
        }
    }
}

/// Writes what is buffered of a received file, which stays under its other name.
fn write_out<D: Disk>(files: &mut Files<SourceOf<D>, LocalFile<D>>)
    ensures works { WritesOut
        ⟦<SourceOf<D> as Source>⟧.meaning ⟦<LocalFile<D> as Sink>⟧.meaning files.old files.new }
    ensures out { IsOut files.new }
{
    match files {
        Files::Sink(local) => local.write_out(),
        Files::Source(_) => {}
    }
}

/// The number of bytes appended to a received file.
fn stored<S, D: Disk>(files: &Files<S, LocalFile<D>>) -> Option<u64>
    ensures { result ≡ stored files.now }
{
    match files {
        Files::Sink(local) => Some(local.count()),
        Files::Source(_) => None,
    }
}

/// The length of a file here, in bytes: of what was appended to a received one, or `sent`.
fn count_of<S, D: Disk>(files: &Files<S, LocalFile<D>>, sent: u64) -> u64
    ensures { result ≡ count_of sent files.now }
{
    match files {
        Files::Sink(local) => local.count(),
        Files::Source(_) => sent,
    }
}

/// A transfer that failed with this outcome. Its cause is an error of the local file, if there was
/// one.
fn failed<D: Disk>(
    outcome: Outcome,
    files: &Files<SourceOf<D>, LocalFile<D>>,
    cause: Cause,
) -> Failure
    ensures { result.end ≡ ends.Failed outcome }
{
    let error = match files {
        Files::Sink(local) => local.error(),
        Files::Source(source) => read_error(source),
    };
    Failure {
        end: ClientOutcome::Failed(outcome),
        cause: Some(match error {
            Some(error) => Cause::File(error),
            None => cause,
        }),
    }
}
