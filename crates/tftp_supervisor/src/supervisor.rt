//! Starts servers, and prints their lines until they have ended.

ghost use Rattle.std.specs.Prelude.{◌≡◌, ◌+◌, ◌<◌, ◌∷◌, [], false, true, length, map, All};
ghost use Rattle.std.specs.Prelude.{IsTrue, IfOk, Ok, OnErr, OnOk, Some, pos, suc};
ghost use Rattle.std.specs.Process.{exit_code};
ghost use Rattle.std.specs.String.{string_bytes};
ghost use Rattle.std.specs.declared.process.status.ExitStatus.{ExitStatus};
ghost use Rattle.tftp_supervisor.specs.Lines.{HasNoEnd};
ghost use Rattle.tftp_supervisor.specs.Output.{lines_in};
ghost use Rattle.tftp_supervisor.specs.PassedOn.{AlwaysPassedOn, PassedOn};
ghost use Rattle.tftp_supervisor.specs.ProcessEvent.{AllSucceeded, EachEnded, IsStarted};
ghost use Rattle.tftp_supervisor.specs.ProcessEvent.{StartsFirst, after_print, started_in};
ghost use Rattle.tftp_supervisor.specs.ProcessEvent.ProcessEvent.{Closed, Ended, Started};
ghost use Rattle.tftp_supervisor.specs.Watching.{GoesOn, IsCounted, IsStarting, IsWatching, ReadsOutput};

use crate::output::Output;
use crate::processes::ServerProcesses;
use crate::supervisor_fault::SupervisorFault;
use std::alloc::Global;
use std::io::{self, ErrorKind};

/// The most bytes that are read of an output at once.
const MOST_READ: usize = 4096;

/// Starts a server for each of these command lines, and prints their lines until they have ended.
pub(crate) fn supervise<P: ServerProcesses>(
    processes: &mut P,
    alloc: Global,
    servers: &[Vec<String>],
) -> Result<(), SupervisorFault>
    requires { P.log processes.old ≡ [] }
    ensures started { StartsFirst (map (λ line. map string_bytes line.items) servers.now)
        (P.log processes.new) }
    ensures all { OnOk result (started_in (P.log processes.new)
        ≡ map (λ line. map string_bytes line.items) servers.now) }
    ensures ended { EachEnded (P.log processes.new) }
    ensures succeeded { OnOk result (AllSucceeded (length servers.now) (P.log processes.new)) }
    ensures passed { OnOk result (PassedOn (P.log processes.new)) }
    ensures always { AlwaysPassedOn (P.log processes.new) }
{
    let mut supervisor = Supervisor::new(alloc);
    match supervisor.run(processes, servers) {
        Ok(()) => Ok(()),
        Err(fault) => {
            end_all(processes, supervisor.count);
            Err(fault)
        }
    }
}

/// A server whose output is printed.
#[derive(Drop)]
struct WatchedServer {
    output: Output,
    /// Whether it has closed its output, and ended with the status 0.
    has_ended: bool,
}

/// The servers, and what is printed of their output.
#[derive(Drop)]
struct Supervisor {
    alloc: Global,
    servers: Vec<WatchedServer>,
    /// How many servers were started.
    count: u8,
    /// The first lines of servers, which say where they listen.
    announced: Vec<Vec<u8>>,
    /// What is printed next.
    out: Vec<u8>,
}

impl Supervisor {
    /// A supervisor without servers.
    fn new(alloc: Global) -> Supervisor
        ensures { IsStarting [] result }
    {
        Supervisor {
            alloc,
            servers: Vec::new(alloc),
            count: 0,
            announced: Vec::new(alloc),
            out: Vec::new(alloc),
        }
    }

    /// Starts the servers, and prints their lines until they have ended.
    fn run<P: ServerProcesses>(
        &mut self,
        processes: &mut P,
        servers: &[Vec<String>],
    ) -> Result<(), SupervisorFault>
        requires nothing { P.log processes.old ≡ [] }
        requires starting { IsStarting (P.log processes.old) self.old }
        ensures count { self.new.count ≡ length (started_in (P.log processes.new)) }
        ensures started { StartsFirst (map (λ line. map string_bytes line.items) servers.now)
            (P.log processes.new) }
        ensures all { OnOk result (started_in (P.log processes.new)
            ≡ map (λ line. map string_bytes line.items) servers.now) }
        ensures succeeded { OnOk result (AllSucceeded (length servers.now)
            (P.log processes.new)) }
        ensures passed { OnOk result (PassedOn (P.log processes.new)) }
        ensures always { AlwaysPassedOn (P.log processes.new) }
    {
        match self.start_all(processes, servers) {
            Ok(()) => self.watch(processes),
            Err(fault) => Err(fault),
        }
    }

    /// Starts the servers.
    fn start_all<P: ServerProcesses>(
        &mut self,
        processes: &mut P,
        servers: &[Vec<String>],
    ) -> Result<(), SupervisorFault>
        requires nothing { P.log processes.old ≡ [] }
        requires starting { IsStarting (P.log processes.old) self.old }
        ensures starting { OnOk result (IsStarting (P.log processes.new) self.new) }
        ensures all { OnOk result (started_in (P.log processes.new)
            ≡ map (λ line. map string_bytes line.items) servers.now) }
        ensures count { self.new.count ≡ length (started_in (P.log processes.new)) }
        ensures started { StartsFirst (map (λ line. map string_bytes line.items) servers.now)
            (P.log processes.new) }
        ensures always { AlwaysPassedOn (P.log processes.new) }
    {
        for line in servers {
            self.start(processes, line.as_slice())?;
        }
        Ok(())
    }

    /// Starts one more server.
    fn start<P: ServerProcesses>(
        &mut self,
        processes: &mut P,
        line: &[String],
    ) -> Result<(), SupervisorFault>
        requires { IsStarting (P.log processes.old) self.old }
        ensures starting { OnOk result (IsStarting (P.log processes.new) self.new) }
        ensures ok { OnOk result (P.log processes.new
            ≡ Started (map string_bytes line.now) ∷ P.log processes.old) }
        ensures err { OnErr result (P.log processes.new ≡ P.log processes.old) }
        ensures count { OnErr result (self.new.count ≡ self.old.count) }
    {
        let Some(server) = self.count.checked_add(1) else {
            return Err(SupervisorFault::of(io::Error::from(ErrorKind::InvalidInput)));
        };
        let watched = WatchedServer {
            output: Output::new(self.alloc, server),
            has_ended: false,
        };
        if self.servers.push(watched).is_err() {
            return Err(SupervisorFault::Memory);
        }
        match processes.start(line) {
            Ok(()) => {
                self.count = server;
                Ok(())
            }
            Err(error) => Err(SupervisorFault::of(error)),
        }
    }

    /// Prints the servers' lines, until they have ended.
    fn watch<P: ServerProcesses>(&mut self, processes: &mut P) -> Result<(), SupervisorFault>
        requires { IsStarting (P.log processes.old) self.old }
        ensures passed { OnOk result (PassedOn (P.log processes.new)) }
        ensures goes_on { GoesOn (P.log processes.old) (P.log processes.new) }
        ensures count { self.new.count ≡ self.old.count }
        ensures succeeded { OnOk result (AllSucceeded self.old.count (P.log processes.new)) }
    {
        let mut reported = Vec::new(self.alloc);
        for _ in 0..u64::MAX {
            if self.has_all_ended() {
                return Ok(());
            }
            self.read_reported(processes, &mut reported)?;
        }
        Err(SupervisorFault::of(io::Error::from(ErrorKind::TimedOut)))
    }

    /// Whether each server has ended with the status 0.
    fn has_all_ended(&self) -> bool
        ensures { IsTrue result → All (λ server. server.has_ended ≡ true) self.now.servers.items }
    {
        self.servers.iter().all(|server| server.has_ended)
    }

    /// Waits, and reads of each output that is reported, once.
    fn read_reported<P: ServerProcesses>(
        &mut self,
        processes: &mut P,
        reported: &mut Vec<u8>,
    ) -> Result<(), SupervisorFault>
        requires { IsWatching (P.log processes.old) self.old }
        ensures watching { OnOk result (IsWatching (P.log processes.new) self.new) }
        ensures goes_on { GoesOn (P.log processes.old) (P.log processes.new) }
        ensures count { self.new.count ≡ self.old.count }
    {
        if let Err(error) = processes.wait(reported) {
            return Err(SupervisorFault::of(error));
        }
        for server in reported.iter() {
            self.read_from(processes, *server)?;
        }
        Ok(())
    }

    /// Reads of the output of this server, once, and prints the lines that end in it.
    fn read_from<P: ServerProcesses>(
        &mut self,
        processes: &mut P,
        server: u8,
    ) -> Result<(), SupervisorFault>
        requires { IsWatching (P.log processes.old) self.old }
        ensures watching { OnOk result (IsWatching (P.log processes.new) self.new) }
        ensures goes_on { GoesOn (P.log processes.old) (P.log processes.new) }
        ensures count { self.new.count ≡ self.old.count }
    {
        self.out.clear();
        let index = usize::from(server).saturating_sub(1);
        let Some(watched) = self.servers.get_mut(index) else {
            return Ok(());
        };
        read_of(processes, watched, &mut self.announced, &mut self.out)?;
        print(processes, self.out.as_slice())
    }
}

/// Reads of a server's output, once, and adds to `out` what is printed of the lines that end in it.
fn read_of<P: ServerProcesses>(
    processes: &mut P,
    server: &mut WatchedServer,
    announced: &mut Vec<Vec<u8>>,
    out: &mut Vec<u8>,
) -> Result<(), SupervisorFault>
    requires out { out.old.items ≡ [] }
    requires begun { HasNoEnd server.old.output.begun.items }
    requires is_started { IsStarted server.old.output.server (P.log processes.old) }
    requires passed { PassedOn (P.log processes.old) }
    requires always { AlwaysPassedOn (P.log processes.old) }
    ensures ok { OnOk result (ReadsOutput (lines_in announced.old.items)
        (lines_in announced.new.items) server.old server.new (P.log processes.old)
        (P.log processes.new) out.new.items) }
    ensures goes_on { GoesOn (P.log processes.old) (P.log processes.new) }
{
    let mut buffer = [0u8; MOST_READ];
    let read = match processes.read(server.output.server, &mut buffer) {
        Ok(read) => read,
        Err(error) => return Err(SupervisorFault::of(error)),
    };
    let Some(bytes) = read else {
        return finish(processes, server);
    };
    server.output.pass_on(announced, bytes, out)?;
    Ok(())
}

/// Ends a server that has closed its output, and checks that its status is 0.
fn finish<P: ServerProcesses>(
    processes: &mut P,
    server: &mut WatchedServer,
) -> Result<(), SupervisorFault>
    requires is_started { IsStarted server.old.output.server (P.log processes.old) }
    requires always { AlwaysPassedOn (P.log processes.old) }
    ensures ok { OnOk result ((status : ExitStatus) × (exit_code status ≡ Some (pos 0))
        × (P.log processes.new
        ≡ Ended server.old.output.server (Ok status) ∷ P.log processes.old)) }
    ensures output { server.new.output ≡ server.old.output }
    ensures goes_on { GoesOn (P.log processes.old) (P.log processes.new) }
{
    let status = match processes.end(server.output.server) {
        Ok(status) => status,
        Err(error) => return Err(SupervisorFault::of(error)),
    };
    if !status.success() {
        return Err(SupervisorFault::Ended(server.output.server, status));
    }
    server.has_ended = true;
    Ok(())
}

/// Prints a text, unless it is empty.
fn print<P: ServerProcesses>(processes: &mut P, text: &[u8]) -> Result<(), SupervisorFault>
    ensures { P.log processes.new ≡ after_print text.now (P.log processes.old) }
{
    if text.is_empty() {
        return Ok(());
    }
    match processes.print(text) {
        Ok(()) => Ok(()),
        Err(_) => Err(SupervisorFault::Output),
    }
}

/// Ends so many servers.
fn end_all<P: ServerProcesses>(processes: &mut P, count: u8)
    requires count { count ≡ length (started_in (P.log processes.old)) }
    requires always { AlwaysPassedOn (P.log processes.old) }
    ensures goes_on { GoesOn (P.log processes.old) (P.log processes.new) }
    ensures ended { EachEnded (P.log processes.new) }
{
    for before in 0..count {
        let _ = processes.end(before + 1);
    }
}
