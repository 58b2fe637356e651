//! **Trusted by reading**: the servers of a supervisor as processes of the system, the pipes that
//! they print to, and standard output, with a trace of what was done.
//!
//! Review alone shows that the trace is true: processes, pipes and the printer of std have no
//! model. Each call is for the server of the number that it was passed, and has the event that its
//! clauses in [`ServerProcesses`] say. Nothing else here starts a process, reads a pipe or prints.

ghost use Rattle.std.specs.Prelude.{◌≡◌, [], IfOk};

mod absent;
mod event_ref;
mod reports;
mod trace;

use crate::processes::ServerProcesses;
use crate::supervise::{Place, Supervise};
use crate::supervisor;
use crate::supervisor_fault::SupervisorFault;
use absent::Tried;
use event_ref::EventRef;
use reports::Reports;
use std::env;
use std::io::{self, ErrorKind, Read};
use std::net::{SocketAddr, UdpSocket};
use std::os::fd::OwnedFd;
use std::path::PathBuf;
use std::process::{Child, Command, ExitStatus, Stdio};
use trace::{ProcessEvents, Trace};

/// Servers of this program, each with the socket of its place as its standard input.
#[derive(Drop)]
struct SystemProcesses<'a> {
    rt: HostRuntime,
    program: PathBuf,
    places: &'a [Place],
    /// The command line of each server.
    lines: &'a [Vec<String>],
    /// The process of each server that was started, once its address is there.
    children: Vec<Option<Child>>,
    /// How many of these servers have no process, since their addresses are absent.
    absent: usize,
    reports: Reports,
    trace: Trace,
}

impl<'a> SystemProcesses<'a> {
    /// No server.
    fn new(
        rt: HostRuntime,
        places: &'a [Place],
        lines: &'a [Vec<String>],
    ) -> Result<SystemProcesses<'a>, SupervisorFault>
        ensures { IfOk result (λ processes. processes.trace.events ≡ []) }
    {
        let program = match env::current_exe(&rt) {
            Ok(program) => program,
            Err(error) => return Err(SupervisorFault::of_program(error)),
        };
        let reports = match Reports::new(&rt) {
            Ok(reports) => reports,
            Err(error) => return Err(SupervisorFault::of(error)),
        };
        Ok(SystemProcesses {
            rt,
            program,
            places,
            lines,
            children: Vec::new(rt.alloc()),
            absent: 0,
            reports,
            trace: Trace::new(&ProcessEvents),
        })
    }

    /// Starts a process, with this socket.
    fn spawn(&self, line: &[String], socket: &OwnedFd) -> io::Result<Child> {
        let mut command = Command::new(self.rt.alloc(), self.program.as_path())?;
        command.args(line.get(1..).unwrap_or_default())?;
        command.stdin(Stdio::from(socket.try_clone()?));
        command.stdout(Stdio::piped());
        command.spawn(&self.rt)
    }

    /// Starts the process of the next server, or notes that its address is absent.
    fn begin(&mut self, line: &[String]) -> io::Result<Option<Child>>
        ensures { self.new.trace ≡ self.old.trace }
    {
        match self.places.get(self.children.len()) {
            Some(Place::Bound(socket)) => Ok(Some(self.spawn(line, socket)?)),
            Some(Place::Absent(_)) => {
                self.absent = self.absent.saturating_add(1);
                Ok(None)
            }
            None => Err(io::Error::from(ErrorKind::NotFound)),
        }
    }

    /// Starts the processes of the servers whose addresses are there by now. Those at one address stand
    /// together, and share its socket. It fails if no other server is left.
    fn begin_absent(&mut self) -> io::Result<()>
        ensures { self.new.trace ≡ self.old.trace }
    {
        if self.absent == 0 {
            return Ok(());
        }
        if !self.children.iter().any(|child| is_open(child)) {
            return Err(io::Error::from(ErrorKind::AddrNotAvailable));
        }
        let mut tried = Tried::new();
        for index in 0..self.children.len() {
            if let Some(Place::Absent(at)) = self.places.get(index) {
                self.begin_late(&mut tried, index, *at)?;
            }
        }
        Ok(())
    }

    /// Starts the process of this server whose address was absent, if that is there, and if it has none.
    fn begin_late(&mut self, tried: &mut Tried, index: usize, at: SocketAddr) -> io::Result<()>
        ensures { self.new.trace ≡ self.old.trace }
    {
        let (Some(None), Some(line)) = (self.children.get(index), self.lines.get(index)) else {
            return Ok(());
        };
        let Some(socket) = tried.socket_at(&self.rt, at) else {
            return Ok(());
        };
        let child = self.spawn(line.as_slice(), socket)?;
        let Some(place) = self.children.get_mut(index) else {
            return Ok(());
        };
        self.absent = self.absent.saturating_sub(1);
        self.reports.add(place.insert(child), index)
    }
}

impl ServerProcesses for SystemProcesses<'_> {
    ghost log = { λ processes. processes.trace.events };

    fn start(&mut self, line: &[String]) -> io::Result<()> {
        self.children.reserve(1)?;
        let child = self.begin(line)?;
        self.children.push(child)?;
        self.trace.note(&EventRef::Started(line));
        Ok(())
    }

    fn wait(&mut self, reported: &mut Vec<u8>) -> io::Result<()> {
        self.begin_absent()?;
        let limit = absent::limit(self.absent);
        self.reports.wait(self.children.as_slice(), reported, limit)
    }

    fn read<'b>(&mut self, server: u8, buffer: &'b mut [u8]) -> io::Result<Option<&'b [u8]>> {
        let child = child_of(self.children.as_mut_slice(), server)?;
        let Some(pipe) = &mut child.stdout else {
            return Err(io::Error::from(ErrorKind::NotFound));
        };
        let count = pipe.read(buffer)?;
        if count == 0 {
            child.stdout = None;
            self.trace.note(&EventRef::Closed(server));
            return Ok(None);
        }
        let bytes = &buffer[..count];
        self.trace.note(&EventRef::Gave(server, bytes));
        Ok(Some(bytes))
    }

    fn end(&mut self, server: u8) -> io::Result<ExitStatus> {
        let answer = ended(self.children.as_mut_slice(), server);
        self.trace.note(&EventRef::Ended(server, answer));
        answer
    }

    fn print(&mut self, text: &[u8]) -> io::Result<()> {
        self.trace.note(&EventRef::Printed(text));
        self.rt.write_all(text)
    }
}

/// The process of a server, once it has begun.
fn child_of(children: &mut [Option<Child>], server: u8) -> io::Result<&mut Child> {
    let index = usize::from(server).wrapping_sub(1);
    match children.get_mut(index) {
        Some(Some(child)) => Ok(child),
        _ => Err(io::Error::from(ErrorKind::NotFound)),
    }
}

/// Whether a server has begun, and its output was not read to the end.
fn is_open(child: &Option<Child>) -> bool {
    match child {
        Some(child) => child.stdout.is_some(),
        None => false,
    }
}

/// Kills the process of a server, if it has not ended, and waits for it.
fn ended(children: &mut [Option<Child>], server: u8) -> io::Result<ExitStatus> {
    let child = child_of(children, server)?;
    child.kill()?;
    child.wait()
}

/// What a supervisor did. Only clauses read it.
#[derive(Drop)]
pub struct History {
    trace: Trace,
}

impl Supervise for HostRuntime {
    type History = History;

    ghost supervised = { λ history. history.trace.events };

    fn bind_shared(&self, at: SocketAddr) -> io::Result<OwnedFd> {
        Ok(OwnedFd::from(UdpSocket::bind(self, at)?))
    }

    fn supervise(
        &self,
        places: &[Place],
        servers: &[Vec<String>],
    ) -> (Result<(), SupervisorFault>, History) {
        match SystemProcesses::new(*self, places, servers) {
            Ok(mut processes) => {
                let ended = supervisor::supervise(&mut processes, self.alloc(), servers);
                let SystemProcesses { trace, .. } = processes;
                (ended, History { trace })
            }
            Err(fault) => {
                let trace = Trace::new(&ProcessEvents);
                (Err(fault), History { trace })
            }
        }
    }
}
