//! Which servers have printed: their pipes, at one poll.
//!
//! Nothing is noted here: this file has no trace, reads no pipe and ends no server. No clause says
//! that a wait reports what can be read; a mistake would delay lines, and falsify none.

use mio::unix::SourceFd;
use mio::{Events, Interest, Poll, Token};
use std::io;
use std::os::fd::AsRawFd;
use std::process::{Child, ChildStdout};
use std::time::Duration;

/// The most outputs that one wait reports.
const MOST_REPORTS: usize = 64;

/// The poll of the outputs.
#[derive(Drop)]
pub(super) struct Reports {
    poll: Poll,
    /// What the last wait reported.
    events: Events,
    /// How many of the servers have their outputs reported.
    registered: usize,
}

impl Reports {
    /// A poll without outputs.
    pub(super) fn new(rt: &HostRuntime) -> io::Result<Reports> {
        Ok(Reports {
            poll: Poll::new(rt)?,
            events: Events::with_capacity(rt.alloc(), MOST_REPORTS)?,
            registered: 0,
        })
    }

    /// Waits until outputs can be read, at most for this time, if there is one, and puts the numbers of
    /// their servers in place of `reported`.
    pub(super) fn wait(
        &mut self,
        children: &[Option<Child>],
        reported: &mut Vec<u8>,
        limit: Option<Duration>,
    ) -> io::Result<()> {
        self.register(children)?;
        self.poll.poll(&mut self.events, limit)?;
        reported.clear();
        for event in self.events.iter() {
            if let Ok(server) = u8::try_from(event.token().0.saturating_add(1)) {
                reported.push(server)?;
            }
        }
        Ok(())
    }

    /// Has the outputs be reported: those of servers that were started since the last wait, and
    /// again those that it reported, since one read, which cannot wait, follows each report.
    fn register(&mut self, children: &[Option<Child>]) -> io::Result<()> {
        let registry = self.poll.registry();
        for event in self.events.iter() {
            if let Some(pipe) = pipe_of(children, event.token()) {
                let fd = pipe.as_raw_fd();
                registry.reregister(&mut SourceFd(&fd), event.token(), Interest::READABLE)?;
            }
        }
        for index in self.registered..children.len() {
            if let Some(pipe) = pipe_of(children, Token(index)) {
                let fd = pipe.as_raw_fd();
                registry.register(&mut SourceFd(&fd), Token(index), Interest::READABLE)?;
            }
        }
        self.registered = children.len();
        Ok(())
    }

    /// Has the output of a server be reported that began late, but for one that was started since the
    /// last wait: the next one registers it, and the system refuses to have it registered twice.
    pub(super) fn add(&mut self, child: &Child, index: usize) -> io::Result<()> {
        if index >= self.registered {
            return Ok(());
        }
        let Some(pipe) = child.stdout.as_ref() else {
            return Ok(());
        };
        let fd = pipe.as_raw_fd();
        let registry = self.poll.registry();
        registry.register(&mut SourceFd(&fd), Token(index), Interest::READABLE)
    }
}

/// The pipe of the process under this token, until it is closed.
fn pipe_of(children: &[Option<Child>], token: Token) -> Option<&ChildStdout> {
    match children.get(token.0) {
        Some(Some(child)) => child.stdout.as_ref(),
        _ => None,
    }
}
