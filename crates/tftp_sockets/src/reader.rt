//! **Trusted by reading**: the reader of what a server prints, where that has one.

use crate::port_poll::PortPoll;
use mio::event::Event;
use mio::unix::SourceFd;
use mio::{Interest, Token};
use std::io::{self, ErrorKind};
use std::os::fd::RawFd;

/// The descriptor of standard output.
const OUTPUT: RawFd = 1;

/// What a poll reports standard output by: no UDP port.
const TOKEN: Token = Token(1 << 16);

/// Has a poll report the loss of standard output's reader. The system reports it whatever the
/// interest is, and `PRIORITY` asks for nothing that a pipe has. A file has no reader, and the system
/// refuses to watch it.
pub(crate) fn watch_output(poll: &PortPoll) -> io::Result<()> {
    let registry = poll.poll.registry();
    match registry.register(&mut SourceFd(&OUTPUT), TOKEN, Interest::PRIORITY) {
        Err(error) if error.kind() == ErrorKind::PermissionDenied => Ok(()),
        outcome => outcome,
    }
}

/// Whether an event of standard output says that its reader has gone: that the last descriptor of the
/// other end is closed, as by the death of its process, of the pipe, or of the stream socket, that
/// standard output is. A terminal's has gone once that hangs up. A file or another device has none,
/// which never goes.
pub(crate) fn has_lost_reader(event: &Event) -> bool {
    event.is_error() || event.is_write_closed()
}
