//! The calls by which a supervisor reaches its servers and its output, and the trace that they
//! make.

ghost use Rattle.std.specs.Prelude.{◌≡◌, ◌∷◌, List, map, IfNone, IfOk, IfSome, OnErr, OnOk};
ghost use Rattle.std.specs.String.{string_bytes};
ghost use Rattle.tftp_supervisor.specs.ProcessEvent.{IsStarted, ProcessEvent};
ghost use Rattle.tftp_supervisor.specs.ProcessEvent.ProcessEvent.{Started, Gave, Closed, Ended};
ghost use Rattle.tftp_supervisor.specs.ProcessEvent.ProcessEvent.{Printed};

use std::io;
use std::process::ExitStatus;

/// Servers, each a process of its own, and standard output. The first that is started is server 1,
/// and each has the next number.
///
/// Code that is generic over this trait reaches the system by these calls alone, and each says what
/// it puts on the trace.
pub(crate) trait ServerProcesses {
    /// What was done, the newest first.
    ghost log: { Self → List ProcessEvent };

    /// Starts a server by a command line, whose first word is the program's name.
    fn start(&mut self, line: &[String]) -> io::Result<()>
        ensures ok { OnOk result (log self.new
            ≡ Started (map string_bytes line.now) ∷ log self.old) }
        ensures err { OnErr result (log self.new ≡ log self.old) };

    /// Waits until outputs can be read, each once, and says whose they are.
    fn wait(&mut self, reported: &mut Vec<u8>) -> io::Result<()>
        ensures { log self.new ≡ log self.old };

    /// Reads of a server's output, once. `None` if the server has closed it.
    fn read<'b>(&mut self, server: u8, buffer: &'b mut [u8]) -> io::Result<Option<&'b [u8]>>
        requires { IsStarted server (log self.old) }
        ensures gave { IfOk result (λ read. IfSome read (λ bytes. log self.new
            ≡ Gave server bytes.now ∷ log self.old)) }
        ensures closed { IfOk result (λ read. IfNone read (log self.new
            ≡ Closed server ∷ log self.old)) }
        ensures err { OnErr result (log self.new ≡ log self.old) };

    /// Kills a server, if it has not ended by itself, and waits for it, so that no zombie stays.
    fn end(&mut self, server: u8) -> io::Result<ExitStatus>
        requires { IsStarted server (log self.old) }
        ensures { log self.new ≡ Ended server result ∷ log self.old };

    /// Prints a text, in one write.
    fn print(&mut self, text: &[u8]) -> io::Result<()>
        ensures { log self.new ≡ Printed text.now ∷ log self.old };
}
