//! Why a call on a file or a socket was refused, for the log.

ghost use Rattle.std.specs.Prelude.{◌≡◌};
ghost use Rattle.std.specs.IoError.{raw_os_error};
ghost use Rattle.tftp_lines.specs.Reason.{reason_of, reason_of_number, reason_words};

use std::{fmt, io};

/// Why a call on a file or a socket was refused, by the system or by a rule of the served folder.
#[derive(Clone, Copy, Debug, PartialEq, Eq)]
pub enum Reason {
    /// No space is left on the device.
    NoSpace,
    /// The quota of the user is exceeded.
    QuotaExceeded,
    /// The file would be longer than the system allows.
    FileTooLarge,
    /// The process or the system has too many open files.
    TooManyOpenFiles,
    /// The program's user lacks the permission.
    PermissionDenied,
    /// The file system is read-only.
    ReadOnlyFileSystem,
    /// The file's name is on another device than its draft.
    AnotherDevice,
    /// The system is out of memory.
    OutOfMemory,
    /// A read or a write of a device failed.
    InputOutput,
    /// No file or folder has the name.
    NotFound,
    /// The path goes through a file, or ends at one, where a folder is wanted.
    NotAFolder,
    /// The system takes no such argument, as an address that its network lacks.
    InvalidArgument,
    /// Nobody reads what is written: the other end of a pipe is closed.
    BrokenPipe,
    /// A part of a path, or the path, is longer than the system allows.
    NameTooLong,
    /// A path goes through more links than the system follows.
    TooManyLinks,
    /// A datagram is longer than the system or the network sends.
    MessageTooLong,
    /// Another socket has the address.
    AddressInUse,
    /// No interface of the host has the address.
    AddressNotAvailable,
    /// The network's interface is down.
    NetworkDown,
    /// The host has no route to the network.
    NetworkUnreachable,
    /// The system has no buffer for another datagram.
    NoBufferSpace,
    /// No program of the host has the port.
    ConnectionRefused,
    /// The host is not reached, as where its neighbour does not answer.
    HostUnreachable,
    /// A signal came before the call had done anything.
    Interrupted,
    /// The device is not there.
    NoDevice,
    /// The call can be made again later, as when the system has no room for another process.
    TryAgain,
    /// The device or the file is in use.
    Busy,
    /// A file has the name already.
    FileExists,
    /// The path ends at a folder, where a file is wanted.
    IsAFolder,
    /// The file is a program that runs.
    ProgramRuns,
    /// The system, or the file system, has no such call.
    NotSupported,
    /// The folder has files.
    FolderNotEmpty,
    /// A number of the file is larger than the call can give.
    ValueTooLarge,
    /// The system has no sockets over IPv4.
    NoAddressFamily,
    /// The device or the host did not answer in time.
    TimedOut,
    /// The host is down.
    HostDown,
    /// The file of another host is no longer there.
    StaleFile,
    /// The file system has to be repaired.
    DamagedFileSystem,
    /// Another file has the name of the draft.
    DraftReplaced,
    /// A file was replaced between the look at it and its opening.
    FileReplaced,
    /// Another server gives the name to a file, or a server that was killed left its lock.
    NameLocked,
    /// A folder on the path was replaced since the request.
    FolderReplaced,
    /// A link leads out of the served folder.
    LeadsOut,
    /// A write is through a link.
    ThroughLink,
    /// The file is shorter than it was.
    FileCut,
    /// The folder of a file to be written is missing.
    NoFolder,
    /// The name is that of a folder, a FIFO or a device.
    NotAFile,
    /// The server refuses writes.
    ReadOnlyServer,
    /// A write is outside the folder of uploads.
    NotInUploads,
    /// The file has bytes, and its length is 0, as those of `/proc`.
    LengthUnknown,
    /// The name is no path that the server serves.
    NameNotAllowed,
    /// The length that a write announces is more than the server takes (`--max-file`).
    LongerThanMaxFile,
    /// Another error of the system, by its number.
    System(u32),
    /// None of these.
    Other,
}

/// The reason of an error of the system.
pub fn reason_of(error: &io::Error) -> Reason
    ensures { result ≡ reason_of (raw_os_error error.now) }
{
    match error.raw_os_error() {
        Some(code) => reason_of_number(code.unsigned_abs()),
        None => Reason::Other,
    }
}

/// The reason of an error number of Linux.
fn reason_of_number(number: u32) -> Reason
    ensures { result ≡ reason_of_number number }
{
    match number {
        1 => Reason::PermissionDenied,
        2 => Reason::NotFound,
        4 => Reason::Interrupted,
        5 => Reason::InputOutput,
        6 => Reason::NoDevice,
        11 => Reason::TryAgain,
        12 => Reason::OutOfMemory,
        13 => Reason::PermissionDenied,
        16 => Reason::Busy,
        17 => Reason::FileExists,
        18 => Reason::AnotherDevice,
        19 => Reason::NoDevice,
        20 => Reason::NotAFolder,
        21 => Reason::IsAFolder,
        22 => Reason::InvalidArgument,
        23 => Reason::TooManyOpenFiles,
        24 => Reason::TooManyOpenFiles,
        26 => Reason::ProgramRuns,
        27 => Reason::FileTooLarge,
        28 => Reason::NoSpace,
        30 => Reason::ReadOnlyFileSystem,
        32 => Reason::BrokenPipe,
        36 => Reason::NameTooLong,
        38 => Reason::NotSupported,
        39 => Reason::FolderNotEmpty,
        40 => Reason::TooManyLinks,
        75 => Reason::ValueTooLarge,
        90 => Reason::MessageTooLong,
        95 => Reason::NotSupported,
        97 => Reason::NoAddressFamily,
        98 => Reason::AddressInUse,
        99 => Reason::AddressNotAvailable,
        100 => Reason::NetworkDown,
        101 => Reason::NetworkUnreachable,
        105 => Reason::NoBufferSpace,
        110 => Reason::TimedOut,
        111 => Reason::ConnectionRefused,
        112 => Reason::HostDown,
        113 => Reason::HostUnreachable,
        116 => Reason::StaleFile,
        117 => Reason::DamagedFileSystem,
        122 => Reason::QuotaExceeded,
        _ => Reason::System(number),
    }
}

impl Reason {
    /// The words of a reason; those of an error that has only a number lack the number.
    fn words(self) -> &'static str
        ensures { result.now ≡ reason_words self }
    {
        match self {
            Reason::NoSpace => "no space",
            Reason::QuotaExceeded => "quota exceeded",
            Reason::FileTooLarge => "file too large",
            Reason::TooManyOpenFiles => "too many open files",
            Reason::PermissionDenied => "permission denied",
            Reason::ReadOnlyFileSystem => "read-only file system",
            Reason::AnotherDevice => "another device",
            Reason::OutOfMemory => "out of memory",
            Reason::InputOutput => "input or output error",
            Reason::NotFound => "not found",
            Reason::NotAFolder => "not a folder",
            Reason::InvalidArgument => "invalid argument",
            Reason::BrokenPipe => "broken pipe",
            Reason::NameTooLong => "name too long",
            Reason::TooManyLinks => "too many links",
            Reason::MessageTooLong => "message too long",
            Reason::AddressInUse => "address in use",
            Reason::AddressNotAvailable => "address not available",
            Reason::NetworkDown => "network down",
            Reason::NetworkUnreachable => "network unreachable",
            Reason::NoBufferSpace => "no buffer space",
            Reason::ConnectionRefused => "connection refused",
            Reason::HostUnreachable => "host unreachable",
            Reason::Interrupted => "interrupted",
            Reason::NoDevice => "no such device",
            Reason::TryAgain => "temporarily unavailable",
            Reason::Busy => "busy",
            Reason::FileExists => "file exists",
            Reason::IsAFolder => "is a folder",
            Reason::ProgramRuns => "program runs",
            Reason::NotSupported => "not supported",
            Reason::FolderNotEmpty => "folder not empty",
            Reason::ValueTooLarge => "value too large",
            Reason::NoAddressFamily => "address family not supported",
            Reason::TimedOut => "timed out",
            Reason::HostDown => "host down",
            Reason::StaleFile => "stale file",
            Reason::DamagedFileSystem => "damaged file system",
            Reason::DraftReplaced => "draft replaced",
            Reason::FileReplaced => "file replaced",
            Reason::NameLocked => "name locked",
            Reason::FolderReplaced => "folder replaced",
            Reason::LeadsOut => "leads out of the folder",
            Reason::ThroughLink => "through a link",
            Reason::FileCut => "file cut short",
            Reason::NoFolder => "no such folder",
            Reason::NotAFile => "not a file",
            Reason::ReadOnlyServer => "read-only server",
            Reason::NotInUploads => "not in uploads",
            Reason::LengthUnknown => "length unknown",
            Reason::NameNotAllowed => "name not allowed",
            Reason::LongerThanMaxFile => "longer than --max-file",
            Reason::System(_) => "system error",
            Reason::Other => "another error",
        }
    }
}

impl fmt::Display for Reason {
    ghost use Rattle.std.specs.Prelude.{Some};
    ghost use Rattle.tftp_lines.specs.Reason.{reason_text};

    ghost output = { λ reason. Some (reason_text reason) };

    fn fmt<W: fmt::Write>(&self, f: &mut fmt::Formatter<W>) -> fmt::Result {
        let words = self.words();
        match *self {
            Reason::System(number) => write!(f, "{words} {number}"),
            _ => f.write_str(words),
        }
    }
}
