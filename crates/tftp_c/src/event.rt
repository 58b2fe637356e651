//! What crosses to C by value.

ghost use Rattle.std.specs.Prelude.{◌≡◌};
ghost use Rattle.tftp_c.specs.Informed.{InfoSize};
ghost use Rattle.tftp_c.specs.Waits.{backoff_of};

use tftp_ends::Backoff;

/// The numbers that the calls return: 0 is success.
pub(crate) const NOT_OPEN: u8 = 1;

pub(crate) const BAD_REQUEST: u8 = 2;

pub(crate) const MEMORY: u8 = 3;

pub(crate) const CLOSED: u8 = 4;

pub(crate) const WRONG_SIDE: u8 = 5;

pub(crate) const TOO_LARGE: u8 = 6;

pub(crate) const REFUSED_OPTIONS: u8 = 7;

pub(crate) const NO_SOURCE: u8 = 8;

pub(crate) const NO_TRANSFER: u8 = 9;

pub(crate) const IN_USE: u8 = 10;

pub(crate) const BAD_OPTIONS: u8 = 11;

pub(crate) const NO_ROOM: u8 = 12;

pub(crate) const OVER_LIMIT: u8 = 13;

pub(crate) const LATER_STRUCT: u8 = 14;

/// How an end closed that its caller aborts; 1 to 9 are the numbers of `Outcome`.
pub(crate) const ABORTED: u8 = 10;

/// The size of [`TftpInfo`] in bytes, which its field `size` states.
pub(crate) const INFO_SIZE: usize = 24;

/// What a server asks its caller for: to open a file that is read, or to begin one that is written.
pub(crate) const WANTS_OPEN: u8 = 1;

pub(crate) const WANTS_BEGIN: u8 = 2;

/// An IPv4 address, in network order, and a UDP port.
#[repr(C)]
#[derive(Clone, Copy)]
pub struct TftpEndpoint {
    pub ip: [u8; 4],
    pub port: u16,
}

/// What a request asks, or how far a server goes, as `struct tftp_options` has it.
#[derive(Clone, Copy)]
pub struct TftpOptions {
    /// The longest file that is accepted, where the peer states its length.
    pub max_file: u64,
    /// The block size, or 0 for none.
    pub blksize: u16,
    /// The timeout in seconds, or 0 for none.
    pub timeout: u8,
    /// How many times in a row a datagram is sent again.
    pub retries: u8,
    pub asks_tsize: bool,
    pub is_netascii: bool,
    /// Whether waits grow after timeouts.
    pub backoff: bool,
    /// The longest timeout that a server agrees to, in seconds, or 0 for any.
    pub max_timeout: u8,
}

impl TftpOptions {
    pub(crate) fn backoff(&self) -> Backoff
        ensures { result ≡ backoff_of self.now }
    {
        if self.backoff {
            Backoff::Doubling
        } else {
            Backoff::Constant
        }
    }
}

/// What a call did, and the state of the end after it.
#[repr(C)]
#[derive(Drop)]
pub struct TftpEvent {
    /// The length of the datagram to send, or 0.
    pub send_len: usize,
    /// How many bytes of the file were stored, or taken to be sent.
    pub file_len: usize,
    /// The destination of the datagram.
    pub to: TftpEndpoint,
    /// The code of the peer's ERROR, if that closed the end.
    pub peer_code: u16,
    /// A sender's newest DATA number, or how many blocks a receiver has stored.
    pub number: u16,
    /// The block size in bytes; 512 while there is no peer.
    pub block_size: u16,
    /// The timeout interval in seconds.
    pub interval: u16,
    /// How the end closed, 1 to 10, or 0.
    pub outcome: u8,
    pub progress: bool,
    /// Whether the whole file was stored, or acknowledged.
    pub complete: bool,
    /// Whether the buffer had no room for the datagram, which is lost.
    pub no_room: bool,
    pub reserved: [u8; 6],
}

/// What an end and its peer have agreed.
#[repr(C)]
#[derive(Clone, Copy)]
pub struct TftpInfo {
    /// The size of this struct where the caller was compiled: a later one has further fields.
    pub size: usize,
    /// The length of the file that was answered (`tsize`), in bytes of wire text, or 0.
    pub length: u64,
    /// The agreed timeout in seconds, or 0.
    pub timeout: u8,
    pub has_length: bool,
    /// The agreed block size in bytes; 512 while there is no peer.
    pub block_size: u16,
    pub reserved: [u8; 4],
}

impl TftpInfo {
    /// The number of the fault of a size that is larger, or none; 0 if it is the size of this struct:
    /// then the caller knows these fields, and no other.
    pub(crate) fn size_fault(&self) -> u8
        ensures { InfoSize self.now result }
    {
        if self.size > INFO_SIZE {
            return LATER_STRUCT;
        }
        if self.size < INFO_SIZE {
            return BAD_OPTIONS;
        }
        0
    }
}

/// What a server asks its caller for a datagram at its request port.
#[repr(C)]
#[derive(Drop)]
pub struct TftpQuestion {
    /// The length of the ERROR that answers the datagram, or 0.
    pub send_len: usize,
    /// The length of the path of the file.
    pub name_len: usize,
    /// 1 to open the file, 2 to begin it, or 0.
    pub wants: u8,
    /// 1 octet, 2 netascii, of a request whose file is wanted, or 0.
    pub mode: u8,
    pub reserved: [u8; 6],
}

// The sizes that `tftp.h` has.
const _: () = prove!(size_of::<TftpEndpoint>() == 6);

const _: () = prove!(size_of::<TftpEvent>() == 40);

const _: () = prove!(size_of::<TftpQuestion>() == 24);

const _: () = prove!(size_of::<TftpInfo>() == INFO_SIZE);
