//! What the handle of a server holds: a table of transfers, which its calls change.

use crate::elsewhere::Elsewhere;
use crate::event::TftpOptions;
use tftp_server::Server;

/// A server whose files are its caller's, behind the pointer of a handle.
#[derive(Drop)]
pub struct HeldServer {
    pub(crate) server: Server<Elsewhere>,
    /// What it was opened with.
    pub(crate) options: TftpOptions,
}
