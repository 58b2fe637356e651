//! Which server a sample is of.

use std::fmt;
use tftp_ends::Endpoint;

/// Which server a sample is of.
#[derive(Clone, Copy)]
pub struct Labels {
    /// Where its requests arrive.
    pub address: Endpoint,
    /// Which of several servers it is, if it is one of several.
    pub server: Option<u8>,
}

/// The label of a server of several, behind another one.
#[derive(Clone, Copy)]
struct ServerLabel(Option<u8>);

impl fmt::Display for ServerLabel {
    ghost use Rattle.std.specs.Prelude.{Some};
    ghost use Rattle.tftp_status.specs.StatusText.{server_label};

    ghost output = { λ label. Some (server_label label.0) };

    fn fmt<W: fmt::Write>(&self, f: &mut fmt::Formatter<W>) -> fmt::Result {
        match self.0 {
            Some(server) => write!(f, ",server=\"{server}\""),
            None => Ok(()),
        }
    }
}

impl fmt::Display for Labels {
    ghost use Rattle.std.specs.Prelude.{Some};
    ghost use Rattle.tftp_status.specs.StatusText.{labels_text};

    ghost output = { λ labels. Some (labels_text labels) };

    fn fmt<W: fmt::Write>(&self, f: &mut fmt::Formatter<W>) -> fmt::Result {
        let (address, server) = (self.address, ServerLabel(self.server));
        write!(f, "address=\"{address}\"{server}")
    }
}
