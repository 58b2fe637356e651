//! The line of an open transfer in a status file.

use std::fmt;
use tftp_sockets::OpenTransfer;

/// The line of an open transfer: a comment, which Prometheus leaves out.
#[derive(Clone, Copy)]
pub(crate) struct OpenLine<'a>(pub(crate) OpenTransfer<'a>);

impl fmt::Display for OpenLine<'_> {
    ghost use Rattle.std.specs.Prelude.{Some};
    ghost use Rattle.tftp_status.specs.OpenLine.{open_text};

    ghost output = { λ line. Some (open_text line.0) };

    fn fmt<W: fmt::Write>(&self, f: &mut fmt::Formatter<W>) -> fmt::Result {
        let OpenTransfer {
            port,
            peer,
            request,
            bytes,
            length,
            millis,
            again,
            ..
        } = self.0;
        let (length, seconds) = (OfLength(length), millis / 1_000);
        write!(
            f,
            "# {port} {peer} {request}: {bytes} bytes{length}, {seconds} s, {again} sent again\n"
        )
    }
}

/// The length of the file, if it is known.
#[derive(Clone, Copy)]
struct OfLength(Option<u64>);

impl fmt::Display for OfLength {
    ghost use Rattle.std.specs.Prelude.{Some};
    ghost use Rattle.tftp_status.specs.OpenLine.{length_text};

    ghost output = { λ length. Some (length_text length.0) };

    fn fmt<W: fmt::Write>(&self, f: &mut fmt::Formatter<W>) -> fmt::Result {
        match self.0 {
            Some(length) => write!(f, " of {length}"),
            None => Ok(()),
        }
    }
}
