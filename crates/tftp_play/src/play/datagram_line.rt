//! The line that `tftp-play` prints for a datagram.

use itoa::Buffer;
use std::alloc::{AllocError, Global};
use tftp_ends::Endpoint;
use tftp_player::Datagram;
use tftp_wire::show_datagram;

/// The line of a datagram, in one buffer for all lines.
#[derive(Drop)]
pub(crate) struct DatagramLine {
    text: String,
    digits: Buffer,
}

impl DatagramLine {
    /// An empty line.
    pub(crate) fn new(alloc: Global) -> DatagramLine {
        DatagramLine {
            text: String::new(alloc),
            digits: Buffer::new(),
        }
    }

    /// The line of the datagram with this index in all that was sent, with the newline.
    pub(crate) fn show(&mut self, index: usize, datagram: &Datagram) -> Result<&[u8], AllocError> {
        self.text.clear();
        self.push_number("#", index)?;
        self.push_endpoint(" ", datagram.from)?;
        self.push_endpoint(" > ", datagram.to)?;
        self.text.push(' ')?;
        if show_datagram(datagram.bytes.as_slice(), &mut self.text).is_err() {
            return Err(AllocError);
        }
        self.text.push('\n')?;
        Ok(self.text.as_bytes())
    }

    /// Appends an endpoint as its `Display` writes it, and faster: there are two in each line,
    /// mostly at the addresses of the two hosts.
    fn push_endpoint(&mut self, before: &str, endpoint: Endpoint) -> Result<(), AllocError> {
        self.text.push_str(before)?;
        let port = usize::from(endpoint.port);
        match endpoint.ip {
            [10, 0, 0, 1] => self.push_number("10.0.0.1:", port),
            [10, 0, 0, 2] => self.push_number("10.0.0.2:", port),
            [a, b, c, d] => {
                self.push_number("", usize::from(a))?;
                for byte in [b, c, d] {
                    self.push_number(".", usize::from(byte))?;
                }
                self.push_number(":", port)
            }
        }
    }

    fn push_number(&mut self, before: &str, number: usize) -> Result<(), AllocError> {
        self.text.push_str(before)?;
        self.text.push_str(self.digits.format(number))
    }
}
