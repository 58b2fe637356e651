//! A transfer as an object of JSON (RFC 8259), on one line.

use crate::flow::captured_transfer::{CapturedTransfer, Ending};
use crate::flow::transfer_datagram::Party;
use std::fmt;
use std::net::SocketAddrV4;

/// A transfer as an object of JSON.
#[derive(Clone, Copy)]
pub struct Json<'t>(pub &'t CapturedTransfer);

impl fmt::Display for Json<'_> {
    fn fmt<W: fmt::Write>(&self, f: &mut fmt::Formatter<W>) -> fmt::Result {
        self.write_request(f)?;
        self.write_ending(f)
    }
}

impl Json<'_> {
    /// Its ends, its request, and what was agreed.
    fn write_request<W: fmt::Write>(&self, f: &mut fmt::Formatter<W>) -> fmt::Result {
        let (number, client, asked) = (self.0.number, self.0.client, self.0.asked_at);
        let kind = match self.0.sender() {
            Party::Server => "read",
            Party::Client => "write",
        };
        let server = match self.0.server {
            Some(server) => Value::Endpoint(server),
            None => Value::Null,
        };
        let request = Value::Text(self.0.request.as_str());
        let agreed = match &self.0.agreed {
            Some(agreed) => Value::Text(agreed.as_str()),
            None => Value::Null,
        };
        write!(
            f,
            "{{\"transfer\":{number},\"kind\":\"{kind}\",\"client\":\"{client}\",\"asked\":\"{asked}\",\
             \"server\":{server},\"request\":{request},\"agreed\":{agreed}"
        )
    }

    /// How much was sent, when, and how it ended.
    fn write_ending<W: fmt::Write>(&self, f: &mut fmt::Formatter<W>) -> fmt::Result {
        let (size, blocks, bytes) = (self.0.block_size().number, self.0.blocks, self.0.bytes);
        let (datagrams, again) = (self.0.datagrams.len(), self.0.again);
        let (beside, cut) = (self.0.asides.len(), self.0.cut);
        let (began, lasted) = (self.0.began, self.0.lasted());
        let (ended, error, by) = match &self.0.ending {
            Ending::Open => ("open", Value::Null, Value::Null),
            Ending::Complete => ("complete", Value::Null, Value::Null),
            Ending::Error { by, text } => {
                ("error", Value::Text(text.as_str()), Value::Text(by.name()))
            }
        };
        write!(
            f,
            ",\"block_size\":{size},\"blocks\":{blocks},\"bytes\":{bytes},\
             \"datagrams\":{datagrams},\"again\":{again},\"beside\":{beside},\"cut\":{cut},\
             \"began\":{began},\"seconds\":{lasted},\
             \"ended\":\"{ended}\",\"error\":{error},\"by\":{by}}}"
        )
    }
}

/// A value that may be missing.
#[derive(Clone, Copy)]
enum Value<'t> {
    Null,
    Endpoint(SocketAddrV4),
    Text(&'t str),
}

impl fmt::Display for Value<'_> {
    fn fmt<W: fmt::Write>(&self, f: &mut fmt::Formatter<W>) -> fmt::Result {
        match *self {
            Value::Null => f.write_str("null"),
            Value::Endpoint(endpoint) => write!(f, "\"{endpoint}\""),
            Value::Text(text) => write_quoted(text, f),
        }
    }
}

/// Writes a text in quotes. The texts of datagrams are visible ASCII and spaces.
fn write_quoted<W: fmt::Write>(text: &str, f: &mut fmt::Formatter<W>) -> fmt::Result {
    f.write_char('"')?;
    for c in text.chars() {
        if matches!(c, '"' | '\\') {
            f.write_char('\\')?;
        }
        f.write_char(c)?;
    }
    f.write_char('"')
}
