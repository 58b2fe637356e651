//! What a status file says of its server beside what was counted.

ghost use Rattle.tftp_status.specs.ServerFacts.{AreFactsAt};

use crate::labels::Labels;
use crate::status_text::Facts;

/// What a status file says of its server, whenever it is written.
#[derive(Drop)]
pub struct ServerFacts {
    /// Which server it is.
    pub labels: Labels,
    /// The version of the program.
    pub version: String,
    /// The most transfers that may be open.
    pub limit: u64,
    /// When the server started, in seconds since 1970 began in UTC.
    pub start: u64,
}

impl ServerFacts {
    /// The facts of a text that is made at this time, in seconds since 1970 began in UTC.
    pub(crate) fn at(&self, time: u64) -> Facts<'_>
        ensures { AreFactsAt time self.now result }
    {
        Facts {
            labels: self.labels,
            version: self.version.as_str(),
            limit: self.limit,
            start: self.start,
            time,
        }
    }
}
