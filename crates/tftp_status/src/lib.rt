//! What a server tells whoever watches it: counts of what it noted, and its open transfers, in a file
//! that Prometheus reads, and people.
//!
//! It opens no socket, and decides no step of a transfer. A law says what is in the file: its counts
//! are those of the entries that the server had noted when it was written (`KeepsCounts`).
//!
//! Begin with [`Reporting`], and [`StatusFile`].
#![tactic(auto)]

mod comments;
mod counts;
mod datagrams;
mod event_ref;
mod file_name;
mod labels;
mod open_line;
mod report;
mod reporting;
mod schedule;
mod server_facts;
mod status_file;
mod status_paths;
mod status_text;
mod trace;
mod unused_disk;

pub use comments::Comments;
pub use counts::{Counts, OutcomeCounts, RequestCounts, TransferCounts};
pub use datagrams::{Datagrams, Way};
pub use file_name::file_of_server;
pub use labels::Labels;
pub use report::ReportSettings;
pub use reporting::Reporting;
pub use server_facts::ServerFacts;
pub use status_file::StatusFile;
pub use status_paths::StatusPaths;
pub use status_text::{Facts, StatusText};
pub use unused_disk::UnusedDisk;
