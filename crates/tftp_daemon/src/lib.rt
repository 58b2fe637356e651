//! `tftpd`: a server over UDP that serves the files of a folder (RFC 1350, section 4).
//!
//! Begin with [`tftpd_words`].
#![tactic(auto)]

mod command_line;
mod daemon;
mod device;
mod drain_file;
mod error_output;
mod host;
pub mod laws;
mod listen;
mod matched;
mod opening;
mod options;
mod places;
mod ports;
mod processors;
mod program;
mod refused;
mod server_config;
mod server_words;
mod servers;
mod setup;
mod shown;
mod status;
mod surroundings;

pub use error_output::ErrorOutput;
pub use host::{Devices, Host};
pub use program::{tftpd_command, tftpd_on, tftpd_words};
pub use surroundings::Surroundings;
