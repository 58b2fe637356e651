//! `tftp`: a transfer of a client over UDP (RFC 1350, section 4).
//!
//! Begin with [`tftp_words`].
#![tactic(auto)]

mod cause;
mod command_line;
pub mod laws;
mod local;
mod local_error;
mod local_names;
mod naming;
mod outbound;
mod part_file;
mod program;
mod transfer;
mod without_options;
mod written;

pub use local::LocalFile;
pub use program::{tftp_command, tftp_on, tftp_words};
pub use without_options::fallback;
