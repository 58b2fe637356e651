//! The lines that `tftp` and `tftpd` print, and why the system refused a call, in words.
//!
//! It prints nothing itself, and decides no step of a transfer.
//!
//! Begin with [`LogLine`], a line of `tftpd --log`, and [`ClientOutcome`], the last line of `tftp`.
#![tactic(auto)]

mod client_outcome;
mod hint;
mod log_line;
mod printed;
mod progress_line;
mod reason;
mod stamped_line;
mod utc_time;
mod whole_line;

pub use client_outcome::ClientOutcome;
pub use hint::Hint;
pub use log_line::{LogLine, Logged, Lost, RequestLine, Why};
pub use printed::Printed;
pub use progress_line::{LineClock, ProgressLine};
pub use reason::{Reason, reason_of};
pub use stamped_line::StampedLine;
pub use utc_time::UtcTime;
pub use whole_line::{LONGEST_LINE, WholeLine};
