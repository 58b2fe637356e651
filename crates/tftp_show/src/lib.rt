//! `tftp-show`: TFTP datagrams as text, a line each, from lines of hexadecimal digits.
//!
//! Begin with [`show_run`], and for captures with [`shown`]. It opens no socket, and no file but its
//! input and a picture; a program's `main` only passes the system.
#![tactic(auto)]

mod arguments;
mod printer;
mod run;
mod show;
mod task;

pub use arguments::{show_command, show_words};
pub use run::{draw_flow, report_flow, shown};
pub use show::{ShowFault, show_lines, show_reported, show_run};
pub use task::{Style, Task};
