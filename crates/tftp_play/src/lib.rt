//! `tftp-play`: plays a script of TFTP transfers in a world of its own, and prints the events.
//!
//! Begin with [`play_run`], and with [`Script::parse`] for the lines of a script, which are all parsed before anything is
//! played. No socket is opened; a program's `main` only passes the system.
#![tactic(auto)]

mod arguments;
mod play;
mod recording;
mod script;

pub use arguments::{play_command, play_words};
pub use play::{play_drawn, play_run, status_of};
pub use script::{FaultyLine, Flaw, PlayableEvent, Script, ScriptFault, Statement};
