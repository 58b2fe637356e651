//! `tftp-play` plays a script of TFTP transfers: it prints a line for each event.
#![tactic(auto)]

use std::process::ExitCode;

fn main(rt: HostRuntime) -> ExitCode {
    let _streams = tftp_arguments::open_streams(&rt);
    ExitCode::from(tftp_play::play_command(&rt, rt.stderr()))
}
