//! `tftp-show` prints TFTP datagrams: lines of hexadecimal digits in, a line for each out.
#![tactic(auto)]

use std::process::ExitCode;

fn main(rt: HostRuntime) -> ExitCode {
    ExitCode::from(tftp_show::show_command(&rt, rt.stderr()))
}
