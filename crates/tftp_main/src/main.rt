//! `tftp` transfers a file by TFTP.
#![tactic(auto)]

use std::process::ExitCode;

fn main(rt: HostRuntime) -> ExitCode {
    let _streams = tftp_arguments::open_streams(&rt);
    ExitCode::from(tftp_client::tftp_command(&rt, &rt.stderr()))
}
