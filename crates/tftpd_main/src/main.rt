//! `tftpd` serves the files of a folder by TFTP.
#![tactic(auto)]

use std::process::ExitCode;

fn main(rt: HostRuntime) -> ExitCode {
    // Before the null devices take the place of a standard input that is closed.
    let input = tftp_service::standard_input(&rt.stdin());
    let _streams = tftp_arguments::open_streams(&rt);
    ExitCode::from(tftp_daemon::tftpd_command(&rt, input))
}
