//! Captures of `tftp-show --flow` whose streams fail.

use crate::expect::expect_equal;
use crate::faulty_streams::{Input, Output, Takes};
use tftp_show::{draw_flow, report_flow};

/// A get of a file that does not exist.
const ERROR: &[u8] = b"\
0.000000000\t192.0.2.2\t51458\t192.0.2.1\t69\t00016d697373696e67006f6374657400\n\
0.004379553\t192.0.2.1\t35555\t192.0.2.2\t51458\t0005000146696c65206e6f7420666f756e6400\n";

/// What is read, whether the reader fails then, and what the writer does.
static RUNS: [(&[u8], bool, Takes); 2] = [(b"x\n", true, Takes::All), (ERROR, false, Takes::Full)];

#[test]
fn faulty_files(rt: HostRuntime) {
    let mut errors = Vec::new(rt.alloc());
    for &(bytes, breaks, takes) in &RUNS {
        let output = Output::new(rt.alloc(), takes);
        let status = report_flow(rt.alloc(), Input { bytes, breaks }, output, &mut errors);
        expect_equal(&rt, &(bytes, status), &(bytes, 2), "a stream that fails");
    }
    let picture = Output::new(rt.alloc(), Takes::Full);
    let mut output = Vec::new(rt.alloc());
    let status = draw_flow(
        rt.alloc(),
        ERROR,
        &mut output,
        1,
        || Ok(picture),
        &mut errors,
    );
    expect_equal(&rt, &status, &2, "a picture that fails");
    let message = b"tftp-show: input unreadable\ntftp-show: output unwritable\n\
        tftp-show: svg unwritable\n"
        .as_slice();
    expect_equal(&rt, &errors.as_slice(), &message, "the messages");
}
