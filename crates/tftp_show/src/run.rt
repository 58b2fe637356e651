//! The runs of `tftp-show` over a capture: lines or frames in, lines out, and a picture if there is
//! to be one.

ghost use Rattle.std.specs.Prelude.{◌≡◌, ◌≤◌};
ghost use Rattle.tftp_show.specs.Outcome.{outcome_status};

use crate::printer::{Outcome, Printer};
use crate::show::{LONGEST_LINE, ShowFault, read_line, show_buffered};
use crate::task::{Style, Task};
use std::alloc::Global;
use std::io::{self, BufReader, BufWriter, Cursor, ErrorKind, Read, Write};
use tftp_capture::{Capture, CaptureFault, is_capture};
use tftp_diagram::svg_text;

/// The bytes that are read at once.
const AT_ONCE: usize = 65_536;

/// The most letters of a line of a capture beside the digits of a datagram.
const FIELDS: usize = 128;

/// Reads a capture, and writes what happened in each transfer.
///
/// See [`shown`]; the requests of a capture of frames are those to port 69.
pub fn report_flow<R: Read + Drop, W: Write + Drop, E: Write + Drop>(
    alloc: Global,
    input: R,
    output: W,
    errors: E,
) -> u8
    ensures { result ≤ 2 }
{
    shown(alloc, input, output, Task::report(), errors)
}

/// Reads lines or a capture, and writes what the task asks for.
///
/// The status is 0 if each datagram was of a transfer, 1 if not or if the capture is cut short or
/// damaged, and 2, with a message on `errors`, if reading or writing failed, the run was out of
/// memory or there is no such transfer.
pub fn shown<R: Read + Drop, W: Write + Drop, E: Write + Drop>(
    alloc: Global,
    input: R,
    output: W,
    task: Task,
    mut errors: E,
) -> u8
    ensures { result ≤ 2 }
{
    match read_input(alloc, input, output, task) {
        Ok(outcome) => outcome.status(&mut errors),
        Err(fault) => fault.report(&mut errors),
    }
}

/// As [`report_flow`], and draws a transfer, whose number is counted from 1, on the writer that
/// `picture` opens after the report.
///
/// The status is 2, with a message on `errors`, also if there is no such transfer, or the picture
/// cannot be opened or written.
pub fn draw_flow<R, W, E, P, F>(
    alloc: Global,
    input: R,
    output: W,
    number: usize,
    picture: F,
    errors: E,
) -> u8
where
    R: Read + Drop,
    W: Write + Drop,
    E: Write + Drop,
    P: Write + Drop,
    F: FnOnce() -> io::Result<P> + Drop,
    requires { F.IsAlwaysCallable picture }
    ensures { result ≤ 2 }
{
    let mut task = Task::report();
    task.drawn = Some(number as u64);
    drawn(alloc, input, output, task, picture, errors)
}

/// As [`shown`], and draws the transfer that the task has for it.
pub(crate) fn drawn<R, W, E, P, F>(
    alloc: Global,
    input: R,
    output: W,
    task: Task,
    picture: F,
    mut errors: E,
) -> u8
where
    R: Read + Drop,
    W: Write + Drop,
    E: Write + Drop,
    P: Write + Drop,
    F: FnOnce() -> io::Result<P> + Drop,
    requires { F.IsAlwaysCallable picture }
    ensures { result ≤ 2 }
{
    let outcome = match read_input(alloc, input, output, task) {
        Ok(outcome) => outcome,
        Err(fault) => return fault.report(&mut errors),
    };
    match draw(alloc, &outcome, picture) {
        Ok(()) => outcome.status(&mut errors),
        Err(fault) => fault.report(&mut errors),
    }
}

/// Reads lines or a capture, and writes what the task asks for.
fn read_input<R: Read + Drop, W: Write + Drop>(
    alloc: Global,
    mut input: R,
    output: W,
    task: Task,
) -> Result<Outcome, ShowFault> {
    let head = match read_head(alloc, &mut input) {
        Ok(head) => head,
        Err(fault) => return Err(fault),
    };
    let is_frames = begins_a_capture(head.as_slice());
    let input = Cursor::new(head).chain(input);
    if task.style == Style::Packets && !is_frames {
        return match show_buffered(alloc, input, output) {
            Ok(are_packets) => Ok(Outcome::of_lines(are_packets)),
            Err(fault) => Err(fault),
        };
    }
    read_all(alloc, input, output, task, is_frames)
}

/// The first four bytes of an input, or all if it has fewer.
fn read_head<R: Read>(alloc: Global, input: &mut R) -> Result<Vec<u8>, ShowFault> {
    let mut head = Vec::new(alloc);
    let mut byte = [0; 1];
    for _ in 0..4 {
        match input.read_exact(&mut byte) {
            Ok(()) => {}
            Err(error) if error.kind() == ErrorKind::UnexpectedEof => return Ok(head),
            Err(error) => return Err(ShowFault::of_reading(&error)),
        }
        match head.push(byte[0]) {
            Ok(()) => {}
            Err(_) => return Err(ShowFault::Memory),
        }
    }
    Ok(head)
}

fn begins_a_capture(head: &[u8]) -> bool {
    match head {
        [a, b, c, d] => is_capture([*a, *b, *c, *d]),
        _ => false,
    }
}

impl Outcome {
    /// The outcome of lines, each of which was printed.
    fn of_lines(are_packets: bool) -> Outcome {
        Outcome {
            is_whole: are_packets,
            diagram: None,
            cut: None,
        }
    }

    /// The status, with a message for a capture that is cut short or damaged.
    fn status<E: Write>(&self, errors: &mut E) -> u8
        ensures { result ≡ outcome_status self.now }
    {
        if let Some((frame, fault)) = self.cut {
            let _ = writeln!(errors, "tftp-show: frame {frame}: {fault}");
            return 1;
        }
        if self.is_whole { 0 } else { 1 }
    }
}

/// Reads an input to its end, and writes what is asked for.
fn read_all<R: Read + Drop, W: Write + Drop>(
    alloc: Global,
    input: R,
    output: W,
    task: Task,
    is_frames: bool,
) -> Result<Outcome, ShowFault> {
    let mut input = BufReader::with_capacity(alloc, AT_ONCE, input)?;
    let output = BufWriter::new(alloc, output)?;
    let port = if is_frames { Some(task.port) } else { None };
    let mut printer = Printer::new(alloc, output, task, port);
    let mut bytes = Vec::new(alloc);
    if is_frames {
        let mut capture = Capture::new(alloc, input);
        print_frames(&mut capture, &mut bytes, &mut printer)
    } else {
        print_lines(&mut input, &mut bytes, &mut printer)
    }
}

/// Prints the lines of an input, each of which is read into `line`.
fn print_lines<R: Read, W: Write>(
    input: &mut BufReader<R>,
    line: &mut Vec<u8>,
    printer: &mut Printer<W>,
) -> Result<Outcome, ShowFault> {
    for number in 1..u64::MAX {
        line.clear();
        if read_line(input, line)? == 0 {
            return printer.finish(None);
        }
        if line.len() > LONGEST_LINE + FIELDS {
            return Err(ShowFault::Long);
        }
        printer.add_line(number, without_end(line.as_slice()))?;
        printer.rest(input.buffer().is_empty())?;
    }
    Err(ShowFault::Unreadable)
}

/// Prints the frames of a capture, each of which is read into `frame`.
fn print_frames<R: Read, W: Write>(
    capture: &mut Capture<R>,
    frame: &mut Vec<u8>,
    printer: &mut Printer<W>,
) -> Result<Outcome, ShowFault> {
    for number in 1..u64::MAX {
        match capture.next_frame(frame) {
            Ok(Some(record)) => printer.add_frame(record, frame.as_slice())?,
            Ok(None) => return printer.finish(None),
            Err(CaptureFault::Memory) => return Err(ShowFault::Memory),
            Err(CaptureFault::Unreadable) => return Err(ShowFault::Unreadable),
            Err(fault) => return printer.finish(Some((number, fault))),
        }
        printer.rest(capture.get_ref().buffer().is_empty())?;
    }
    Err(ShowFault::Unreadable)
}

/// The line without its line end.
fn without_end(line: &[u8]) -> &[u8] {
    match line {
        [front @ .., b'\r', b'\n'] => front,
        [front @ .., b'\n'] => front,
        [front @ .., b'\r'] => front,
        _ => line,
    }
}

/// Draws the transfer that is to be drawn.
fn draw<P, F>(alloc: Global, outcome: &Outcome, picture: F) -> Result<(), ShowFault>
where
    P: Write + Drop,
    F: FnOnce() -> io::Result<P> + Drop,
    requires { F.IsAlwaysCallable picture }
{
    let Some(diagram) = &outcome.diagram else {
        return Err(ShowFault::NoTransfer);
    };
    let svg = svg_text(alloc, diagram)?;
    match picture() {
        Ok(file) => write_picture(file, svg.as_str()),
        Err(_) => Err(ShowFault::Undrawn),
    }
}

fn write_picture<P: Write + Drop>(mut file: P, svg: &str) -> Result<(), ShowFault> {
    match file.write_all(svg.as_bytes()) {
        Ok(()) => {}
        Err(_) => return Err(ShowFault::Undrawn),
    }
    match file.flush() {
        Ok(()) => Ok(()),
        Err(_) => Err(ShowFault::Undrawn),
    }
}
