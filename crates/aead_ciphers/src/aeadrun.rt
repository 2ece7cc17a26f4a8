//! The program `aeadrun`, which reads commands, one per line, and prints a one-line response to each.
//!
//! A line is parsed completely before anything is done, so a bad line changes nothing.

ghost use Rattle.std.specs.Prelude.{◌≡◌, ◌≤◌};

use std::alloc::{AllocError, Global};
use std::io;
use std::io::{BufRead, Write};

mod answers;
mod calls;
mod line;
mod program;
mod words;

use self::program::Program;
pub use self::words::{bytes, text};

/// The exit status if every line was a command.
const ALL_ANSWERED: u8 = 0;

/// The exit status if a line was not a command.
const BAD_LINE: u8 = 1;

/// The exit status if reading or writing failed, or memory was refused. The exception is memory for the tag of
/// `next-seal`: if that is refused, the response is `refused`.
pub const FAULT: u8 = 2;

/// A failure that ends the program before the end of its input.
#[derive(Drop)]
struct Fault;

impl From<AllocError> for Fault {
    fn from(_error: AllocError) -> Fault {
        Fault
    }
}

impl From<io::Error> for Fault {
    fn from(_error: io::Error) -> Fault {
        Fault
    }
}

/// Reads each line of `input`, writes a line to `output` as its response, and returns the exit status: 0 if every line
/// was a command, 1 if a line was not, or `FAULT`.
///
/// A line ends with LF, which may be missing from the last one. `output` is flushed after each response, before the
/// next line is read, so a caller may wait for a response before it sends the next line. The output stops at the first
/// failure, and what has been written by then is a prefix of what would have been written. `output` is flushed in every
/// case.
///
/// The line, the bytes of its words, and one word of its response at a time are held in memory.
pub fn lines<R: BufRead, W: Write>(alloc: Global, input: &mut R, output: &mut W) -> u8
    ensures status { result ≤ 2 }
    ensures fault { FAULT ≡ 2 }
{
    let outcome = answer_lines(alloc, input, output);
    let flushed = output.flush();
    match (outcome, flushed) {
        (Ok(true), Ok(())) => ALL_ANSWERED,
        (Ok(false), Ok(())) => BAD_LINE,
        _ => FAULT,
    }
}

/// Writes a response to each line, and returns whether every line was a command.
fn answer_lines<R: BufRead, W: Write>(
    alloc: Global,
    input: &mut R,
    output: &mut W,
) -> Result<bool, Fault> {
    let mut program = Program::new(alloc);
    let mut line = Vec::new(alloc);
    let mut all_answered = true;
    for _ in 0..u64::MAX {
        if !read_line(input, &mut line)? {
            break;
        }
        if program.answer(line.as_slice(), output)? {
            output.write_all(b"\n")?;
        } else {
            output.write_all(b"bad line\n")?;
            all_answered = false;
        }
        output.flush()?;
    }
    Ok(all_answered)
}

/// Reads the next line into `line`, without its LF, and returns whether there was one.
fn read_line<R: BufRead>(input: &mut R, line: &mut Vec<u8>) -> io::Result<bool> {
    line.clear();
    if input.read_until(b'\n', line)? == 0 {
        return Ok(false);
    }
    if line.last() == Some(&b'\n') {
        let _ = line.pop();
    }
    Ok(true)
}
