// What the program says besides the lines of a log.
ghost use Rattle.std.specs.Prelude.{◌≤◌, length};

use std::env::FillError;
use std::io;
use std::io::{Error, Write};

// Linux's numbers of the errors of an argument that is too long, and of one that is missing.
const ENAMETOOLONG: i32 = 36;

const EINVAL: i32 = 22;

// Why the program stops.
#[derive(Clone, Copy)]
pub(crate) enum Failure {
    NoSuchOption,
    OneTooMany,
    Argument(FillError),
    Input(Error),
    Output(Error),
    // More than can be counted.
    TooManyRecords,
}

impl Failure {
    // Tells it on standard error, with the name of what was read, or the argument.
    pub(crate) fn tell<E: Write>(self, name: &[u8], errors: &mut E) {
        match self {
            Failure::NoSuchOption => tell(errors, b"no such option: ", name),
            Failure::OneTooMany => tell(errors, b"one argument too many: ", name),
            Failure::Argument(FillError::TooLong) => {
                fail(errors, name, &Error::from_raw_os_error(ENAMETOOLONG))
            }
            Failure::Argument(FillError::NotPresent) => {
                fail(errors, name, &Error::from_raw_os_error(EINVAL))
            }
            Failure::Input(error) => fail(errors, name, &error),
            Failure::Output(error) => fail(errors, b"standard output", &error),
            Failure::TooManyRecords => tell(errors, b"too many records", b""),
        }
    }
}

// The words of an error: of one of the system's, its text without its number.
fn words_of(text: &str) -> &str {
    text.rsplit_once(" (os error ")
        .map_or(text, |(words, _)| words)
}

// The text of an error, as far as there is room for it.
fn text_of<'a>(error: &Error, room: &'a mut [u8]) -> &'a str {
    let mut rest = &mut room[..];
    let _ = write!(rest, "{error}");
    let left = rest.len();
    let size = room.len().saturating_sub(left);
    str::from_utf8(&room[..size]).unwrap_or("")
}

// A line of what failed, and why, as the system has it. A name is bytes, which need not be UTF-8. Where a part of the line can't be
// written, the parts after it are tried all the same.
fn fail<E: Write>(errors: &mut E, what: &[u8], error: &Error) {
    let mut room = [0; 320];
    let text = text_of(error, &mut room);
    let _ = errors.write_all(b"logread: ");
    let _ = errors.write_all(what);
    let _ = errors.write_all(b": ");
    let _ = errors.write_all(words_of(text).as_bytes());
    let _ = errors.write_all(b"\n");
}

// A line of what is wrong, and with what; each part is tried here too.
fn tell<E: Write>(errors: &mut E, what: &[u8], with: &[u8]) {
    let _ = errors.write_all(b"logread: ");
    let _ = errors.write_all(what);
    let _ = errors.write_all(with);
    let _ = errors.write_all(b"\n");
}

// How the program is used.
pub(crate) fn print_usage<O: Write>(output: &mut O) -> io::Result<()> {
    output.write_all(
        b"usage: logread [FILE]

Reads the log of one hub, from FILE or else from standard input, and prints a
line for each of its records, and the totals.

A record is 136 bytes: the time in ms (4 bytes, the lowest first), the
direction (0 to the hub, 1 from it), a zero, the number of the experiment
(2 bytes, the lowest first), and 128 bytes for the message, with zeros after
it.

A line is the number of the record, from 1, and its refusal: 0 if it is
accepted, else the number of the reason, as README.md lists them. For an
accepted value it goes on with
  the port
  the mode, which is the one that the hub last answered
  the state: 0 nothing was asked
             1 asked, and not answered since: the value is in the old mode
             2 answered as asked
             3 answered otherwise
  the number of the experiment that asked, in state 2; else 0
  the datasets: signed whole numbers, and floats as their 32 bits

The totals are the number of records and how many of them are refused.
If a read or a write fails, it is told on standard error, and there are no
totals: a log without totals is incomplete.
",
    )
}
