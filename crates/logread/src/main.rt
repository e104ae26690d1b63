// Prints a line for each record of a log, and the totals: `logread [FILE]` reads the file, or standard
// input. What fails is told on standard error, in a line that names it; after that nothing more is
// printed, so a log without totals is seen to be incomplete.
#![tactic(auto)]

mod reading;
mod words;

use crate::reading::LogReader;
use crate::words::{Failure, print_usage};
use std::env::FillError;
use std::fs::File;
use std::io::{Error, ErrorKind, Read, Write};
use std::rt::{Env, Files};

// The longest argument that is looked at; no longer one names a file.
const MOST_ARGUMENT: usize = 4096;

// Reads a log from what is open.
fn read_from<R: Read + Drop, O: Write + Drop>(source: R, output: O) -> Result<(), Failure> {
    let mut reader = LogReader::new(source, output);
    reader.print_log()
}

// Opens a file for reading. The system's names are bytes, and only those that are UTF-8 can be opened.
fn open_read<F: Files>(files: &F, name: &[u8]) -> Result<F::File, Error> {
    let path = str::from_utf8(name).map_err(|_| Error::from(ErrorKind::InvalidFilename))?;
    File::open(files, path)
}

// Does what the one argument asks for: it names a file, or is the option.
fn run_with<F: Files, O: Write + Drop>(
    files: &F,
    argument: &[u8],
    mut output: O,
) -> Result<(), Failure> {
    if argument == b"--help".as_slice() {
        return print_usage(&mut output).map_err(Failure::Output);
    }
    if argument.starts_with(b"-") {
        return Err(Failure::NoSuchOption);
    }
    let file = open_read(files, argument).map_err(Failure::Input)?;
    read_from(file, output)
}

// The last argument, where it is the only one; else it is one too many.
fn run_with_last<S: Env + Files, O: Write + Drop, E: Write>(
    system: &S,
    last: usize,
    output: O,
    errors: &mut E,
) {
    let mut buffer = [0; MOST_ARGUMENT];
    let size = match system.arg(last, &mut buffer) {
        Ok(size) => size,
        Err(error) => return Failure::Argument(error).tell(b"argument", errors),
    };
    let argument = &buffer[..size];
    let done = if last == 1 {
        run_with(system, argument, output)
    } else {
        Err(Failure::OneTooMany)
    };
    if let Err(failure) = done {
        failure.tell(argument, errors);
    }
}

// How many arguments come after the program's name.
fn count_arguments<S: Env>(system: &S) -> usize {
    (1..usize::MAX)
        .take_while(|&i| !matches!(system.arg(i, &mut []), Err(FillError::NotPresent)))
        .count()
}

fn main(rt: HostRuntime) {
    let mut errors = rt.stderr();
    let last = count_arguments(&rt);
    if last != 0 {
        run_with_last(&rt, last, rt.stdout(), &mut errors);
    } else if let Err(failure) = read_from(rt.stdin(), rt.stdout()) {
        failure.tell(b"standard input", &mut errors);
    }
}
