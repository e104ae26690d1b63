// Reading a log piece by piece, and printing the lines of its records, block by block, and its ending.
ghost use Rattle.std.specs.Prelude.{◌≡◌, true, ◌≤◌, length, take, Result, Ok, Err};
ghost use Rattle.rules.specs.Cells.{empty_cells, sound};
ghost use Rattle.log_rules.specs.Cutting.{start};
ghost use Rattle.logread.specs.Printed.{Printable};

use crate::words::Failure;
use log_lines::record::RECORD_SIZE;
use log_lines::totals::{Totals, put_ending};
use rules::layout::TABLE_SIZE;
use std::io::{Read, Write};
use table::{empty, read_block};

// How much is read at once, and how much text is printed at once.
const LARGE: usize = 65536;

// Prints the lines of records, by a table that follows them.
#[derive(Drop)]
struct Printer<O> {
    output: O,
    out: [u8; LARGE],
    table: [u32; TABLE_SIZE],
    totals: Totals,
    ghost is_sound: { sound table ≡ true },
}

// Reads a log.
#[derive(Drop)]
pub(crate) struct LogReader<R, O> {
    source: R,
    input: [u8; LARGE],
    // How many bytes at the start of `input` were not worked through yet.
    held: usize,
    printer: Printer<O>,
    ghost within: { held ≤ length input },
}

// Writes text to standard output; it is lines of records, or the ending of a log.
fn print<O: Write>(output: &mut O, text: &[u8]) -> Result<(), Failure>
    requires { Printable text.now }
{
    output.write_all(text).map_err(Failure::Output)
}

impl<O: Write> Printer<O> {
    ghost use Rattle.logread.specs.Reading.{BlockDone, RecordsDone, run_with};

    // With an empty table.
    fn new(output: O) -> Self
        ensures { (result.table ≡ empty_cells) × (result.totals.lines ≡ 0) × (result.totals.refused ≡ 0) }
    {
        let mut table = [0; TABLE_SIZE];
        empty(&mut table).unwrap();
        Printer {
            output,
            out: [0; LARGE],
            table,
            totals: Totals {
                lines: 0,
                refused: 0,
            },
        }
    }

    // Works through a block of whole records of a part of the input, and prints their lines. Answers
    // how many bytes it took; 0 is what was taken where the totals can count no more.
    fn print_block(&mut self, input: &[u8]) -> Result<usize, Failure>
        ensures { BlockDone (run_with self.old input.now) self.old.out self.new result }
    {
        let block = read_block(&mut self.table, self.totals, input, &mut self.out).unwrap();
        self.totals = block.totals;
        print(&mut self.output, &self.out[..block.written])?;
        Ok(block.taken)
    }

    // The same with all whole records that are there, which may take more than one block. The loop
    // goes over the input that is left, and counts no index.
    fn print_records(&mut self, input: &[u8]) -> Result<usize, Failure>
        ensures { RecordsDone (run_with self.old input.now) self.new result }
    {
        let mut rest = input;
        while RECORD_SIZE <= rest.len() {
            let taken = self.print_block(rest)?;
            if taken == 0 {
                return Err(Failure::TooManyRecords);
            }
            rest = &rest[taken..];
        }
        Ok(input.len() - rest.len())
    }
}

impl<R: Read, O: Write> LogReader<R, O> {
    ghost use Rattle.logread.specs.Reading.{Stepped, TakenIn, ending_of, run_at, run_with};

    pub(crate) fn new(source: R, output: O) -> Self
        ensures { run_at result ≡ start }
    {
        LogReader {
            source,
            input: [0; LARGE],
            held: 0,
            printer: Printer::new(output),
        }
    }

    // Prints the lines of all whole records before an index, and keeps what is left of a record.
    fn take_in(&mut self, end: usize) -> Result<(), Failure>
        requires { end ≤ length self.old.input }
        ensures { TakenIn (run_with self.old.printer (take end self.old.input)) (run_at self.new) result }
    {
        let taken = self.printer.print_records(&self.input[..end])?;
        self.input.copy_within(taken..end, 0);
        self.held = end - taken;
        Ok(())
    }

    // One piece of the input: reads once, and prints the lines of all records that are whole now.
    // Answers whether anything came, which is not so at the end of the input.
    fn step(&mut self) -> Result<bool, Failure>
        ensures { Stepped (run_at self.old) (run_at self.new) result }
    {
        let count = self
            .source
            .read(&mut self.input[self.held..])
            .map_err(Failure::Input)?;
        if count == 0 {
            return Ok(false);
        }
        self.take_in(self.held + count)?;
        Ok(true)
    }

    // The ending of the log, at the start of the room for text; answers how long it is.
    fn put_end(&mut self) -> usize
        ensures { (result ≤ LARGE) × (take result self.new.printer.out ≡ ending_of (length self.old.printer.out) self.old.held self.old.printer.totals) }
    {
        let totals = self.printer.totals;
        put_ending(&mut self.printer.out, totals, 0 < self.held)
    }

    // The whole input, from its start, and the ending. A loop has to end, and nothing says that an
    // input does: it has more turns than any run takes.
    pub(crate) fn print_log(&mut self) -> Result<(), Failure>
        requires { run_at self.old ≡ start }
    {
        for _ in 0..u64::MAX {
            let came = self.step()?;
            if !came {
                break;
            }
        }
        let size = self.put_end();
        print(&mut self.printer.output, &self.printer.out[..size])
    }
}
