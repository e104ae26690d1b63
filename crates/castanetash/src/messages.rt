// Reading one message, and writing one.
ghost use Rattle.std.specs.Prelude.{◌≡◌, ◌≤◌, length};
ghost use Rattle.protocol.specs.Answer.{answer_of};
ghost use Rattle.answers.specs.Call.{call_number, counted, row_after, row_count, row_number};
ghost use Rattle.message_rows.specs.Row.{open_start, way_of};
ghost use Rattle.row_messages.specs.RowWriting.{row_encoded};
ghost use Rattle.writer.specs.Writing.{answered, lent_after, limited};
ghost use Rattle.castanetash.specs.Answers.{read_answer, reading_row, written_count};

use crate::way::way_of;
use answers::{call_number, fill};
use codec::{open_part, read};
use message_rows::message_row;
use protocol::{Message, Refusal};
use row_messages::write_row;

// Where the last `count` of `size` bytes start; 0 for none: the row's cell is so in the C interface.
fn open_start(size: u64, count: u64) -> u64
    requires { count ≤ size }
    ensures { result ≡ open_start size count }
{
    if count == 0 { 0 } else { size - count }
}

// The row of a reading of a message of `size` bytes, the last `count` of which are open.
fn put_reading(
    row: &mut [u64],
    reading: Result<Message, Refusal>,
    size: u64,
    count: u64,
) -> Result<usize, Refusal>
    requires { count ≤ size }
    ensures { (counted result ≡ row_count row.old (reading_row size count (answer_of reading))) × (row.new ≡ row_after row.old (reading_row size count (answer_of reading))) }
{
    let mut cells = message_row(reading?);
    cells[1] = open_start(size, count);
    cells[2] = count;
    fill(row, &cells)
}

// Reads one message (`way`: 0 down, else up) into a row of 16 cells: form (from 1), where the open
// bytes start, how many they are, how many values, the values from left to right.
pub fn castanetash_read(message: &[u8], way: u8, row: &mut [u64]) -> u64
    ensures { (result ≡ row_number row.old (read_answer (way_of way) message.now)) × (row.new ≡ row_after row.old (read_answer (way_of way) message.now)) }
{
    let w = way_of(way);
    let reading = read(message, w);
    let open = open_part(message, w).len();
    call_number(put_reading(row, reading, message.len() as u64, open as u64))
}

// Writes the message of a row, as `castanetash_read` fills it, with its open bytes into the front of
// `out`.
pub fn castanetash_write(row: &[u64], way: u8, open: &[u8], out: &mut [u8]) -> u64
    ensures { (result ≡ call_number (written_count (answered (limited (length out.old) (row_encoded (way_of way) row.now «open».now))))) × (out.new ≡ lent_after (limited (length out.old) (row_encoded (way_of way) row.now «open».now)) out.old) }
{
    call_number(write_row(row, way_of(way), open, out).map(usize::from))
}
