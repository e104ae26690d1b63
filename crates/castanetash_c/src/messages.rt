// Reading one message, and writing one.
ghost use Rattle.std.specs.Prelude.{◌≡◌, length};
ghost use Rattle.answers.specs.Call.{call_number, row_after, row_number};
ghost use Rattle.message_rows.specs.Row.{way_of};
ghost use Rattle.row_messages.specs.RowWriting.{row_encoded};
ghost use Rattle.writer.specs.Writing.{answered, lent_after, limited};
ghost use Rattle.castanetash.specs.Answers.{read_answer, written_count};

// Reads one message (`way`: 0 down, else up) into a row of 16 cells: form (from 1), where the open
// bytes start, how many they are, how many values, the values from left to right.
#[unsafe(no_mangle)]
pub extern "C" fn castanetash_read(message: &[u8], way: u8, row: &mut [u64]) -> u64
    ensures { (result ≡ row_number row.old (read_answer (way_of way) message.now)) × (row.new ≡ row_after row.old (read_answer (way_of way) message.now)) }
{
    castanetash::castanetash_read(message, way, row)
}

// Writes the message of a row, as `castanetash_read` fills it, with its open bytes into the front of
// `out`.
#[unsafe(no_mangle)]
pub extern "C" fn castanetash_write(row: &[u64], way: u8, open: &[u8], out: &mut [u8]) -> u64
    ensures { (result ≡ call_number (written_count (answered (limited (length out.old) (row_encoded (way_of way) row.now «open».now))))) × (out.new ≡ lent_after (limited (length out.old) (row_encoded (way_of way) row.now «open».now)) out.old) }
{
    castanetash::castanetash_write(row, way, open, out)
}
