// A block of a log.
ghost use Rattle.std.specs.Prelude.{◌≡◌, cond, length};
ghost use Rattle.rules.specs.Answer.{refused};
ghost use Rattle.rules.specs.Cells.{sound};
ghost use Rattle.answers.specs.Call.{call_number, counted, lent_after, mapped};
ghost use Rattle.table.specs.BlockAnswer.{Progress};
ghost use Rattle.castanetash.specs.Answers.{block_call, cells_then, run_before, text_of, totals_row};

use answers::call_number;
use log_lines::totals::Totals;
use protocol::Refusal;
use soundness::is_sound;
use table::read_block;

// No more text than half of an answer can count.
const MOST_TEXT: usize = u32::MAX as usize;

// What comes of totals that are too few: 9 first, then 255.
fn few_totals(table: &[u32]) -> Refusal
    ensures { counted (Err result) ≡ cond (sound table.now) (refused 255 0) (refused 9 0) }
{
    if is_sound(table) {
        Refusal::Unfit
    } else {
        Refusal::UnsoundTable
    }
}

// Works through a block, and tells how much text was written.
fn put_block(
    table: &mut [u32],
    totals: &mut [u64],
    log: &[u8],
    text: &mut [u8],
) -> Result<usize, Refusal>
    ensures { (counted result ≡ mapped (λ (p : Progress). p.written) (block_call table.old totals.old log.now (length text.old))) × (table.new ≡ cells_then table.old totals.old log.now (length text.old)) × (totals.new ≡ lent_after totals.old (mapped totals_row (block_call table.old totals.old log.now (length text.old)))) × (text.new ≡ lent_after text.old (mapped (λ (p : Progress). text_of (run_before table.old totals.old log.now) (length text.old)) (block_call table.old totals.old log.now (length text.old)))) }
{
    if totals.len() < 2 {
        return Err(few_totals(table));
    }
    let before = Totals {
        lines: totals[0],
        refused: totals[1],
    };
    let room = text.len().min(MOST_TEXT);
    let block = read_block(table, before, log, &mut text[..room])?;
    totals[0] = block.totals.lines;
    totals[1] = block.totals.refused;
    Ok(block.written)
}

// Works through a block of a log: as many whole records as the text has room for, a line each. The
// table follows the messages, and two cells have the totals.
pub fn castanetash_read_block(
    table: &mut [u32],
    totals: &mut [u64],
    log: &[u8],
    text: &mut [u8],
) -> u64
    ensures { (result ≡ call_number (mapped (λ (p : Progress). p.written) (block_call table.old totals.old log.now (length text.old)))) × (table.new ≡ cells_then table.old totals.old log.now (length text.old)) × (totals.new ≡ lent_after totals.old (mapped totals_row (block_call table.old totals.old log.now (length text.old)))) × (text.new ≡ lent_after text.old (mapped (λ (p : Progress). text_of (run_before table.old totals.old log.now) (length text.old)) (block_call table.old totals.old log.now (length text.old)))) }
{
    call_number(put_block(table, totals, log, text))
}
