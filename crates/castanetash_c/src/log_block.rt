// A block of a log.
ghost use Rattle.std.specs.Prelude.{◌≡◌, length};
ghost use Rattle.answers.specs.Call.{call_number, lent_after, mapped};
ghost use Rattle.table.specs.BlockAnswer.{Progress};
ghost use Rattle.castanetash.specs.Answers.{block_call, cells_then, run_before, text_of, totals_row};

// Works through a block of a log: as many whole records as the text has room for, a line each. The
// table follows the messages, and two cells have the totals.
#[unsafe(no_mangle)]
pub extern "C" fn castanetash_read_block(
    table: &mut [u32],
    totals: &mut [u64],
    log: &[u8],
    text: &mut [u8],
) -> u64
    ensures { (result ≡ call_number (mapped (λ (p : Progress). p.written) (block_call table.old totals.old log.now (length text.old)))) × (table.new ≡ cells_then table.old totals.old log.now (length text.old)) × (totals.new ≡ lent_after totals.old (mapped totals_row (block_call table.old totals.old log.now (length text.old)))) × (text.new ≡ lent_after text.old (mapped (λ (p : Progress). text_of (run_before table.old totals.old log.now) (length text.old)) (block_call table.old totals.old log.now (length text.old)))) }
{
    castanetash::castanetash_read_block(table, totals, log, text)
}
