// The port table of one hub in `TABLE_SIZE` cells that the caller lends, and values read by it. Any other
// slice of cells is refused with 9, and stays as it is.
#![tactic(auto)]

pub mod block;
mod combined;
mod datasets;
mod judge;
mod lookup;
mod offering;
mod step;

ghost use Rattle.std.specs.Prelude.{◌≡◌, true, ℕ, length};
ghost use Rattle.rules.specs.Answer.{outcome};
ghost use Rattle.rules.specs.Offer.{cells_after, dataset_by_cells, offer_by_cells};
ghost use Rattle.stores.specs.Stores.{emptied};
ghost use Rattle.table.specs.BlockAnswer.{block_answer, block_cells, block_fits, block_text, run_of};
ghost use Rattle.table.specs.BlockAnswer as BlockAnswer;
ghost use Rattle.table.specs.Combined.{in_plan};
ghost use Rattle.values.specs.DatasetAnswer as DatasetAnswer;
ghost use Rattle.values.specs.ValueMessage.{dataset_by, value_fits};
ghost use Rattle.table.specs.OfferAnswer.{empty_answer};
ghost use Rattle.table.specs.OfferAnswer as OfferAnswer;

use crate::block::{Block, block_sound};
use crate::combined::MOST_VALUES;
use crate::datasets::value_sound;
use crate::offering::offer_sound;
use log_lines::totals::Totals;
use protocol::{Refusal, Way};
use rules::layout::TABLE_SIZE;
use soundness::is_sound;
use soundness::sound_table::SoundTable;
use stores::clear;
use values::datasets::{Dataset, ValueMessage, handed_out};

// Makes an empty table of `TABLE_SIZE` cells of any content.
pub fn empty(table: &mut [u32]) -> Result<(), Refusal>
    ensures { (OfferAnswer.answer_of result ≡ empty_answer table.old) × (table.new ≡ emptied table.old) }
{
    if table.len() != TABLE_SIZE {
        return Err(Refusal::UnsoundTable);
    }
    clear(table);
    Ok(())
}

// Offers a message with its experiment number to the table, which follows it where it is accepted.
#[tactic(auto, unfolding(rules::specs::Offer::offer_by_cells, rules::specs::Offer::cells_after))]
pub fn offer(table: &mut [u32], message: &[u8], way: Way, experiment: u16) -> Result<(), Refusal>
    ensures { (OfferAnswer.answer_of result ≡ outcome (offer_by_cells table.old (record { way = way; bytes = message.now; experiment = experiment }))) × (table.new ≡ cells_after table.old (record { way = way; bytes = message.now; experiment = experiment })) }
{
    if !is_sound(table) {
        return Err(Refusal::UnsoundTable);
    }
    offer_sound(table, message, way, experiment)
}

// What the datasets of a message are read by, as the table stands. A plan of 16 bytes is lent, in which a 0x46 has its plan
// afterwards; a plan of any other size is answered with 9.
#[tactic(auto, unfolding(rules::specs::Offer::dataset_by_cells))]
pub fn value(
    table: &[u32],
    message: &[u8],
    way: Way,
    plan: &mut [u8],
) -> Result<ValueMessage, Refusal>
    ensures { ((number : ℕ) → dataset_by result plan.new message.now number ≡ in_plan (length plan.old) (dataset_by_cells table.now way message.now number)) × (value_fits result ≡ true) × (length plan.new ≡ length plan.old) }
{
    let Some(plan) = plan.as_mut_array::<MOST_VALUES>() else {
        return Err(Refusal::UnsoundTable);
    };
    value_sound(SoundTable::of(table)?, message, way, plan)
}

// Hands out one dataset of a message, as the table stands.
pub fn dataset(table: &[u32], message: &[u8], way: Way, number: usize) -> Dataset
    ensures { DatasetAnswer.answer_of result ≡ dataset_by_cells table.now way message.now number }
{
    let mut plan = [0u8; MOST_VALUES];
    let value = value(table, message, way, &mut plan);
    handed_out(value, &plan, message, number)
}

// Works through a block of a log: as many whole records as there is room for, each a line of text in
// the front of `out`, numbered on from the lines of `totals`. The table follows the messages.
#[tactic(auto, unfolding(crate::specs::BlockAnswer::block_answer, crate::specs::BlockAnswer::block_cells, crate::specs::BlockAnswer::block_text))]
pub fn read_block(
    table: &mut [u32],
    totals: Totals,
    input: &[u8],
    out: &mut [u8],
) -> Result<Block, Refusal>
    ensures { (BlockAnswer.answer_of result ≡ block_answer 128 (run_of table.old totals.lines totals.refused input.now) (length out.old)) × (table.new ≡ block_cells 128 (run_of table.old totals.lines totals.refused input.now) (length out.old)) × (out.new ≡ block_text 128 (run_of table.old totals.lines totals.refused input.now) out.old) × (block_fits result (length input.now) (length out.old)) }
{
    if !is_sound(table) {
        return Err(Refusal::UnsoundTable);
    }
    Ok(block_sound(table, totals, input, out))
}
