// The datasets of a value message, handed out by a port table.
ghost use Rattle.std.specs.Prelude.{◌≡◌};
ghost use Rattle.rules.specs.Offer.{dataset_by_cells, values_by_cells};
ghost use Rattle.answers.specs.Call.{mapped, row_after, row_number};
ghost use Rattle.message_rows.specs.Row.{way_of};
ghost use Rattle.table_cells.specs.Rows.{dataset_row};
ghost use Rattle.castanetash.specs.Answers.{values_after, values_number};

// Hands out one dataset of a message, in 6 cells.
#[unsafe(no_mangle)]
pub extern "C" fn castanetash_dataset(
    table: &[u32],
    message: &[u8],
    way: u8,
    number: usize,
    row: &mut [u64],
) -> u64
    ensures { (result ≡ row_number row.old (mapped dataset_row (dataset_by_cells table.now (way_of way) message.now number))) × (row.new ≡ row_after row.old (mapped dataset_row (dataset_by_cells table.now (way_of way) message.now number))) }
{
    castanetash::castanetash_dataset(table, message, way, number, row)
}

// Hands out all datasets of a message, in 6 cells each; answers how many they are.
#[unsafe(no_mangle)]
pub extern "C" fn castanetash_values(
    table: &[u32],
    message: &[u8],
    way: u8,
    rows: &mut [u64],
) -> u64
    ensures { (result ≡ values_number rows.old (values_by_cells table.now (way_of way) message.now)) × (rows.new ≡ values_after rows.old (values_by_cells table.now (way_of way) message.now)) }
{
    castanetash::castanetash_values(table, message, way, rows)
}
