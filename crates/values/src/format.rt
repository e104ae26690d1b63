// A value format in one cell of a table.
ghost use Rattle.std.specs.Prelude.{◌≡◌};
ghost use Rattle.rules.specs.Cells.{format_bytes};

use rules::Format;

// The format that a cell stands for. A `From` would have to stand in `rules`, with a contract over cells, and a call would be no
// shorter.
pub fn format_in(cell: u32) -> Format
    ensures { result ≡ format_bytes cell }
{
    let [datasets, kind, figures, decimals] = cell.to_le_bytes();
    Format {
        datasets,
        kind,
        figures,
        decimals,
    }
}
