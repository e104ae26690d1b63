// What a port table says of its ports, of one of them, and of a mode's format. Cells that are not sound are refused with 9.
#![tactic(auto)]

pub mod present;
pub mod query;

ghost use Rattle.std.specs.Prelude.{◌≡◌};
ghost use Rattle.answers.specs.Call.{counted, row_after, row_count};
ghost use Rattle.queries.specs.FormatAnswer.{format_by_cells};
ghost use Rattle.queries.specs.FormatAnswer as FormatAnswer;
ghost use Rattle.queries.specs.PortAnswer.{lists_stand, port_by_cells};
ghost use Rattle.queries.specs.PortAnswer as PortAnswer;
ghost use Rattle.queries.specs.PortsAnswer.{ports_by_cells};

use crate::present::ports_of;
use crate::query::{Port, format_of, port_of};
use protocol::Refusal;
use rules::Format;
use soundness::sound_table::SoundTable;

// Puts the ports present, in ascending order, in front of what stands behind them, and tells how many
// they are; 255 where there are fewer bytes than ports.
#[tactic(auto, unfolding(crate::specs::PortsAnswer::ports_by_cells))]
pub fn ports(table: &[u32], ports: &mut [u8]) -> Result<usize, Refusal>
    ensures { (counted result ≡ row_count ports.old (ports_by_cells table.now)) × (ports.new ≡ row_after ports.old (ports_by_cells table.now)) }
{
    let table = SoundTable::of(table)?;
    ports_of(table, ports)
}

// What the table says of a port, its formats left out; nothing where the port is absent.
#[tactic(auto, unfolding(crate::specs::PortAnswer::port_by_cells))]
pub fn port(table: &[u32], port: u8) -> Result<Option<Port>, Refusal>
    ensures { (PortAnswer.answer_of table.now result ≡ port_by_cells table.now port) × (lists_stand table.now result) }
{
    let table = SoundTable::of(table)?;
    Ok(port_of(table, port))
}

// What the table says of the value format of a port's mode; nothing where it is not known.
#[tactic(auto, unfolding(crate::specs::FormatAnswer::format_by_cells))]
pub fn format(table: &[u32], port: u8, mode: u8) -> Result<Option<Format>, Refusal>
    ensures { FormatAnswer.answer_of result ≡ format_by_cells table.now port mode }
{
    let table = SoundTable::of(table)?;
    Ok(format_of(table, port, mode))
}
