// A port table, whose cells the caller lends.
ghost use Rattle.std.specs.Prelude.{◌≡◌};
ghost use Rattle.rules.specs.Answer.{outcome};
ghost use Rattle.rules.specs.Offer.{cells_after, offer_by_cells};
ghost use Rattle.answers.specs.Call.{mapped, plain_number, row_after, row_number};
ghost use Rattle.message_rows.specs.Row.{way_of};
ghost use Rattle.queries.specs.FormatAnswer.{format_by_cells};
ghost use Rattle.stores.specs.Stores.{emptied};
ghost use Rattle.table.specs.OfferAnswer.{empty_answer};
ghost use Rattle.queries.specs.PortAnswer.{port_by_cells};
ghost use Rattle.queries.specs.PortsAnswer.{ports_by_cells};
ghost use Rattle.table_cells.specs.Rows.{format_row, port_row};

use crate::way::way_of;
use answers::{call_number, plain_number};
use queries::{format, ports};
use table::{empty, offer};
use table_cells::{put_format, put_port};

// Makes an empty table of a table's number of cells.
pub fn castanetash_empty(table: &mut [u32]) -> u64
    ensures { (result ≡ plain_number (empty_answer table.old)) × (table.new ≡ emptied table.old) }
{
    plain_number(empty(table))
}

// Offers a message with its experiment number to a table.
pub fn castanetash_offer(table: &mut [u32], message: &[u8], way: u8, experiment: u16) -> u64
    ensures { (result ≡ plain_number (outcome (offer_by_cells table.old (record { way = way_of way; bytes = message.now; experiment = experiment })))) × (table.new ≡ cells_after table.old (record { way = way_of way; bytes = message.now; experiment = experiment })) }
{
    plain_number(offer(table, message, way_of(way), experiment))
}

// The ports present, in ascending order, a byte each.
pub fn castanetash_ports(table: &[u32], list: &mut [u8]) -> u64
    ensures { (result ≡ row_number list.old (ports_by_cells table.now)) × (list.new ≡ row_after list.old (ports_by_cells table.now)) }
{
    call_number(ports(table, list))
}

// What the table says of a port, in 49 cells.
pub fn castanetash_port(table: &[u32], number: u8, row: &mut [u64]) -> u64
    ensures { (result ≡ row_number row.old (mapped port_row (port_by_cells table.now number))) × (row.new ≡ row_after row.old (mapped port_row (port_by_cells table.now number))) }
{
    call_number(put_port(row, table, number))
}

// What the table says of the format of a port's mode, in 5 cells.
pub fn castanetash_format(table: &[u32], number: u8, mode: u8, row: &mut [u64]) -> u64
    ensures { (result ≡ row_number row.old (mapped format_row (format_by_cells table.now number mode))) × (row.new ≡ row_after row.old (mapped format_row (format_by_cells table.now number mode))) }
{
    call_number(put_format(row, format(table, number, mode)))
}
