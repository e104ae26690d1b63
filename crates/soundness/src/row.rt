// Each port's place, in a row of numbers that is filled once. The search for a port is then one read.
ghost use Rattle.std.specs.Prelude.{◌≡◌, ◌+◌, ◌<◌, length, get_or, replicate};
ghost use Rattle.rules.specs.Layout.{places, port_count};
ghost use Rattle.soundness.specs.Row.{Indexed, Noted};

use rules::layout::{FREE, PLACES, PORT, PORT_COUNT, STRIDE, TABLE_SIZE, WIRING};

// The length of the row.
pub(crate) const ROW: usize = PORT_COUNT as usize;

// What the row has for a port that is not present. A row of Options would need the test of both in each look, and is no plainer
// where the row is filled from numbers.
pub(crate) const NOWHERE: u8 = PLACES as u8;

// Notes a place in a row that has the places after it. False where its port is too large, or stands in one of those.
fn note(table: &[u32; TABLE_SIZE], row: &mut [u8], i: usize) -> bool
    requires { (i < places) × Indexed table.now row.old (i + 1) }
    ensures { Noted table.now row.new i result }
{
    if table[STRIDE * i + WIRING] == FREE {
        return true;
    }
    let port = table[STRIDE * i + PORT];
    if PORT_COUNT <= port {
        return false;
    }
    let at = port as usize;
    let is_noted = row[at] != NOWHERE;
    if is_noted {
        return false;
    }
    row[at] = i as u8;
    true
}

// Notes every place, the last one first. False where the table is not sound for its ports.
pub(crate) fn note_all(table: &[u32; TABLE_SIZE], row: &mut [u8]) -> bool
    requires { row.old ≡ replicate port_count places }
    ensures { Noted table.now row.new 0 result }
{
    for i in (0..PLACES).rev() {
        if !note(table, row, i) {
            return false;
        }
    }
    true
}

// The place that the row has for a port.
pub(crate) fn place_in(row: &[u8], port: u32) -> usize
    requires { (length row.now ≡ port_count) × (port < port_count) }
    ensures { result ≡ get_or row.now port 0 }
{
    row[port as usize] as usize
}
