// Whether a slice of cells is a sound table, and where a port's record stands in it. Tests of cells are joined by `&` and
// `|`, and a loop over the cells of a place goes to its end, so that it needs no branches, but for the search for an entry
// among those before it; what several tests say is joined by `&&`, which costs less than keeping each answer.
#![tactic(auto)]

ghost use Rattle.std.specs.Prelude.{◌≡◌, ◌<◌};
ghost use Rattle.rules.specs.Layout.{places};
ghost use Rattle.rules.specs.Table.{view_of_table};
ghost use Rattle.rules.specs.Cells.{table_at, sound};
ghost use Rattle.soundness.specs.Row.{Indexed};
ghost use Rattle.soundness.specs.Soundness.{sound_record, sound_place};

use crate::exact::{are_zeros, exact_wiring};
use crate::place::place_at;
use crate::record::settings_fit;
use crate::row::{NOWHERE, ROW, note_all};
use crate::wiring::wiring_fits;
use rules::layout::{DEVICE, FREE, PLACES, PORT, PORT_COUNT, STRIDE, TABLE_SIZE, WIRING};

mod answer;
mod exact;
mod list;
pub mod place;
mod record;
mod row;
pub mod sound_table;
mod state;
mod wiring;

// Whether a record's cells are those of what they stand for, and it fits.
fn is_sound_record(table: &[u32; TABLE_SIZE], row: &[u8], place: &[u32; STRIDE]) -> bool
    requires { Indexed table.now row.now 0 }
    ensures { result ≡ sound_record (view_of_table (table_at table.now)) place.now }
{
    exact_wiring(place)
        && ((place[PORT] < PORT_COUNT) & (place[DEVICE] < 65536))
        && settings_fit(place)
        && wiring_fits(table, row, place)
}

// Whether a place is free and empty, or has a sound record. That its port is in no later place was seen with the row.
fn is_sound_place(table: &[u32; TABLE_SIZE], row: &[u8], i: usize) -> bool
    requires { Indexed table.now row.now 0 × (i < places) }
    ensures { result ≡ sound_place table.now i }
{
    let place = place_at(table, i);
    if place[WIRING] == FREE {
        return are_zeros(place);
    }
    is_sound_record(table, row, place)
}

// Whether cells are a sound table.
pub fn is_sound(table: &[u32]) -> bool
    ensures { result ≡ sound table.now }
{
    let Some(table) = table.as_array::<TABLE_SIZE>() else {
        return false;
    };
    let mut row = [NOWHERE; ROW];
    if !note_all(table, &mut row) {
        return false;
    }
    for i in 0..PLACES {
        if !is_sound_place(table, &row, i) {
            return false;
        }
    }
    true
}
