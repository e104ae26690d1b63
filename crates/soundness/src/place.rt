// The place of a port's record, and a free place.
ghost use Rattle.std.specs.Prelude.{◌≡◌, ◌<◌};
ghost use Rattle.rules.specs.Layout.{places};
ghost use Rattle.soundness.specs.Found.{Finds};
ghost use Rattle.soundness.specs.Place.{place_at_index, port_at, find_place, free_place};

use rules::layout::{FREE, PLACES, PORT, STRIDE, TABLE_SIZE, WIRING};

// The cells of a place.
pub(crate) fn place_at(table: &[u32; TABLE_SIZE], i: usize) -> &[u32; STRIDE]
    requires { i < places }
    ensures { result.now ≡ place_at_index table.now i }
{
    table[STRIDE * i..].first_chunk::<STRIDE>().unwrap()
}

// Whether the record of a port stands at a place.
fn is_at(table: &[u32; TABLE_SIZE], i: usize, port: u32) -> bool
    requires { i < places }
    ensures { result ≡ port_at table.now i port }
{
    if table[STRIDE * i + WIRING] == FREE {
        return false;
    }
    table[STRIDE * i + PORT] == port
}

// The place of a port's record; none where the port is not present, or the cells are no table's.
pub fn find(table: &[u32], port: u32) -> Option<usize>
    ensures { Finds (find_place table.now port) result }
{
    let table = table.as_array::<TABLE_SIZE>()?;
    for i in 0..PLACES {
        if is_at(table, i, port) {
            return Some(i);
        }
    }
    None
}

// The lowest free place; none where every place has a record, or the cells are no table's.
pub fn free_place(table: &[u32]) -> Option<usize>
    ensures { Finds (free_place table.now) result }
{
    let table = table.as_array::<TABLE_SIZE>()?;
    for place in 0..PLACES {
        if table[STRIDE * place + WIRING] == FREE {
            return Some(place);
        }
    }
    None
}
