// Whether a record's partners are wired to it.
ghost use Rattle.std.specs.Prelude.{◌≡◌, MatchOption, ◌<◌};
ghost use Rattle.rules.specs.declared.Wiring.TheVariants.{Joined, Virtual};
ghost use Rattle.rules.specs.Layout.{port_count, port_index};
ghost use Rattle.rules.specs.Table.{view_of_table};
ghost use Rattle.rules.specs.WellFormed.{is_joined_to, joined_to, is_pair_with, pair_with, wiring_fits};
ghost use Rattle.rules.specs.Cells.{record_at, cell_at, table_at};
ghost use Rattle.std.proofs.Math.Option.{none, some};
ghost use Rattle.soundness.specs.Row.{Indexed};
ghost use Rattle.soundness.specs.Soundness.{wiring_in};

use crate::place::place_at;
use crate::row::place_in;
use rules::layout::{
    FIRST, JOINED, PLACES, PORT, PORT_COUNT, SECOND, STRIDE, TABLE_SIZE, UNJOINED, WIRING,
};

// The record of a port, where it is present.
fn record_in<'a>(table: &'a [u32; TABLE_SIZE], row: &[u8], port: u32) -> Option<&'a [u32; STRIDE]>
    requires { Indexed table.now row.now 0 × (port < port_count) }
    ensures { MatchOption result (view_of_table (table_at table.now) port ≡ none) (λ place. view_of_table (table_at table.now) port ≡ some (record_at place.now).facts) }
{
    let i = place_in(row, port);
    if i < PLACES {
        Some(place_at(table, i))
    } else {
        None
    }
}

// Whether a record is that of a virtual port with a member.
fn pair_with(place: &[u32; STRIDE], member: u32) -> bool
    ensures { result ≡ pair_with member (wiring_in place.now) }
{
    (place[WIRING] != UNJOINED)
        & (place[WIRING] != JOINED)
        & ((place[FIRST] == member) | (place[SECOND] == member))
}

// Whether a port is present and virtual, with a member.
fn is_pair_with(table: &[u32; TABLE_SIZE], row: &[u8], port: u32, member: u32) -> bool
    requires { Indexed table.now row.now 0 × (port < port_count) }
    ensures { result ≡ is_pair_with member (view_of_table (table_at table.now) port) }
{
    record_in(table, row, port).is_some_and(|place| pair_with(place, member))
}

// Whether a record is that of a port that is joined to a virtual port.
fn joined_to(place: &[u32; STRIDE], pair: u32) -> bool
    ensures { result ≡ joined_to pair (wiring_in place.now) }
{
    (place[WIRING] == JOINED) & (place[FIRST] == pair)
}

// Whether a port is present and joined to a virtual port.
fn is_joined_to(table: &[u32; TABLE_SIZE], row: &[u8], port: u32, pair: u32) -> bool
    requires { Indexed table.now row.now 0 × (port < port_count) }
    ensures { result ≡ is_joined_to pair (view_of_table (table_at table.now) port) }
{
    record_in(table, row, port).is_some_and(|place| joined_to(place, pair))
}

// Whether the virtual port of a joined one names it.
fn joined_fits(table: &[u32; TABLE_SIZE], row: &[u8], port: u32, pair: u32) -> bool
    requires { Indexed table.now row.now 0 }
    ensures { result ≡ wiring_fits (view_of_table (table_at table.now)) port (Joined pair) }
{
    (pair < PORT_COUNT) && is_pair_with(table, row, pair, port)
}

// Whether the members of a virtual port are different, and both joined to it.
fn virtual_fits(table: &[u32; TABLE_SIZE], row: &[u8], port: u32, first: u32, second: u32) -> bool
    requires { Indexed table.now row.now 0 }
    ensures { result ≡ wiring_fits (view_of_table (table_at table.now)) port (Virtual first second) }
{
    ((first < PORT_COUNT) & (second < PORT_COUNT) & (first != second))
        && (is_joined_to(table, row, first, port) & is_joined_to(table, row, second, port))
}

// Whether a record's partners are wired to it.
pub(crate) fn wiring_fits(table: &[u32; TABLE_SIZE], row: &[u8], place: &[u32; STRIDE]) -> bool
    requires { Indexed table.now row.now 0 }
    ensures { result ≡ wiring_fits (view_of_table (table_at table.now)) (cell_at place.now port_index) (wiring_in place.now) }
{
    match place[WIRING] {
        UNJOINED => true,
        JOINED => joined_fits(table, row, place[PORT], place[FIRST]),
        _ => virtual_fits(table, row, place[PORT], place[FIRST], place[SECOND]),
    }
}
