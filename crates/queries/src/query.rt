// What the table says of a port, and of a mode's format.
ghost use Rattle.std.specs.Prelude.{◌≡◌, true, ◌+◌, ◌-◌, ◌≤◌, ◌<◌};
ghost use Rattle.rules.specs.Cells.{first_partner, format_at, second_partner, setup_at};
ghost use Rattle.rules.specs.Layout.{answered_index, places, port_count, taken_index};
ghost use Rattle.rules.specs.Offer.{view_of_cells};
ghost use Rattle.rules.specs.WellFormed.{setup_fits};
ghost use Rattle.soundness.specs.Place.{cell_of, entries_here, wiring_here};
ghost use Rattle.queries.specs.Options.{option_of};
ghost use Rattle.queries.specs.FormatAnswer.{format_from};
ghost use Rattle.queries.specs.FormatAnswer as FormatAnswer;
ghost use Rattle.queries.specs.PortAnswer.{answered_here, answering_of, asked_here, asking_of, lists_of, port_facts};
ghost use Rattle.queries.specs.PortAnswer as PortAnswer;

use rules::layout::{
    ANSWERED, ASKED, COMBINED, DEVICE, EXPERIMENT, FIRST, FORMATS, JOINED, MODE_COUNT, SECOND,
    STATE, STRIDE, UNJOINED, WIRING,
};
use rules::{Format, Setup, Wiring};
use soundness::place::find;
use soundness::sound_table::SoundTable;
use values::format::format_in;

// The latest asking since the port was attached: a 0x41, or a list, which the port keeps. No type and function with the answer
// in common: a list that is asked for has no pointers.
#[derive(Clone, Copy)]
pub enum Asking {
    Single(Setup),
    Combined,
}

// The latest answer since the port was attached: a 0x47, or a 0x48, of which the port has the list that it took over.
#[derive(Clone, Copy)]
pub enum Answering {
    Single(Setup),
    Combined { pointers: u16 },
}

// What is known of a port that is present, its formats left out; the experiment number is the one that came with the latest
// asking, 0 before any. Its lists stand in the cells of its place.
#[derive(Clone, Copy)]
pub struct Port {
    pub device: u16,
    pub wiring: Wiring,
    pub answered: Option<Answering>,
    pub asked: Option<Asking>,
    pub state: u8,
    pub experiment: u16,
    pub place: usize,
}

// The setup whose three cells of a place start at an index.
#[tactic(auto, using(rules::proofs::CellsSound::sound_length))]
fn setup_at(table: SoundTable, place: usize, index: usize) -> Setup
    requires { (place < places) × (index ≤ answered_index) × (0 < cell_of table.cells.now place index) × (setup_fits (setup_at (cell_of table.cells.now place index - 1) (cell_of table.cells.now place (index + 1)) (cell_of table.cells.now place (index + 2))) ≡ true) }
    ensures { result ≡ setup_at (cell_of table.entry.cells.now place index - 1) (cell_of table.entry.cells.now place (index + 1)) (cell_of table.entry.cells.now place (index + 2)) }
{
    Setup {
        mode: (table.cells[STRIDE * place + index] - 1) as u8,
        delta: table.cells[STRIDE * place + (index + 1)],
        notify: table.cells[STRIDE * place + (index + 2)] as u8,
    }
}

// The latest asking of the record at a place.
#[tactic(auto, using(rules::proofs::CellsSound::sound_length))]
fn asked_at(table: SoundTable, place: usize) -> Option<Asking>
    requires { place < places }
    ensures { asking_of result ≡ asked_here table.entry.cells.now place }
{
    match table.cells[STRIDE * place + ASKED] {
        0 => None,
        COMBINED => Some(Asking::Combined),
        _ => Some(Asking::Single(setup_at(table, place, ASKED))),
    }
}

// The latest answer of the record at a place.
#[tactic(auto, using(rules::proofs::CellsSound::sound_length))]
fn answered_at(table: SoundTable, place: usize) -> Option<Answering>
    requires { place < places }
    ensures { answering_of result (entries_here table.entry.cells.now place taken_index) ≡ answered_here table.entry.cells.now place }
{
    match table.cells[STRIDE * place + ANSWERED] {
        0 => None,
        COMBINED => Some(Answering::Combined {
            pointers: table.cells[STRIDE * place + (ANSWERED + 1)] as u16,
        }),
        _ => Some(Answering::Single(setup_at(table, place, ANSWERED))),
    }
}

// The wiring of the record at a place.
#[tactic(auto, using(rules::proofs::CellsSound::sound_length))]
fn wiring_at(table: SoundTable, place: usize) -> Wiring
    requires { (place < places) × (first_partner (wiring_here table.cells.now place) < port_count) × (second_partner (wiring_here table.cells.now place) < port_count) }
    ensures { result ≡ wiring_here table.entry.cells.now place }
{
    match table.cells[STRIDE * place + WIRING] {
        UNJOINED => Wiring::Unjoined,
        JOINED => Wiring::Joined {
            port: table.cells[STRIDE * place + FIRST] as u8,
        },
        _ => Wiring::Virtual {
            port_a: table.cells[STRIDE * place + FIRST] as u8,
            port_b: table.cells[STRIDE * place + SECOND] as u8,
        },
    }
}

// What the table says of a port.
#[tactic(auto, using(rules::proofs::CellsSound::sound_length))]
pub(crate) fn port_of(table: SoundTable, port: u8) -> Option<Port>
    ensures { (option_of (PortAnswer.facts_of table.entry.cells.now) result ≡ port_facts (view_of_cells table.entry.cells.now port)) × (lists_of table.entry.cells.now result) }
{
    let place = find(table.cells, port as u32)?;
    let wiring = wiring_at(table, place);
    let answered = answered_at(table, place);
    let asked = asked_at(table, place);
    Some(Port {
        device: table.cells[STRIDE * place + DEVICE] as u16,
        wiring,
        answered,
        asked,
        state: table.cells[STRIDE * place + STATE] as u8,
        experiment: table.cells[STRIDE * place + EXPERIMENT] as u16,
        place,
    })
}

// The format of a cell.
fn known_format(cell: u32) -> Option<Format>
    ensures { FormatAnswer.known result ≡ format_at cell }
{
    if cell == 0 {
        None
    } else {
        Some(format_in(cell))
    }
}

// What the table says of a port's mode.
#[tactic(auto, using(rules::proofs::CellsSound::sound_length))]
pub(crate) fn format_of(table: SoundTable, port: u8, mode: u8) -> Option<Format>
    ensures { FormatAnswer.known result ≡ format_from (view_of_cells table.entry.cells.now port) mode }
{
    let place = find(table.cells, port as u32)?;
    let mode = mode as usize;
    if MODE_COUNT <= mode {
        return None;
    }
    known_format(table.cells[STRIDE * place + (FORMATS + mode)])
}
