// Whether cells are zeros, and whether those of a wiring are those of what they stand for.
ghost use Rattle.std.specs.Prelude.{◌≡◌, length};
ghost use Rattle.rules.specs.Layout.{stride};
ghost use Rattle.soundness.specs.Soundness.{all_zeros, exact_wiring};

use rules::layout::{FIRST, JOINED, SECOND, STRIDE, UNJOINED, VIRTUAL, WIRING};

// Whether every cell is 0.
pub(crate) fn are_zeros(cells: &[u32]) -> bool
    ensures { result ≡ all_zeros cells.now }
{
    let mut zeros = true;
    for cell in cells {
        zeros &= *cell == 0;
    }
    zeros
}

// Whether the wiring is one of three, and the partners that it does not have are 0.
pub(crate) fn exact_wiring(place: &[u32; STRIDE]) -> bool
    ensures { result ≡ exact_wiring place.now }
{
    match place[WIRING] {
        UNJOINED => (place[FIRST] == 0) & (place[SECOND] == 0),
        JOINED => place[SECOND] == 0,
        VIRTUAL => true,
        _ => false,
    }
}
