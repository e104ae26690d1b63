// Whether the state goes by its rule, by what was asked, what was answered and the lists.
ghost use Rattle.std.specs.Prelude.{◌≡◌, cond, length};
ghost use Rattle.rules.specs.Layout.{stride};
ghost use Rattle.soundness.specs.Soundness.{as_asked, took_kept, state_by_cells};

use crate::answer::pointers_of;
use crate::list::same_cells;
use pointers::name_all;
use rules::layout::{ANSWERED, ASKED, COMBINED, LIST, STATE, STRIDE, TAKEN};

// Whether what was answered is what was asked: the same setup, or all of the list.
fn is_as_asked(place: &[u32; STRIDE]) -> bool
    ensures { result ≡ as_asked place.now }
{
    if place[ANSWERED] == COMBINED {
        return (place[ASKED] == COMBINED)
            & name_all(pointers_of(place[ANSWERED + 1]), place[TAKEN]);
    }
    (place[ASKED] == place[ANSWERED])
        & (place[ASKED + 1] == place[ANSWERED + 1])
        & (place[ASKED + 2] == place[ANSWERED + 2])
}

// The state by an answer that came after the asking.
fn answer_state(place: &[u32; STRIDE]) -> u32
    ensures { result ≡ cond (as_asked place.now) 2 3 }
{
    if is_as_asked(place) {
        return 2;
    }
    3
}

// Whether a 0x48, where it is the latest answer, took over the list that is kept.
fn took_kept(place: &[u32; STRIDE]) -> bool
    ensures { result ≡ took_kept place.now }
{
    if place[ANSWERED] == COMBINED {
        return same_cells(&place[TAKEN..STRIDE], &place[LIST..TAKEN]);
    }
    true
}

// Whether the state goes by its rule.
pub(crate) fn state_fits(place: &[u32; STRIDE]) -> bool
    ensures { result ≡ state_by_cells place.now }
{
    let state = place[STATE];
    if place[ASKED] == 0 {
        return state == 0;
    }
    if state == 1 {
        return true;
    }
    if place[ANSWERED] == 0 {
        return false;
    }
    if state != answer_state(place) {
        return false;
    }
    took_kept(place)
}
