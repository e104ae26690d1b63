// Whether a record's settings are within their lists, and the state and the experiment number go by their rules.
ghost use Rattle.std.specs.Prelude.{◌≡◌, ◌-◌, length};
ghost use Rattle.rules.specs.Layout.{stride};
ghost use Rattle.rules.specs.WellFormed.{format_fits};
ghost use Rattle.rules.specs.Cells.{format_at};
ghost use Rattle.soundness.specs.Soundness.{formats_in_fit, experiment_in_fits, sound_settings};

use crate::answer::{answered_fits, asked_fits};
use crate::list::list_fits;
use crate::state::state_fits;
use rules::layout::{ASKED, EXPERIMENT, EXPERIMENT_COUNT, FORMATS, LIST, MODE_COUNT, STRIDE};

// Whether a format's cell is within its lists. One less is tested: then 1 to 16 datasets are 0 to 15, none are 255, and no
// format at all, 0, stays 0 and passes.
fn format_fits(format: u32) -> bool
    ensures { result ≡ format_fits (format_at format) }
{
    let less = format.saturating_sub(1);
    (less % 256 <= 15) & (less / 256 % 256 <= 3)
}

// Whether the formats of all modes are within their lists.
fn formats_fit(place: &[u32; STRIDE]) -> bool
    ensures { result ≡ formats_in_fit place.now }
{
    let mut fit = true;
    for mode in (0..MODE_COUNT).rev() {
        fit &= format_fits(place[FORMATS + mode]);
    }
    fit
}

// Whether the experiment number is 0 where nothing was asked, and one of two bytes where something was.
fn experiment_fits(place: &[u32; STRIDE]) -> bool
    ensures { result ≡ experiment_in_fits place.now }
{
    let experiment = place[EXPERIMENT];
    if place[ASKED] == 0 {
        return experiment == 0;
    }
    experiment < EXPERIMENT_COUNT
}

// Whether what a port was told is within its lists, and the state and the experiment number go by their rules; and the
// cells of the settings are those of what they stand for.
pub(crate) fn settings_fit(place: &[u32; STRIDE]) -> bool
    ensures { result ≡ sound_settings place.now }
{
    formats_fit(place)
        && list_fits(place, LIST)
        && answered_fits(place)
        && asked_fits(place)
        && state_fits(place)
        && experiment_fits(place)
}
