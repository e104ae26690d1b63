// A table that is tested for soundness, lent to be read. One that changes stays a slice of cells: between two stores it need not
// be sound, so that each step asks for soundness by itself. Functions that begin and end with a sound table take cells too: a
// struct round a `&mut` would have to be opened and closed at every store.
ghost use Rattle.std.specs.Prelude.{◌≡◌, true, false, MatchResult};
ghost use Rattle.protocol.specs.declared.refusal.Refusal.TheVariants.{UnsoundTable};
ghost use Rattle.rules.specs.Cells.{sound};

use crate::is_sound;
use protocol::Refusal;

#[derive(Clone, Copy)]
pub struct SoundTable<'a> {
    pub cells: &'a [u32],
    ghost tested: { sound cells.now ≡ true },
}

impl<'a> SoundTable<'a> {
    // Tests cells that are lent; 9 where they are not sound.
    pub fn of(cells: &'a [u32]) -> Result<SoundTable<'a>, Refusal>
        ensures { MatchResult result (λ t. (sound cells.now ≡ true) × (t.cells.now ≡ cells.now)) (λ r. (sound cells.now ≡ false) × (r ≡ UnsoundTable)) }
    {
        if !is_sound(cells) {
            return Err(Refusal::UnsoundTable);
        }
        Ok(SoundTable { cells })
    }
}
