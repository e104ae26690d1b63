// Offering a message to a sound table.
ghost use Rattle.std.specs.Prelude.{◌≡◌, true};
ghost use Rattle.rules.specs.Answer.{outcome};
ghost use Rattle.rules.specs.Cells.{cells_of, sound, table_at};
ghost use Rattle.rules.specs.Offer.{applied_to, cells_after, offer_by_cells};
ghost use Rattle.rules.specs.OpenBytes.{opens_in};
ghost use Rattle.rules.specs.Ranges.{effect_fits};
ghost use Rattle.rules.specs.Table.{apply};
ghost use Rattle.table.specs.Judged.{judged_by, refusal_by};
ghost use Rattle.table.specs.OfferAnswer.{answer_of};

use crate::judge::judged;
use crate::step::{attach, attach_virtual, detach, tell};
use codec::read;
use effects::effect_of;
use protocol::{Refusal, Way};
use rules::Effect;
use soundness::sound_table::SoundTable;
use stores::clear;

// What an accepted message changes.
fn follow(table: &mut [u32], e: Effect, message: &[u8])
    requires { (sound table.old ≡ true) × (effect_fits e (opens_in e message.now) ≡ true) × (refusal_by table.old e message.now ≡ 0) }
    ensures { table.new ≡ cells_of (apply e (opens_in e message.now) (table_at table.old)) }
{
    match e {
        Effect::ToPort { port, change } => tell(table, port, change, message),
        Effect::Attach { port, device } => attach(table, port, device),
        Effect::AttachVirtual {
            port,
            device,
            port_a,
            port_b,
        } => attach_virtual(table, port, device, port_a, port_b),
        Effect::Detach { port } => detach(table, port),
        Effect::Empty => clear(table),
        _ => {}
    }
}

// A message that reading accepts, by what it is to the table and its bytes.
pub(crate) fn offer_effect(table: &mut [u32], e: Effect, message: &[u8]) -> Result<(), Refusal>
    requires { (sound table.old ≡ true) × (effect_fits e (opens_in e message.now) ≡ true) }
    ensures { (answer_of result ≡ outcome (judged_by table.old e message.now)) × (table.new ≡ applied_to table.old (judged_by table.old e message.now)) }
{
    judged(SoundTable { cells: table }, e, message)?;
    follow(table, e, message);
    Ok(())
}

// Any message with its experiment number: judged, and where it is accepted, followed.
pub(crate) fn offer_sound(
    table: &mut [u32],
    message: &[u8],
    way: Way,
    experiment: u16,
) -> Result<(), Refusal>
    requires { sound table.old ≡ true }
    ensures { (answer_of result ≡ outcome (offer_by_cells table.old (record { way = way; bytes = message.now; experiment = experiment }))) × (table.new ≡ cells_after table.old (record { way = way; bytes = message.now; experiment = experiment })) }
{
    let m = read(message, way)?;
    offer_effect(table, effect_of(m, experiment), message)
}
