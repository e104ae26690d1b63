// Writing one message.
#![tactic(auto)]

mod open;
mod put;

ghost use Rattle.std.specs.Prelude.{◌≡◌, ◌+◌, ◌≤◌, ◌↔◌, length, IsOk, IfErr};
ghost use Rattle.protocol.specs.declared.refusal.Refusal.TheVariants as Refusal';
ghost use Rattle.protocol.specs.Answer.{form_of};
ghost use Rattle.protocol.specs.Decode.{longest_message, smallest_size};
ghost use Rattle.protocol.specs.Encode.{encode, encoded};
ghost use Rattle.protocol.specs.Overwrite.{overwrite};
ghost use Rattle.slots.specs.Slot.{Slotted};
ghost use Rattle.writer.specs.Judged.{Judged};
ghost use Rattle.writer.specs.Slots.{first_outside, message_bytes, slots_bytes, type_place};
ghost use Rattle.writer.specs.Writing.{answer_of, answered, lent_after, limited};

use crate::open::{open_fits, open_listed};
use crate::put::{put_bytes, put_slot};
use protocol::{Message, Refusal, Way};
use selectors::selected;
use slots::form::slots_of;
use slots::{Slot, fits, width};

// Refusal 7 at the first field that does not hold its value. The slots are lent: of an array that is passed by value no length is
// known to a proof.
fn fields_listed(slots: &[Slot; 11]) -> Result<(), Refusal>
    ensures ok { IsOk result ↔ (first_outside type_place slots.now ≡ 0) }
    ensures err { IfErr result (λ e. e ≡ Refusal'.OutsideList (first_outside type_place slots.now)) }
{
    let mut at = 2;
    for &slot in slots {
        if !fits(slot) {
            return Err(Refusal::OutsideList { place: at as u16 });
        }
        at += width(slot);
    }
    Ok(())
}

// How many bytes the slots take.
fn widths(slots: &[Slot; 11]) -> usize
    ensures { (result ≡ length (slots_bytes slots.now)) × (result ≤ 99) }
{
    let mut total = 0;
    for &slot in slots {
        total += width(slot);
    }
    total
}

// Overwrites `out` with the bytes of the slots, from the type byte on.
fn put_slots(out: &mut [u8], slots: &[Slot; 11])
    requires { (first_outside type_place slots.now ≡ 0) × (type_place + length (slots_bytes slots.now) ≤ length out.old) }
    ensures { out.new ≡ overwrite out.old type_place (slots_bytes slots.now) }
{
    let mut at = 2;
    for &slot in slots {
        put_slot(out, at, slot);
        at += width(slot);
    }
}

// Puts a message whose fields hold their values in front of what stands behind it: refusal 8, or its
// bytes.
fn put_message(out: &mut [u8], slots: &[Slot; 11], open: &[u8]) -> Result<u16, Refusal>
    requires { (first_outside type_place slots.now ≡ 0) × (length (message_bytes slots.now «open».now) ≤ longest_message) }
    ensures { (answer_of result ≡ answered (limited (length out.old) (encoded (message_bytes slots.now «open».now)))) × (out.new ≡ lent_after (limited (length out.old) (encoded (message_bytes slots.now «open».now))) out.old) }
{
    let end = 2 + widths(slots);
    let size = end + open.len();
    if out.len() < size {
        return Err(Refusal::ShortOutput);
    }
    out[0] = size as u8;
    out[1] = 0;
    put_slots(out, slots);
    put_bytes(out, end, open);
    Ok(size as u16)
}

// The smallest size of a message's form: its fields and the least that follows them. A list (43) has
// one entry.
fn smallest_size(m: Message, slots: [Slot; 11]) -> u16
    requires { Slotted m slots }
    ensures { result ≡ smallest_size (form_of m) }
{
    let end = (2 + widths(&slots)) as u16;
    match m {
        Message::PropertyText { .. }
        | Message::ModeText { .. }
        | Message::PortValue { .. }
        | Message::ModeDatasets { .. }
        | Message::PortValueCombined { .. } => end + 1,
        Message::PortCombinations { .. } => 7,
        Message::OutputFeedback => end + 2,
        _ => end,
    }
}

// Refusals 5, 23, 7, 6 and 7 of a message with these slots: of its fields, then of its open bytes.
fn judged(m: Message, way: Way, open: &[u8], slots: [Slot; 11]) -> Result<(), Refusal>
    requires { Slotted m slots }
    ensures { Judged way m «open».now slots result }
{
    selected(m, way)?;
    if !open_fits(m, open.len()) {
        return Err(Refusal::WrongSize {
            wanted: smallest_size(m, slots),
        });
    }
    fields_listed(&slots)?;
    open_listed(m, open)
}

// What writing answers where there is room for the message.
pub fn judge(m: Message, way: Way, open: &[u8]) -> Result<u16, Refusal>
    ensures { answer_of result ≡ answered (encode way m «open».now) }
{
    let slots = slots_of(m);
    judged(m, way, open, slots)?;
    Ok((2 + widths(&slots) + open.len()) as u16)
}

// Writes a message and its open bytes into the front of `out`. What is behind it keeps its contents;
// a refused call changes nothing.
pub fn write(m: Message, way: Way, open: &[u8], out: &mut [u8]) -> Result<u16, Refusal>
    ensures { (answer_of result ≡ answered (limited (length out.old) (encode way m «open».now))) × (out.new ≡ lent_after (limited (length out.old) (encode way m «open».now)) out.old) }
{
    let slots = slots_of(m);
    judged(m, way, open, slots)?;
    put_message(out, &slots, open)
}
