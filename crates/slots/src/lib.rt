// The fields of a message with their values, as slots: what stands at each place of it.
#![tactic(auto)]

pub mod form;

ghost use Rattle.std.specs.Prelude.{◌≡◌, ◌≤◌, length};
ghost use Rattle.slots.specs.Slot.{slot_fits, slot_bytes};

use hub_messages::rule::{
    is_alert_status, is_degrees, is_end_state, is_information_type, is_signed_speed, is_start_byte,
};

// What stands at one place of a message: a field with its value, a fixed string, or nothing.
#[derive(Clone, Copy)]
pub enum Slot {
    Nothing,
    // one byte: of any value, up to a bound, between bounds, of a list
    Byte(u8),
    UpTo { most: u8, value: u8 },
    Between { least: u8, most: u8, value: u8 },
    InformationType(u8),
    AlertStatus(u8),
    // more bytes, least significant first
    Word(u16),
    Long(u32),
    // two's complement
    SignedByte(i8),
    SignedLong(i32),
    // six bytes, most significant first
    HighFirst(u64),
    Float(f32),
    BootString,
    LockString,
    // motor commands: one byte of a list, and two's complement of a list
    StartByte(u8),
    EndState(u8),
    SignedSpeed(i8),
    Degrees(i32),
}

// Whether the value is in the field's list.
pub fn fits(slot: Slot) -> bool
    ensures { result ≡ slot_fits slot }
{
    match slot {
        Slot::Nothing
        | Slot::Byte(_)
        | Slot::Word(_)
        | Slot::Long(_)
        | Slot::SignedByte(_)
        | Slot::SignedLong(_)
        | Slot::BootString
        | Slot::LockString => true,
        Slot::UpTo { most, value } => value <= most,
        Slot::Between { least, most, value } => (least..=most).contains(&value),
        Slot::InformationType(value) => is_information_type(value),
        Slot::AlertStatus(value) => is_alert_status(value),
        Slot::HighFirst(value) => value < 281474976710656,
        Slot::Float(x) => x.is_finite(),
        Slot::StartByte(value) => is_start_byte(value),
        Slot::EndState(value) => is_end_state(value),
        Slot::SignedSpeed(value) => is_signed_speed(value),
        Slot::Degrees(value) => is_degrees(value),
    }
}

// How many bytes it takes.
#[tactic(auto, using(crate::proofs::Ranges::wide))]
pub fn width(slot: Slot) -> usize
    ensures { (result ≡ length (slot_bytes slot)) × (result ≤ 9) }
{
    match slot {
        Slot::Nothing => 0,
        Slot::Byte(_)
        | Slot::UpTo { .. }
        | Slot::Between { .. }
        | Slot::InformationType(_)
        | Slot::AlertStatus(_)
        | Slot::SignedByte(_)
        | Slot::StartByte(_)
        | Slot::EndState(_)
        | Slot::SignedSpeed(_) => 1,
        Slot::Word(_) => 2,
        Slot::Long(_) | Slot::SignedLong(_) | Slot::Float(_) | Slot::Degrees(_) => 4,
        Slot::HighFirst(_) => 6,
        Slot::LockString => 8,
        Slot::BootString => 9,
    }
}
