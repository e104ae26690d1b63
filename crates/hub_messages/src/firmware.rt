// Firmware update and memory lock: 0x10, 0x11, 0x12, 0x13.
ghost use Rattle.std.specs.Prelude.{◌≡◌, ◌+◌, ◌≤◌, length};
ghost use Rattle.protocol.specs.Field.{same_bytes};
ghost use Rattle.protocol.specs.Form as Form;
ghost use Rattle.protocol.specs.Decode.{decode_form, longest_message};
ghost use Rattle.protocol.specs.Answer.{answer_of};
ghost use Rattle.hub_messages.specs.Outcome.{outcome};

use crate::rule::exactly;
use protocol::{Message, Refusal};

// The safety strings, which reading compares with. The first is written too.
pub const BOOT_STRING: [u8; 9] = *b"LPF2-Boot";

pub const LOCK_STRING: [u8; 8] = *b"Lock Mem";

// Refusal 7 at the first byte from `at` on that is not the one of a fixed text.
fn fixed(s: &[u8], at: usize, text: &[u8]) -> Result<(), Refusal>
    requires inside { at + length text.now ≤ length s.now }
    requires short { length s.now ≤ longest_message }
    ensures { result ≡ outcome (same_bytes s.now at text.now) }
{
    match (0..text.len()).find(|&i| s[at + i] != text[i]) {
        Some(i) => Err(Refusal::OutsideList {
            place: (at + i) as u16,
        }),
        None => Ok(()),
    }
}

// 0x10: the safety string LPF2-Boot.
#[tactic(auto, unfolding(protocol::specs::Decode::decode_form, protocol::specs::Form::layout, protocol::specs::Number::little_endian, protocol::specs::Field::same_bytes))]
pub fn go_into_boot_mode(s: &[u8]) -> Result<Message, Refusal>
    ensures { answer_of result ≡ decode_form Form.go_into_boot_mode s.now }
{
    exactly(s, 12)?;
    fixed(s, 3, &BOOT_STRING)?;
    Ok(Message::GoIntoBootMode)
}

// 0x11: the safety string Lock Mem.
#[tactic(auto, unfolding(protocol::specs::Decode::decode_form, protocol::specs::Form::layout, protocol::specs::Number::little_endian, protocol::specs::Field::same_bytes))]
pub fn lock_memory(s: &[u8]) -> Result<Message, Refusal>
    ensures { answer_of result ≡ decode_form Form.lock_memory s.now }
{
    exactly(s, 11)?;
    fixed(s, 3, &LOCK_STRING)?;
    Ok(Message::LockMemory)
}

// 0x12
#[tactic(auto, unfolding(protocol::specs::Decode::decode_form, protocol::specs::Form::layout, protocol::specs::Number::little_endian))]
pub fn lock_status_request(s: &[u8]) -> Result<Message, Refusal>
    ensures { answer_of result ≡ decode_form Form.lock_status_request s.now }
{
    exactly(s, 3)?;
    Ok(Message::LockStatusRequest)
}

// 0x13
#[tactic(auto, unfolding(protocol::specs::Decode::decode_form, protocol::specs::Form::layout, protocol::specs::Number::little_endian))]
pub fn lock_status(s: &[u8]) -> Result<Message, Refusal>
    ensures { answer_of result ≡ decode_form Form.lock_status s.now }
{
    exactly(s, 4)?;
    Ok(Message::LockStatus { status: s[3] })
}
