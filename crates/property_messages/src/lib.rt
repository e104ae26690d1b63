// Reading hub properties: 0x01.
#![tactic(auto, unfolding(protocol::specs::Decode::decode_form, protocol::specs::Form::layout, protocol::specs::Number::little_endian))]

ghost use Rattle.std.specs.Prelude.{◌≡◌, ◌+◌, ◌≤◌, get_or, length};
ghost use Rattle.protocol.specs.Form as Form;
ghost use Rattle.protocol.specs.Properties as Properties;
ghost use Rattle.protocol.specs.Types as Types;
ghost use Rattle.protocol.specs.Decode.{decode_form, decode_type};
ghost use Rattle.protocol.specs.Answer.{answer_of};

use hub_messages::property::{carries, greatest, outside_selector};
use hub_messages::rule::{exactly, listed};
use numbers::{i8_of, i32_of, u16_at, u32_at, u48_at};
use protocol::{Message, Refusal, Way};

// 0x01: property, operation.
#[tactic(auto, unfolding(protocol::specs::Decode::decode_type, protocol::specs::Types::hub_properties, protocol::specs::Properties::outside_selector))]
pub fn hub_properties(s: &[u8], way: Way) -> Result<Message, Refusal>
    ensures { answer_of result ≡ decode_type (Types.hub_properties way) s.now }
{
    if s.len() < 5 {
        return Err(Refusal::WrongSize { wanted: 5 });
    }
    let operation = s[4];
    outside_selector(way, s[3], operation)?;
    if carries(operation) {
        payload(s)
    } else {
        property_command(s)
    }
}

fn property_command(s: &[u8]) -> Result<Message, Refusal>
    ensures { answer_of result ≡ decode_form Form.property_command s.now }
{
    exactly(s, 5)?;
    Ok(Message::PropertyCommand {
        property: s[3],
        operation: s[4],
    })
}

// The payload of a Set or an Update, by the property.
#[tactic(auto, unfolding(protocol::specs::Types::payload, protocol::specs::Properties::longest))]
fn payload(s: &[u8]) -> Result<Message, Refusal>
    requires { 5 ≤ length s.now }
    ensures { answer_of result ≡ decode_form (Types.payload (get_or s.now 3 0)) s.now }
{
    match s[3] {
        1 => property_text(s, 19),
        8 | 9 => property_text(s, 127),
        3 | 4 => property_version(s),
        5 => property_rssi(s),
        10 => property_protocol(s),
        13 | 14 => property_address(s),
        _ => property_byte(s),
    }
}

// A text; `most` is the greatest size of the message.
fn property_text(s: &[u8], most: usize) -> Result<Message, Refusal>
    requires { most ≡ 5 + Properties.longest (get_or s.now 3 0) }
    ensures { answer_of result ≡ decode_form (Form.property_text (get_or s.now 3 0)) s.now }
{
    if !(6..=most).contains(&s.len()) {
        return Err(Refusal::WrongSize { wanted: 6 });
    }
    Ok(Message::PropertyText {
        property: s[3],
        operation: s[4],
    })
}

fn property_byte(s: &[u8]) -> Result<Message, Refusal>
    ensures { answer_of result ≡ decode_form (Form.property_byte (get_or s.now 3 0)) s.now }
{
    exactly(s, 6)?;
    let property = s[3];
    let value = s[5];
    listed(value <= greatest(property), 5)?;
    Ok(Message::PropertyByte {
        property,
        operation: s[4],
        value,
    })
}

fn property_rssi(s: &[u8]) -> Result<Message, Refusal>
    requires { get_or s.now 3 0 ≡ 5 }
    ensures { answer_of result ≡ decode_form Form.property_rssi s.now }
{
    exactly(s, 6)?;
    Ok(Message::PropertyRssi {
        operation: s[4],
        rssi: i8_of(s[5]),
    })
}

fn property_version(s: &[u8]) -> Result<Message, Refusal>
    ensures { answer_of result ≡ decode_form Form.property_version s.now }
{
    exactly(s, 9)?;
    Ok(Message::PropertyVersion {
        property: s[3],
        operation: s[4],
        version: i32_of(u32_at(s, 5)),
    })
}

fn property_protocol(s: &[u8]) -> Result<Message, Refusal>
    requires { get_or s.now 3 0 ≡ 10 }
    ensures { answer_of result ≡ decode_form Form.property_protocol s.now }
{
    exactly(s, 7)?;
    Ok(Message::PropertyProtocol {
        operation: s[4],
        version: u16_at(s, 5),
    })
}

fn property_address(s: &[u8]) -> Result<Message, Refusal>
    ensures { answer_of result ≡ decode_form Form.property_address s.now }
{
    exactly(s, 11)?;
    Ok(Message::PropertyAddress {
        property: s[3],
        operation: s[4],
        address: u48_at(s, 5),
    })
}
