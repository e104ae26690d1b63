// Reading what a mode of a port is: 0x44.
#![tactic(auto, unfolding(protocol::specs::Decode::decode_form, protocol::specs::Form::layout, protocol::specs::Number::little_endian))]

ghost use Rattle.std.specs.Prelude.{◌≡◌, ◌+◌, get_or};
ghost use Rattle.protocol.specs.Form as Form;
ghost use Rattle.protocol.specs.Types.{port_mode_information};
ghost use Rattle.protocol.specs.Decode.{decode_form, decode_type};
ghost use Rattle.protocol.specs.Answer.{answer_of};

use hub_messages::rule::{exactly, listed};
use numbers::{f32_at, finite_at, u16_at, u48_at};
use protocol::{Message, Refusal};

// 0x44: port, mode, information type.
#[tactic(auto, unfolding(protocol::specs::Decode::decode_type, protocol::specs::Types::port_mode_information, protocol::specs::Form::longest_mode_text))]
pub fn port_mode_information(s: &[u8]) -> Result<Message, Refusal>
    ensures { answer_of result ≡ decode_type port_mode_information s.now }
{
    if s.len() < 6 {
        return Err(Refusal::WrongSize { wanted: 6 });
    }
    match s[5] {
        0 => mode_text(s, 17),
        4 => mode_text(s, 11),
        1..=3 => mode_range(s),
        5 => mode_mapping(s),
        7 => mode_bias(s),
        8 => mode_capabilities(s),
        0x80 => value_format(s),
        _ => Err(Refusal::OutsideList { place: 5 }),
    }
}

// A name or a symbol; `most` is the greatest size of the message.
fn mode_text(s: &[u8], most: usize) -> Result<Message, Refusal>
    requires { most ≡ 6 + Form.longest_mode_text (get_or s.now 5 0) }
    ensures { answer_of result ≡ decode_form (Form.mode_text (get_or s.now 5 0)) s.now }
{
    if !(7..=most).contains(&s.len()) {
        return Err(Refusal::WrongSize { wanted: 7 });
    }
    let mode = s[4];
    listed(mode <= 15, 4)?;
    Ok(Message::ModeText {
        port: s[3],
        mode,
        information: s[5],
    })
}

fn mode_range(s: &[u8]) -> Result<Message, Refusal>
    ensures { answer_of result ≡ decode_form Form.mode_range s.now }
{
    exactly(s, 14)?;
    let mode = s[4];
    listed(mode <= 15, 4)?;
    listed(finite_at(s, 6), 6)?;
    listed(finite_at(s, 10), 10)?;
    Ok(Message::ModeRange {
        port: s[3],
        mode,
        information: s[5],
        lowest: f32_at(s, 6),
        highest: f32_at(s, 10),
    })
}

fn mode_mapping(s: &[u8]) -> Result<Message, Refusal>
    requires { get_or s.now 5 0 ≡ 5 }
    ensures { answer_of result ≡ decode_form Form.mode_mapping s.now }
{
    exactly(s, 8)?;
    let mode = s[4];
    listed(mode <= 15, 4)?;
    Ok(Message::ModeMapping {
        port: s[3],
        mode,
        mapping: u16_at(s, 6),
    })
}

fn mode_bias(s: &[u8]) -> Result<Message, Refusal>
    requires { get_or s.now 5 0 ≡ 7 }
    ensures { answer_of result ≡ decode_form Form.mode_bias s.now }
{
    exactly(s, 7)?;
    let mode = s[4];
    listed(mode <= 15, 4)?;
    let bias = s[6];
    listed(bias <= 100, 6)?;
    Ok(Message::ModeBias {
        port: s[3],
        mode,
        bias,
    })
}

fn mode_capabilities(s: &[u8]) -> Result<Message, Refusal>
    requires { get_or s.now 5 0 ≡ 8 }
    ensures { answer_of result ≡ decode_form Form.mode_capabilities s.now }
{
    exactly(s, 12)?;
    let mode = s[4];
    listed(mode <= 15, 4)?;
    Ok(Message::ModeCapabilities {
        port: s[3],
        mode,
        bits: u48_at(s, 6),
    })
}

fn value_format(s: &[u8]) -> Result<Message, Refusal>
    requires { get_or s.now 5 0 ≡ 128 }
    ensures { answer_of result ≡ decode_form Form.value_format s.now }
{
    exactly(s, 10)?;
    let mode = s[4];
    listed(mode <= 15, 4)?;
    let datasets = s[6];
    listed((1..=16).contains(&datasets), 6)?;
    let kind = s[7];
    listed(kind <= 3, 7)?;
    Ok(Message::ValueFormat {
        port: s[3],
        mode,
        datasets,
        kind,
        figures: s[8],
        decimals: s[9],
    })
}
