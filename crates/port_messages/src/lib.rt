// Reading the messages on a port: 0x04, 0x21, 0x22, 0x41, 0x43, 0x45, 0x47, 0x61.
#![tactic(auto, unfolding(protocol::specs::Decode::decode_form, protocol::specs::Form::layout, protocol::specs::Number::little_endian))]

ghost use Rattle.std.specs.Prelude.{◌≡◌, ◌≤◌, get_or};
ghost use Rattle.protocol.specs.Form as Form;
ghost use Rattle.protocol.specs.Types.{hub_attached_io, port_information, virtual_port_setup};
ghost use Rattle.protocol.specs.Decode.{decode_form, decode_type};
ghost use Rattle.protocol.specs.Answer.{answer_of};

use hub_messages::rule::{exactly, is_information_type, listed};
use numbers::{i32_of, u16_at, u32_at};
use protocol::{Combinations, Message, Refusal};

// 0x04: port, event.
#[tactic(auto, unfolding(protocol::specs::Decode::decode_type, protocol::specs::Types::hub_attached_io))]
pub fn hub_attached_io(s: &[u8]) -> Result<Message, Refusal>
    ensures { answer_of result ≡ decode_type hub_attached_io s.now }
{
    if s.len() < 5 {
        return Err(Refusal::WrongSize { wanted: 5 });
    }
    match s[4] {
        0 => detached(s),
        1 => attached(s),
        2 => attached_virtual(s),
        _ => Err(Refusal::OutsideList { place: 4 }),
    }
}

fn detached(s: &[u8]) -> Result<Message, Refusal>
    requires { get_or s.now 4 0 ≡ 0 }
    ensures { answer_of result ≡ decode_form Form.detached s.now }
{
    exactly(s, 5)?;
    Ok(Message::Detached { port: s[3] })
}

fn attached(s: &[u8]) -> Result<Message, Refusal>
    requires { get_or s.now 4 0 ≡ 1 }
    ensures { answer_of result ≡ decode_form Form.attached s.now }
{
    exactly(s, 15)?;
    Ok(Message::Attached {
        port: s[3],
        device: u16_at(s, 5),
        hardware: i32_of(u32_at(s, 7)),
        software: i32_of(u32_at(s, 11)),
    })
}

fn attached_virtual(s: &[u8]) -> Result<Message, Refusal>
    requires { get_or s.now 4 0 ≡ 2 }
    ensures { answer_of result ≡ decode_form Form.attached_virtual s.now }
{
    exactly(s, 9)?;
    Ok(Message::AttachedVirtual {
        port: s[3],
        device: u16_at(s, 5),
        port_a: s[7],
        port_b: s[8],
    })
}

// 0x21
pub fn port_information_request(s: &[u8]) -> Result<Message, Refusal>
    ensures { answer_of result ≡ decode_form Form.port_information_request s.now }
{
    exactly(s, 5)?;
    let information = s[4];
    listed(information <= 2, 4)?;
    Ok(Message::PortInformationRequest {
        port: s[3],
        information,
    })
}

// 0x22
pub fn mode_information_request(s: &[u8]) -> Result<Message, Refusal>
    ensures { answer_of result ≡ decode_form Form.mode_information_request s.now }
{
    exactly(s, 6)?;
    let mode = s[4];
    listed(mode <= 15, 4)?;
    let information = s[5];
    listed(is_information_type(information), 5)?;
    Ok(Message::ModeInformationRequest {
        port: s[3],
        mode,
        information,
    })
}

// 0x41
pub fn input_format_setup(s: &[u8]) -> Result<Message, Refusal>
    ensures { answer_of result ≡ decode_form Form.input_format_setup s.now }
{
    exactly(s, 10)?;
    let mode = s[4];
    listed(mode <= 15, 4)?;
    let notify = s[9];
    listed(notify <= 1, 9)?;
    Ok(Message::InputFormatSetup {
        port: s[3],
        mode,
        delta: u32_at(s, 5),
        notify,
    })
}

// 0x43: port, information type.
#[tactic(auto, unfolding(protocol::specs::Decode::decode_type, protocol::specs::Types::port_information))]
pub fn port_information(s: &[u8]) -> Result<Message, Refusal>
    ensures { answer_of result ≡ decode_type port_information s.now }
{
    if s.len() < 5 {
        return Err(Refusal::WrongSize { wanted: 5 });
    }
    match s[4] {
        1 => port_modes(s),
        2 => port_combinations(s),
        _ => Err(Refusal::OutsideList { place: 4 }),
    }
}

fn port_modes(s: &[u8]) -> Result<Message, Refusal>
    requires { get_or s.now 4 0 ≡ 1 }
    ensures { answer_of result ≡ decode_form Form.port_modes s.now }
{
    exactly(s, 11)?;
    let capabilities = s[5];
    listed(capabilities <= 15, 5)?;
    Ok(Message::PortModes {
        port: s[3],
        capabilities,
        mode_count: s[6],
        input_modes: u16_at(s, 7),
        output_modes: u16_at(s, 9),
    })
}

// The entry at index `i` of `count` mode combinations.
#[tactic(auto, unfolding(protocol::specs::Form::word))]
fn entry(s: &[u8], count: usize, i: usize) -> u16
    requires { count ≤ 8 }
    ensures { result ≡ Form.word s.now 5 count i }
{
    if i < count { u16_at(s, 5 + 2 * i) } else { 0 }
}

fn port_combinations(s: &[u8]) -> Result<Message, Refusal>
    requires { get_or s.now 4 0 ≡ 2 }
    ensures { answer_of result ≡ decode_form Form.port_combinations s.now }
{
    let size = s.len();
    if !(7..=21).contains(&size) {
        return Err(Refusal::WrongSize { wanted: 7 });
    }
    if (size - 5) % 2 != 0 {
        return Err(Refusal::WrongSize { wanted: 7 });
    }
    let count = (size - 5) / 2;
    Ok(Message::PortCombinations {
        port: s[3],
        combinations: Combinations {
            count: count as u8,
            entry0: entry(s, count, 0),
            entry1: entry(s, count, 1),
            entry2: entry(s, count, 2),
            entry3: entry(s, count, 3),
            entry4: entry(s, count, 4),
            entry5: entry(s, count, 5),
            entry6: entry(s, count, 6),
            entry7: entry(s, count, 7),
        },
    })
}

// 0x45
pub fn port_value(s: &[u8]) -> Result<Message, Refusal>
    ensures { answer_of result ≡ decode_form Form.port_value s.now }
{
    if !(5..=127).contains(&s.len()) {
        return Err(Refusal::WrongSize { wanted: 5 });
    }
    Ok(Message::PortValue { port: s[3] })
}

// 0x47. Apart from 0x41, which has the same fields: one reader of both would be told which message to give, by a
// closure with a contract of its own, and would be longer than the two.
pub fn input_format(s: &[u8]) -> Result<Message, Refusal>
    ensures { answer_of result ≡ decode_form Form.input_format s.now }
{
    exactly(s, 10)?;
    let mode = s[4];
    listed(mode <= 15, 4)?;
    let notify = s[9];
    listed(notify <= 1, 9)?;
    Ok(Message::InputFormat {
        port: s[3],
        mode,
        delta: u32_at(s, 5),
        notify,
    })
}

// 0x61: sub command.
#[tactic(auto, unfolding(protocol::specs::Decode::decode_type, protocol::specs::Types::virtual_port_setup))]
pub fn virtual_port_setup(s: &[u8]) -> Result<Message, Refusal>
    ensures { answer_of result ≡ decode_type virtual_port_setup s.now }
{
    if s.len() < 4 {
        return Err(Refusal::WrongSize { wanted: 4 });
    }
    match s[3] {
        0 => virtual_disconnect(s),
        1 => virtual_connect(s),
        _ => Err(Refusal::OutsideList { place: 3 }),
    }
}

fn virtual_disconnect(s: &[u8]) -> Result<Message, Refusal>
    requires { get_or s.now 3 0 ≡ 0 }
    ensures { answer_of result ≡ decode_form Form.virtual_disconnect s.now }
{
    exactly(s, 5)?;
    Ok(Message::VirtualDisconnect { port: s[4] })
}

fn virtual_connect(s: &[u8]) -> Result<Message, Refusal>
    requires { get_or s.now 3 0 ≡ 1 }
    ensures { answer_of result ≡ decode_form Form.virtual_connect s.now }
{
    exactly(s, 6)?;
    Ok(Message::VirtualConnect {
        port_a: s[4],
        port_b: s[5],
    })
}
