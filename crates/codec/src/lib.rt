// Reading messages of LEGO Wireless Protocol 3.0, each function proved equal to its definition in
// the crate `protocol`.
#![tactic(auto)]

ghost use Rattle.std.specs.Prelude.{◌≡◌, ℕ, ◌≤◌, List, length, drop};
ghost use Rattle.protocol.specs.declared.Way.TheVariants.{Down, Up};
ghost use Rattle.protocol.specs.Decode.{accepted, decode, decode_way, header, open_of, open_part};
ghost use Rattle.protocol.specs.Answer.{answer_of, form_of, values_of};

use combined_messages::{combined_format_setup, input_format_combined, port_value_combined};
use hub_messages::firmware::{go_into_boot_mode, lock_memory, lock_status, lock_status_request};
use hub_messages::hub::{
    generic_error, hub_actions_down, hub_actions_up, hub_alerts_down, hub_alerts_up,
};
use mode_messages::port_mode_information;
use motor_messages::{output_feedback, port_output_command};
use port_messages::{
    hub_attached_io, input_format, input_format_setup, mode_information_request, port_information,
    port_information_request, port_value, virtual_port_setup,
};
use property_messages::hub_properties;
use protocol::{Message, Refusal, Way};

// One message: refusals 1 to 7 in their order, or its form and fields.
#[tactic(auto, unfolding(protocol::specs::Decode::decode))]
pub fn read(message: &[u8], way: Way) -> Result<Message, Refusal>
    ensures { answer_of result ≡ decode way message.now }
{
    if message.is_empty() {
        return Err(Refusal::Empty);
    }
    let size = message[0];
    if 127 < size {
        return Err(Refusal::LongLength);
    }
    if usize::from(size) != message.len() || message.len() < 3 {
        return Err(Refusal::WrongLength);
    }
    if message[1] != 0 {
        return Err(Refusal::OtherHub);
    }
    match way {
        Way::Down => read_down(message),
        Way::Up => read_up(message),
    }
}

// The types that go down.
#[tactic(auto, unfolding(protocol::specs::Decode::decode_way, protocol::specs::Decode::decode_type, protocol::specs::Types::types))]
fn read_down(s: &[u8]) -> Result<Message, Refusal>
    requires { header ≤ length s.now }
    ensures { answer_of result ≡ decode_way Down s.now }
{
    match s[2] {
        0x01 => hub_properties(s, Way::Down),
        0x02 => hub_actions_down(s),
        0x03 => hub_alerts_down(s),
        0x10 => go_into_boot_mode(s),
        0x11 => lock_memory(s),
        0x12 => lock_status_request(s),
        0x21 => port_information_request(s),
        0x22 => mode_information_request(s),
        0x41 => input_format_setup(s),
        0x42 => combined_format_setup(s),
        0x61 => virtual_port_setup(s),
        0x81 => port_output_command(s),
        _ => Err(Refusal::UnknownType),
    }
}

// The types that come up.
#[tactic(auto, unfolding(protocol::specs::Decode::decode_way, protocol::specs::Decode::decode_type, protocol::specs::Types::types))]
fn read_up(s: &[u8]) -> Result<Message, Refusal>
    requires { header ≤ length s.now }
    ensures { answer_of result ≡ decode_way Up s.now }
{
    match s[2] {
        0x01 => hub_properties(s, Way::Up),
        0x02 => hub_actions_up(s),
        0x03 => hub_alerts_up(s),
        0x04 => hub_attached_io(s),
        0x05 => generic_error(s),
        0x13 => lock_status(s),
        0x43 => port_information(s),
        0x44 => port_mode_information(s),
        0x45 => port_value(s),
        0x46 => port_value_combined(s),
        0x47 => input_format(s),
        0x48 => input_format_combined(s),
        0x82 => output_feedback(s),
        _ => Err(Refusal::UnknownType),
    }
}

// The open bytes of an accepted message (a name, symbol, text, value, feedback or list of entries): that
// part of the caller's own message. Empty for any other message.
#[tactic(auto, unfolding(protocol::specs::Decode::open_part))]
pub fn open_part(message: &[u8], way: Way) -> &[u8]
    ensures { result.now ≡ open_part way message.now }
{
    match read(message, way) {
        Ok(m) => tail(message, open_start(m, message.len())),
        Err(_) => &[],
    }
}

// The part of `s` from `at` on, empty where `s` is shorter.
pub fn tail(s: &[u8], at: usize) -> &[u8]
    ensures { result.now ≡ drop at s.now }
{
    s.get(at..).unwrap_or(&[])
}

// Where the open bytes of a message start; nowhere, at its end, where its form has none.
#[tactic(auto, unfolding(protocol::specs::Form::layout))]
fn open_start(m: Message, size: usize) -> usize
    ensures { (s : List ℕ) → length s ≡ size → open_of s (accepted (form_of m) (values_of m)) ≡ drop result s }
{
    match m {
        Message::PropertyText { .. } => 5,
        Message::PortValue { .. } => 4,
        Message::OutputFeedback => 3,
        Message::ModeText { .. }
        | Message::ModeDatasets { .. }
        | Message::PortValueCombined { .. } => 6,
        _ => size,
    }
}
