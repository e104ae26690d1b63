// Reading the messages on motors: 0x81 and 0x82.
#![tactic(auto, unfolding(protocol::specs::Decode::decode_form, protocol::specs::Form::layout, protocol::specs::Number::little_endian))]

ghost use Rattle.std.specs.Prelude.{◌≡◌, ◌+◌, ◌<◌, ◌≤◌, get_or, length, IsTrue, IsFalse, IfOk, IfErr};
ghost use Rattle.protocol.specs.Number.{twos_complement};
ghost use Rattle.protocol.specs.Field.{read_fields};
ghost use Rattle.protocol.specs.Form as Form;
ghost use Rattle.protocol.specs.Types.{port_output_command};
ghost use Rattle.protocol.specs.Decode.{decode_form, decode_type, longest_message};
ghost use Rattle.protocol.specs.Answer.{answer_of};
ghost use Rattle.hub_messages.specs.Outcome.{outcome};

use hub_messages::rule::{
    exactly, is_degrees, is_end_state, is_signed_speed, is_start_byte, listed, wrong_feedback,
};
use numbers::{i8_of, i32_of, u32_at};
use protocol::{Message, Refusal};

// 0x81: port, start byte, sub command.
#[tactic(auto, unfolding(protocol::specs::Decode::decode_type, protocol::specs::Types::port_output_command))]
pub fn port_output_command(s: &[u8]) -> Result<Message, Refusal>
    ensures { answer_of result ≡ decode_type port_output_command s.now }
{
    if s.len() < 6 {
        return Err(Refusal::WrongSize { wanted: 6 });
    }
    match s[5] {
        0x0C => start_speed_for_degrees(s),
        0x0D => goto_absolute_position(s),
        0x0E => goto_absolute_positions(s),
        0x14 => preset_encoders(s),
        _ => Err(Refusal::OutsideList { place: 5 }),
    }
}

// Refusal 7 at the first of power, end state and profile, from `at` on, that is outside its list.
fn ending(s: &[u8], at: usize) -> Result<(), Refusal>
    requires inside { at + 3 ≤ length s.now }
    requires short { length s.now ≤ longest_message }
    ensures { result ≡ outcome (read_fields s.now at Form.ending) }
{
    listed(s[at] <= 100, at as u16)?;
    listed(is_end_state(s[at + 1]), (at + 1) as u16)?;
    listed(s[at + 2] <= 3, (at + 2) as u16)
}

// A speed whose sign is its direction, or refusal 7 where it is outside its list.
fn signed_speed(s: &[u8], at: usize) -> Result<i8, Refusal>
    requires inside { at < length s.now }
    requires short { length s.now ≤ longest_message }
    ensures ok { IfOk result (λ speed. (speed ≡ twos_complement 1 (get_or s.now at 0)) × IsTrue (Form.signed_speed speed)) }
    ensures err { IfErr result (λ e. (e ≡ Refusal.OutsideList at) × IsFalse (Form.signed_speed (twos_complement 1 (get_or s.now at 0)))) }
{
    let speed = i8_of(s[at]);
    listed(is_signed_speed(speed), at as u16)?;
    Ok(speed)
}

fn start_speed_for_degrees(s: &[u8]) -> Result<Message, Refusal>
    requires { get_or s.now 5 0 ≡ 0x0C }
    ensures { answer_of result ≡ decode_form Form.start_speed_for_degrees s.now }
{
    exactly(s, 15)?;
    let start = s[4];
    listed(is_start_byte(start), 4)?;
    let degrees = i32_of(u32_at(s, 6));
    listed(is_degrees(degrees), 6)?;
    let speed_left = signed_speed(s, 10)?;
    let speed_right = signed_speed(s, 11)?;
    ending(s, 12)?;
    Ok(Message::StartSpeedForDegrees {
        port: s[3],
        start,
        degrees,
        speed_left,
        speed_right,
        power: s[12],
        end_state: s[13],
        profile: s[14],
    })
}

fn goto_absolute_position(s: &[u8]) -> Result<Message, Refusal>
    requires { get_or s.now 5 0 ≡ 0x0D }
    ensures { answer_of result ≡ decode_form Form.goto_absolute_position s.now }
{
    exactly(s, 14)?;
    let start = s[4];
    listed(is_start_byte(start), 4)?;
    let speed = s[10];
    listed(matches!(speed, 1..=100), 10)?;
    ending(s, 11)?;
    Ok(Message::GotoAbsolutePosition {
        port: s[3],
        start,
        position: i32_of(u32_at(s, 6)),
        speed,
        power: s[11],
        end_state: s[12],
        profile: s[13],
    })
}

// Apart from goto_absolute_position: a size, two places and a field differ, and one reader of both would take them all.
fn goto_absolute_positions(s: &[u8]) -> Result<Message, Refusal>
    requires { get_or s.now 5 0 ≡ 0x0E }
    ensures { answer_of result ≡ decode_form Form.goto_absolute_positions s.now }
{
    exactly(s, 18)?;
    let start = s[4];
    listed(is_start_byte(start), 4)?;
    let speed = s[14];
    listed(matches!(speed, 1..=100), 14)?;
    ending(s, 15)?;
    Ok(Message::GotoAbsolutePositions {
        port: s[3],
        start,
        position_1: i32_of(u32_at(s, 6)),
        position_2: i32_of(u32_at(s, 10)),
        speed,
        power: s[15],
        end_state: s[16],
        profile: s[17],
    })
}

fn preset_encoders(s: &[u8]) -> Result<Message, Refusal>
    requires { get_or s.now 5 0 ≡ 0x14 }
    ensures { answer_of result ≡ decode_form Form.preset_encoders s.now }
{
    exactly(s, 14)?;
    let start = s[4];
    listed(is_start_byte(start), 4)?;
    Ok(Message::PresetEncoders {
        port: s[3],
        start,
        left: i32_of(u32_at(s, 6)),
        right: i32_of(u32_at(s, 10)),
    })
}

// 0x82: pairs of port and feedback.
pub fn output_feedback(s: &[u8]) -> Result<Message, Refusal>
    ensures { answer_of result ≡ decode_form Form.output_feedback s.now }
{
    let size = s.len();
    if !(5..=127).contains(&size) || (size - 3) % 2 != 0 {
        return Err(Refusal::WrongSize { wanted: 5 });
    }
    match wrong_feedback(&s[3..]) {
        Some(i) => Err(Refusal::OutsideList {
            place: (3 + i) as u16,
        }),
        None => Ok(Message::OutputFeedback),
    }
}
