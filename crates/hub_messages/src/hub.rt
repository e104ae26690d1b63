// Messages on the hub: 0x02, 0x03, 0x05.
ghost use Rattle.std.specs.Prelude.{◌≡◌, get_or};
ghost use Rattle.protocol.specs.declared.Way.TheVariants.{Down, Up};
ghost use Rattle.protocol.specs.Form as Form;
ghost use Rattle.protocol.specs.Types.{hub_actions, hub_alerts, down_action};
ghost use Rattle.protocol.specs.Decode.{decode_form, decode_type};
ghost use Rattle.protocol.specs.Answer.{answer_of};

use crate::rule::{exactly, is_alert_status, listed};
use protocol::{Message, Refusal};

#[tactic(auto, unfolding(protocol::specs::Types::down_action))]
pub fn is_down_action(action: u8) -> bool
    ensures { result ≡ down_action action }
{
    matches!(action, 0x01..=0x06 | 0x2F)
}

// 0x02 down
#[tactic(auto, unfolding(protocol::specs::Decode::decode_type, protocol::specs::Types::hub_actions))]
pub fn hub_actions_down(s: &[u8]) -> Result<Message, Refusal>
    ensures { answer_of result ≡ decode_type (hub_actions Down) s.now }
{
    if s.len() < 4 {
        return Err(Refusal::WrongSize { wanted: 4 });
    }
    listed(is_down_action(s[3]), 3)?;
    hub_action(s)
}

// 0x02 up
#[tactic(auto, unfolding(protocol::specs::Decode::decode_type, protocol::specs::Types::hub_actions))]
pub fn hub_actions_up(s: &[u8]) -> Result<Message, Refusal>
    ensures { answer_of result ≡ decode_type (hub_actions Up) s.now }
{
    if s.len() < 4 {
        return Err(Refusal::WrongSize { wanted: 4 });
    }
    listed((0x30..=0x32).contains(&s[3]), 3)?;
    hub_action(s)
}

#[tactic(auto, unfolding(protocol::specs::Decode::decode_form, protocol::specs::Form::layout, protocol::specs::Number::little_endian))]
fn hub_action(s: &[u8]) -> Result<Message, Refusal>
    ensures { answer_of result ≡ decode_form Form.hub_action s.now }
{
    exactly(s, 4)?;
    Ok(Message::HubAction { action: s[3] })
}

// 0x03 down
#[tactic(auto, unfolding(protocol::specs::Decode::decode_type, protocol::specs::Types::hub_alerts))]
pub fn hub_alerts_down(s: &[u8]) -> Result<Message, Refusal>
    ensures { answer_of result ≡ decode_type (hub_alerts Down) s.now }
{
    if s.len() < 5 {
        return Err(Refusal::WrongSize { wanted: 5 });
    }
    listed((1..=4).contains(&s[3]), 3)?;
    listed((1..=3).contains(&s[4]), 4)?;
    alert_command(s)
}

// 0x03 up
#[tactic(auto, unfolding(protocol::specs::Decode::decode_type, protocol::specs::Types::hub_alerts))]
pub fn hub_alerts_up(s: &[u8]) -> Result<Message, Refusal>
    ensures { answer_of result ≡ decode_type (hub_alerts Up) s.now }
{
    if s.len() < 5 {
        return Err(Refusal::WrongSize { wanted: 5 });
    }
    listed((1..=4).contains(&s[3]), 3)?;
    listed(s[4] == 4, 4)?;
    alert_update(s)
}

#[tactic(auto, unfolding(protocol::specs::Decode::decode_form, protocol::specs::Form::layout, protocol::specs::Number::little_endian))]
fn alert_command(s: &[u8]) -> Result<Message, Refusal>
    ensures { answer_of result ≡ decode_form Form.alert_command s.now }
{
    exactly(s, 5)?;
    Ok(Message::AlertCommand {
        alert: s[3],
        operation: s[4],
    })
}

#[tactic(auto, unfolding(protocol::specs::Decode::decode_form, protocol::specs::Form::layout, protocol::specs::Number::little_endian))]
fn alert_update(s: &[u8]) -> Result<Message, Refusal>
    requires { get_or s.now 4 0 ≡ 4 }
    ensures { answer_of result ≡ decode_form Form.alert_update s.now }
{
    exactly(s, 6)?;
    let status = s[5];
    listed(is_alert_status(status), 5)?;
    Ok(Message::AlertUpdate {
        alert: s[3],
        status,
    })
}

// 0x05
#[tactic(auto, unfolding(protocol::specs::Decode::decode_form, protocol::specs::Form::layout, protocol::specs::Number::little_endian))]
pub fn generic_error(s: &[u8]) -> Result<Message, Refusal>
    ensures { answer_of result ≡ decode_form Form.generic_error s.now }
{
    exactly(s, 5)?;
    let error = s[4];
    listed((1..=8).contains(&error), 4)?;
    Ok(Message::GenericError {
        command: s[3],
        error,
    })
}
