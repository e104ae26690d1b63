// Whether a form goes this way and is written at all, and whether its selectors lead to it: refusals 5,
// 23 and 7.
#![tactic(auto)]

ghost use Rattle.std.specs.Prelude.{◌≡◌, List, ℕ};
ghost use Rattle.protocol.specs.Form.{form_number};
ghost use Rattle.protocol.specs.Answer.{form_of, values_of};
ghost use Rattle.protocol.specs.Encode.{encode, encode_form};
ghost use Rattle.selectors.specs.Choice.{after_selectors, one_way, read_only_one_way, property_form, property_choice, is_action, action_choice, alert_leads, alert_choice, choice_of, form_at};

use hub_messages::hub::is_down_action;
use hub_messages::property::{carries, outside_selector};
use hub_messages::rule::listed;
use protocol::{Message, Refusal, Way};

// A type that goes one way only, where the selector at a place leads to the form or not.
fn goes(only: Way, way: Way, leads: bool, place: u16) -> Result<(), Refusal>
    ensures { result ≡ one_way only way leads place }
{
    if way != only {
        return Err(Refusal::UnknownType);
    }
    listed(leads, place)
}

// A type that goes one way only, and is read only.
fn read_only(only: Way, way: Way) -> Result<(), Refusal>
    ensures { result ≡ read_only_one_way only way }
{
    if way != only {
        return Err(Refusal::UnknownType);
    }
    Err(Refusal::ReadOnly)
}

// The number of the form that a property and an operation lead to.
#[tactic(auto, using(std::proofs::lemmas::Bool::Decides::nat_tests), unfolding(crate::specs::Choice::property_form, protocol::specs::Types::payload))]
fn property_form(property: u8, operation: u8) -> u64
    ensures { result ≡ form_number (property_form property operation) }
{
    if !carries(operation) {
        return 1;
    }
    match property {
        1 | 8 | 9 => 2,
        3 | 4 => 5,
        5 => 4,
        10 => 6,
        13 | 14 => 7,
        _ => 3,
    }
}

// 0x01
fn property_selected(way: Way, property: u8, operation: u8, form: u64) -> Result<(), Refusal>
    ensures { result ≡ property_choice way property operation form }
{
    outside_selector(way, property, operation)?;
    listed(property_form(property, operation) == form, 4)
}

// 0x03, where the operation leads to the message's form or not.
fn alert_selected(alert: u8, leads: bool) -> Result<(), Refusal>
    ensures { result ≡ alert_choice alert leads }
{
    listed(matches!(alert, 1..=4), 3)?;
    listed(leads, 4)
}

fn is_action(way: Way, action: u8) -> bool
    ensures { result ≡ is_action way action }
{
    match way {
        Way::Down => is_down_action(action),
        Way::Up => matches!(action, 0x30..=0x32),
    }
}

// 0x02
fn action_selected(way: Way, action: u8) -> Result<(), Refusal>
    ensures { result ≡ action_choice way action }
{
    listed(is_action(way, action), 3)
}

// 0x03: whether an operation leads to the form that goes one way only.
fn alert_leads(only: Way, way: Way, operation: u8) -> bool
    ensures { result ≡ alert_leads only way operation }
{
    matches!(
        (only, way, operation),
        (Way::Down, Way::Down, 1..=3) | (Way::Up, Way::Up, 4)
    )
}

// What comes of a form, by its number, and of its selectors, which are among its first three values.
// The form is a number, as in a row, which the C interface gives; PROMISES holds this contract.
#[tactic(auto, using(std::proofs::lemmas::Bool::Decides::nat_tests), unfolding(crate::specs::Choice::form_at))]
pub fn choose(form: u64, way: Way, a: u8, b: u8, c: u8) -> Result<(), Refusal>
    ensures { result ≡ choice_of (form_at form) way a b c }
{
    match form {
        1..=7 => property_selected(way, a, b, form),
        8 => action_selected(way, a),
        9 => alert_selected(a, alert_leads(Way::Down, way, b)),
        10 => alert_selected(a, alert_leads(Way::Up, way, b)),
        11 => goes(Way::Up, way, b == 0, 4),
        12 | 22 => goes(Way::Up, way, b == 1, 4),
        13 | 23 => goes(Way::Up, way, b == 2, 4),
        16 | 17 => read_only(Way::Down, way),
        18 => read_only(Way::Up, way),
        24 => goes(Way::Up, way, matches!(c, 0 | 4), 5),
        25 => goes(Way::Up, way, matches!(c, 1..=3), 5),
        26 => goes(Way::Up, way, c == 5, 5),
        27 => goes(Way::Up, way, c == 7, 5),
        28 => goes(Way::Up, way, c == 8, 5),
        29 => goes(Way::Up, way, c == 0x80, 5),
        14 | 30 | 31 | 38 | 41 | 42 => goes(Way::Up, way, true, 0),
        32 => goes(Way::Down, way, a == 0, 3),
        33 => goes(Way::Down, way, a == 1, 3),
        34 => goes(Way::Down, way, c == 0x0C, 5),
        35 => goes(Way::Down, way, c == 0x0D, 5),
        36 => goes(Way::Down, way, c == 0x0E, 5),
        37 => goes(Way::Down, way, c == 0x14, 5),
        39 => goes(Way::Down, way, matches!(b, 2..=4 | 6), 4),
        40 => goes(Way::Down, way, b == 1, 4),
        _ => goes(Way::Down, way, true, 0),
    }
}

// The same of a message.
#[tactic(auto, using(crate::proofs::Choices::message_right), unfolding(crate::specs::Choice::form_at))]
pub fn selected(m: Message, way: Way) -> Result<(), Refusal>
    ensures { (opens : List ℕ) → encode way m opens ≡ after_selectors result (encode_form (form_of m) (values_of m) opens) }
{
    match m {
        Message::PropertyCommand {
            property,
            operation,
        } => choose(1, way, property, operation, 0),
        Message::PropertyText {
            property,
            operation,
        } => choose(2, way, property, operation, 0),
        Message::PropertyByte {
            property,
            operation,
            ..
        } => choose(3, way, property, operation, 0),
        Message::PropertyRssi { operation, .. } => choose(4, way, 5, operation, 0),
        Message::PropertyVersion {
            property,
            operation,
            ..
        } => choose(5, way, property, operation, 0),
        Message::PropertyProtocol { operation, .. } => choose(6, way, 10, operation, 0),
        Message::PropertyAddress {
            property,
            operation,
            ..
        } => choose(7, way, property, operation, 0),
        Message::HubAction { action } => choose(8, way, action, 0, 0),
        Message::AlertCommand { alert, operation } => choose(9, way, alert, operation, 0),
        Message::AlertUpdate { alert, .. } => choose(10, way, alert, 4, 0),
        Message::Detached { .. } => choose(11, way, 0, 0, 0),
        Message::Attached { .. } => choose(12, way, 0, 1, 0),
        Message::AttachedVirtual { .. } => choose(13, way, 0, 2, 0),
        Message::GenericError { .. } => choose(14, way, 0, 0, 0),
        Message::GoIntoBootMode => choose(15, way, 0, 0, 0),
        Message::LockMemory => choose(16, way, 0, 0, 0),
        Message::LockStatusRequest => choose(17, way, 0, 0, 0),
        Message::LockStatus { .. } => choose(18, way, 0, 0, 0),
        Message::PortInformationRequest { .. } => choose(19, way, 0, 0, 0),
        Message::ModeInformationRequest { .. } => choose(20, way, 0, 0, 0),
        Message::InputFormatSetup { .. } => choose(21, way, 0, 0, 0),
        Message::PortModes { .. } => choose(22, way, 0, 1, 0),
        Message::PortCombinations { .. } => choose(23, way, 0, 2, 0),
        Message::ModeText { information, .. } => choose(24, way, 0, 0, information),
        Message::ModeRange { information, .. } => choose(25, way, 0, 0, information),
        Message::ModeMapping { .. } => choose(26, way, 0, 0, 5),
        Message::ModeBias { .. } => choose(27, way, 0, 0, 7),
        Message::ModeCapabilities { .. } => choose(28, way, 0, 0, 8),
        Message::ValueFormat { .. } => choose(29, way, 0, 0, 0x80),
        Message::PortValue { .. } => choose(30, way, 0, 0, 0),
        Message::InputFormat { .. } => choose(31, way, 0, 0, 0),
        Message::VirtualDisconnect { .. } => choose(32, way, 0, 0, 0),
        Message::VirtualConnect { .. } => choose(33, way, 1, 0, 0),
        Message::StartSpeedForDegrees { .. } => choose(34, way, 0, 0, 0x0C),
        Message::GotoAbsolutePosition { .. } => choose(35, way, 0, 0, 0x0D),
        Message::GotoAbsolutePositions { .. } => choose(36, way, 0, 0, 0x0E),
        Message::PresetEncoders { .. } => choose(37, way, 0, 0, 0x14),
        Message::OutputFeedback => choose(38, way, 0, 0, 0),
        Message::CombinedSetup { sub_command, .. } => choose(39, way, 0, sub_command, 0),
        Message::ModeDatasets { .. } => choose(40, way, 0, 1, 0),
        Message::PortValueCombined { .. } => choose(41, way, 0, 0, 0),
        Message::InputFormatCombined { .. } => choose(42, way, 0, 0, 0),
    }
}
