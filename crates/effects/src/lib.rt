// What a message is to the port table.
#![tactic(auto)]

ghost use Rattle.std.specs.Prelude.{◌≡◌};
ghost use Rattle.rules.specs.Effect.{effect_of, action_effect};

use protocol::Message;
use rules::{Change, Effect, Format, Setup};

// A hub action: 0x30, 0x31 and 0x32 empty the table.
fn action_effect(action: u8) -> Effect
    ensures { result ≡ action_effect action }
{
    let empties = (0x30..=0x32).contains(&action);
    if empties {
        Effect::Empty
    } else {
        Effect::Nothing
    }
}

// What a message with its experiment number is to the table.
#[tactic(auto, unfolding(rules::specs::Effect::effect_of))]
pub fn effect_of(m: Message, experiment: u16) -> Effect
    ensures { result ≡ effect_of experiment m }
{
    match m {
        Message::HubAction { action } => action_effect(action),
        Message::Detached { port } => Effect::Detach { port },
        Message::Attached { port, device, .. } => Effect::Attach { port, device },
        Message::AttachedVirtual {
            port,
            device,
            port_a,
            port_b,
        } => Effect::AttachVirtual {
            port,
            device,
            port_a,
            port_b,
        },
        Message::PortInformationRequest { port, .. }
        | Message::ModeInformationRequest { port, .. }
        | Message::PortModes { port, .. }
        | Message::PortCombinations { port, .. }
        | Message::ModeText { port, .. }
        | Message::ModeRange { port, .. }
        | Message::ModeMapping { port, .. }
        | Message::ModeBias { port, .. }
        | Message::ModeCapabilities { port, .. }
        | Message::GotoAbsolutePosition { port, .. }
        | Message::CombinedSetup { port, .. } => Effect::ToPort {
            port,
            change: Change::Unchanged,
        },
        Message::InputFormatSetup {
            port,
            mode,
            delta,
            notify,
        } => Effect::ToPort {
            port,
            change: Change::Asked {
                setup: Setup {
                    mode,
                    delta,
                    notify,
                },
                experiment,
            },
        },
        Message::ValueFormat {
            port,
            mode,
            datasets,
            kind,
            figures,
            decimals,
        } => Effect::ToPort {
            port,
            change: Change::Formatted {
                mode,
                format: Format {
                    datasets,
                    kind,
                    figures,
                    decimals,
                },
            },
        },
        Message::PortValue { port } => Effect::Value { port },
        Message::InputFormat {
            port,
            mode,
            delta,
            notify,
        } => Effect::ToPort {
            port,
            change: Change::Answered {
                setup: Setup {
                    mode,
                    delta,
                    notify,
                },
            },
        },
        Message::VirtualDisconnect { port } => Effect::Disconnect { port },
        Message::VirtualConnect { port_a, port_b } => Effect::Connect { port_a, port_b },
        Message::StartSpeedForDegrees { port, .. }
        | Message::GotoAbsolutePositions { port, .. }
        | Message::PresetEncoders { port, .. } => Effect::ToVirtual { port },
        Message::ModeDatasets { port, .. } => Effect::ToPort {
            port,
            change: Change::Listed { experiment },
        },
        Message::PortValueCombined { port, pointers } => Effect::CombinedValue { port, pointers },
        Message::InputFormatCombined { port, pointers, .. } => Effect::ToPort {
            port,
            change: Change::Combined { pointers },
        },
        Message::OutputFeedback => Effect::Feedback,
        _ => Effect::Nothing,
    }
}
