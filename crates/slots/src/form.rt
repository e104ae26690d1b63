// The fields of each form with their values, from the type byte on.
ghost use Rattle.std.specs.Prelude.{◌≡◌, ◌∷◌, []};
ghost use Rattle.protocol.specs.declared.Message.TheVariants as Message';
ghost use Rattle.slots.specs.declared.Slot.TheVariants as Slot';
ghost use Rattle.slots.specs.Slot.{Slotted, word_slot};

use crate::Slot;
use hub_messages::property::greatest;
use protocol::{Combinations, Message};

// A message of nine fields, of which those at the end may be nothing. They are passed one by one: a list of slots for each message is
// one more array that has to be cleared, in every call.
fn row(
    code: u8,
    a: Slot,
    b: Slot,
    c: Slot,
    d: Slot,
    e: Slot,
    f: Slot,
    g: Slot,
    h: Slot,
    i: Slot,
) -> [Slot; 11]
    ensures { result ≡ Slot'.Byte code ∷ a ∷ b ∷ c ∷ d ∷ e ∷ f ∷ g ∷ h ∷ i ∷ Slot'.Nothing ∷ [] }
{
    [Slot::Byte(code), a, b, c, d, e, f, g, h, i, Slot::Nothing]
}

// The same of the fields that a message has; nothing stands in the slots that are left.
macro_rules! row {
    ($code:expr, $a:expr, $b:expr, $c:expr, $d:expr, $e:expr, $f:expr, $g:expr, $h:expr, $i:expr) => {
        row($code, $a, $b, $c, $d, $e, $f, $g, $h, $i)
    };
    ($code:expr $(, $field:expr)*) => {
        row!($code $(, $field)*, Slot::Nothing)
    };
}

// The entry at an index of a 43's list; nothing from its count on.
#[tactic(auto, using(std::proofs::lemmas::Bool::Decides::nat_tests))]
fn word(index: u8, count: u8, entry: u16) -> Slot
    ensures { result ≡ word_slot index count entry }
{
    if index < count {
        Slot::Word(entry)
    } else {
        Slot::Nothing
    }
}

// 0x43, information type 2. The entries are fields of their own (protocol), so each has its line.
fn combination_row(port: u8, c: Combinations) -> [Slot; 11]
    ensures { Slotted (Message'.PortCombinations port c) result }
{
    [
        Slot::Byte(0x43),
        Slot::Byte(port),
        Slot::Byte(2),
        word(0, c.count, c.entry0),
        word(1, c.count, c.entry1),
        word(2, c.count, c.entry2),
        word(3, c.count, c.entry3),
        word(4, c.count, c.entry4),
        word(5, c.count, c.entry5),
        word(6, c.count, c.entry6),
        word(7, c.count, c.entry7),
    ]
}

// The slots of a message, from its type byte on.
#[tactic(auto, using(crate::proofs::Ranges::same), unfolding(protocol::specs::Form::layout))]
pub fn slots_of(m: Message) -> [Slot; 11]
    ensures { Slotted m result }
{
    match m {
        Message::PropertyCommand {
            property,
            operation,
        } => row!(0x01, Slot::Byte(property), Slot::Byte(operation)),
        Message::PropertyText {
            property,
            operation,
        } => row!(0x01, Slot::Byte(property), Slot::Byte(operation)),
        Message::PropertyByte {
            property,
            operation,
            value,
        } => row!(
            0x01,
            Slot::Byte(property),
            Slot::Byte(operation),
            Slot::UpTo {
                most: greatest(property),
                value,
            }
        ),
        Message::PropertyRssi { operation, rssi } => row!(
            0x01,
            Slot::Byte(5),
            Slot::Byte(operation),
            Slot::SignedByte(rssi)
        ),
        Message::PropertyVersion {
            property,
            operation,
            version,
        } => row!(
            0x01,
            Slot::Byte(property),
            Slot::Byte(operation),
            Slot::SignedLong(version)
        ),
        Message::PropertyProtocol { operation, version } => row!(
            0x01,
            Slot::Byte(10),
            Slot::Byte(operation),
            Slot::Word(version)
        ),
        Message::PropertyAddress {
            property,
            operation,
            address,
        } => row!(
            0x01,
            Slot::Byte(property),
            Slot::Byte(operation),
            Slot::HighFirst(address)
        ),
        Message::HubAction { action } => row!(0x02, Slot::Byte(action)),
        Message::AlertCommand { alert, operation } => row!(
            0x03,
            Slot::Byte(alert),
            Slot::Byte(operation)
        ),
        Message::AlertUpdate { alert, status } => row!(
            0x03,
            Slot::Byte(alert),
            Slot::Byte(4),
            Slot::AlertStatus(status)
        ),
        Message::Detached { port } => row!(0x04, Slot::Byte(port), Slot::Byte(0)),
        Message::Attached {
            port,
            device,
            hardware,
            software,
        } => row!(
            0x04,
            Slot::Byte(port),
            Slot::Byte(1),
            Slot::Word(device),
            Slot::SignedLong(hardware),
            Slot::SignedLong(software)
        ),
        Message::AttachedVirtual {
            port,
            device,
            port_a,
            port_b,
        } => row!(
            0x04,
            Slot::Byte(port),
            Slot::Byte(2),
            Slot::Word(device),
            Slot::Byte(port_a),
            Slot::Byte(port_b)
        ),
        Message::GenericError { command, error } => row!(
            0x05,
            Slot::Byte(command),
            Slot::Between {
                least: 1,
                most: 8,
                value: error,
            }
        ),
        Message::GoIntoBootMode => row!(0x10, Slot::BootString),
        Message::LockMemory => row!(0x11, Slot::LockString),
        Message::LockStatusRequest => row!(0x12),
        Message::LockStatus { status } => row!(0x13, Slot::Byte(status)),
        Message::PortInformationRequest { port, information } => row!(
            0x21,
            Slot::Byte(port),
            Slot::UpTo {
                most: 2,
                value: information,
            }
        ),
        Message::ModeInformationRequest {
            port,
            mode,
            information,
        } => row!(
            0x22,
            Slot::Byte(port),
            Slot::UpTo {
                most: 15,
                value: mode,
            },
            Slot::InformationType(information)
        ),
        Message::InputFormatSetup {
            port,
            mode,
            delta,
            notify,
        } => row!(
            0x41,
            Slot::Byte(port),
            Slot::UpTo {
                most: 15,
                value: mode,
            },
            Slot::Long(delta),
            Slot::UpTo {
                most: 1,
                value: notify,
            }
        ),
        Message::PortModes {
            port,
            capabilities,
            mode_count,
            input_modes,
            output_modes,
        } => row!(
            0x43,
            Slot::Byte(port),
            Slot::Byte(1),
            Slot::UpTo {
                most: 15,
                value: capabilities,
            },
            Slot::Byte(mode_count),
            Slot::Word(input_modes),
            Slot::Word(output_modes)
        ),
        Message::PortCombinations { port, combinations } => combination_row(port, combinations),
        Message::ModeText {
            port,
            mode,
            information,
        } => row!(
            0x44,
            Slot::Byte(port),
            Slot::UpTo {
                most: 15,
                value: mode,
            },
            Slot::Byte(information)
        ),
        Message::ModeRange {
            port,
            mode,
            information,
            lowest,
            highest,
        } => row!(
            0x44,
            Slot::Byte(port),
            Slot::UpTo {
                most: 15,
                value: mode,
            },
            Slot::Byte(information),
            Slot::Float(lowest),
            Slot::Float(highest)
        ),
        Message::ModeMapping {
            port,
            mode,
            mapping,
        } => row!(
            0x44,
            Slot::Byte(port),
            Slot::UpTo {
                most: 15,
                value: mode,
            },
            Slot::Byte(5),
            Slot::Word(mapping)
        ),
        Message::ModeBias { port, mode, bias } => row!(
            0x44,
            Slot::Byte(port),
            Slot::UpTo {
                most: 15,
                value: mode,
            },
            Slot::Byte(7),
            Slot::UpTo {
                most: 100,
                value: bias,
            }
        ),
        Message::ModeCapabilities { port, mode, bits } => row!(
            0x44,
            Slot::Byte(port),
            Slot::UpTo {
                most: 15,
                value: mode,
            },
            Slot::Byte(8),
            Slot::HighFirst(bits)
        ),
        Message::ValueFormat {
            port,
            mode,
            datasets,
            kind,
            figures,
            decimals,
        } => row!(
            0x44,
            Slot::Byte(port),
            Slot::UpTo {
                most: 15,
                value: mode,
            },
            Slot::Byte(0x80),
            Slot::Between {
                least: 1,
                most: 16,
                value: datasets,
            },
            Slot::UpTo {
                most: 3,
                value: kind,
            },
            Slot::Byte(figures),
            Slot::Byte(decimals)
        ),
        Message::PortValue { port } => row!(0x45, Slot::Byte(port)),
        Message::InputFormat {
            port,
            mode,
            delta,
            notify,
        } => row!(
            0x47,
            Slot::Byte(port),
            Slot::UpTo {
                most: 15,
                value: mode,
            },
            Slot::Long(delta),
            Slot::UpTo {
                most: 1,
                value: notify,
            }
        ),
        Message::VirtualDisconnect { port } => row!(0x61, Slot::Byte(0), Slot::Byte(port)),
        Message::VirtualConnect { port_a, port_b } => row!(
            0x61,
            Slot::Byte(1),
            Slot::Byte(port_a),
            Slot::Byte(port_b)
        ),
        Message::StartSpeedForDegrees {
            port,
            start,
            degrees,
            speed_left,
            speed_right,
            power,
            end_state,
            profile,
        } => row!(
            0x81,
            Slot::Byte(port),
            Slot::StartByte(start),
            Slot::Byte(0x0C),
            Slot::Degrees(degrees),
            Slot::SignedSpeed(speed_left),
            Slot::SignedSpeed(speed_right),
            Slot::UpTo {
                most: 100,
                value: power,
            },
            Slot::EndState(end_state),
            Slot::UpTo {
                most: 3,
                value: profile,
            }
        ),
        Message::GotoAbsolutePosition {
            port,
            start,
            position,
            speed,
            power,
            end_state,
            profile,
        } => row!(
            0x81,
            Slot::Byte(port),
            Slot::StartByte(start),
            Slot::Byte(0x0D),
            Slot::SignedLong(position),
            Slot::Between {
                least: 1,
                most: 100,
                value: speed,
            },
            Slot::UpTo {
                most: 100,
                value: power,
            },
            Slot::EndState(end_state),
            Slot::UpTo {
                most: 3,
                value: profile,
            }
        ),
        Message::GotoAbsolutePositions {
            port,
            start,
            position_1,
            position_2,
            speed,
            power,
            end_state,
            profile,
        } => row!(
            0x81,
            Slot::Byte(port),
            Slot::StartByte(start),
            Slot::Byte(0x0E),
            Slot::SignedLong(position_1),
            Slot::SignedLong(position_2),
            Slot::Between {
                least: 1,
                most: 100,
                value: speed,
            },
            Slot::UpTo {
                most: 100,
                value: power,
            },
            Slot::EndState(end_state),
            Slot::UpTo {
                most: 3,
                value: profile,
            }
        ),
        Message::PresetEncoders {
            port,
            start,
            left,
            right,
        } => row!(
            0x81,
            Slot::Byte(port),
            Slot::StartByte(start),
            Slot::Byte(0x14),
            Slot::SignedLong(left),
            Slot::SignedLong(right)
        ),
        Message::OutputFeedback => row!(0x82),
        Message::CombinedSetup { port, sub_command } => {
            row!(0x42, Slot::Byte(port), Slot::Byte(sub_command))
        }
        Message::ModeDatasets { port, combination } => row!(
            0x42,
            Slot::Byte(port),
            Slot::Byte(1),
            Slot::Byte(combination)
        ),
        Message::PortValueCombined { port, pointers } => {
            row!(0x46, Slot::Byte(port), Slot::Word(pointers))
        }
        Message::InputFormatCombined {
            port,
            control,
            pointers,
        } => row!(
            0x48,
            Slot::Byte(port),
            Slot::Byte(control),
            Slot::Word(pointers)
        ),
    }
}
