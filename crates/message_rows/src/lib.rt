// An accepted message as a row of numbers.
#![tactic(auto)]

ghost use Rattle.std.specs.Prelude.{◌≡◌, ◌≤◌, length};
ghost use Rattle.std.specs.Float.{binary32};
ghost use Rattle.std.specs.Float.Ieee.{to_bits};
ghost use Rattle.protocol.specs.Field as Field;
ghost use Rattle.protocol.specs.Answer.{form_of, values_of};
ghost use Rattle.message_rows.specs.Row.{accepted_row, number_of, row};

use protocol::Message;

// How many numbers a row has.
pub const ROW_SIZE: usize = 16;

// A signed number in two's complement of 64 bits.
pub fn signed(v: i32) -> u64
    ensures { result ≡ number_of (Field.integer v) }
{
    i64::from(v).cast_unsigned()
}

// A float as its 32 bits; `to_bits` takes no NaN.
pub fn float(x: f32) -> u64
    ensures { result ≡ to_bits binary32 x }
{
    if x.is_nan() {
        0x7fc00000
    } else {
        x.to_bits() as u64
    }
}

// The row of an accepted message with these values.
fn row(form: u64, values: &[u64]) -> [u64; ROW_SIZE]
    requires { length values.now ≤ 12 }
    ensures { result ≡ row form values.now }
{
    let mut row = [0; ROW_SIZE];
    row[0] = form;
    row[3] = values.len() as u64;
    row[4..4 + values.len()].copy_from_slice(values);
    row
}

// The row of an accepted message, but for where its open bytes lie.
pub fn message_row(m: Message) -> [u64; ROW_SIZE]
    ensures { result ≡ accepted_row (form_of m) 0 0 (values_of m) }
{
    match m {
        Message::PropertyCommand {
            property,
            operation,
        } => row(1, &[property as u64, operation as u64]),
        Message::PropertyText {
            property,
            operation,
        } => row(2, &[property as u64, operation as u64]),
        Message::PropertyByte {
            property,
            operation,
            value,
        } => row(3, &[property as u64, operation as u64, value as u64]),
        Message::PropertyRssi { operation, rssi } => row(
            4,
            &[5, operation as u64, signed(rssi as i32)],
        ),
        Message::PropertyVersion {
            property,
            operation,
            version,
        } => row(5, &[property as u64, operation as u64, signed(version)]),
        Message::PropertyProtocol { operation, version } => row(
            6,
            &[10, operation as u64, version as u64],
        ),
        Message::PropertyAddress {
            property,
            operation,
            address,
        } => row(7, &[property as u64, operation as u64, address]),
        Message::HubAction { action } => row(8, &[action as u64]),
        Message::AlertCommand { alert, operation } => row(9, &[alert as u64, operation as u64]),
        Message::AlertUpdate { alert, status } => row(10, &[alert as u64, 4, status as u64]),
        Message::Detached { port } => row(11, &[port as u64, 0]),
        Message::Attached {
            port,
            device,
            hardware,
            software,
        } => row(
            12,
            &[
                port as u64,
                1,
                device as u64,
                signed(hardware),
                signed(software),
            ],
        ),
        Message::AttachedVirtual {
            port,
            device,
            port_a,
            port_b,
        } => row(
            13,
            &[port as u64, 2, device as u64, port_a as u64, port_b as u64],
        ),
        Message::GenericError { command, error } => row(14, &[command as u64, error as u64]),
        Message::GoIntoBootMode => row(15, &[]),
        Message::LockMemory => row(16, &[]),
        Message::LockStatusRequest => row(17, &[]),
        Message::LockStatus { status } => row(18, &[status as u64]),
        Message::PortInformationRequest { port, information } => row(
            19,
            &[port as u64, information as u64],
        ),
        Message::ModeInformationRequest {
            port,
            mode,
            information,
        } => row(20, &[port as u64, mode as u64, information as u64]),
        Message::InputFormatSetup {
            port,
            mode,
            delta,
            notify,
        } => row(21, &[port as u64, mode as u64, delta as u64, notify as u64]),
        Message::PortModes {
            port,
            capabilities,
            mode_count,
            input_modes,
            output_modes,
        } => row(
            22,
            &[
                port as u64,
                1,
                capabilities as u64,
                mode_count as u64,
                input_modes as u64,
                output_modes as u64,
            ],
        ),
        Message::PortCombinations { port, combinations } => row(
            23,
            &[
                port as u64,
                2,
                combinations.count as u64,
                combinations.entry0 as u64,
                combinations.entry1 as u64,
                combinations.entry2 as u64,
                combinations.entry3 as u64,
                combinations.entry4 as u64,
                combinations.entry5 as u64,
                combinations.entry6 as u64,
                combinations.entry7 as u64,
            ],
        ),
        Message::ModeText {
            port,
            mode,
            information,
        } => row(24, &[port as u64, mode as u64, information as u64]),
        Message::ModeRange {
            port,
            mode,
            information,
            lowest,
            highest,
        } => row(
            25,
            &[
                port as u64,
                mode as u64,
                information as u64,
                float(lowest),
                float(highest),
            ],
        ),
        Message::ModeMapping {
            port,
            mode,
            mapping,
        } => row(26, &[port as u64, mode as u64, 5, mapping as u64]),
        Message::ModeBias { port, mode, bias } => row(
            27,
            &[port as u64, mode as u64, 7, bias as u64],
        ),
        Message::ModeCapabilities { port, mode, bits } => row(
            28,
            &[port as u64, mode as u64, 8, bits],
        ),
        Message::ValueFormat {
            port,
            mode,
            datasets,
            kind,
            figures,
            decimals,
        } => row(
            29,
            &[
                port as u64,
                mode as u64,
                128,
                datasets as u64,
                kind as u64,
                figures as u64,
                decimals as u64,
            ],
        ),
        Message::PortValue { port } => row(30, &[port as u64]),
        Message::InputFormat {
            port,
            mode,
            delta,
            notify,
        } => row(31, &[port as u64, mode as u64, delta as u64, notify as u64]),
        Message::VirtualDisconnect { port } => row(32, &[0, port as u64]),
        Message::VirtualConnect { port_a, port_b } => row(33, &[1, port_a as u64, port_b as u64]),
        Message::StartSpeedForDegrees {
            port,
            start,
            degrees,
            speed_left,
            speed_right,
            power,
            end_state,
            profile,
        } => row(
            34,
            &[
                port as u64,
                start as u64,
                12,
                signed(degrees),
                signed(speed_left as i32),
                signed(speed_right as i32),
                power as u64,
                end_state as u64,
                profile as u64,
            ],
        ),
        Message::GotoAbsolutePosition {
            port,
            start,
            position,
            speed,
            power,
            end_state,
            profile,
        } => row(
            35,
            &[
                port as u64,
                start as u64,
                13,
                signed(position),
                speed as u64,
                power as u64,
                end_state as u64,
                profile as u64,
            ],
        ),
        Message::GotoAbsolutePositions {
            port,
            start,
            position_1,
            position_2,
            speed,
            power,
            end_state,
            profile,
        } => row(
            36,
            &[
                port as u64,
                start as u64,
                14,
                signed(position_1),
                signed(position_2),
                speed as u64,
                power as u64,
                end_state as u64,
                profile as u64,
            ],
        ),
        Message::PresetEncoders {
            port,
            start,
            left,
            right,
        } => row(
            37,
            &[port as u64, start as u64, 20, signed(left), signed(right)],
        ),
        Message::OutputFeedback => row(38, &[]),
        Message::CombinedSetup { port, sub_command } => {
            row(39, &[port as u64, sub_command as u64])
        }
        Message::ModeDatasets { port, combination } => {
            row(40, &[port as u64, 1, combination as u64])
        }
        Message::PortValueCombined { port, pointers } => {
            row(41, &[port as u64, pointers as u64])
        }
        Message::InputFormatCombined {
            port,
            control,
            pointers,
        } => row(42, &[port as u64, control as u64, pointers as u64]),
    }
}
