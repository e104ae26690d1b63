// The messages of LEGO Wireless Protocol 3.0 as values, and the refusals. Definitions and laws; no function but a refusal's
// number and place.
//
// Names follow document 002. Open bytes (names, symbols, texts, values, feedback, lists of entries) are not in a
// message: they stay where they are, in the caller's own slice.
#![tactic(auto)]

mod refusal;

pub use refusal::Refusal;

// Where a message goes: down to the hub, or up from it.
#[derive(Clone, Copy, Debug, PartialEq, Eq)]
pub enum Way {
    Down,
    Up,
}

// The possible mode combinations of a port (0x43, information type 2): how many entries were sent,
// one to eight, and the entries. Those past the count are 0.
// Eight fields: WrittenThenRead and answers_differ are of every message, and an array is to them a list of any length.
#[derive(Clone, Copy)]
pub struct Combinations {
    pub count: u8,
    pub entry0: u16,
    pub entry1: u16,
    pub entry2: u16,
    pub entry3: u16,
    pub entry4: u16,
    pub entry5: u16,
    pub entry6: u16,
    pub entry7: u16,
}

// One message, a case for each form. Where a selector has one value only in a form, the case stands
// for it; where it has several, it is a field. Selectors and kinds are numbers and no enums, since writing
// takes any number and refuses with 7 what is in no list (`writer::write`, `RefusedOnly`).
#[derive(Clone, Copy)]
pub enum Message {
    // 0x01, without payload: Enable, Disable, Reset, Request.
    PropertyCommand {
        property: u8,
        operation: u8,
    },
    // 0x01, properties 1, 8, 9; the text is open bytes.
    PropertyText {
        property: u8,
        operation: u8,
    },
    // 0x01, properties 2, 6, 7, 11, 12, 15.
    PropertyByte {
        property: u8,
        operation: u8,
        value: u8,
    },
    // 0x01, property 5.
    PropertyRssi {
        operation: u8,
        rssi: i8,
    },
    // 0x01, properties 3, 4.
    PropertyVersion {
        property: u8,
        operation: u8,
        version: i32,
    },
    // 0x01, property 10.
    PropertyProtocol {
        operation: u8,
        version: u16,
    },
    // 0x01, properties 13, 14; the first byte is the most significant.
    PropertyAddress {
        property: u8,
        operation: u8,
        address: u64,
    },
    // 0x02
    HubAction {
        action: u8,
    },
    // 0x03 down
    AlertCommand {
        alert: u8,
        operation: u8,
    },
    // 0x03 up, operation 4
    AlertUpdate {
        alert: u8,
        status: u8,
    },
    // 0x04, event 0
    Detached {
        port: u8,
    },
    // 0x04, event 1
    Attached {
        port: u8,
        device: u16,
        hardware: i32,
        software: i32,
    },
    // 0x04, event 2
    AttachedVirtual {
        port: u8,
        device: u16,
        port_a: u8,
        port_b: u8,
    },
    // 0x05
    GenericError {
        command: u8,
        error: u8,
    },
    // 0x10
    GoIntoBootMode,
    // 0x11
    LockMemory,
    // 0x12
    LockStatusRequest,
    // 0x13
    LockStatus {
        status: u8,
    },
    // 0x21
    PortInformationRequest {
        port: u8,
        information: u8,
    },
    // 0x22
    ModeInformationRequest {
        port: u8,
        mode: u8,
        information: u8,
    },
    // 0x41
    InputFormatSetup {
        port: u8,
        mode: u8,
        delta: u32,
        notify: u8,
    },
    // 0x43, information type 1
    PortModes {
        port: u8,
        capabilities: u8,
        mode_count: u8,
        input_modes: u16,
        output_modes: u16,
    },
    // 0x43, information type 2
    PortCombinations {
        port: u8,
        combinations: Combinations,
    },
    // 0x44, information types 0 (name) and 4 (symbol), which are open bytes
    ModeText {
        port: u8,
        mode: u8,
        information: u8,
    },
    // 0x44, information types 1 (raw), 2 (percent) and 3 (SI)
    ModeRange {
        port: u8,
        mode: u8,
        information: u8,
        lowest: f32,
        highest: f32,
    },
    // 0x44, information type 5
    ModeMapping {
        port: u8,
        mode: u8,
        mapping: u16,
    },
    // 0x44, information type 7
    ModeBias {
        port: u8,
        mode: u8,
        bias: u8,
    },
    // 0x44, information type 8; the first byte is the most significant
    ModeCapabilities {
        port: u8,
        mode: u8,
        bits: u64,
    },
    // 0x44, information type 0x80
    ValueFormat {
        port: u8,
        mode: u8,
        datasets: u8,
        kind: u8,
        figures: u8,
        decimals: u8,
    },
    // 0x45; the value is open bytes
    PortValue {
        port: u8,
    },
    // 0x47
    InputFormat {
        port: u8,
        mode: u8,
        delta: u32,
        notify: u8,
    },
    // 0x61, sub command 0
    VirtualDisconnect {
        port: u8,
    },
    // 0x61, sub command 1
    VirtualConnect {
        port_a: u8,
        port_b: u8,
    },
    // 0x81, sub command 0x0C. `start` is the byte of Startup and Completion Information.
    StartSpeedForDegrees {
        port: u8,
        start: u8,
        degrees: i32,
        speed_left: i8,
        speed_right: i8,
        power: u8,
        end_state: u8,
        profile: u8,
    },
    // 0x81, sub command 0x0D
    GotoAbsolutePosition {
        port: u8,
        start: u8,
        position: i32,
        speed: u8,
        power: u8,
        end_state: u8,
        profile: u8,
    },
    // 0x81, sub command 0x0E
    GotoAbsolutePositions {
        port: u8,
        start: u8,
        position_1: i32,
        position_2: i32,
        speed: u8,
        power: u8,
        end_state: u8,
        profile: u8,
    },
    // 0x81, sub command 0x14
    PresetEncoders {
        port: u8,
        start: u8,
        left: i32,
        right: i32,
    },
    // 0x82; the pairs of port and feedback are open bytes
    OutputFeedback,
    // 0x42, sub commands 2, 3, 4 and 6
    CombinedSetup {
        port: u8,
        sub_command: u8,
    },
    // 0x42, sub command 1; the list, a byte an entry with mode and dataset, is open bytes
    ModeDatasets {
        port: u8,
        combination: u8,
    },
    // 0x46; the values are open bytes
    PortValueCombined {
        port: u8,
        pointers: u16,
    },
    // 0x48
    InputFormatCombined {
        port: u8,
        control: u8,
        pointers: u16,
    },
}
