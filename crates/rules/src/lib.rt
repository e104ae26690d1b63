// The rules of the port table and the reader without a table: the types that definitions and code share, the layout of
// the table, definitions and laws. No function.
#![tactic(auto)]

pub mod layout;

// An input format setup, asked for by a 0x41 or answered by a 0x47.
#[derive(Clone, Copy)]
pub struct Setup {
    pub mode: u8,
    pub delta: u32,
    pub notify: u8,
}

// A mode's value format (0x44, information type 0x80). Its kind is a number and no enum, since a cell of a table has any
// number, and `dataset_of` hands out by any.
#[derive(Clone, Copy)]
pub struct Format {
    pub datasets: u8,
    pub kind: u8,
    pub figures: u8,
    pub decimals: u8,
}

// Document 01's terms: a physical port is unjoined, or joined to the virtual port that is its partner; a virtual port's
// partners are its two members, as they were sent.
#[derive(Clone, Copy)]
pub enum Wiring {
    Unjoined,
    Joined { port: u8 },
    Virtual { port_a: u8, port_b: u8 },
}

// What a message tells a port, which has to be present.
#[derive(Clone, Copy)]
pub enum Change {
    // 0x21, 0x22, a 0x42 with another sub command than 1, 0x43, a 0x44 with another information type than
    // 0x80, and a 0x81 with sub command 0x0D: nothing that is kept.
    Unchanged,
    // 0x44, information type 0x80
    Formatted { mode: u8, format: Format },
    // 0x47
    Answered { setup: Setup },
    // 0x41, with the experiment number that came with it
    Asked { setup: Setup, experiment: u16 },
    // 0x42, sub command 1, with the experiment number that came with it; the list is the message's open bytes
    Listed { experiment: u16 },
    // 0x48
    Combined { pointers: u16 },
}

// What a message is to the port table.
#[derive(Clone, Copy)]
pub enum Effect {
    // Changes nothing and names no port that has to be present.
    Nothing,
    ToPort {
        port: u8,
        change: Change,
    },
    // 0x04, event 1
    Attach {
        port: u8,
        device: u16,
    },
    // 0x04, event 2
    AttachVirtual {
        port: u8,
        device: u16,
        port_a: u8,
        port_b: u8,
    },
    // 0x04, event 0
    Detach {
        port: u8,
    },
    // 0x45
    Value {
        port: u8,
    },
    // 0x61, sub command 0
    Disconnect {
        port: u8,
    },
    // 0x61, sub command 1
    Connect {
        port_a: u8,
        port_b: u8,
    },
    // 0x02 up, 0x30 to 0x32
    Empty,
    // 0x81, sub commands 0x0C, 0x0E and 0x14: nothing that is kept, and for a virtual port only.
    ToVirtual {
        port: u8,
    },
    // 0x82: nothing that is kept; the ports named are among the open bytes.
    Feedback,
    // 0x46; the values are the open bytes.
    CombinedValue {
        port: u8,
        pointers: u16,
    },
}

// What a value of a port is read by: the mode that the hub last answered, the port's state, the experiment number that the
// value carries and that mode's format.
#[derive(Clone, Copy)]
pub struct ValueLookup {
    pub mode: u8,
    pub state: u8,
    pub experiment: u16,
    pub format: Format,
}
