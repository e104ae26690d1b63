// Why a message or a call is refused. The numbers are document 01's.
ghost use Rattle.std.specs.Prelude.{◌≡◌};
ghost use Rattle.protocol.specs.Refusal.{number_of, place_of};

// One refusal, a case for each number.
#[derive(Clone, Copy, Debug, PartialEq, Eq)]
pub enum Refusal {
    // 1: no bytes
    Empty,
    // 2: the length byte has bit 7 set
    LongLength,
    // 3: the length byte is not the number of bytes, or is under 3
    WrongLength,
    // 4: the hub id is not 0
    OtherHub,
    // 5: the type is unknown, or does not go this way
    UnknownType,
    // 6: not a size for the type and its selectors, and the size that is wanted
    WrongSize { wanted: u16 },
    // 7: the field at a place is outside its list
    OutsideList { place: u16 },
    // 8: in writing, the output is too short
    ShortOutput,
    // 9: the lent cells are no sound table
    UnsoundTable,
    // 10: a port named is not present
    AbsentPort,
    // 11: the port to attach is present already
    PresentPort,
    // 12: no pair of present, unjoined ports, or a disconnection of a physical port
    BadPair,
    // 13: the table is full
    FullTable,
    // 14: a value of a port that has no mode, or is combined
    NoMode,
    // 15: a value in a mode that has no format
    NoFormat,
    // 16: a value of another size than its format says
    ValueSize,
    // 17: no dataset of that number
    NoDataset,
    // 18: an infinity or a NaN
    NotFinite,
    // 19: a damaged record of a log
    DamagedRecord,
    // 20: a 0x46 of a port that is not combined
    NotCombined,
    // 21: pointers that do not fit their list, or none
    BadPointers,
    // 22: a command for two motors to a port that is not virtual
    NotVirtual,
    // 23: in writing, a message that is read only
    ReadOnly,
    // 255, a number that document 01 does not have: lent cells that are too few for an answer, or that give no message
    Unfit,
}

impl Refusal {
    // Its number.
    pub fn number(self) -> u8
        ensures { result ≡ number_of self }
    {
        match self {
            Refusal::Empty => 1,
            Refusal::LongLength => 2,
            Refusal::WrongLength => 3,
            Refusal::OtherHub => 4,
            Refusal::UnknownType => 5,
            Refusal::WrongSize { .. } => 6,
            Refusal::OutsideList { .. } => 7,
            Refusal::ShortOutput => 8,
            Refusal::UnsoundTable => 9,
            Refusal::AbsentPort => 10,
            Refusal::PresentPort => 11,
            Refusal::BadPair => 12,
            Refusal::FullTable => 13,
            Refusal::NoMode => 14,
            Refusal::NoFormat => 15,
            Refusal::ValueSize => 16,
            Refusal::NoDataset => 17,
            Refusal::NotFinite => 18,
            Refusal::DamagedRecord => 19,
            Refusal::NotCombined => 20,
            Refusal::BadPointers => 21,
            Refusal::NotVirtual => 22,
            Refusal::ReadOnly => 23,
            Refusal::Unfit => 255,
        }
    }

    // Its place in the message, or the size that is wanted; 0 of a refusal that has neither.
    pub fn place(self) -> u16
        ensures { result ≡ place_of self }
    {
        match self {
            Refusal::OtherHub => 1,
            Refusal::UnknownType => 2,
            Refusal::WrongSize { wanted } => wanted,
            Refusal::OutsideList { place } => place,
            _ => 0,
        }
    }
}
