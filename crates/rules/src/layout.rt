// Sizes of the port table, and where each number of a record lies among the cells of its place. A definition cannot name
// a constant of the source, so `specs/Layout.antt` has these numbers under the same names.

// Ports, modes and experiment numbers are below these.
pub const PORT_COUNT: u32 = 256;

pub const MODE_COUNT: usize = 16;

pub const EXPERIMENT_COUNT: u32 = 65536;

// Records of a table, cells of a record's place, cells of a table.
pub const PLACES: usize = 16;

pub const STRIDE: usize = 63;

pub const TABLE_SIZE: usize = 1008;

// 0 free, 1 physical and unjoined, 2 physical and joined, 3 virtual.
pub const WIRING: usize = 0;

pub const FREE: u32 = 0;

pub const UNJOINED: u32 = 1;

pub const JOINED: u32 = 2;

pub const VIRTUAL: u32 = 3;

pub const PORT: usize = 1;

pub const DEVICE: usize = 2;

// A joined port's virtual port, or a virtual port's first member.
pub const FIRST: usize = 3;

// A virtual port's second member.
pub const SECOND: usize = 4;

pub const STATE: usize = 5;

// The latest asking. Of a 0x41 the mode plus one, the delta, the notify; of a list COMBINED, 0, 0; 0, 0, 0 before any.
pub const ASKED: usize = 6;

// The experiment number that came with it; 0 before any.
pub const EXPERIMENT: usize = 9;

// The latest answer. Of a 0x47 the mode plus one, the delta, the notify; of a 0x48 COMBINED, the pointers, 0; 0, 0, 0
// before any.
pub const ANSWERED: usize = 10;

// In place of a mode plus one.
pub const COMBINED: u32 = 17;

// The first of MODE_COUNT, by mode: 0 none, else the format's four bytes, the first the least significant.
pub const FORMATS: usize = 13;

// A list of modes and datasets: how many entries it has, 0 where there is none; then MOST_ENTRIES cells, an entry each and
// zeros after them. First the one that the port keeps, then the one that its 0x48 took over.
pub const MOST_ENTRIES: usize = 16;

pub const LIST: usize = 29;

pub const TAKEN: usize = 46;
