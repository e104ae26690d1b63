// What travels with a value.

// Where a value comes from and what it was measured for: its port, the mode that it is read by, the port's state and the
// experiment number that the value carries. The state is a number and no enum, since `dataset_of` hands out any that it is given.
#[derive(Clone, Copy)]
pub struct Stamp {
    pub port: u8,
    pub mode: u8,
    pub state: u8,
    pub experiment: u16,
}
