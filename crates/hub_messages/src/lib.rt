// Reading the messages on the hub itself, 0x02, 0x03, 0x05 and 0x10 to 0x13, and what all readers
// share: the tests of a value's list and the hub properties.
#![tactic(auto)]

pub mod firmware;
pub mod hub;
pub mod property;
pub mod rule;
