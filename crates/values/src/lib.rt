// What is read of a value's bytes by its format, and the experiment number that it carries.
#![tactic(auto)]

pub mod bits;
pub mod datasets;
pub mod experiment;
pub mod format;
pub mod number;
pub mod plan;
pub mod size;
pub mod stamp;
