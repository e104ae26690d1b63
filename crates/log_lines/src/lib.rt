// The parts of a log's record; numbers, lines and totals as text.
#![tactic(auto)]

pub mod decimal;
pub mod line;
pub mod record;
pub mod totals;
