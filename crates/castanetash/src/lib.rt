// The product: functions over numbers and slices, which castanetash_c offers to callers in C and Rust.
// Every call answers one number, a refusal's above its place, or how much was written; a refused call
// changes nothing lent.
#![tactic(auto)]

mod datasets;
mod log_block;
mod messages;
mod port_table;
mod way;

pub use datasets::{castanetash_dataset, castanetash_values};
pub use log_block::castanetash_read_block;
pub use messages::{castanetash_read, castanetash_write};
pub use port_table::{
    castanetash_empty, castanetash_format, castanetash_offer, castanetash_port, castanetash_ports,
};
