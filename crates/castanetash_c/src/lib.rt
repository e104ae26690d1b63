// The product for callers in C and Rust: each function calls the library's of the same name. A slice is
// a pointer and a length, counted in elements.
#![tactic(auto)]

mod datasets;
mod log_block;
mod messages;
mod port_table;
