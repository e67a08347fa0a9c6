// Hook records made into data bits and read from them. Relies on the crate codec, whose definitions say what the bits are.

#![tactic(auto)]

mod fields;
mod hook;

pub use fields::are_bits;
pub use hook::{put_record, record_fits, record_of};
