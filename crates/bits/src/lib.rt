// A field of bits in bytes, read and written: the most significant bit of each byte comes first, and bits past the end are 0.
#![tactic(auto)]

mod fetching;
mod reading;
mod weights;
mod writing;

pub use reading::read_field;
pub use writing::write_field;
