// A day file: its faults, its cells, and the writing of one.
#![tactic(auto)]

mod faults;
mod head;
mod reading;
mod shapes;
mod written;

pub use faults::{body_fault, head_fault, out_of, put_cell};
pub use head::{HEAD_BITS, VERTEX_BITS, header};
pub use reading::{ascending, cell, in_file};
pub use shapes::{Corners, Header};
pub use written::write;
