// Calls that leave the book as it is: Row, Find, Write, the Euler number and the held count. `daybook` has them beside Load, Make, Ask, the list of asks, Drop, phase closures, boxes, salvage, the sheet profile and the plain engine.
#![tactic(auto)]

mod finds;
mod numbers;
mod parts;
mod writes;

pub use finds::{Found, find};
pub use numbers::{euler, held_count};
pub use parts::{row, row_answer};
pub use writes::write;
