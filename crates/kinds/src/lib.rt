// The kinds of things that the library speaks of: vertices and cells, where a book is broken, why a book is no sheet, and the refusals.
#![tactic(auto)]

mod refusals;

pub use refusals::{Broken, NotSheet, Refusal, number_of};

// A vertex, by its number.
#[derive(Clone, Copy)]
pub struct Vertex(pub u32);

// A cell, by its number.
#[derive(Clone, Copy)]
pub struct Cell(pub u32);
