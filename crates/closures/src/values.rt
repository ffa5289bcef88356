// What a count reads as, and what an edge's step is: a float in turns, or masked.

// A vertex's reading: its phase in turns, or masked.
#[derive(Clone, Copy)]
pub enum Reading {
    Phase(f64),
    Masked,
}

// An edge's step: the turns from its lower vertex to its higher, or masked where an end is.
#[derive(Clone, Copy)]
pub enum Step {
    Turns(f64),
    Masked,
}
