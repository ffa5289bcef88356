// What salvage gives.

// What was saved of a file: the length written, how many cells were dropped, and whether spare bits were set, pad bits were set, or the length was not the one that the header asks.
#[derive(Clone, Copy)]
pub struct Saved {
    pub length: usize,
    pub dropped: usize,
    pub spare: bool,
    pub pad: bool,
    pub wrong_length: bool,
}
