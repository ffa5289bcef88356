// What the call gives: the rim of a sheet.

// The rim that was written: the length of its file, and how many vertices and edges it has.
#[derive(Clone, Copy)]
pub struct Rim {
    pub length: usize,
    pub vertices: usize,
    pub edges: usize,
}
