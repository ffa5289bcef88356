// What a day file has besides vertices and cells, each in a type of its own: the first 32 bits, and a cell's vertices.
use kinds::Vertex;

// The file's first 32 bits as a number: D, N_0, N_D and the spare bits.
#[derive(Clone, Copy)]
pub struct Header(pub u32);

// A cell's vertices, ascending, with 0 after the last of them.
#[derive(Clone, Copy)]
pub struct Corners {
    pub vertices: [Vertex; 4],
}
