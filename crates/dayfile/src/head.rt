// The file's first 32 bits: D (2 bits), N_0 (14), N_D (13) and 3 spare bits.
ghost use Rattle.std.specs.Prelude.{◌≡◌, ◌+◌, ◌-◌, ◌*◌, ◌/◌, ◌%◌, ◌^◌, ◌<◌, ◌≤◌};
ghost use Rattle.rules.specs.File.{field, bits_of, head_dim, head_vertices, head_cells, head_spare, head_length};

use crate::shapes::Header;

// A field of the head: its first bit, counted from the most significant, and how many bits it has.
#[derive(Clone, Copy)]
pub(crate) struct Field {
    first: u32,
    width: u32,
}

// D.
pub(crate) const DIMENSION: Field = Field { first: 0, width: 2 };

// N_0.
const VERTICES: Field = Field {
    first: 2,
    width: 14,
};

// N_D.
const CELLS: Field = Field {
    first: 16,
    width: 13,
};

// The spare bits.
const SPARE: Field = Field {
    first: 29,
    width: 3,
};

// The bits of the head; behind them stand the vertices.
pub const HEAD_BITS: u32 = 32;

// The bits of a vertex.
pub const VERTEX_BITS: u32 = 13;

impl Field {
    // What it has in a file; bits that are not there are 0.
    pub(crate) fn read(self, file: &[u8]) -> u32
        requires { self.width ≤ 32 }
        ensures { result ≡ field file.now self.first self.width }
    {
        bits::read_field(file, self.first as usize, self.width)
    }

    // What it has in a head.
    fn of(self, head: Header) -> u32
        requires { (0 < self.width) × ((self.width < 32) × (self.first + self.width ≤ 32)) }
        ensures { result ≡ head.0 / 2 ^ (32 - (self.first + self.width)) % 2 ^ self.width }
    {
        (head.0 >> (32 - (self.first + self.width))) % (1 << self.width)
    }

    // The value at its place, with zero bits behind it.
    fn put(self, value: u32) -> u32
        requires { (0 < self.width) × (self.first + self.width ≤ 32) }
        ensures { result ≡ value * 2 ^ (32 - (self.first + self.width)) % 2 ^ 32 }
    {
        value << (32 - (self.first + self.width))
    }
}

// The first 32 bits of the file; bits that are not there are 0.
pub fn header(file: &[u8]) -> Header
    ensures { result.0 ≡ field file.now 0 32 }
{
    Header(bits::read_field(file, 0, HEAD_BITS))
}

impl Header {
    // The head with that D, N_0 and N_D, and spare bits zero.
    pub fn new(dimension: u32, vertices: u32, cells: u32) -> Header
        requires { (dimension < 4) × ((vertices < 2 ^ 14) × (cells < 2 ^ 13)) }
        ensures { result.0 ≡ 2 ^ 30 * dimension + 2 ^ 16 * vertices + 2 ^ 3 * cells }
    {
        Header(DIMENSION.put(dimension) + VERTICES.put(vertices) + CELLS.put(cells))
    }

    // D.
    pub fn dimension(self) -> u32
        ensures { result ≡ head_dim self.0 }
    {
        DIMENSION.of(self)
    }

    // How many vertices a cell has, D + 1.
    pub fn corners(self) -> usize
        ensures corners { result ≡ head_dim self.0 + 1 }
        ensures few { result ≤ 4 }
    {
        self.dimension() as usize + 1
    }

    // N_0.
    pub fn vertices(self) -> u32
        ensures { result ≡ head_vertices self.0 }
    {
        VERTICES.of(self)
    }

    // N_D.
    pub fn cells(self) -> u32
        ensures { result ≡ head_cells self.0 }
    {
        CELLS.of(self)
    }

    // The 3 spare bits.
    pub fn spare(self) -> u32
        ensures { result ≡ head_spare self.0 }
    {
        SPARE.of(self)
    }

    // The bit after the last vertex.
    pub fn end_bit(self) -> usize
        ensures { result ≡ bits_of (head_dim self.0) (head_cells self.0) }
    {
        HEAD_BITS as usize + VERTEX_BITS as usize * self.corners() * self.cells() as usize
    }

    // The file's length in bytes.
    pub fn length(self) -> usize
        ensures { result ≡ head_length self.0 }
    {
        (self.end_bit() + 7) / 8
    }
}
