// The cells, one after another in a slice, each with `size` vertices.
ghost use Rattle.std.specs.Prelude.{◌≡◌, ◌&&◌, ◌+◌, ◌*◌, ◌≤◌, length, take};
ghost use Rattle.rules.specs.Lists.{any_of, has};
ghost use Rattle.plain.specs.Cells.{cell_at, cells_before, Cells};

use crate::sets::has_both;

// What word 0 says: D, N_D and N_0.
#[derive(Clone, Copy)]
pub struct Sizes {
    pub dim: usize,
    pub cells: usize,
    pub vertices: u32,
}

// A mesh by its cells: their vertices, each cell's ascending, one cell after another, and what word 0 says.
#[derive(Clone, Copy)]
pub struct Mesh<'a> {
    pub words: &'a [u32],
    pub sizes: Sizes,
    ghost cells: { Cells words.now sizes.dim sizes.cells },
}

// The vertices of cell c, and behind them zeros: three or four words, with no call for so short a copy.
pub(crate) fn cell_at(cells: &[u32], size: usize, c: usize) -> [u32; 4]
    requires { (size ≤ 4) × (c * size + size ≤ length cells.now) }
    ensures { take size result ≡ cell_at size cells.now c }
{
    let first = c * size;
    let mut r = [0u32; 4];
    for k in 0..size {
        r[k] = cells[first + k];
    }
    r
}

// Whether some of the first n cells has both u and v.
pub(crate) fn share_cell(cells: &[u32], size: usize, n: usize, u: u32, v: u32) -> bool
    requires { n * size ≤ length cells.now }
    ensures { result ≡ any_of (λ s. has u s && has v s) (cells_before size cells.now n) }
{
    for b in 0..n {
        let first = b * size;
        if has_both(&cells[first..first + size], u, v) {
            return true;
        }
    }
    false
}
