// The plain engine's own numbering: the candidates of the cells in order, each counted where no cell before has it.
ghost use Rattle.std.specs.Prelude.{◌≡◌, false, cond, not, ◌&&◌, [], ◌+◌, ◌-◌, ◌<◌, length, eqb};
ghost use Rattle.rules.specs.Book.{most};
ghost use Rattle.rules.specs.Made.{built};
ghost use Rattle.plain.specs.Cells.{cells_before, news};
ghost use Rattle.plain.specs.Links.{Linked};
ghost use Rattle.plain.specs.Sought.{Seeks, Finds};

use crate::candidates::{candidate, choices};
use crate::chains::{count_uses, link, met_before, rarest};
use crate::sets::corner_of;
use crate::stored::{Mesh, cell_at};

// An entity, (d, i).
#[derive(Clone, Copy)]
pub struct Entity {
    pub dim: usize,
    pub number: u32,
}

// Whether this is the one: not met before, and no number is left to go.
fn is_it(met: bool, left: u32) -> bool
    ensures { result ≡ (not met && eqb left 0) }
{
    !met && left == 0
}

// How many numbers are left to go behind a set that was met before or not.
fn left_after(met: bool, left: u32) -> u32
    requires { met ≡ false → 0 < left }
    ensures { result ≡ cond met left (left - 1) }
{
    if met { left } else { left - 1 }
}

// Looks among the candidates of cell c that no cell before it has for the one of this number, counted from 0 there; gives it, or how many numbers are left to go behind them.
fn seek_in_cell(
    mesh: &Mesh<'_>,
    earlier: &[u16; 16384],
    many: &[u16; 8192],
    c: usize,
    entity: Entity,
) -> Result<[u32; 4], u32>
    requires linked { Linked mesh.now.words.now earlier.now (length mesh.now.words.now) }
    requires cell { c < mesh.now.sizes.cells }
    requires between { (0 < entity.dim) × (entity.dim < mesh.now.sizes.dim) }
    ensures { Seeks (news mesh.now.sizes.dim entity.dim mesh.now.words.now c (most mesh.now.sizes.dim entity.dim)) entity.dim entity.number result }
{
    let top = mesh.sizes.dim;
    let d = entity.dim;
    let size = top + 1;
    let cell = cell_at(mesh.words, size, c);
    let mut left = entity.number;
    for q in 0..choices(top, d) {
        let set = candidate(cell, top, d, q);
        let members = &set[..d + 1];
        let k = rarest(many, members);
        let at = c * size + corner_of(&cell[..size], members[k]);
        let met = met_before(mesh.words, earlier, size, at, members);
        if is_it(met, left) {
            return Ok(set);
        }
        left = left_after(met, left);
    }
    Err(left)
}

// Looks for an entity that is neither a vertex nor a cell; gives its vertices, if it is there.
pub(crate) fn seek(mesh: &Mesh<'_>, entity: Entity) -> Option<[u32; 4]>
    requires between { (0 < entity.dim) × (entity.dim < mesh.now.sizes.dim) }
    ensures { Finds (built entity.dim [] (cells_before (mesh.now.sizes.dim + 1) mesh.now.words.now mesh.now.sizes.cells)) entity.dim entity.number result }
{
    // One table for the latest places and then for the uses: with two the call would take 64 KiB of stack.
    let mut table = [0u16; 8192];
    let mut earlier = [0u16; 16384];
    link(mesh.words, &mut table, &mut earlier);
    count_uses(mesh.words, &mut table);
    let dim = entity.dim;
    let mut left = entity.number;
    for c in 0..mesh.sizes.cells {
        let wanted = Entity { dim, number: left };
        match seek_in_cell(mesh, &earlier, &table, c, wanted) {
            Ok(set) => return Some(set),
            Err(rest) => left = rest,
        }
    }
    None
}
