// The cells across: for each edge of each cell the other cell.
ghost use Rattle.std.specs.Prelude.{◌≡◌, map, ◌*◌, ◌<◌, length};
ghost use Rattle.std.proofs.lemmas.List.Edits.{sets};
ghost use Rattle.rules.specs.Book.{count};
ghost use Rattle.rules.specs.Sheet.{edges_of, across_at, across, Sheet};

use crate::triangles::Triangles;

// The cell across edge k from cell c: the first other one, or 65,535 for none.
fn other(triangles: &Triangles, k: u32, c: u32) -> u32
    requires { k < count triangles.now.book.now 1 }
    ensures { result ≡ across_at triangles.now.book.now c k }
{
    for j in triangles.cells(k) {
        if *j != c {
            return *j;
        }
    }
    65535
}

// Writes for the three edges of cell c, in row order, the cell across each.
fn put_across(triangles: &Triangles, c: u32, out: &mut [u32])
    requires sheet { Sheet triangles.now.book.now }
    requires below { c < count triangles.now.book.now 2 }
    requires room { length out.old ≡ 3 * count triangles.now.book.now 2 }
    ensures { out.new ≡ sets out.old (3 * c) (map (across_at triangles.now.book.now c) (edges_of triangles.now.book.now c)) }
{
    let at = 3 * c as usize;
    let edges = triangles.edges(c);
    out[at] = other(triangles, edges[0], c);
    out[at + 1] = other(triangles, edges[1], c);
    out[at + 2] = other(triangles, edges[2], c);
}

// Writes for each cell's three edges, in row order, the cell across it.
pub fn fill_across(triangles: &Triangles, out: &mut [u32])
    requires sheet { Sheet triangles.now.book.now }
    requires room { length out.old ≡ 3 * count triangles.now.book.now 2 }
    ensures { out.new ≡ across triangles.now.book.now }
{
    for c in 0..book::count(triangles.book, 2) {
        put_across(triangles, c, out);
    }
}
