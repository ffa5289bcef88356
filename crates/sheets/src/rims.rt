// The rim: its edges, their ends, and the vertices among these, by old numbers and by new ones.
ghost use Rattle.std.specs.Prelude.{◌≡◌, true, ◌++◌, map, ℕ, ◌*◌, ◌≤◌, ◌<◌, length, get_or, take, drop, eqb, ltb};
ghost use Rattle.rules.specs.Lists.{all_of, has, ascends, first_at, joined};
ghost use Rattle.rules.specs.Book.{count};
ghost use Rattle.rules.specs.Sheet.{ends_at, rim_edges_of};
ghost use Rattle.cells.specs.Listed.{Listed};

use crate::triangles::Triangles;

// Lists the edges in exactly one cell, in edge order, and gives how many they are.
pub fn list_rim(triangles: &Triangles, list: &mut [u32; 12288]) -> usize
    ensures { Listed 12288 (rim_edges_of triangles.now.book.now) result list.old list.new }
{
    cells::list_passing(
        book::count(triangles.book, 1),
        |k| triangles.cells(k).len() == 1,
        list,
    )
}

// Puts the two ends of each edge listed one behind the other.
pub fn put_ends(triangles: &Triangles, edges: &[u32], out: &mut [u32; 8192])
    requires few { length edges.now ≤ 4096 }
    requires low { all_of (λ k. ltb k (count triangles.now.book.now 1)) edges.now ≡ true }
    ensures { take (2 * length edges.now) out.new ≡ joined (map (ends_at triangles.now.book.now) edges.now) }
{
    for (j, k) in edges.iter().enumerate() {
        let ends = triangles.ends(*k);
        out[2 * j] = ends[0];
        out[2 * j + 1] = ends[1];
    }
}

// Gives each vertex of an ascending list its place in the list.
fn number(vertices: &[u32], numbers: &mut [u32; 8192])
    requires ascending { ascends vertices.now ≡ true }
    requires low { all_of (λ v. ltb v 8192) vertices.now ≡ true }
    requires few { length vertices.now ≤ 8192 }
    ensures { (v : ℕ) → has v vertices.now ≡ true → get_or numbers.new v 0 ≡ first_at (eqb v) vertices.now }
{
    for (i, v) in vertices.iter().enumerate() {
        numbers[*v as usize] = i as u32;
    }
}

// Puts in place of each of these vertices its place in an ascending list that has them all.
pub fn renumber(ends: &mut [u32], vertices: &[u32])
    requires ascending { ascends vertices.now ≡ true }
    requires low { all_of (λ v. ltb v 8192) vertices.now ≡ true }
    requires few { length vertices.now ≤ 8192 }
    requires listed { all_of (λ v. has v vertices.now) ends.old ≡ true }
    ensures { ends.new ≡ map (λ v. first_at (eqb v) vertices.now) ends.old }
{
    let mut numbers = [0u32; 8192];
    number(vertices, &mut numbers);
    for end in ends {
        *end = numbers[*end as usize];
    }
}
