// Whether an earlier cell has a set: the cells of each vertex are chained, the latest first, and a set is looked for in the chain of its rarest vertex.
ghost use Rattle.std.specs.Prelude.{◌≡◌, ◌&&◌, [], ◌∷◌, ℕ, ◌+◌, ◌*◌, ◌/◌, ◌≤◌, ◌<◌, length, get_or, eqb};
ghost use Rattle.rules.specs.Lists.{any_of, keep, has, inside};
ghost use Rattle.plain.specs.Cells.{cell_at, cells_before};
ghost use Rattle.plain.specs.Links.{Linked, Small, AtCorner};

// Puts for each place in the cells' words one more than the nearest earlier place with the same vertex, or 0 where there is none; by a table of the latest place of each vertex.
pub(crate) fn link(cells: &[u32], last: &mut [u16; 8192], earlier: &mut [u16; 16384])
    requires { Small cells.now }
    ensures { Linked cells.now earlier.new (length cells.now) }
{
    last.fill(0);
    for (p, word) in cells.iter().enumerate() {
        let v = *word as usize;
        earlier[p] = last[v];
        last[v] = (p + 1) as u16;
    }
}

// Counts how many of the cells' words are each vertex.
pub(crate) fn count_uses(cells: &[u32], many: &mut [u16; 8192])
    requires { Small cells.now }
    ensures { (v : ℕ) → v < 8192 → get_or many.new v 0 ≡ length (keep (eqb v) cells.now) }
{
    many.fill(0);
    for word in cells {
        many[*word as usize] += 1;
    }
}

// Which member of a set has the fewest uses. The answer does not depend on it, only how many cells are looked at.
pub(crate) fn rarest(many: &[u16; 8192], set: &[u32]) -> usize
    requires some { 0 < length set.now }
    requires below { (k : ℕ) → k < length set.now → get_or set.now k 0 < 8192 }
    ensures member { result < length set.now }
    ensures least { (k : ℕ) → k < length set.now → get_or many.now (get_or set.now result 0) 0 ≤ get_or many.now (get_or set.now k 0) 0 }
{
    let mut best: usize = 0;
    for k in 1..set.len() {
        if many[set[k] as usize] < many[set[best] as usize] {
            best = k;
        }
    }
    best
}

// The cell that place q is in.
fn cell_of(q: usize, size: usize) -> usize
    requires { (3 ≤ size) × (size ≤ 4) }
    ensures { result ≡ q / size }
{
    if size == 3 { q / 3 } else { q / 4 }
}

// Whether v is one of four words.
fn one_of(v: u32, a: u32, b: u32, c: u32, d: u32) -> bool
    ensures { result ≡ has v (a ∷ b ∷ c ∷ d ∷ []) }
{
    v == a || v == b || v == c || v == d
}

// Whether all three hold.
fn all_three(one: bool, two: bool, three: bool) -> bool
    ensures { result ≡ (one && (two && three)) }
{
    one && two && three
}

// Whether cell b, a triangle or a tetrahedron, has all members of the set, an edge or a face.
fn cell_has(cells: &[u32], size: usize, b: usize, set: &[u32]) -> bool
    requires cell { ((3 ≤ size) × (size ≤ 4)) × (b * size + size ≤ length cells.now) }
    requires set { (2 ≤ length set.now) × (length set.now ≤ 3) }
    ensures { result ≡ inside set.now (cell_at size cells.now b) }
{
    let first = b * size;
    let v = cells[first];
    let w = cells[first + 1];
    let x = cells[first + 2];
    let y = cells[first + size - 1];
    let n = set.len();
    all_three(
        one_of(set[0], v, w, x, y),
        one_of(set[1], v, w, x, y),
        one_of(set[n - 1], v, w, x, y),
    )
}

// Whether the set lies inside a cell before that of place `at`, which holds one of its members: of the cells before, only those with that vertex are looked at, the nearest first.
pub(crate) fn met_before(
    cells: &[u32],
    earlier: &[u16; 16384],
    size: usize,
    at: usize,
    set: &[u32],
) -> bool
    requires linked { Linked cells.now earlier.now (length cells.now) }
    requires size { (3 ≤ size) × (size ≤ 4) }
    requires set { (2 ≤ length set.now) × (length set.now ≤ 3) }
    requires corner { AtCorner cells.now size (at / size) at set.now }
    ensures { result ≡ any_of (inside set.now) (cells_before size cells.now (at / size)) }
{
    let mut x = earlier[at];
    while x > 0 {
        let q = x as usize - 1;
        if cell_has(cells, size, cell_of(q, size), set) {
            return true;
        }
        x = earlier[q];
    }
    false
}
