// The candidates of a cell: its vertex sets of d + 1 members, each ascending, in lexicographic order, one at a time.
ghost use Rattle.std.specs.Prelude.{◌≡◌, [], ◌∷◌, ◌+◌, ◌<◌, take, get_or};
ghost use Rattle.rules.specs.Lists.{choose};
ghost use Rattle.rules.specs.Book.{most};
ghost use Rattle.plain.specs.Cells.{Choice};

// How many candidates a cell has: a triangle's edges, or a tetrahedron's edges or faces.
// Beside `book::most`, by which the frame rule goes, and Build's own `choices`: the engine counts a cell's candidates by itself (docs/CONTRACTS.md).
pub(crate) fn choices(top: usize, d: usize) -> usize
    ensures { result ≡ most top d }
{
    if top == 2 {
        return 3;
    }
    if d == 1 { 6 } else { 4 }
}

// Edge q of the triangle v w x.
fn triangle_edge(v: u32, w: u32, x: u32, q: usize) -> [u32; 4]
    requires { q < 3 }
    ensures { take 2 result ≡ get_or (choose 2 (v ∷ w ∷ x ∷ [])) q [] }
{
    match q {
        0 => [v, w, 0, 0],
        1 => [v, x, 0, 0],
        _ => [w, x, 0, 0],
    }
}

// Edge q of the tetrahedron v w x y: first those at v, then those of the triangle w x y.
fn tetrahedron_edge(v: u32, w: u32, x: u32, y: u32, q: usize) -> [u32; 4]
    requires { q < 6 }
    ensures { take 2 result ≡ get_or (choose 2 (v ∷ w ∷ x ∷ y ∷ [])) q [] }
{
    match q {
        0 => [v, w, 0, 0],
        1 => [v, x, 0, 0],
        2 => [v, y, 0, 0],
        _ => triangle_edge(w, x, y, q - 3),
    }
}

// Face q of the tetrahedron v w x y.
fn face(v: u32, w: u32, x: u32, y: u32, q: usize) -> [u32; 4]
    requires { q < 4 }
    ensures { take 3 result ≡ get_or (choose 3 (v ∷ w ∷ x ∷ y ∷ [])) q [] }
{
    match q {
        0 => [v, w, x, 0],
        1 => [v, w, y, 0],
        2 => [v, x, y, 0],
        _ => [w, x, y, 0],
    }
}

// Candidate q of a cell.
pub(crate) fn candidate(cell: [u32; 4], top: usize, d: usize, q: usize) -> [u32; 4]
    requires { Choice top d q }
    ensures { take (d + 1) result ≡ get_or (choose (d + 1) (take (top + 1) cell)) q [] }
{
    let v = cell[0];
    let w = cell[1];
    let x = cell[2];
    let y = cell[3];
    if top == 2 {
        return triangle_edge(v, w, x, q);
    }
    if d == 1 {
        return tetrahedron_edge(v, w, x, y, q);
    }
    face(v, w, x, y, q)
}
