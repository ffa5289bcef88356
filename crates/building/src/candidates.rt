// The candidates of a cell: its vertex sets of d + 1 members, each ascending, in lexicographic order.
ghost use Rattle.std.specs.Prelude.{◌≡◌, [], ◌∷◌, map, ◌+◌, ◌≤◌, ◌<◌, ◌^◌, length, get_or, take};
ghost use Rattle.rules.specs.Lists.{choose};
ghost use Rattle.rules.specs.Book.{most};
ghost use Rattle.dayfile.specs.Numbers.{numbers};
ghost use Rattle.building.specs.Sets.{padded};
ghost use Rattle.building.specs.Cells.{Between};

use book::{Place, word};
use kinds::Vertex;

// The four words from a place on as vertices: a cell's, and behind a triangle one word more.
pub(crate) fn corners(book: &[u32], first: Place) -> [Vertex; 4]
    requires { first.0 < 2 ^ 63 }
    ensures { numbers result ≡ get_or book.now first.0 0 ∷ get_or book.now (first.0 + 1) 0 ∷ get_or book.now (first.0 + 2) 0 ∷ get_or book.now (first.0 + 3) 0 ∷ [] }
{
    let at = first.0;
    [
        Vertex(word(book, Place(at))),
        Vertex(word(book, Place(at + 1))),
        Vertex(word(book, Place(at + 2))),
        Vertex(word(book, Place(at + 3))),
    ]
}

// How many candidates a cell has: a triangle's edges, or a tetrahedron's edges or faces. It stands beside `book::most`, since the plain engine is held to Build and goes through that one.
pub(crate) fn choices(top: u32, d: u32) -> usize
    ensures { result ≡ most top d }
{
    if top == 2 {
        return 3;
    }
    if d == 1 { 6 } else { 4 }
}

// The candidates of a cell in lexicographic order, and behind them empty ones.
pub(crate) fn candidates(cell: [Vertex; 4], top: u32, d: u32) -> [[u32; 3]; 6]
    requires { Between d top }
    ensures { take (most top d) result ≡ map (padded d) (choose (d + 1) (take (top + 1) (numbers cell))) }
{
    let v = cell[0].0;
    let w = cell[1].0;
    let x = cell[2].0;
    let y = cell[3].0;
    if top == 2 {
        return [
            [v, w, 0],
            [v, x, 0],
            [w, x, 0],
            [0, 0, 0],
            [0, 0, 0],
            [0, 0, 0],
        ];
    }
    if d == 1 {
        return [
            [v, w, 0],
            [v, x, 0],
            [v, y, 0],
            [w, x, 0],
            [w, y, 0],
            [x, y, 0],
        ];
    }
    [
        [v, w, x],
        [v, w, y],
        [v, x, y],
        [w, x, y],
        [0, 0, 0],
        [0, 0, 0],
    ]
}
