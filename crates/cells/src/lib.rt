// The cells of a right book: their vertices, the vertices that lie in at least one of them, counted or listed, and the lowest that lies in none.
#![tactic(auto)]

mod listed;
mod unused;

ghost use Rattle.std.specs.Prelude.{◌≡◌, true, ◌≤◌, length, ltb};
ghost use Rattle.rules.specs.Lists.{up_to, all_of, keep, joined};
ghost use Rattle.rules.specs.Book.{dim, key, rows_of, frame_right, rows_right};
ghost use Rattle.rules.specs.Calls.{used_vertices};
ghost use Rattle.rules.specs.Stamps.{stamped, bears};

pub use listed::{list_named, list_passing, list_used};
pub use unused::first_unused;

// The vertices of the cells, one cell after another: the indices of D→0.
pub fn cells(book: &[u32]) -> &[u32]
    requires { (frame_right book.now ≡ true) × (rows_right book.now ≡ true) }
    ensures { result.now ≡ joined (rows_of book.now (key (dim book.now) 0)) }
{
    let top = book::dim(book);
    let k = book::key(top, 0);
    let first = book::place_of(book, k).0 + book::count(book, top) as usize + 1;
    let end = first + book::total(book, k) as usize;
    &book[first..end]
}

// Marks with 1 each vertex that is listed.
fn mark(vertices: &[u32], marks: &mut [u8; 8192])
    requires { all_of (λ v. ltb v 8192) vertices.now ≡ true }
    ensures { marks.new ≡ stamped marks.old 1 vertices.now }
{
    for v in vertices {
        marks[*v as usize] = 1;
    }
}

// How many of the vertices below n are marked with 1.
fn marked(marks: &[u8; 8192], n: u32) -> u32
    requires { n ≤ 8192 }
    ensures { result ≡ length (keep (bears marks.now 1) (up_to n)) }
{
    marks[..n as usize].iter().filter(|m| **m == 1).count() as u32
}

// How many vertices lie in at least one cell.
pub fn used_vertices(book: &[u32]) -> u32
    requires { (frame_right book.now ≡ true) × (rows_right book.now ≡ true) }
    ensures { result ≡ length (used_vertices book.now) }
{
    let mut marks = [0u8; 8192];
    mark(cells(book), &mut marks);
    marked(&marks, book::count(book, 0))
}
