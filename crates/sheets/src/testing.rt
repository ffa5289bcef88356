// Whether a right book with D = 2 is a sheet: its vertices, then its edges, then its cells.
ghost use Rattle.std.specs.Prelude.{◌≡◌, not, ◌<◌};
ghost use Rattle.rules.specs.Lists.{up_to, first_at, has};
ghost use Rattle.rules.specs.Book.{count};
ghost use Rattle.rules.specs.Sheet.{cells_at, branched, unmatched, Flat};
ghost use Rattle.kinds.specs.Lowest.{lowest_below};
ghost use Rattle.sheets.specs.Answers.{by_entities, tested_answer};

use crate::triangles::Triangles;
use kinds::NotSheet;
use right::RightBook;

// Whether edge k has not one or two cells.
fn is_branched(triangles: &Triangles, k: u32) -> bool
    requires { k < count triangles.now.book.now 1 }
    ensures { result ≡ branched triangles.now.book.now k }
{
    let n = triangles.cells(k).len();
    if n == 1 {
        return false;
    }
    n != 2
}

// The lowest edge that has not one or two cells.
fn first_branched(triangles: &Triangles) -> Option<u32>
    ensures { result ≡ lowest_below (λ v. v) (count triangles.now.book.now 1) (first_at (branched triangles.now.book.now) (up_to (count triangles.now.book.now 1))) }
{
    (0..book::count(triangles.book, 1)).find(|k| is_branched(triangles, *k))
}

// Whether edge k lists cell c.
fn lists(triangles: &Triangles, k: u32, c: u32) -> bool
    requires { k < count triangles.now.book.now 1 }
    ensures { result ≡ has c (cells_at triangles.now.book.now k) }
{
    triangles.cells(k).iter().any(|j| *j == c)
}

// Whether the row of cell c is three edges that list it.
fn is_matched(triangles: &Triangles, c: u32) -> bool
    requires { c < count triangles.now.book.now 2 }
    ensures { result ≡ not (unmatched triangles.now.book.now c) }
{
    let edges = triangles.edges(c);
    if edges.len() != 3 {
        return false;
    }
    edges.iter().all(|k| lists(triangles, *k, c))
}

// The lowest cell whose row is not three edges that list it.
fn first_unmatched(triangles: &Triangles) -> Option<u32>
    ensures { result ≡ lowest_below (λ v. v) (count triangles.now.book.now 2) (first_at (unmatched triangles.now.book.now) (up_to (count triangles.now.book.now 2))) }
{
    (0..book::count(triangles.book, 2)).find(|c| !is_matched(triangles, *c))
}

// Whether a right book with D = 2 is a sheet, or why it is not. Refusals: 28 with 2, 3 or 4.
pub fn tested(book: &RightBook<'_>) -> Result<(), NotSheet>
    requires { Flat book.now }
    ensures { tested_answer result ≡ by_entities book.now }
{
    let triangles = Triangles::of(book);
    let unused = cells::first_unused(book.words());
    let branched = first_branched(&triangles);
    if let Some(v) = unused {
        return Err(NotSheet::Vertex(v));
    }
    if let Some(k) = branched {
        return Err(NotSheet::Edge(k));
    }
    if let Some(c) = first_unmatched(&triangles) {
        return Err(NotSheet::Cell(c));
    }
    Ok(())
}
