// The triangles of a book by what the profile reads of them: the ends and the cells of an edge, and the edges of a cell.
ghost use Rattle.std.specs.Prelude.{◌≡◌, ◌<◌};
ghost use Rattle.rules.specs.Book.{count, key};
ghost use Rattle.rules.specs.Sheet.{ends_at, edges_of, cells_at, Flat};
ghost use Rattle.sheets.specs.Stands.{Stands};

use crate::stands::{Stand, row, stand_of};
use right::RightBook;

// A right book with D = 2 that holds 1→0, 2→1 and 1→2, and where these stand.
#[derive(Clone, Copy)]
pub struct Triangles<'a> {
    pub book: &'a [u32],
    ends: Stand,
    edges: Stand,
    cells: Stand,
    ghost flat: { Flat book.now },
    ghost ends_stand: { Stands book.now ends },
    ghost ends_key: { ends.key ≡ key 1 0 },
    ghost edges_stand: { Stands book.now edges },
    ghost edges_key: { edges.key ≡ key 2 1 },
    ghost cells_stand: { Stands book.now cells },
    ghost cells_key: { cells.key ≡ key 1 2 },
}

impl<'a> Triangles<'a> {
    // The triangles of a book.
    pub fn of(book: &RightBook<'a>) -> Triangles<'a>
        requires { Flat book.now }
        ensures { result.book.now ≡ book.now }
    {
        Triangles {
            book: book.words(),
            ends: stand_of(book, book::key(1, 0)),
            edges: stand_of(book, book::key(2, 1)),
            cells: stand_of(book, book::key(1, 2)),
        }
    }

    // The two ends of edge k.
    pub fn ends(&self, k: u32) -> &'a [u32]
        requires { k < count self.now.book.now 1 }
        ensures { result.now ≡ ends_at self.now.book.now k }
    {
        row(self.book, self.ends, k)
    }

    // The edges of cell c.
    pub fn edges(&self, c: u32) -> &'a [u32]
        requires { c < count self.now.book.now 2 }
        ensures { result.now ≡ edges_of self.now.book.now c }
    {
        row(self.book, self.edges, c)
    }

    // The cells at edge k.
    pub fn cells(&self, k: u32) -> &'a [u32]
        requires { k < count self.now.book.now 1 }
        ensures { result.now ≡ cells_at self.now.book.now k }
    {
        row(self.book, self.cells, k)
    }
}
