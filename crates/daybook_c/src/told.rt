// What a refusal tells, written where the caller asked for it: with 11 where the book is broken, with 7, 8 and 23 the cell, with 28 why the book is not a sheet.
ghost use Rattle.std.specs.Prelude.{◌≡◌, get_or};
ghost use Rattle.kinds.specs.Refusals.{refusal_number, refusal_place, refusal_why};
ghost use Rattle.daybook_c.specs.Told.{key_or, position_or, cell_or};

use daybook::{NotSheet, Refusal};

// The number of a refusal; with 11 the key and the position are written.
pub(crate) fn refused(refusal: Refusal, key: &mut u32, position: &mut usize) -> u32
    ensures number { result ≡ refusal_number refusal }
    ensures key { key.new ≡ key_or (refusal_place refusal) key.old }
    ensures position { position.new ≡ position_or (refusal_place refusal) position.old }
{
    if let Refusal::RowsBroken(place) = refusal {
        *key = place.key;
        *position = place.position;
    }
    refusal.number()
}

// With 7, 8 and 23 the cell is written.
pub(crate) fn put_cell(refusal: Refusal, cell: &mut u32)
    ensures { cell.new ≡ cell_or refusal cell.old }
{
    match refusal {
        Refusal::VertexOut(c) => *cell = c.0,
        Refusal::VertexTwice(c) => *cell = c.0,
        Refusal::CellTwice(c) => *cell = c.0,
        _ => {}
    }
}

// With 28 why a book is not a sheet is written, and the vertex, edge or cell that shows it where there is one.
pub(crate) fn put_why(refusal: Refusal, why: &mut u32, which: &mut u32)
    ensures why { why.new ≡ get_or (refusal_why refusal) 1 why.old }
    ensures which { which.new ≡ get_or (refusal_why refusal) 2 which.old }
{
    match refusal {
        Refusal::NotSheet(NotSheet::Dimension) => *why = 1,
        Refusal::NotSheet(NotSheet::Vertex(v)) => {
            *why = 2;
            *which = v;
        }
        Refusal::NotSheet(NotSheet::Edge(k)) => {
            *why = 3;
            *which = k;
        }
        Refusal::NotSheet(NotSheet::Cell(c)) => {
            *why = 4;
            *which = c;
        }
        _ => {}
    }
}
