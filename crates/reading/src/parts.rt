// Row: the part of the book that is one row of a relation.
ghost use Rattle.std.specs.Prelude.{◌≡◌, cond, ◌&&◌, ◌+◌, ◌<◌, ltb, leb};
ghost use Rattle.rules.specs.Book.{offset, total};
ghost use Rattle.rules.specs.Broken.{row_broken_at, told};
ghost use Rattle.rules.specs.Calls.{row_number};
ghost use Rattle.kinds.specs.Refusals.{answer_number, answer_place};
ghost use Rattle.reading.specs.Parts.{RowOf};

use book::Place;
use kinds::{Broken, Refusal};

// Whether row i's own two offsets are first ≤ second ≤ total.
fn offsets_right(book: &[u32], k: u32, i: u32) -> bool
    ensures { result ≡ (leb (offset book.now k i) (offset book.now k (i + 1)) && leb (offset book.now k (i + 1)) (total book.now k)) }
{
    let at = book::place_of(book, k).0;
    let first = book::word(book, Place(at + i as usize));
    let second = book::word(book, Place(at + (i as usize + 1)));
    if first > second {
        return false;
    }
    second <= book::total(book, k)
}

// Which of row i's own two offsets is broken: offset i if it passes the total, else offset i + 1.
fn broken_offset(book: &[u32], k: u32, i: u32) -> usize
    ensures { result ≡ cond (ltb (total book.now k) (offset book.now k i)) i (i + 1) }
{
    let at = book::place_of(book, k).0;
    let first = book::word(book, Place(at + i as usize));
    if first > book::total(book, k) {
        return i as usize;
    }
    i as usize + 1
}

// Row's answer. Refusals: 10, 12, 16, 17, and 11 where the row's own two offsets are broken, with the one that is.
pub fn row_answer(book: &[u32], d: u32, e: u32, i: u32) -> Result<(), Refusal>
    ensures number { answer_number result ≡ row_number book.now d e i }
    ensures place { answer_place result ≡ told (row_number book.now d e i) (row_broken_at book.now d e i) }
{
    if !frame::frame_right(book) {
        return Err(Refusal::FrameBroken);
    }
    let top = book::dim(book);
    if d > top {
        return Err(Refusal::DimensionOver);
    }
    if e > top {
        return Err(Refusal::DimensionOver);
    }
    let k = book::key(d, e);
    if !book::held(book, k) {
        return Err(Refusal::NotHeld);
    }
    if i >= book::count(book, d) {
        return Err(Refusal::NoSuchEntity);
    }
    if !offsets_right(book, k, i) {
        return Err(Refusal::RowsBroken(Broken {
            key: k,
            position: broken_offset(book, k, i),
        }));
    }
    Ok(())
}

// Row i of d→e, as the part of the book that it is; empty on a refusal, which `row_answer` gives.
pub fn row(book: &[u32], d: u32, e: u32, i: u32) -> &[u32]
    ensures { RowOf book.entry result d e i }
{
    if row_answer(book, d, e, i).is_err() {
        return &book[0..0];
    }
    rows::row(book, book::key(d, e), i)
}
