// Drop: one relation less.
ghost use Rattle.std.specs.Prelude.{◌≡◌};
ghost use Rattle.rules.specs.Broken.{broken_at, told};
ghost use Rattle.rules.specs.Calls.{drop_number, drop_words};
ghost use Rattle.kinds.specs.Refusals.{answer_number, answer_place};

use kinds::Refusal;
use right::RightBook;

// Takes d→e out of the book and gives back its room. Refusals: 10, 11, 12, 16, 24.
pub fn drop_relation(book: &mut [u32], d: u32, e: u32) -> Result<(), Refusal>
    ensures number { answer_number result ≡ drop_number book.old d e }
    ensures place { answer_place result ≡ told (drop_number book.old d e) (broken_at book.old) }
    ensures words { book.new ≡ drop_words book.old d e }
{
    let top = RightBook::check(book)?.dim();
    if d > top {
        return Err(Refusal::DimensionOver);
    }
    if e > top {
        return Err(Refusal::DimensionOver);
    }
    let k = book::key(d, e);
    if !book::held(book, k) {
        return Err(Refusal::NotHeld);
    }
    if k == book::key(top, 0) {
        return Err(Refusal::CellsKept);
    }
    making::take_out(book, d, e);
    Ok(())
}
