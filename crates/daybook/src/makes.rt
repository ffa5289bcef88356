// Make: one relation more.
ghost use Rattle.std.specs.Prelude.{◌≡◌, true, ◌≤◌};
ghost use Rattle.rules.specs.Lists.{all_of};
ghost use Rattle.rules.specs.Book.{dim, held, needs};
ghost use Rattle.rules.specs.Broken.{broken_at, told};
ghost use Rattle.rules.specs.Calls.{make_number, make_words};
ghost use Rattle.kinds.specs.Refusals.{answer_number, answer_place};

use kinds::Refusal;
use right::RightBook;

// Whether what d→e is made from is held.
fn needs_held(book: &[u32], d: u32, e: u32) -> bool
    requires { (d ≤ 3) × ((e ≤ 3) × (dim book.now ≤ 3)) }
    ensures { result ≡ all_of (held book.now) (needs (dim book.now) d e) }
{
    let needs = frame::needs_of(book::dim(book), d, e);
    needs.keys().iter().all(|key| book::held(book, *key))
}

// Makes d→e from what the book stores. Refusals: 10, 11, 12, 14, 15, 25, 13.
pub fn make(book: &mut [u32], d: u32, e: u32) -> Result<(), Refusal>
    ensures number { answer_number result ≡ make_number book.old d e }
    ensures place { answer_place result ≡ told (make_number book.old d e) (broken_at book.old) }
    ensures words { book.new ≡ make_words book.old d e }
{
    let top = RightBook::check(book)?.dim();
    if d > top {
        return Err(Refusal::DimensionOver);
    }
    if e > top {
        return Err(Refusal::DimensionOver);
    }
    if book::held(book, book::key(d, e)) {
        return Err(Refusal::AlreadyHeld);
    }
    if !needs_held(book, d, e) {
        return Err(Refusal::NeedMissing);
    }
    if making::make_differs(book, d, e) {
        return Err(Refusal::NumberDiffers);
    }
    making::add(book, d, e)
}
