// Ask: a relation and, as far as missing, everything it is made from.
ghost use Rattle.std.specs.Prelude.{◌≡◌};
ghost use Rattle.std.proofs.Math.Option.{none};
ghost use Rattle.rules.specs.Book.{Right};
ghost use Rattle.rules.specs.Broken.{broken_at, told};
ghost use Rattle.rules.specs.Calls.{ask_number, ask_words};
ghost use Rattle.kinds.specs.Refusals.{answer_number, answer_place};

use kinds::Refusal;
use right::RightBook;

// Ask in a right book. Refusals: 12, 25, 13.
pub(crate) fn ask_right(book: &mut [u32], d: u32, e: u32) -> Result<(), Refusal>
    requires { Right book.old }
    ensures number { answer_number result ≡ ask_number book.old d e }
    ensures place { answer_place result ≡ none }
    ensures words { book.new ≡ ask_words book.old d e }
{
    let top = book::dim(book);
    // Two tests, here and where else 12 is given: the bare words are asked, of which no RightBook can be made while they are lent for writing.
    if d > top {
        return Err(Refusal::DimensionOver);
    }
    if e > top {
        return Err(Refusal::DimensionOver);
    }
    if making::ask_differs(book, d, e) {
        return Err(Refusal::NumberDiffers);
    }
    making::ask_for(book, book::key(d, e))
}

// Makes d→e and, as far as missing, everything it is made from, or nothing at all. Refusals: 10, 11, 12, 25, 13.
pub fn ask(book: &mut [u32], d: u32, e: u32) -> Result<(), Refusal>
    ensures number { answer_number result ≡ ask_number book.old d e }
    ensures place { answer_place result ≡ told (ask_number book.old d e) (broken_at book.old) }
    ensures words { book.new ≡ ask_words book.old d e }
{
    RightBook::check(book)?;
    ask_right(book, d, e)
}
