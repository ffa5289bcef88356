// A list of asks: one ask after another, in a book that is looked through once.
ghost use Rattle.std.specs.Prelude.{◌≡◌, ◌*◌, length};
ghost use Rattle.rules.specs.Book.{Right};
ghost use Rattle.rules.specs.Calls.{answers_of, words_of, pairs_off, list_number, list_answers, list_words};
ghost use Rattle.kinds.specs.Refusals.{answer_number};

use crate::asks::ask_right;
use kinds::{Refusal, number_of};
use right::RightBook;

// Whether these are no lengths of a list: half a pair, over 16 pairs, or not one place a pair.
fn pairs_off(pairs: usize, answers: usize) -> bool
    ensures { result ≡ pairs_off pairs answers }
{
    pairs % 2 == 1 || pairs / 2 > 16 || answers != pairs / 2
}

// Asks for each pair in turn, in a right book.
fn ask_each(book: &mut [u32], pairs: &[u32], answers: &mut [u32])
    requires right { Right book.old }
    requires lengths { length pairs.now ≡ 2 * length answers.old }
    ensures answers { answers.new ≡ answers_of book.old pairs.now }
    ensures words { book.new ≡ words_of book.old pairs.now }
{
    for pair in 0..answers.len() {
        let answer = ask_right(book, pairs[2 * pair], pairs[2 * pair + 1]);
        answers[pair] = number_of(&answer);
    }
}

// Asks for each d, e pair in turn and writes each ask's number in its place; a refused ask does not stop the next. Refusals: 20.
pub fn ask_list(book: &mut [u32], pairs: &[u32], answers: &mut [u32]) -> Result<(), Refusal>
    ensures number { answer_number result ≡ list_number pairs.now answers.old }
    ensures answers { answers.new ≡ list_answers book.old pairs.now answers.old }
    ensures words { book.new ≡ list_words book.old pairs.now answers.old }
{
    if pairs_off(pairs.len(), answers.len()) {
        return Err(Refusal::PairsOff);
    }
    match RightBook::check(book) {
        Err(refusal) => answers.fill(refusal.number()),
        Ok(_) => ask_each(book, pairs, answers),
    }
    Ok(())
}
