// The plain engine under its C name.
ghost use Rattle.std.specs.Prelude.{◌≡◌, cond, eqb};
ghost use Rattle.rules.specs.Broken.{broken_key, broken_place};
ghost use Rattle.rules.specs.Plain.{plain_number, plain_yes};

use crate::told::refused;

// Whether (e, j) is incident to (d, i), from the cells' vertex sets alone: where accepted, 1 or 0 is written; with 11 the key and the position.
pub fn daybook_plain(
    book: &[u32],
    d: u32,
    e: u32,
    i: u32,
    j: u32,
    yes: &mut u32,
    key: &mut u32,
    position: &mut usize,
) -> u32
    ensures number { result ≡ plain_number book.now d e i j }
    ensures key { key.new ≡ cond (eqb result 11) (broken_key book.now) key.old }
    ensures position { position.new ≡ cond (eqb result 11) (broken_place book.now) position.old }
    ensures yes { yes.new ≡ cond (eqb result 0) (cond (plain_yes book.now d e i j) 1 0) yes.old }
{
    match daybook::plain(book, d, e, i, j) {
        Ok(said) => {
            *yes = said as u32;
            0
        }
        Err(refusal) => refused(refusal, key, position),
    }
}
