// Load: a day file's mesh becomes the book.
ghost use Rattle.std.specs.Prelude.{◌≡◌};
ghost use Rattle.rules.specs.Calls.{load_number, load_cell, load_words};
ghost use Rattle.kinds.specs.Refusals.{answer_number, answer_cell};

use crate::{end_of, fill};
use kinds::Refusal;

// Loads a day file: refusals 1 to 8, 23 and 9 in their order, with 7, 8 and 23 the lowest cell, then 13. Accepted, it sets every word of the book, and it does not look at the old one.
pub fn load(file: &[u8], book: &mut [u32]) -> Result<(), Refusal>
    ensures number { answer_number result ≡ load_number file.now book.old }
    ensures cell { answer_cell result ≡ load_cell file.now book.old }
    ensures words { book.new ≡ load_words file.now book.old }
{
    dayfile::head_fault(file)?;
    let mut words = [0u32; 16384];
    dayfile::body_fault(file, &mut words)?;
    let end = end_of(dayfile::header(file));
    if book.len() < end.0 {
        return Err(Refusal::NoRoom);
    }
    fill(file, &words, book);
    Ok(())
}
