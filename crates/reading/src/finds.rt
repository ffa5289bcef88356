// Find: whether an index is in a row. The row is read from its front, and no further than the answer needs.
ghost use Rattle.std.specs.Prelude.{◌≡◌, false};
ghost use Rattle.rules.specs.Broken.{row_broken_at, told};
ghost use Rattle.rules.specs.Calls.{found_in, read_in, find_number, find_found, find_read};
ghost use Rattle.kinds.specs.Refusals.{answer_number, answer_place, given};

use crate::parts::row_answer;
use kinds::Refusal;

// What a search found: yes or no, and the number of indices read.
#[derive(Clone, Copy)]
pub struct Found {
    pub yes: bool,
    pub read: usize,
}

// Whether j is in a row, and how many of its indices are read: those below j that lead, and the one after them, if there is one.
fn search(row: &[u32], j: u32) -> Found
    ensures yes { result.yes ≡ found_in j row.now }
    ensures read { result.read ≡ read_in j row.now }
{
    for (read, index) in row.iter().enumerate() {
        if j <= *index {
            return Found {
                yes: j == *index,
                read: read + 1,
            };
        }
    }
    Found {
        yes: false,
        read: row.len(),
    }
}

// Whether j is in row i of d→e, and how many of the row's indices were read. Refusals: 10, 12, 16, 17, 11, then 19 where j is N_e or more.
pub fn find(book: &[u32], d: u32, e: u32, i: u32, j: u32) -> Result<Found, Refusal>
    ensures number { answer_number result ≡ find_number book.now d e i j }
    ensures yes { given false (λ f. f.yes) result ≡ find_found book.now d e i j }
    ensures read { given 0 (λ f. f.read) result ≡ find_read book.now d e i j }
    ensures place { answer_place result ≡ told (find_number book.now d e i j) (row_broken_at book.now d e i) }
{
    row_answer(book, d, e, i)?;
    if j >= book::count(book, e) {
        return Err(Refusal::NoSuchIndex);
    }
    Ok(search(rows::row(book, book::key(d, e), i), j))
}
