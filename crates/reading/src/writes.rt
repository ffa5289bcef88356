// Write: the day file of the book's mesh.
ghost use Rattle.std.specs.Prelude.{◌≡◌, IfOk};
ghost use Rattle.rules.specs.Broken.{broken_at, told};
ghost use Rattle.rules.specs.Calls.{write_number, write_length, write_bytes};
ghost use Rattle.kinds.specs.Refusals.{answer_number, answer_place};
ghost use Rattle.reading.specs.Parts.{FilePut};

use book::Place;
use dayfile::Header;
use kinds::Refusal;
use right::RightBook;

// Writes the file of a right book, if the bytes have room for it, and gives its length.
fn put_file(book: &RightBook<'_>, bytes: &mut [u8]) -> usize
    ensures { FilePut book.now bytes.old result bytes.new }
{
    dayfile::write(
        Header(book::word(book.words(), Place(0))),
        cells::cells(book.words()),
        bytes,
    )
}

// Writes the book's file, each cell's vertices ascending, and gives its length; later bytes stay as they were. Refusals: 10, 11, 18.
pub fn write(book: &[u32], bytes: &mut [u8]) -> Result<usize, Refusal>
    ensures number { answer_number result ≡ write_number book.now bytes.old }
    ensures place { answer_place result ≡ told (write_number book.now bytes.old) (broken_at book.now) }
    ensures length { IfOk result (λ n. n ≡ write_length book.now) }
    ensures bytes { bytes.new ≡ write_bytes book.now bytes.old }
{
    let n = put_file(&RightBook::check(book)?, bytes);
    if bytes.len() < n {
        return Err(Refusal::BufferTooShort);
    }
    Ok(n)
}
