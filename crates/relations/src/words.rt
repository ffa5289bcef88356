// The words of the book that a new relation is read from and written to.
ghost use Rattle.std.specs.Prelude.{◌≡◌, map, ◌+◌, ◌*◌, ◌≤◌, ◌<◌, ◌^◌, length, set};
ghost use Rattle.rules.specs.Lists.{up_to};
ghost use Rattle.relations.specs.Words.{start_of, Written};

use book::Place;

// Puts `x` at `at`, if the book has that place.
pub fn put(book: &mut [u32], at: Place, x: u32)
    ensures { book.new ≡ set book.old at.0 x }
{
    let i = at.0;
    if i < book.len() {
        book[i] = x;
    }
}

// Where row `i` of the relation of `n` rows at `rows` starts.
pub fn start_of(book: &[u32], rows: Place, n: usize, i: usize) -> Place
    requires { (rows.0 + n < length book.now) × (i ≤ n) }
    ensures { result.0 ≡ start_of book.now rows.0 n i }
{
    let at = rows.0;
    let start = at + n + 1 + book[at + i] as usize;
    Place(start)
}

// Writes the n + 1 offsets of n rows of `size` indices from `dst` on: 0, `size`, 2 `size` and so on.
pub fn write_offsets(book: &mut [u32], dst: Place, n: u32, size: u32)
    requires { (n ≤ 24576) × ((size ≤ 4) × (dst.0 < 2 ^ 63)) }
    ensures { Written book.old dst.0 (map (λ i. i * size) (up_to (n + 1))) (dst.0 + (n + 1)) book.new }
{
    let first = dst.0;
    for i in 0..n + 1 {
        let at = first + i as usize;
        put(book, Place(at), i * size);
    }
}
