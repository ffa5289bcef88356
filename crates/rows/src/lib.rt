// The row rule, relation by relation in book order, with where it is first seen to break; and a row as a part of the book.
#![tactic(auto)]

ghost use Rattle.std.specs.Prelude.{◌≡◌, ◌^◌, true, not, ◌&&◌, ℕ, ◌+◌, ◌*◌, ◌/◌, ◌≤◌, ◌<◌, length, get_or, drop, eqb, ltb};
ghost use Rattle.rules.specs.Lists.{up_to, all_of, ascends, first_at, first_repeated};
ghost use Rattle.rules.specs.Book as rule;
ghost use Rattle.rules.specs.Broken.{word_bad, offset_bad, broken_at};
ghost use Rattle.rows.specs.Parts.{PartOf, RowPart};
ghost use Rattle.rows.specs.Seen.{size_of, step_bad, Stands, Whole, Reached, Met, SeenIn};
ghost use Rattle.rows.specs.Answers.{rows_place};

use book::{Place, behind, count, dim, held, key, place_of, word};
use kinds::Broken;
use repeats::first_repeated;

// The n words from a place on, cut at the book's end.
fn part(book: &[u32], at: Place, n: usize) -> &[u32]
    ensures { PartOf book.entry result at.0 n }
{
    let start = at.0.min(book.len());
    let end = start + n.min(book.len() - start);
    &book[start..end]
}

// Row i of the relation of key k: the part of the book from offset i up to, but without, offset i + 1.
pub fn row(book: &[u32], k: u32, i: u32) -> &[u32]
    ensures { RowPart book.entry result k i }
{
    let at = place_of(book, k).0;
    let first = word(book, Place(at + i as usize));
    let last = word(book, Place(at + (i as usize + 1)));
    part(
        book,
        Place(at + count(book, k / 4) as usize + 1 + first as usize),
        last.saturating_sub(first) as usize,
    )
}

// A relation of a book: its key, and the place where it begins.
#[derive(Clone, Copy)]
struct Relation<'a> {
    book: &'a [u32],
    key: u32,
    at: Place,
    ghost low: { key < 16 },
    ghost near: { at.0 < 2 ^ 40 },
    ghost placed: { at.0 ≡ rule.place book.now key },
}

// How many entries each row of the relation of key k has to have, where it is d→0 with d > 0; else 0.
fn row_size(k: u32) -> u32
    requires { k < 16 }
    ensures { result ≡ size_of k }
{
    if k % 4 != 0 {
        return 0;
    }
    if k == 0 {
        return 0;
    }
    k / 4 + 1
}

// Whether an offset falls, or ends a row that has not `size` entries; a size of 0 asks nothing.
fn step_bad(before: u32, offset: u32, size: u32) -> bool
    ensures { result ≡ step_bad before offset size }
{
    if offset < before {
        return true;
    }
    if size == 0 {
        return false;
    }
    offset - before != size
}

// Whether a row ascends strictly with its indices below `bound`; of words that ascend the last is the greatest.
fn row_ascends(row: &[u32], bound: u32) -> bool
    ensures { result ≡ (ascends row.now && all_of (λ (j : ℕ). ltb j bound) row.now) }
{
    row.is_sorted_by(|one, next| one < next) && row.last().is_none_or(|last| *last < bound)
}

// Whether the index at place i of a row is too large, or not above its predecessor.
fn word_bad(row: &[u32], bound: u32, i: usize) -> bool
    requires { i < length row.now }
    ensures { result ≡ word_bad bound row.now i }
{
    let x = row[i];
    if bound <= x {
        return true;
    }
    if i == 0 {
        return false;
    }
    x <= row[i - 1]
}

// The place of the first such index of a row, or the row's length.
fn bad_index(row: &[u32], bound: u32) -> usize
    ensures { result ≡ first_at (word_bad bound row.now) (up_to (length row.now)) }
{
    (0..row.len())
        .find(|i| word_bad(row, bound, *i))
        .unwrap_or(row.len())
}

impl<'a> Relation<'a> {
    // N_d.
    fn rows(self) -> usize
        ensures value { result ≡ rule.count self.entry.book.now (self.entry.key / 4) }
        ensures few { result < 2 ^ 32 }
    {
        count(self.book, self.key / 4) as usize
    }

    // Offset i.
    fn offset(self, i: usize) -> u32
        requires { i < 2 ^ 33 }
        ensures { result ≡ rule.offset self.entry.book.now self.entry.key i }
    {
        word(self.book, Place(self.at.0 + i))
    }

    // The first offset that is seen to break a rule, or N_d + 1.
    fn bad_offset(self) -> usize
        ensures { result ≡ first_at (offset_bad self.entry.book.now self.entry.key) (up_to (rule.count self.entry.book.now (self.entry.key / 4) + 1)) }
    {
        let n = self.rows();
        let size = row_size(self.key);
        let mut before = self.offset(0);
        if before != 0 {
            return 0;
        }
        for i in 0..n {
            let offset = self.offset(i + 1);
            if step_bad(before, offset, size) {
                return i + 1;
            }
            before = offset;
        }
        n + 1
    }

    // How many rows are passed, where the first offset is 0: those before the first that ends at a bad offset or has a bad index. Each offset is read, and then its row.
    fn rows_passed(self) -> usize
        requires { rule.offset self.book.now self.key 0 ≡ 0 }
        ensures { Reached self.entry.book.now self.entry.key result }
    {
        let n = self.rows();
        let bound = count(self.book, self.key % 4);
        let size = row_size(self.key);
        let from = self.at.0 + n + 1;
        let mut first: u32 = 0;
        for i in 0..n {
            let last = self.offset(i + 1);
            if step_bad(first, last, size) {
                return i;
            }
            let row = part(
                self.book,
                Place(from + first as usize),
                (last - first) as usize,
            );
            if !row_ascends(row, bound) {
                return i;
            }
            first = last;
        }
        n
    }

    // The lowest position that is seen to break a rule, equal cells left out, or the relation's length: where a row is not passed, a bad offset, also a later one, comes before the row's index.
    fn rows_seen(self) -> usize
        ensures { Met self.entry.book.now self.entry.key result }
    {
        if self.offset(0) != 0 {
            return 0;
        }
        let n = self.rows();
        let i = self.rows_passed();
        let first = self.offset(i) as usize;
        if i == n {
            return n + 1 + first;
        }
        let p = self.bad_offset();
        if p <= n {
            return p;
        }
        let bad = bad_index(
            row(self.book, self.key, i as u32),
            count(self.book, self.key % 4),
        );
        n + 1 + first + bad
    }

    // The position of the first index of the lowest row of D→0 that equals an earlier one, or the relation's length. The relation is D→0, and has no bad offset.
    fn cell_again(self) -> usize
        requires whole { Whole self.book.now self.key }
        requires cells { self.key ≡ rule.key (rule.dim self.book.now) 0 }
        ensures { result ≡ rule.count self.entry.book.now (self.entry.key / 4) + 1 + (self.entry.key / 4 + 1) * first_repeated (rule.rows_of self.entry.book.now self.entry.key) }
    {
        let n = self.rows();
        let size = (self.key / 4 + 1) as usize;
        let cells = part(self.book, Place(self.at.0 + n + 1), size * n);
        n + 1 + size * first_repeated(cells, size, n)
    }

    // The lowest position that is seen to break a rule, or the relation's length.
    fn seen(self) -> usize
        requires { Stands self.book.now self.key }
        ensures { SeenIn self.entry.book.now self.entry.key result }
    {
        let seen = self.rows_seen();
        if self.key != key(dim(self.book), 0) {
            return seen;
        }
        let n = self.rows();
        if seen <= n {
            return seen;
        }
        seen.min(self.cell_again())
    }
}

// Whether all the words are 0: they are put together by or, and tested once.
fn zeros(words: &[u32]) -> bool
    ensures { result ≡ all_of (eqb 0) words.now }
{
    words.iter().fold(0, |together, word| together | *word) == 0
}

// The place of the first word that is not 0, or the length.
fn first_set(words: &[u32]) -> usize
    ensures { result ≡ first_at (λ (w : ℕ). not (eqb 0 w)) words.now }
{
    words
        .iter()
        .position(|word| *word != 0)
        .unwrap_or(words.len())
}

// The distance of the first free word that is not 0 from the used length, or how many are free; looked at in runs of 256.
fn first_free(book: &[u32]) -> usize
    requires { get_or book.now 4 0 ≤ length book.now }
    ensures { result ≡ first_at (λ (w : ℕ). not (eqb 0 w)) (drop (get_or book.now 4 0) book.now) }
{
    let used = word(book, Place(4)) as usize;
    let free = &book[used..];
    let mut passed = 0;
    for run in free.chunks(256) {
        if !zeros(run) {
            return passed + first_set(run);
        }
        passed += run.len();
    }
    passed
}

// Where the row rule is first seen to break, if it is, in a right frame.
pub fn broken_at(book: &[u32]) -> Option<Broken>
    requires { rule.frame_right book.now ≡ true }
    ensures { rows_place result ≡ broken_at book.now }
{
    let mut at = Place(5);
    for k in 0..16 {
        let next = behind(book, k, at);
        if held(book, k) {
            let seen = Relation { book, key: k, at }.seen();
            if at.0 + seen < next.0 {
                return Some(Broken {
                    key: k,
                    position: seen,
                });
            }
        }
        at = next;
    }
    let free = first_free(book);
    if free < book.len() - word(book, Place(4)) as usize {
        return Some(Broken {
            key: 16,
            position: free,
        });
    }
    None
}

// The row rule, in a right frame.
pub fn rows_right(book: &[u32]) -> bool
    requires { rule.frame_right book.now ≡ true }
    ensures { result ≡ rule.rows_right book.now }
{
    broken_at(book).is_none()
}
