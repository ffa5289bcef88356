// The Euler number and the held count.
ghost use Rattle.std.specs.Prelude.{◌≡◌, not, ◌&&◌, ◌<◌, ltb, IfOk};
ghost use Rattle.std.proofs.Math.IntN.{sub_ℕ};
ghost use Rattle.rules.specs.Book.{dim, key, held};
ghost use Rattle.rules.specs.Broken.{broken_at, told};
ghost use Rattle.rules.specs.Calls.{euler_number, euler_of, held_number, held_count};
ghost use Rattle.kinds.specs.Refusals.{answer_number, answer_place};
ghost use Rattle.reading.specs.Parts.{evens, odds};

use kinds::Refusal;
use right::RightBook;

// Whether d→0 is missing, where d < D.
fn set_missing(book: &[u32], d: u32) -> bool
    requires { d < 3 }
    ensures { result ≡ (ltb d (dim book.now) && not (held book.now (key d 0))) }
{
    d < book::dim(book) && !book::held(book, book::key(d, 0))
}

// How many vertices lie in at least one cell, and N_2 where D is 2 or more.
fn even_sum(book: &RightBook<'_>) -> u32
    ensures { result ≡ evens book.now }
{
    let n = cells::used_vertices(book.words());
    if book.dim() < 2 {
        return n;
    }
    n + book.count(2)
}

// N_1, and N_3 where D is 3.
fn odd_sum(book: &RightBook<'_>) -> u32
    ensures { result ≡ odds book.now }
{
    let n = book.count(1);
    if book.dim() < 3 {
        return n;
    }
    n + book.count(3)
}

// a less b, which may be negative.
fn difference(a: u32, b: u32) -> i64
    ensures { result ≡ sub_ℕ a b }
{
    a as i64 - b as i64
}

// The Euler number, in which N_0 is the number of vertices that lie in at least one cell. Refusals: 10, 11, and 15 where d→0 is not held for some 0 < d < D.
pub fn euler(book: &[u32]) -> Result<i64, Refusal>
    ensures number { answer_number result ≡ euler_number book.now }
    ensures place { answer_place result ≡ told (euler_number book.now) (broken_at book.now) }
    ensures value { IfOk result (λ n. n ≡ euler_of book.now) }
{
    let right = RightBook::check(book)?;
    if set_missing(book, 1) {
        return Err(Refusal::NeedMissing);
    }
    if set_missing(book, 2) {
        return Err(Refusal::NeedMissing);
    }
    Ok(difference(even_sum(&right), odd_sum(&right)))
}

// How many of the 16 keys are held.
fn keys_held(book: &[u32]) -> u32
    ensures { result ≡ held_count book.now }
{
    // A loop: as a chain it is not unrolled, and takes a third more instructions.
    let mut n: u32 = 0;
    for k in 0..16 {
        if book::held(book, k) {
            n += 1;
        }
    }
    n
}

// The number of relations held. Refusal: 10; the frame rule alone is checked.
pub fn held_count(book: &[u32]) -> Result<u32, Refusal>
    ensures number { answer_number result ≡ held_number book.now }
    ensures count { IfOk result (λ n. n ≡ held_count book.now) }
{
    if !frame::frame_right(book) {
        return Err(Refusal::FrameBroken);
    }
    Ok(keys_held(book))
}
