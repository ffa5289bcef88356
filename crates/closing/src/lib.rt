// Phase closures: the call. Steps and bytes for every edge, closures for every face, from the counts of the vertices.
#![tactic(auto)]

ghost use Rattle.std.specs.Prelude.{◌≡◌, true, length};
ghost use Rattle.rules.specs.Lists.{all_of};
ghost use Rattle.rules.specs.Book.{key};
ghost use Rattle.rules.specs.Broken.{broken_at, told};
ghost use Rattle.rules.specs.Phases.{counted};
ghost use Rattle.rules.specs.Closures.{steps_of, bytes_of, closures_of, lengths_right, close_number, closures_after, steps_after, bytes_after};
ghost use Rattle.kinds.specs.Refusals.{answer_number, answer_place};
ghost use Rattle.closing.specs.Ready.{Ready};

use kinds::Refusal;
use right::RightBook;

// Whether a count may be lent: −32,768 to 32,767, or 65,536.
fn may_be_lent(count: i32) -> bool
    ensures { result ≡ counted count }
{
    if count < -32768 {
        return false;
    }
    if count < 32768 {
        return true;
    }
    count == 65536
}

// Whether every count may be lent.
fn all_lent(counts: &[i32]) -> bool
    ensures { result ≡ all_of counted counts.now }
{
    counts.iter().all(|count| may_be_lent(*count))
}

// Writes the steps and bytes of all edges of a right book.
fn fill_steps(book: &[u32], counts: &[i32], steps: &mut [f64], bytes: &mut [u8])
    requires edges { Ready book.now (key 1 0) counts.now (length steps.old) }
    requires even { length bytes.old ≡ length steps.old }
    ensures steps { steps.new ≡ steps_of book.now counts.now }
    ensures bytes { bytes.new ≡ bytes_of book.now counts.now }
{
    let n = steps.len();
    let at = book::place_of(book, book::key(1, 0)).0 + n + 1;
    let end = at + 2 * n;
    closures::write_steps(&book[at..end], counts, steps, bytes);
}

// Writes the closures of all faces of a right book.
fn fill_closures(book: &[u32], counts: &[i32], out: &mut [i32])
    requires { Ready book.now (key 2 0) counts.now (length out.old) }
    ensures { out.new ≡ closures_of book.now counts.now }
{
    let n = out.len();
    let at = book::place_of(book, book::key(2, 0)).0 + n + 1;
    let end = at + 3 * n;
    closures::write_closures(&book[at..end], counts, out);
}

// Whether the lists are as long as they have to be.
fn lengths_right(book: &[u32], counts: &[i32], closures: usize, steps: usize, bytes: usize) -> bool
    ensures { result ≡ lengths_right book.now counts.now closures steps bytes }
{
    if counts.len() != book::count(book, 0) as usize {
        return false;
    }
    if closures != book::count(book, 2) as usize {
        return false;
    }
    let edges = book::count(book, 1) as usize;
    if steps != edges {
        return false;
    }
    bytes == edges
}

// What the call answers for lists of these lengths. Refusals: 10, 11, 12, 15, 21, 22.
fn answer(
    book: &[u32],
    counts: &[i32],
    closures: usize,
    steps: usize,
    bytes: usize,
) -> Result<(), Refusal>
    ensures number { answer_number result ≡ close_number book.now counts.now closures steps bytes }
    ensures place { answer_place result ≡ told (close_number book.now counts.now closures steps bytes) (broken_at book.now) }
{
    let right = RightBook::check(book)?;
    if right.dim() == 1 {
        return Err(Refusal::DimensionOver);
    }
    if !right.held(book::key(1, 0)) {
        return Err(Refusal::NeedMissing);
    }
    if !right.held(book::key(2, 0)) {
        return Err(Refusal::NeedMissing);
    }
    let sized = lengths_right(book, counts, closures, steps, bytes);
    let lent = all_lent(counts);
    if !sized {
        return Err(Refusal::ListLength);
    }
    if !lent {
        return Err(Refusal::CountOutside);
    }
    Ok(())
}

// Writes the steps and bytes of all edges and the closures of all faces. Refusals: 10, 11, 12 if D is 1, 15, 21, 22.
pub fn close(
    book: &[u32],
    counts: &[i32],
    closures: &mut [i32],
    steps: &mut [f64],
    bytes: &mut [u8],
) -> Result<(), Refusal>
    ensures number { answer_number result ≡ close_number book.now counts.now (length closures.old) (length steps.old) (length bytes.old) }
    ensures place { answer_place result ≡ told (close_number book.now counts.now (length closures.old) (length steps.old) (length bytes.old)) (broken_at book.now) }
    ensures closures { closures.new ≡ closures_after book.now counts.now closures.old steps.old bytes.old }
    ensures steps { steps.new ≡ steps_after book.now counts.now closures.old steps.old bytes.old }
    ensures bytes { bytes.new ≡ bytes_after book.now counts.now closures.old steps.old bytes.old }
{
    answer(book, counts, closures.len(), steps.len(), bytes.len())?;
    fill_steps(book, counts, steps, bytes);
    fill_closures(book, counts, closures);
    Ok(())
}
