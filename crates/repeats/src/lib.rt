// Rows of equally many words: the lowest row that equals an earlier one. A row is looked for among those of its bucket, which all its words decide, and compared word by word.
#![tactic(auto)]

ghost use Rattle.std.specs.Prelude.{◌≡◌, true, false, ℕ, suc, ◌+◌, ◌*◌, ◌≤◌, ◌<◌, length};
ghost use Rattle.rules.specs.Lists.{any_of, same, first_repeated};
ghost use Rattle.rules.specs.Chains.{Links, Chains};
ghost use Rattle.repeats.specs.Rows.{row_at, rows_in, bucket_of, bucket_at};

// Row i of the words, `size` words to a row.
fn row_at(words: &[u32], size: usize, i: usize) -> &[u32]
    requires { size * i + size ≤ length words.now }
    ensures { result.now ≡ row_at size words.now i }
{
    let start = size * i;
    let end = start + size;
    &words[start..end]
}

// The bucket of a row.
fn bucket(row: &[u32]) -> usize
    ensures value { result ≡ bucket_of row.now }
    ensures below { result < 8192 }
{
    let mixed = row.iter().rev().fold(0u32, |mix, x| mix.wrapping_add(*x).wrapping_mul(2654435761));
    mixed as usize / 524288
}

// Whether two rows are equal. With `==` of slices the row rule of 4,096 cells took 8 % more instructions: it calls out for what the first words do not decide.
fn equal(one: &[u32], other: &[u32]) -> bool
    ensures { result ≡ same one.now other.now }
{
    one.len() == other.len() && one.iter().zip(other).all(|(x, y)| x == y)
}

// Whether the row is in the chain that begins with `from`. The walk goes where the chain leads, so it has no range.
fn in_chain(words: &[u32], size: usize, next: &[u32; 4096], from: u32, row: &[u32]) -> bool
    requires rows { size * from ≤ length words.now }
    requires links { Links (bucket_at size words.now) 4096 next.now from }
    requires bucket { (i : ℕ) → from ≡ suc i → bucket_at size words.now i ≡ bucket_of row.now }
    ensures { result ≡ any_of (same row.now) (rows_in size words.now from) }
{
    let mut p = from;
    while p > 0 {
        let i = p as usize - 1;
        if equal(row, row_at(words, size, i)) {
            return true;
        }
        p = next[i];
    }
    false
}

// Whether row i equals one of the rows before it, which are in the chains, and are in them after; where it equals none, it is in them too.
pub fn meet(
    words: &[u32],
    size: usize,
    head: &mut [u32; 8192],
    next: &mut [u32; 4096],
    i: usize,
) -> bool
    requires row { size * i + size ≤ length words.now }
    requires room { i < 4096 }
    requires chains { Chains (bucket_at size words.now) 8192 4096 head.old next.old i }
    ensures value { result ≡ any_of (same (row_at size words.now i)) (rows_in size words.now i) }
    ensures chains { result ≡ true → Chains (bucket_at size words.now) 8192 4096 head.new next.new i }
    ensures added { result ≡ false → Chains (bucket_at size words.now) 8192 4096 head.new next.new (i + 1) }
{
    let row = row_at(words, size, i);
    let v = bucket(row);
    let newest = head[v];
    if in_chain(words, size, next, newest, row) {
        return true;
    }
    next[i] = newest;
    head[v] = i as u32 + 1;
    false
}

// The lowest of the first n rows that equals an earlier one, or n where none does.
pub fn first_repeated(words: &[u32], size: usize, n: usize) -> usize
    requires room { n ≤ 4096 }
    requires rows { size * n ≤ length words.now }
    ensures { result ≡ first_repeated (rows_in size words.now n) }
{
    let mut head = [0u32; 8192];
    let mut next = [0u32; 4096];
    for i in 0..n {
        if meet(words, size, &mut head, &mut next, i) {
            return i;
        }
    }
    n
}
