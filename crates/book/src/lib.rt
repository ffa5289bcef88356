// The book: a day's mesh and its relations in lent 32-bit words. What its words say, for every slice of words.
#![tactic(auto)]

ghost use Rattle.std.specs.Prelude.{◌≡◌, map, ℕ, ◌+◌, ◌≤◌, get_or};
ghost use Rattle.rules.specs.Lists.{up_to};
ghost use Rattle.rules.specs.Book as rule;
ghost use Rattle.book.specs.Numbers.{numbers};

// A position in the book.
#[derive(Clone, Copy)]
pub struct Place(pub usize);

// Where each relation stands or would stand, by its key, and after them the place behind the last.
#[derive(Clone, Copy)]
pub struct Places {
    pub at: [Place; 17],
}

// The word at a position, and 0 past the end.
pub fn word(book: &[u32], at: Place) -> u32
    ensures { result ≡ get_or book.now at.0 0 }
{
    let i = at.0;
    if i < book.len() { book[i] } else { 0 }
}

// D.
pub fn dim(book: &[u32]) -> u32
    ensures { result ≡ rule.dim book.now }
{
    word(book, Place(0)) / 1073741824
}

// N_d.
pub fn count(book: &[u32], d: u32) -> u32
    ensures { result ≡ rule.count book.now d }
{
    let head = word(book, Place(0));
    if d == 0 {
        return head / 65536 % 16384;
    }
    if d == dim(book) {
        return head / 8 % 8192;
    }
    word(book, Place(1 + d as usize))
}

// The most entities of dimension d that a cell has, where D is `top`.
pub fn most(top: u32, d: u32) -> u32
    ensures { result ≡ rule.most top d }
{
    if top == 2 {
        return 3;
    }
    if d == 1 { 6 } else { 4 }
}

// The key 4d + e of the relation d→e.
pub fn key(d: u32, e: u32) -> u32
    requires { (d ≤ 3) × (e ≤ 3) }
    ensures { result ≡ rule.key d e }
{
    4 * d + e
}

// Whether the mask, a sum of powers of two, has 2^k in it.
pub fn named(mask: u32, k: u32) -> bool
    ensures { result ≡ rule.named mask k }
{
    if k >= 32 {
        return false;
    }
    (mask >> k) % 2 == 1
}

// Whether the relation of key k is held.
pub fn held(book: &[u32], k: u32) -> bool
    ensures { result ≡ rule.held book.now k }
{
    named(word(book, Place(1)), k)
}

// The place behind the relation of key k, which stands at `at`.
pub fn behind(book: &[u32], k: u32, at: Place) -> Place
    requires { (k ≤ 31) × (at.0 ≡ rule.place book.now k) }
    ensures { result.0 ≡ rule.place book.now (k + 1) }
{
    if !held(book, k) {
        return at;
    }
    let last = at.0 + count(book, k / 4) as usize;
    Place(last + 1 + word(book, Place(last)) as usize)
}

// Where the relation of key k begins, or would begin.
pub fn place_of(book: &[u32], k: u32) -> Place
    ensures { result.0 ≡ rule.place book.now k }
{
    let mut at = Place(5);
    for j in 0..k.min(32) {
        at = behind(book, j, at);
    }
    at
}

// Where each relation begins, or would begin.
pub fn places_of(book: &[u32]) -> Places
    ensures { numbers result.at ≡ map (rule.place book.now) (up_to 17) }
{
    let mut at = [Place(5); 17];
    for k in 0..16 {
        at[k + 1] = behind(book, k as u32, at[k]);
    }
    Places { at }
}

// The last offset of the relation of key k: how many indices it has.
pub fn total(book: &[u32], k: u32) -> u32
    ensures { result ≡ rule.total book.now k }
{
    word(
        book,
        Place(place_of(book, k).0 + count(book, k / 4) as usize),
    )
}
