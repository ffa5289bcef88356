// The frame rule: word 0, the keys, the numbers N_1 and N_2, and the used length.
#![tactic(auto)]

ghost use Rattle.std.specs.Prelude.{◌≡◌, take, ◌&&◌, ◌≤◌, ◌<◌, length, get_or, eqb, leb};
ghost use Rattle.rules.specs.Lists.{all_of, filled};
ghost use Rattle.rules.specs.Book as rule;

use book::{Place, count, dim, held, key, most, place_of, word};

// The keys of what a relation is made from, in order, with zeros behind them, and how many they are.
#[derive(Clone, Copy)]
pub struct Needs {
    pub keys: [u32; 3],
    pub count: usize,
}

impl Needs {
    // The keys, as a slice.
    pub fn keys(&self) -> &[u32]
        ensures { result.now ≡ take self.now.count self.now.keys }
    {
        &self.keys[..self.count.min(3)]
    }
}

// The words before the first relation.
const HEAD: usize = 5;

// The most vertices of a mesh.
const MOST_VERTICES: u32 = 8192;

// The most cells of a mesh.
const MOST_CELLS: u32 = 4096;

// The masks of the sixteen keys lie below this.
const MASKS: u32 = 65536;

// Whether word 0 obeys refusals 2 to 5.
fn head_right(book: &[u32]) -> bool
    ensures { result ≡ rule.head_right (get_or book.now 0 0) }
{
    let top = dim(book);
    if top == 0 {
        return false;
    }
    count(book, 0) <= MOST_VERTICES
        && count(book, top) <= MOST_CELLS
        && word(book, Place(0)) % 8 == 0
}

// What d→e is made from, where D is `top`.
pub fn needs_of(top: u32, d: u32, e: u32) -> Needs
    requires { (top ≤ 3) × ((d ≤ 3) × (e ≤ 3)) }
    ensures keys { result.keys ≡ filled 3 (rule.needs top d e) }
    ensures count { result.count ≡ length (rule.needs top d e) }
{
    if e == 0 {
        if d == 0 {
            return Needs {
                keys: [key(0, top), key(top, 0), 0],
                count: 2,
            };
        }
        if d == top {
            return Needs {
                keys: [0, 0, 0],
                count: 0,
            };
        }
        return Needs {
            keys: [key(top, 0), 0, 0],
            count: 1,
        };
    }
    if d < e {
        return Needs {
            keys: [key(e, d), 0, 0],
            count: 1,
        };
    }
    if e < d {
        return Needs {
            keys: [key(d, 0), key(0, e), key(e, 0)],
            count: 3,
        };
    }
    Needs {
        keys: [key(d, 0), key(0, d), 0],
        count: 2,
    }
}

// Whether the key names only d and e up to D.
fn key_right(book: &[u32], k: u32) -> bool
    ensures { result ≡ rule.key_right book.now k }
{
    let top = dim(book);
    k / 4 <= top && k % 4 <= top
}

// Whether each key held is right.
fn keys_right(book: &[u32]) -> bool
    ensures { result ≡ all_of (rule.key_right book.now) (rule.keys_held book.now) }
{
    (0..16).all(|k| !held(book, k) || key_right(book, k))
}

// The keys that name d, as their first or their second dimension, by d: the sum of 2^key over them.
const NAMING: [u32; 4] = [
    4383, // 0→0, 0→1, 0→2, 0→3, 1→0, 2→0, 3→0
    8946, // 1→0, 1→1, 1→2, 1→3, 0→1, 2→1, 3→1
    20292, // 2→0, 2→1, 2→2, 2→3, 0→2, 1→2, 3→2
    63624, // 3→0, 3→1, 3→2, 3→3, 0→3, 1→3, 2→3
];

// Whether one of the relations that the mask names has d as its first or its second dimension.
pub fn mentions(mask: u32, d: u32) -> bool
    requires { d < 4 }
    ensures { result ≡ rule.mentions (rule.named mask) d }
{
    mask & NAMING[d as usize] != 0
}

// Whether word 1 + d is N_d, within its bound, where d < D and some relation held names d, else 0.
fn count_right(book: &[u32], d: u32) -> bool
    ensures { result ≡ rule.count_right book.now d }
{
    let top = dim(book);
    let n = word(book, Place(1 + d as usize));
    if d >= top {
        return n == 0;
    }
    if !mentions(word(book, Place(1)), d) {
        return n == 0;
    }
    n <= most(top, d) * count(book, top)
}

// Whether the used length is within the book, and the relations end there.
fn used_right(book: &[u32]) -> bool
    ensures { result ≡ (leb (get_or book.now 4 0) (length book.now) && eqb (rule.place book.now 16) (get_or book.now 4 0)) }
{
    let used = word(book, Place(4)) as usize;
    used <= book.len() && place_of(book, 16).0 == used
}

// The frame rule.
pub fn frame_right(book: &[u32]) -> bool
    ensures { result ≡ rule.frame_right book.now }
{
    book.len() >= HEAD
        && head_right(book)
        && word(book, Place(1)) < MASKS
        && keys_right(book)
        && held(book, key(dim(book), 0))
        && count_right(book, 1)
        && count_right(book, 2)
        && used_right(book)
}
