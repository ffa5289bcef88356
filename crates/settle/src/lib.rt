// Words moved within the book: a relation that was written behind the used words goes to its place by key, one is taken out, and words that are free are set to 0.
#![tactic(auto)]

ghost use Rattle.std.specs.Prelude.{◌≡◌, ◌+◌, ◌-◌, ◌^◌, ◌≤◌, ◌<◌, min, length, get_or};
ghost use Rattle.rules.specs.Steps.{given_back};
ghost use Rattle.settle.specs.Settled.{Within, Exchanged, Raised, Saved, PutBack, settled, Zeroed, cleared, headed, lowered, closed_up, Leaves, Kept};

use book::Place;

// Exchanges the words from one place on with as many from a later one on.
fn exchange(book: &mut [u32], one: Place, other: Place, count: usize)
    requires { (one.0 + count ≤ other.0) × (other.0 + count ≤ length book.old) }
    ensures { Exchanged book.old one.0 other.0 count book.new }
{
    let (front, back) = book.split_at_mut(other.0);
    front[one.0..one.0 + count].swap_with_slice(&mut back[..count]);
}

// Brings the words from `from` up to `end` down to `to`, and gives the place after them.
fn move_down(book: &mut [u32], from: Place, end: Place, to: Place) -> Place
    requires { Within from.0 end.0 (length book.old) × (to.0 ≤ from.0) }
    ensures place { result.0 ≡ to.0 + (end.0 - from.0) }
    ensures words { book.new ≡ lowered from.0 end.0 to.0 book.old }
{
    book.copy_within(from.0..end.0, to.0);
    Place(to.0 + (end.0 - from.0))
}

// Moves the words from `from` up to `end` up by as many places as `by` says.
fn move_up(book: &mut [u32], from: Place, end: Place, by: usize)
    requires { (from.0 ≤ end.0) × (end.0 + by ≤ length book.old) }
    ensures { Raised book.old from.0 end.0 by book.new }
{
    book.copy_within(from.0..end.0, from.0 + by);
}

// A copy of at most 64 words.
fn saved(words: &[u32]) -> [u32; 64]
    requires { length words.now ≤ 64 }
    ensures { Saved words.now 0 (length words.now) result }
{
    let mut copy = [0u32; 64];
    copy[..words.len()].copy_from_slice(words);
    copy
}

// Writes the words from a place on.
fn put_back(book: &mut [u32], at: Place, words: &[u32])
    requires { at.0 + length words.now ≤ length book.old }
    ensures { PutBack book.old at.0 words.now (length words.now) book.new }
{
    book[at.0..at.0 + words.len()].copy_from_slice(words);
}

// Settles where one of the two parts has at most 64 words: it is set aside, the other is moved past it, and it is put back.
fn settle_few(book: &mut [u32], at: Place, used: Place, end: Place)
    requires { Within at.0 used.0 (length book.old) × (Within used.0 end.0 (length book.old) × (min (used.0 - at.0) (end.0 - used.0) ≤ 64)) }
    ensures { book.new ≡ settled at.0 used.0 end.0 book.old }
{
    let before = used.0 - at.0;
    let behind = end.0 - used.0;
    if before <= 64 {
        let words = saved(&book[at.0..used.0]);
        let to = move_down(book, used, end, at);
        put_back(book, to, &words[..before]);
    } else {
        let words = saved(&book[used.0..end.0]);
        move_up(book, at, used, behind);
        put_back(book, at, &words[..behind]);
    }
}

// Brings the words from `used` up to `end` before those from `at` up to `used`. Blocks are exchanged and a short part is set aside: `rotate_left` took 1.25 times as long for 20,000 words past 29,990.
pub fn settle(book: &mut [u32], at: Place, used: Place, end: Place)
    requires { Within at.0 used.0 (length book.old) × Within used.0 end.0 (length book.old) }
    ensures { book.new ≡ settled at.0 used.0 end.0 book.old }
{
    let last = end.0;
    let mut front = at.0;
    let mut middle = used.0;
    while (middle - front).min(last - middle) > 64 {
        let block = (middle - front).min(last - middle);
        exchange(book, Place(front), Place(middle), block);
        front += block;
        if front == middle {
            middle += block;
        }
    }
    settle_few(book, Place(front), Place(middle), end);
}

// Sets the words from one place up to another to 0.
fn zero(book: &mut [u32], from: Place, end: Place)
    requires { end.0 ≤ length book.old }
    ensures { Zeroed book.old from.0 end.0 book.new }
{
    if from.0 < end.0 {
        book[from.0..end.0].fill(0);
    }
}

// Sets every word from a place on to 0.
pub fn clear(book: &mut [u32], from: Place)
    ensures { book.new ≡ cleared from.0 book.old }
{
    let end = Place(book.len());
    zero(book, from, end);
}

// Takes the words from one place up to another out: those behind them, up to `used`, move down, and the words freed are set to 0. Gives the place after the words moved.
pub fn close_up(book: &mut [u32], from: Place, to: Place, used: Place) -> Place
    requires { Within from.0 to.0 used.0 × (used.0 ≤ length book.old) }
    ensures place { result.0 ≡ from.0 + (used.0 - to.0) }
    ensures words { book.new ≡ closed_up from.0 to.0 used.0 book.old }
{
    let end = move_down(book, to, used, from);
    zero(book, end, used);
    end
}

// Sets words 1 to 4: the relations held, N_1, N_2 and the used length.
pub fn set_head(book: &mut [u32], mask: u32, edges: u32, faces: u32, used: Place)
    requires { (5 ≤ length book.old) × (used.0 < 2 ^ 32) }
    ensures { book.new ≡ headed mask edges faces used.0 book.old }
{
    let used_words = used.0 as u32;
    book[1] = mask;
    book[2] = edges;
    book[3] = faces;
    book[4] = used_words;
}

// Brings down the relations that the mask names, and gives the place after them.
fn keep_only(book: &mut [u32], mask: u32) -> Place
    requires { Leaves book.old mask }
    ensures { Kept book.old mask result.0 book.new }
{
    let places = book::places_of(book);
    let at = places.at;
    let mut to = Place(5);
    for k in 0..16 {
        if book::named(mask, k as u32) {
            to = move_down(book, at[k], at[k + 1], to);
        }
    }
    to
}

// Gives the book a head, and behind it leaves only the relations that the head names, then zeros.
pub fn give_back(book: &mut [u32], head: [u32; 5])
    requires { Leaves book.old (get_or head 1 0) }
    ensures { book.new ≡ given_back head book.old }
{
    let used = Place(head[4] as usize);
    let end = keep_only(book, head[1]);
    book[0] = head[0];
    set_head(book, head[1], head[2], head[3], used);
    clear(book, end);
}
