// Relations made in a right book, in place: one, or one with all that it is made from; where they do not fit, the book is as it was.
// And a relation taken out of it.
#![tactic(auto)]

ghost use Rattle.std.specs.Prelude.{◌≡◌, not, ◌&&◌, ◌≤◌, ◌<◌, length, eqb};
ghost use Rattle.rules.specs.Lists.{up_to, any_of, filled};
ghost use Rattle.rules.specs.Book.{dim, key, named, held, Right};
ghost use Rattle.rules.specs.Calls.{count_after, added, differs, has_to_make, count_left, dropped};
ghost use Rattle.rules.specs.Steps.{onward, next_key, mask_with};
ghost use Rattle.relations.specs.Ready.{Ready, Stands};
ghost use Rattle.making.specs.Growth.{Appends, Makable, room_answer, grown, Maskable, Askable, wanted, Holds, answered, Droppable};

use book::Place;
use kinds::Refusal;
use relations::Source;

// A relation written behind the used words: the place after it, and its number of rows where it is d→0 with d > 0.
#[derive(Clone, Copy)]
struct Appended {
    end: Place,
    rows: u32,
}

// A relation of the book, to make another from.
fn source_of(book: &[u32], d: u32, e: u32) -> Source
    requires { (d ≤ 3) × (e ≤ 3) }
    ensures { Stands book.now d e result }
{
    Source {
        from: d,
        to: e,
        at: book::place_of(book, book::key(d, e)),
        rows: book::count(book, d),
        below: book::count(book, e),
    }
}

// Writes d→e behind the used words by the rule that makes it.
fn append(book: &mut [u32], d: u32, e: u32, used: Place) -> Appended
    requires { Ready book.old d e used.0 }
    ensures { Appends book.old d e used.0 result.end.0 result.rows book.new }
{
    let top = book::dim(book);
    if e == 0 {
        if d > 0 {
            let cells = source_of(book, top, 0);
            let built = building::build(book, cells, d, used);
            return Appended {
                end: built.end,
                rows: built.count,
            };
        }
        let own = source_of(book, 0, top);
        let back = source_of(book, top, 0);
        return Appended {
            end: points::vertex_neighbours(book, own, back, used),
            rows: 0,
        };
    }
    if d < e {
        let source = source_of(book, e, d);
        return Appended {
            end: transposing::transpose(book, source, used),
            rows: 0,
        };
    }
    let own = source_of(book, d, 0);
    let back = source_of(book, 0, e);
    if e < d {
        let sub = source_of(book, e, 0);
        return Appended {
            end: intersecting::insides(book, own, back, sub, used),
            rows: 0,
        };
    }
    Appended {
        end: merging::neighbours(book, own, back, used),
        rows: 0,
    }
}

// N_x once d→e is made with n rows.
fn count_after(book: &[u32], d: u32, e: u32, n: u32, x: u32) -> u32
    requires { x < 3 }
    ensures { result ≡ count_after book.now d e n x }
{
    if e == 0 {
        if d == x {
            if d < book::dim(book) {
                return n;
            }
        }
    }
    book::word(book, Place(1 + x as usize))
}

// Makes d→e; where it does not fit, the book is as it was. Refusals: 13.
pub fn add(book: &mut [u32], d: u32, e: u32) -> Result<(), Refusal>
    requires { Makable book.old d e }
    ensures fits { result ≡ room_answer (added book.old d e) book.old }
    ensures words { book.new ≡ grown book.old d e }
{
    let k = book::key(d, e);
    let at = book::place_of(book, k);
    let mask = book::word(book, Place(1));
    let used = Place(book::word(book, Place(4)) as usize);
    let new = append(book, d, e, used);
    let end = new.end;
    if book.len() < end.0 {
        settle::clear(book, used);
        return Err(Refusal::NoRoom);
    }
    let edges = count_after(book, d, e, new.rows, 1);
    let faces = count_after(book, d, e, new.rows, 2);
    settle::settle(book, at, used, end);
    settle::set_head(book, mask + (1 << k), edges, faces, end);
    Ok(())
}

// Whether some relation held names x, 0 < x < D, and the number of entities found for x→0 is not the N_x that is kept.
// The book is lent to the caller for writing, as the bare words, so that it is right is a clause here and in `apart`, and no RightBook.
fn differs(book: &[u32], x: u32) -> bool
    requires { Right book.now }
    ensures { result ≡ differs book.now x }
{
    let top = book::dim(book);
    if x == 0 {
        return false;
    }
    if x >= top {
        return false;
    }
    if !frame::mentions(book::word(book, Place(1)), x) {
        return false;
    }
    building::found(book, source_of(book, top, 0), x) != book::count(book, x)
}

// Whether d→e is x→0, and the number of entities found for it is not the N_x that is kept.
pub fn make_differs(book: &[u32], d: u32, e: u32) -> bool
    requires { Right book.now }
    ensures { result ≡ (eqb e 0 && differs book.now d) }
{
    if e != 0 {
        return false;
    }
    differs(book, d)
}

// The key to go on with from k, where D is `top`: the first of what it is made from that the mask does not name, or k itself.
fn onward(top: u32, mask: u32, k: u32) -> u32
    requires { (top ≤ 3) × (k < 16) }
    ensures { result ≡ onward top (named mask) k }
{
    let needs = frame::needs_of(top, k / 4, k % 4);
    needs
        .keys()
        .iter()
        .copied()
        .find(|key| !book::named(mask, *key))
        .unwrap_or(k)
}

// The key to make next on the way to k, where D is `top` and the mask names what is held.
fn next_key(top: u32, mask: u32, k: u32) -> u32
    requires { (top ≤ 3) × (k < 16) }
    ensures { result ≡ next_key 6 top (named mask) k }
{
    let mut at = k;
    for _step in 0..6u32 {
        at = onward(top, mask, at);
    }
    at
}

// The mask once the relation of key k and all that it is made from are held.
fn mask_with(top: u32, mask: u32, k: u32) -> u32
    requires { Maskable top mask k }
    ensures { result ≡ mask_with 6 top mask k }
{
    let mut now = mask;
    // No `for` or chain: the mask itself says when the end is reached, and the next step is read from it.
    while !book::named(now, k) {
        now += 1 << next_key(top, now, k);
    }
    now
}

// Whether x→0 is not held, the goal names it, and the number of entities found for it is not the N_x that is kept.
fn apart(book: &[u32], goal: u32, x: u32) -> bool
    requires { Right book.now × (x ≤ 3) }
    ensures { result ≡ ((not (held book.now (key x 0)) && named goal (key x 0)) && differs book.now x) }
{
    let k = book::key(x, 0);
    if book::held(book, k) {
        return false;
    }
    if !book::named(goal, k) {
        return false;
    }
    differs(book, x)
}

// Whether an ask for d→e has to make some x→0 whose entities, as they are found, are not as many as the N_x that is kept.
pub fn ask_differs(book: &[u32], d: u32, e: u32) -> bool
    requires { Right book.now × ((d ≤ dim book.now) × (e ≤ dim book.now)) }
    ensures { result ≡ any_of (λ x. has_to_make book.now d e x && differs book.now x) (up_to 3) }
{
    let goal = mask_with(book::dim(book), book::word(book, Place(1)), book::key(d, e));
    if apart(book, goal, 1) {
        return true;
    }
    apart(book, goal, 2)
}

// Makes what the relation of key k is made from, as far as it is missing, and then it, one after another until one does not fit.
fn hold(book: &mut [u32], k: u32) -> Result<(), Refusal>
    requires { Askable book.old k }
    ensures { Holds book.old k result book.new }
{
    // No `for` or chain: the book itself says when the end is reached, and the next step is read from it.
    while !book::held(book, k) {
        let next = next_key(book::dim(book), book::word(book, Place(1)), k);
        add(book, next / 4, next % 4)?;
    }
    Ok(())
}

// Makes the relation of key k and what it is made from; where they do not fit, the book is as it was. Refusals: 13.
pub fn ask_for(book: &mut [u32], k: u32) -> Result<(), Refusal>
    requires { Askable book.old k }
    ensures fits { result ≡ room_answer (wanted book.old k) book.old }
    ensures words { book.new ≡ answered book.old k }
{
    let head = [
        book::word(book, Place(0)),
        book::word(book, Place(1)),
        book::word(book, Place(2)),
        book::word(book, Place(3)),
        book::word(book, Place(4)),
    ];
    let answer = hold(book, k);
    if answer.is_err() {
        settle::give_back(book, head);
    }
    answer
}

// N_x once the mask names the relations that are left.
fn count_left(book: &[u32], mask: u32, x: u32) -> u32
    requires { x < 3 }
    ensures { result ≡ count_left book.now mask x }
{
    if x >= book::dim(book) {
        return 0;
    }
    if !frame::mentions(mask, x) {
        return 0;
    }
    book::word(book, Place(1 + x as usize))
}

// Takes d→e out of the book: the relations behind it move down, and the words freed are set to 0.
pub fn take_out(book: &mut [u32], d: u32, e: u32)
    requires { Droppable book.old d e }
    ensures { book.new ≡ filled (length book.old) (dropped book.old d e) }
{
    let k = book::key(d, e);
    let at = book::place_of(book, k);
    let next = book::place_of(book, k + 1);
    let used = Place(book::word(book, Place(4)) as usize);
    let mask = book::word(book, Place(1)) - (1 << k);
    let edges = count_left(book, mask, 1);
    let faces = count_left(book, mask, 2);
    let end = settle::close_up(book, at, next, used);
    settle::set_head(book, mask, edges, faces, end);
}
