// Intersection: the rows of d→d' with d > d' > 0, by merging at most four ascending rows and keeping what lies inside.
#![tactic(auto)]

ghost use Rattle.std.specs.Prelude.{◌≡◌, ◌==◌, map, ◌+◌, ◌^◌, ◌<◌, ◌≤◌, min, length};
ghost use Rattle.std.specs.List.{list_any, list_all};
ghost use Rattle.rules.specs.Lists.{up_to};
ghost use Rattle.rules.specs.Book.{relation};
ghost use Rattle.rules.specs.Made.{made};
ghost use Rattle.relations.specs.Words.{Rows, Written};
ghost use Rattle.merging.specs.Near.{Incidence};
ghost use Rattle.relations.specs.Ready.{Ready, Stands};
ghost use Rattle.intersecting.specs.Inner.{inner_row, lies_in};

use book::Place;
use merging::{Cursors, Sieve, merge_row};
use relations::Source;
use relations::words::put;

// Whether `x` is one of the words. (As `contains` it takes 22 to 30 in a hundred instructions more on 2→1.)
fn among(x: u32, words: &[u32]) -> bool
    ensures { result ≡ list_any (λ w. w == x) words.now }
{
    words.iter().any(|w| *w == x)
}

// Whether each word of `inner` is one of `outer`.
fn contained(inner: &[u32], outer: &[u32]) -> bool
    ensures { result ≡ list_all (λ w. list_any (λ v. v == w) outer.now) inner.now }
{
    inner.iter().all(|w| among(*w, outer))
}

// Whether row `i` of the source lies in the `m` words from `a` on.
fn row_lies_in(book: &[u32], source: Source, a: Place, m: usize, i: u32) -> bool
    requires rows { Rows book.now source.at.0 source.rows (length book.now) }
    requires part { a.0 + m ≤ length book.now }
    requires row { i < source.rows }
    ensures { result ≡ lies_in book.now source.at.0 source.rows a.0 m i }
{
    let start = source.start(book, i as usize).0;
    let end = source.start(book, i as usize + 1).0;
    contained(&book[start..end], &book[a.0..a.0 + m])
}

// The indices of those rows of `sub` that lie in the `count` words from `at` on.
#[derive(Clone, Copy)]
struct Inside {
    sub: Source,
    at: Place,
    count: usize,
}

impl Sieve for Inside {
    ghost use Rattle.intersecting.specs.Inner.{lies_in, Asked};
    ghost use Rattle.intersecting.specs.Reads.{asked-front, lies_in-same};

    ghost asks = { λ s ws m b. Asked ws s.sub.at.0 s.sub.rows s.at.0 s.count m b };

    ghost passes = { λ s ws j. lies_in ws s.sub.at.0 s.sub.rows s.at.0 s.count j };

    ghost reads = { record { stays = λ s vs ws m b e l a. asked-front vs ws m e l a; same = λ s vs ws m b e a j l. lies_in-same vs ws m e a j l } };

    fn passes(&self, book: &[u32], j: u32) -> bool {
        row_lies_in(book, self.sub, self.at, self.count, j)
    }
}

// Writes row `i` of d→e from `dst` on: `own` is d→0, `back` is 0→e, `sub` is e→0.
fn inner_row(book: &mut [u32], own: Source, back: Source, sub: Source, i: u32, dst: Place) -> Place
    requires incidence { Incidence book.old own.at.0 own.rows back.at.0 back.rows (min dst.0 (length book.old)) }
    requires rows { Rows book.old sub.at.0 sub.rows (min dst.0 (length book.old)) }
    requires row { i < own.rows }
    requires fits { dst.0 + sub.rows < 2 ^ 64 }
    ensures { Written book.old dst.0 (inner_row book.old own.at.0 own.rows back.at.0 back.rows sub.at.0 sub.rows i) result.0 book.new }
{
    let a = own.start(book, i as usize);
    let m = own.start(book, i as usize + 1).0 - a.0;
    let mut cursors = Cursors::over(book, back.at, back.rows as usize, a, m);
    let inside = Inside {
        sub,
        at: a,
        count: m,
    };
    merge_row(book, &mut cursors, &inside, sub.rows, dst)
}

// Writes d→e from `dst` on, offsets and indices, and gives the place after it: `own` is d→0, `back` is 0→e, `sub` is e→0.
fn inner(book: &mut [u32], own: Source, back: Source, sub: Source, dst: Place) -> Place
    requires incidence { Incidence book.old own.at.0 own.rows back.at.0 back.rows (min dst.0 (length book.old)) }
    requires rows { Rows book.old sub.at.0 sub.rows (min dst.0 (length book.old)) }
    requires few { (own.rows < 65536) × (sub.rows < 65536) }
    requires fits { dst.0 < 2 ^ 63 }
    ensures { Written book.old dst.0 (relation (map (inner_row book.old own.at.0 own.rows back.at.0 back.rows sub.at.0 sub.rows) (up_to own.rows))) result.0 book.new }
{
    let start = dst.0;
    let first = start + own.rows as usize + 1;
    put(book, dst, 0);
    let mut at = first;
    for i in 0..own.rows {
        at = inner_row(book, own, back, sub, i, Place(at)).0;
        let offset = start + i as usize + 1;
        put(book, Place(offset), (at - first) as u32);
    }
    Place(at)
}

// Writes d→d', d > d' > 0, from `dst` on, made from d→0, 0→d' and d'→0, and gives the place after it.
pub fn insides(book: &mut [u32], own: Source, back: Source, sub: Source, dst: Place) -> Place
    requires ready { Ready book.old own.from sub.from dst.0 }
    requires own_stands { Stands book.old own.from 0 own }
    requires back_stands { Stands book.old 0 sub.from back }
    requires sub_stands { Stands book.old sub.from 0 sub }
    requires from_nonzero { (0 < sub.from) × (sub.from < own.from) }
    ensures { Written book.old dst.0 (relation (made book.old own.from sub.from)) result.0 book.new }
{
    inner(book, own, back, sub, dst)
}
