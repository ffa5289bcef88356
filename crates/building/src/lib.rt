// Build: d→0 with 0 < d < D, from the cells' vertex sets, written behind the used words; or only counted.
#![tactic(auto)]

mod candidates;
mod meet;
mod write;

ghost use Rattle.std.specs.Prelude.{◌≡◌, ◌<◌, length, get_or};
ghost use Rattle.rules.specs.Book.{relation};
ghost use Rattle.rules.specs.Made.{made};
ghost use Rattle.relations.specs.Words.{Written};
ghost use Rattle.relations.specs.Ready.{Ready};
ghost use Rattle.building.specs.Cells as given;

use book::Place;
use meet::Met;
use relations::Source;

// What Build gives: the place after the relation, and N_d.
#[derive(Clone, Copy)]
pub struct Built {
    pub end: Place,
    pub count: u32,
}

// Writes d→0, 0 < d < D, from `dst` on: every vertex set of d + 1 members of the cells, which are D→0, each with the number it got when it was first met.
pub fn build(book: &mut [u32], cells: Source, d: u32, dst: Place) -> Built
    requires ready { Ready book.old d 0 dst.0 }
    requires source { given.Source book.old cells.from cells.at.0 cells.rows }
    requires d_nonzero { 0 < d }
    ensures written { Written book.old dst.0 (relation (made book.old d 0)) result.end.0 book.new }
    ensures count_value { result.count ≡ length (made book.old d 0) }
{
    let mut met = Met::none();
    met.meet_cells(book, cells, d);
    let end = met.write(book, d, dst);
    let count = met.count;
    Built { end, count }
}

// How many entities Build finds for d→0, 0 < d < D; no word is written.
pub fn found(book: &[u32], cells: Source, d: u32) -> u32
    requires ready { Ready book.now d 0 (get_or book.now 4 0) }
    requires source { given.Source book.now cells.from cells.at.0 cells.rows }
    requires d_nonzero { 0 < d }
    ensures { result ≡ length (made book.now d 0) }
{
    let mut met = Met::none();
    met.meet_cells(book, cells, d);
    met.count
}
