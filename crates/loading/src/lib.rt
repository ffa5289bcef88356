// Load; and the words of a loaded mesh: where they end, and a book filled with them.
#![tactic(auto)]

mod call;

ghost use Rattle.std.specs.Prelude.{◌≡◌, [], ◌∷◌, ◌+◌, ◌*◌, ◌^◌, ◌≤◌, ◌<◌, length, take};
ghost use Rattle.rules.specs.Lists.{filled, joined};
ghost use Rattle.rules.specs.File.{head_dim, head_cells};
ghost use Rattle.rules.specs.Book.{key};
ghost use Rattle.rules.specs.Calls.{loaded};
ghost use Rattle.repeats.specs.Rows.{row_at};
ghost use Rattle.dayfile.specs.Words.{cells_in};
ghost use Rattle.relations.specs.Words.{Written};
ghost use Rattle.loading.specs.Filling.{Filling};

use book::Place;
pub use call::load;
use dayfile::Header;
use kinds::Cell;

// The place after the last word of a loaded mesh: behind five words, the offsets, and D + 1 vertices for each cell.
pub fn end_of(head: Header) -> Place
    ensures { result.0 ≡ 6 + head_cells head.0 + head_cells head.0 * (head_dim head.0 + 1) }
{
    let cells = head.cells() as usize;
    let end = 6 + cells + cells * head.corners();
    Place(end)
}

// Writes the head: word 0, D→0 alone held, no N_1 and no N_2, and the used length.
fn write_head(book: &mut [u32], head: Header, used: Place)
    requires room { 5 ≤ length book.old }
    requires word { used.0 < 2 ^ 32 }
    requires dim { head_dim head.0 < 4 }
    ensures { Written book.old 0 (head.0 ∷ (2 ^ key (head_dim head.0) 0) ∷ 0 ∷ 0 ∷ used.0 ∷ []) 5 book.new }
{
    book[0] = head.0;
    book[1] = 1 << (4 * head.dimension());
    book[2] = 0;
    book[3] = 0;
    book[4] = used.0 as u32;
}

// Writes the `n` vertices of a cell that is put down, from a place on.
fn write_cell(book: &mut [u32], words: &[u32; 16384], c: Cell, n: usize, at: Place)
    requires cell { c.0 < 4096 }
    requires few { n ≤ 4 }
    requires room { at.0 + n ≤ length book.old }
    ensures { Written book.old at.0 (take n (row_at 4 words.now c.0)) (at.0 + n) book.new }
{
    let first = 4 * c.0 as usize;
    let start = at.0;
    book[start..start + n].copy_from_slice(&words[first..first + n]);
}

// Writes the cells that are put down one after another, from a place on.
fn write_cells(book: &mut [u32], words: &[u32; 16384], head: Header, at: Place)
    requires few { head_cells head.0 ≤ 4096 }
    requires room { at.0 + head_cells head.0 * (head_dim head.0 + 1) ≤ length book.old }
    ensures { Written book.old at.0 (joined (cells_in head.0 words.now)) (at.0 + head_cells head.0 * (head_dim head.0 + 1)) book.new }
{
    let n = head.corners();
    let mut to = at.0;
    for c in 0..head.cells() {
        write_cell(book, words, Cell(c), n, Place(to));
        to += n;
    }
}

// Sets every word of a book that has room for the file's mesh, whose cells are put down.
pub fn fill(file: &[u8], words: &[u32; 16384], book: &mut [u32])
    requires { Filling file.now words.now book.old }
    ensures { book.new ≡ filled (length book.old) (loaded file.now) }
{
    let head = dayfile::header(file);
    let cells = head.cells();
    let used = end_of(head);
    write_head(book, head, used);
    relations::words::write_offsets(book, Place(5), cells, head.dimension() + 1);
    let first = 6 + cells as usize;
    write_cells(book, words, head, Place(first));
    settle::clear(book, used);
}
