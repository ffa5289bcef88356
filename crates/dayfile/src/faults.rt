// The first fault of a file, in the order of refusals 1 to 8, 23 and 9.
ghost use Rattle.std.specs.Prelude.{◌≡◌, ◌+◌, ◌*◌, ◌≤◌, ◌<◌, length as count, take, drop, leb};
ghost use Rattle.rules.specs.Lists.{first_at, first_repeated};
ghost use Rattle.rules.specs.File.{field, file_cells, out_of, twice, pad_set, head_dim, head_vertices, head_cells, head_length};
ghost use Rattle.rules.specs.Calls.{file_number, fault_cell};
ghost use Rattle.repeats.specs.Rows.{row_at, rows_in};
ghost use Rattle.dayfile.specs.Faults.{fault_of, head_number};
ghost use Rattle.kinds.specs.Lowest.{lowest_below};
ghost use Rattle.dayfile.specs.Numbers.{numbers, cell_numbered};
ghost use Rattle.dayfile.specs.Words.{Put, cells_in};

use crate::head::header;
use crate::reading::cell;
use crate::shapes::Header;
use kinds::{Cell, Refusal, Vertex};
use repeats::first_repeated;

// Puts a cell's vertices down as its four words.
pub fn put_cell(words: &mut [u32; 16384], c: Cell, v: [Vertex; 4])
    requires { c.0 < 4096 }
    ensures row { row_at 4 words.new c.0 ≡ numbers v }
    ensures before { take (4 * c.0) words.new ≡ take (4 * c.0) words.old }
    ensures behind { drop (4 * (c.0 + 1)) words.new ≡ drop (4 * (c.0 + 1)) words.old }
    ensures long { count words.new ≡ 16384 }
{
    let at = 4 * c.0 as usize;
    words[at] = v[0].0;
    words[at + 1] = v[1].0;
    words[at + 2] = v[2].0;
    words[at + 3] = v[3].0;
}

// Puts the file's cells down one after another, each cell's vertices ascending.
fn put_cells(file: &[u8], head: Header, words: &mut [u32; 16384])
    requires { head_cells head.0 ≤ 4096 }
    ensures { Put file.now words.old words.new (head_cells head.0) }
{
    for c in 0..head.cells() {
        let corners = cell(file, Cell(c));
        put_cell(words, Cell(c), corners.vertices);
    }
}

// A cell's four words.
fn cell_at(words: &[u32; 16384], c: Cell) -> [Vertex; 4]
    requires { c.0 < 4096 }
    ensures { numbers result ≡ row_at 4 words.now c.0 }
{
    let at = 4 * c.0 as usize;
    [
        Vertex(words[at]),
        Vertex(words[at + 1]),
        Vertex(words[at + 2]),
        Vertex(words[at + 3]),
    ]
}

// Whether the vertex is N_0 or more.
fn is_out(v: Vertex, head: Header) -> bool
    ensures { result ≡ leb (head_vertices head.0) v.0 }
{
    head.vertices() <= v.0
}

// Whether one of the first `n` vertices is N_0 or more.
pub fn out_of(v: [Vertex; 4], n: usize, head: Header) -> bool
    requires { n ≤ 4 }
    ensures { result ≡ out_of (head_vertices head.0) (take n (numbers v)) }
{
    v[..n].iter().any(|x| is_out(*x, head))
}

// Whether cell c has a vertex out of range.
fn has_out(words: &[u32; 16384], head: Header, c: Cell) -> bool
    requires few { head_cells head.0 ≤ 4096 }
    requires cell { c.0 < head_cells head.0 }
    ensures { result ≡ out_of (head_vertices head.0) (take (head_dim head.0 + 1) (row_at 4 words.now c.0)) }
{
    out_of(cell_at(words, c), head.corners(), head)
}

// The lowest cell with a vertex out of range.
fn first_out(words: &[u32; 16384], head: Header) -> Option<Cell>
    requires { head_cells head.0 ≤ 4096 }
    ensures { result ≡ lowest_below cell_numbered (head_cells head.0) (first_at (out_of (head_vertices head.0)) (cells_in head.0 words.now)) }
{
    (0..head.cells())
        .find(|c| has_out(words, head, Cell(*c)))
        .map(Cell)
}

// The lowest cell that names a vertex twice.
fn first_twice(words: &[u32; 16384], head: Header) -> Option<Cell>
    requires { head_cells head.0 ≤ 4096 }
    ensures { result ≡ lowest_below cell_numbered (head_cells head.0) (first_at twice (cells_in head.0 words.now)) }
{
    let n = head.dimension() as usize + 1;
    let mut found = None;
    // The loops over cells and pairs of vertices are left by their label at the first fault: a rule of the project.
    'cells: for c in 0..head.cells() {
        let v = cell_at(words, Cell(c));
        for i in 0..n {
            for j in i + 1..n {
                if v[i].0 == v[j].0 {
                    found = Some(Cell(c));
                    break 'cells;
                }
            }
        }
    }
    found
}

// The lowest cell that repeats an earlier one.
fn first_again(words: &[u32; 16384], head: Header) -> Option<Cell>
    requires { head_cells head.0 ≤ 4096 }
    ensures { result ≡ lowest_below cell_numbered (head_cells head.0) (first_repeated (rows_in 4 words.now (head_cells head.0))) }
{
    let count = head.cells();
    let c = first_repeated(words, 4, count as usize) as u32;
    if c < count { Some(Cell(c)) } else { None }
}

// Whether a bit after the last vertex is set, where the file's length is right.
fn bits_after(file: &[u8], head: Header) -> bool
    requires { (head.0 ≡ field file.now 0 32) × (count file.now ≡ head_length head.0) }
    ensures { result ≡ pad_set file.now }
{
    bits::read_field(file, head.end_bit(), 7) != 0
}

// The file's first fault where it lies in the head or the length, 1 to 6; else none.
pub fn head_fault(file: &[u8]) -> Result<(), Refusal>
    ensures { result ≡ fault_of (head_number file.now) 0 }
{
    if file.len() < 4 {
        return Err(Refusal::FileTooShort);
    }
    let head = header(file);
    if head.dimension() == 0 {
        return Err(Refusal::NoDimension);
    }
    if head.vertices() > 8192 {
        return Err(Refusal::ManyVertices);
    }
    if head.cells() > 4096 {
        return Err(Refusal::ManyCells);
    }
    if head.spare() > 0 {
        return Err(Refusal::SpareBits);
    }
    if file.len() != head.length() {
        return Err(Refusal::FileLength);
    }
    Ok(())
}

// The first fault of a file whose head and length have none: 7, 8, 23 or 9. Its cells are put down in the words, and each is read once.
pub fn body_fault(file: &[u8], words: &mut [u32; 16384]) -> Result<(), Refusal>
    requires { head_number file.now ≡ 0 }
    ensures fault { result ≡ fault_of (file_number file.now) (fault_cell file.now) }
    ensures words { Put file.now words.old words.new (file_cells file.now) }
{
    let head = header(file);
    put_cells(file, head, words);
    if let Some(out) = first_out(words, head) {
        return Err(Refusal::VertexOut(out));
    }
    if let Some(twice) = first_twice(words, head) {
        return Err(Refusal::VertexTwice(twice));
    }
    if let Some(again) = first_again(words, head) {
        return Err(Refusal::CellTwice(again));
    }
    if bits_after(file, head) {
        return Err(Refusal::BitsAfter);
    }
    Ok(())
}
