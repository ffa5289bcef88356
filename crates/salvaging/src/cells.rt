// The cells of a file that are kept: each cell is looked at once, in file order.
ghost use Rattle.std.specs.Prelude.{◌≡◌, false, cond, [], ◌++◌, map, ℕ, ◌+◌, ◌*◌, ◌≤◌, ◌<◌, length as size, get_or, take, eqb};
ghost use Rattle.rules.specs.Lists.{joined};
ghost use Rattle.rules.specs.File.{field, file_dim, file_cells, file_cell, twice, head_dim, head_vertices};
ghost use Rattle.rules.specs.Salvage.{cut_off, kept, why};
ghost use Rattle.dayfile.specs.Numbers.{numbers};
ghost use Rattle.salvaging.specs.Reasons.{why_number};
ghost use Rattle.salvaging.specs.Looked.{row_fault, four_of, Looked};

use crate::reasons::Reason;
use dayfile::{HEAD_BITS, Header, VERTEX_BITS};
use kinds::{Cell, Vertex};

// A day file that says a dimension, and its head.
#[derive(Clone, Copy)]
pub struct DayFile<'a> {
    pub bytes: &'a [u8],
    pub head: Header,
    ghost head_is: { head.0 ≡ field bytes.now 0 32 },
    ghost low: { 0 < file_dim bytes.now },
}

// Whether cell c is cut off: not whole in the file.
fn is_cut(file: &DayFile<'_>, c: u32) -> bool
    requires { c < 4096 }
    ensures { result ≡ cut_off file.now.bytes.now c }
{
    let bits = VERTEX_BITS as usize * file.head.corners();
    let end = HEAD_BITS as usize + bits * (c as usize + 1);
    (end + 7) / 8 > file.bytes.len()
}

// Whether one of the first n vertices is named twice.
fn named_twice(v: [Vertex; 4], n: usize) -> bool
    requires { n ≤ 4 }
    ensures { result ≡ twice (take n (numbers v)) }
{
    for i in 0..n {
        for j in i + 1..n {
            if v[i].0 == v[j].0 {
                return true;
            }
        }
    }
    false
}

// What is wrong with a cell's vertices by themselves, if anything is. `row` begins with them.
fn row_fault(head: Header, row: [Vertex; 4]) -> Option<Reason>
    requires { (0 < head_dim head.0) × (head_dim head.0 < 4) }
    ensures { why_number result ≡ row_fault (head_vertices head.0) (take (head_dim head.0 + 1) (numbers row)) }
{
    let n = head.corners();
    if dayfile::out_of(row, n, head) {
        return Some(Reason::VertexOut);
    }
    if named_twice(row, n) {
        return Some(Reason::VertexTwice);
    }
    None
}

// The cells kept so far: how many they are, and their rows, four words to a row, in chains of those with the same bucket, among which later cells are looked for.
#[derive(Drop)]
struct Seen {
    rows: [u32; 16384],
    heads: [u32; 8192],
    next: [u32; 4096],
    count: usize,
}

impl Seen {
    // Why cell c, which is whole, is dropped, or none where it is kept. `row` has its vertices, ascending; where it is kept, it is one of the rows that later cells are looked for among.
    fn look(&mut self, file: &DayFile<'_>, c: u32, row: [Vertex; 4]) -> Option<Reason>
        requires whole { (c < 4096) × (cut_off file.now.bytes.now c ≡ false) }
        requires row { numbers row ≡ four_of (file_dim file.now.bytes.now) (file_cell file.now.bytes.now c) }
        requires seen { Looked file.now.bytes.now self.old.rows self.old.heads self.old.next c self.old.count }
        ensures why { why_number result ≡ why file.now.bytes.now c }
        ensures count { self.new.count ≡ cond (eqb (why_number result) 0) (self.old.count + 1) self.old.count }
        ensures seen { Looked file.now.bytes.now self.new.rows self.new.heads self.new.next (c + 1) self.new.count }
    {
        if let Some(fault) = row_fault(file.head, row) {
            return Some(fault);
        }
        dayfile::put_cell(&mut self.rows, Cell(self.count as u32), row);
        if repeats::meet(&self.rows, 4, &mut self.heads, &mut self.next, self.count) {
            return Some(Reason::CellTwice);
        }
        self.count += 1;
        None
    }
}

// Puts the first n vertices of a cell behind those of k cells.
fn put_kept(vertices: &mut [u32; 16384], n: usize, k: usize, v: [Vertex; 4])
    requires few { n ≤ 4 }
    requires room { k < 4096 }
    ensures { take (n * (k + 1)) vertices.new ≡ take (n * k) vertices.old ++ take n (numbers v) }
{
    let at = n * k;
    for j in 0..n {
        vertices[at + j] = v[j].0;
    }
}

// Why cell c is dropped, or none where it is kept: then its vertices stand behind those of the cells kept before it, in file order, and it is looked for among later. A cell that is cut off is not read.
fn keep_cell(
    file: &DayFile<'_>,
    c: u32,
    vertices: &mut [u32; 16384],
    seen: &mut Seen,
) -> Option<Reason>
    requires cell { c < 4096 }
    requires seen { Looked file.now.bytes.now seen.old.rows seen.old.heads seen.old.next c seen.old.count }
    ensures why { why_number result ≡ why file.now.bytes.now c }
    ensures seen { Looked file.now.bytes.now seen.new.rows seen.new.heads seen.new.next (c + 1) seen.new.count }
    ensures vertices { take ((file_dim file.now.bytes.now + 1) * seen.new.count) vertices.new ≡ take ((file_dim file.now.bytes.now + 1) * seen.old.count) vertices.old ++ cond (eqb (why_number result) 0) (file_cell file.now.bytes.now c) [] }
{
    if is_cut(file, c) {
        return Some(Reason::CutOff);
    }
    let n = file.head.corners();
    let v = dayfile::in_file(file.bytes, file.head.dimension(), Cell(c));
    let row = dayfile::ascending(v, n);
    let k = seen.count;
    let why = seen.look(file, c, row);
    if why.is_none() {
        put_kept(vertices, n, k, v);
    }
    why
}

// Puts the vertices of the cells that are kept one behind the other, in file order, and for each cell why it is dropped, or none. Gives the number of cells kept.
pub fn keep_cells(
    file: &DayFile<'_>,
    vertices: &mut [u32; 16384],
    whys: &mut [Option<Reason>; 4096],
) -> usize
    requires few { file_cells file.now.bytes.now ≤ 4096 }
    ensures number { result ≡ size (kept file.now.bytes.now) }
    ensures vertices { take ((file_dim file.now.bytes.now + 1) * result) vertices.new ≡ joined (kept file.now.bytes.now) }
    ensures whys { (c : ℕ) → c < file_cells file.now.bytes.now → get_or (map why_number whys.new) c 0 ≡ why file.now.bytes.now c }
{
    let mut seen = Seen {
        rows: [0; 16384],
        heads: [0; 8192],
        next: [0; 4096],
        count: 0,
    };
    for c in 0..file.head.cells() {
        whys[c as usize] = keep_cell(file, c, vertices, &mut seen);
    }
    seen.count
}
