// The sheet profile: for a book that is a sheet, the cell across each edge of each cell, and the rim as a day file of its own, with maps back to the old vertices and edges.
#![tactic(auto)]

mod answers;
mod others;
mod rims;
mod stands;
mod testing;
mod triangles;

ghost use Rattle.std.specs.Prelude.{◌≡◌, true, ◌&&◌, [], map, ◌+◌, ◌*◌, ◌^◌, ◌≤◌, length as size, eqb, ltb};
ghost use Rattle.rules.specs.Lists.{all_of, first_at, has, ascends};
ghost use Rattle.rules.specs.File.{put_file};
ghost use Rattle.rules.specs.Book.{key, held};
ghost use Rattle.rules.specs.Broken.{broken_at, told};
ghost use Rattle.rules.specs.Sheet.{rim_edges_of, Sheet, sheet_answer, sheet_number, sheet_given, sheet_across, sheet_bytes, sheet_vertices, sheet_edges};
ghost use Rattle.kinds.specs.Refusals.{answer_why, answer_place, given};
ghost use Rattle.sheets.specs.Answers.{rim_given};

pub use answers::Rim;
use dayfile::Header;
use kinds::{NotSheet, Refusal};
use others::fill_across;
use right::RightBook;
use rims::{list_rim, put_ends, renumber};
use testing::tested;
use triangles::Triangles;

// Whether 1→0, 2→1 and 1→2 are held.
fn needs_held(book: &RightBook<'_>) -> bool
    ensures { result ≡ (held book.now (key 1 0) && held book.now (key 2 1) && held book.now (key 1 2)) }
{
    book.held(book::key(1, 0)) && book.held(book::key(2, 1)) && book.held(book::key(1, 2))
}

// The first 32 bits of the file of a rim with v vertices and n edges.
fn head_of(v: u32, n: u32) -> Header
    requires { (v ≤ 8192) × (n ≤ 4096) }
    ensures { result.0 ≡ 2 ^ 30 * 1 + 2 ^ 16 * v + 2 ^ 3 * n }
{
    Header::new(1, v, n)
}

// Writes the file of a rim at the front of `rim`, which has room for it: the ends of its edges, by their places among its vertices.
fn put_rim(head: Header, ends: &mut [u32], vertices: &[u32], rim: &mut [u8])
    requires ascending { ascends vertices.now ≡ true }
    requires low { all_of (λ v. ltb v 8192) vertices.now ≡ true }
    requires few { size vertices.now ≤ 8192 }
    requires listed { all_of (λ v. has v vertices.now) ends.old ≡ true }
    ensures { rim.new ≡ put_file head.0 (map (λ v. first_at (eqb v) vertices.now) ends.old) rim.old }
{
    renumber(ends, vertices);
    dayfile::write(head, ends, rim);
}

// Writes the cells across and the rim of a sheet; the rim's edges are listed. Refusals: 18, 21.
fn lay_rim(
    book: &RightBook<'_>,
    edges: &[u32],
    across: &mut [u32],
    rim: &mut [u8],
    rim_vertices: &mut [u32],
    rim_edges: &mut [u32],
) -> Result<Rim, Refusal>
    requires sheet { Sheet book.now }
    requires rim { edges.now ≡ rim_edges_of book.now }
    requires few { size edges.now ≤ 4096 }
    ensures answer { answer_why result ≡ sheet_answer book.now (size across.old) (size rim.old) (size rim_vertices.old) (size rim_edges.old) }
    ensures place { answer_place result ≡ told (sheet_number book.now (size across.old) (size rim.old) (size rim_vertices.old) (size rim_edges.old)) (broken_at book.now) }
    ensures given { given [] rim_given result ≡ sheet_given book.now (size across.old) (size rim.old) (size rim_vertices.old) (size rim_edges.old) }
    ensures across { across.new ≡ sheet_across book.now across.old rim.old rim_vertices.old rim_edges.old }
    ensures bytes { rim.new ≡ sheet_bytes book.now across.old rim.old rim_vertices.old rim_edges.old }
    ensures vertices { rim_vertices.new ≡ sheet_vertices book.now across.old rim.old rim_vertices.old rim_edges.old }
    ensures edges { rim_edges.new ≡ sheet_edges book.now across.old rim.old rim_vertices.old rim_edges.old }
{
    let n = edges.len();
    let mut ends = [0u32; 8192];
    let triangles = Triangles::of(book);
    put_ends(&triangles, edges, &mut ends);
    let mut vertices = [0u32; 8192];
    let v = cells::list_named(&ends[..2 * n], book.count(0), &mut vertices);
    let head = head_of(v as u32, n as u32);
    let length = head.length();
    let buffer_short = rim.len() < length;
    let across_off = across.len() != 3 * book.count(2) as usize;
    let vertices_short = rim_vertices.len() < v;
    let edges_short = rim_edges.len() < n;
    if buffer_short {
        return Err(Refusal::BufferTooShort);
    }
    if across_off {
        return Err(Refusal::ListLength);
    }
    if vertices_short {
        return Err(Refusal::ListLength);
    }
    if edges_short {
        return Err(Refusal::ListLength);
    }
    put_rim(head, &mut ends[..2 * n], &vertices[..v], rim);
    rim_vertices[..v].copy_from_slice(&vertices[..v]);
    rim_edges[..n].copy_from_slice(edges);
    fill_across(&triangles, across);
    Ok(Rim {
        length,
        vertices: v,
        edges: n,
    })
}

// Writes the cells across and the rim of a sheet. Refusals: 29, 18, 21.
fn lay(
    book: &RightBook<'_>,
    across: &mut [u32],
    rim: &mut [u8],
    rim_vertices: &mut [u32],
    rim_edges: &mut [u32],
) -> Result<Rim, Refusal>
    requires { Sheet book.now }
    ensures answer { answer_why result ≡ sheet_answer book.now (size across.old) (size rim.old) (size rim_vertices.old) (size rim_edges.old) }
    ensures place { answer_place result ≡ told (sheet_number book.now (size across.old) (size rim.old) (size rim_vertices.old) (size rim_edges.old)) (broken_at book.now) }
    ensures given { given [] rim_given result ≡ sheet_given book.now (size across.old) (size rim.old) (size rim_vertices.old) (size rim_edges.old) }
    ensures across { across.new ≡ sheet_across book.now across.old rim.old rim_vertices.old rim_edges.old }
    ensures bytes { rim.new ≡ sheet_bytes book.now across.old rim.old rim_vertices.old rim_edges.old }
    ensures vertices { rim_vertices.new ≡ sheet_vertices book.now across.old rim.old rim_vertices.old rim_edges.old }
    ensures edges { rim_edges.new ≡ sheet_edges book.now across.old rim.old rim_vertices.old rim_edges.old }
{
    let mut edges = [0u32; 12288];
    let n = list_rim(&Triangles::of(book), &mut edges);
    if n > 4096 {
        return Err(Refusal::LongRim);
    }
    lay_rim(book, &edges[..n], across, rim, rim_vertices, rim_edges)
}

// For a sheet, writes for each cell's three edges, in row order, the cell across it, or 65,535 for none; the rim as a day file with D = 1 at the front of `rim`; and at the front of the two maps the old vertices and edges. Refusals: 10, 11, 28 with 1 if D is not 2, 15, 28 with 2, 3 or 4, 29, 18, 21.
pub fn sheet(
    book: &[u32],
    across: &mut [u32],
    rim: &mut [u8],
    rim_vertices: &mut [u32],
    rim_edges: &mut [u32],
) -> Result<Rim, Refusal>
    ensures answer { answer_why result ≡ sheet_answer book.now (size across.old) (size rim.old) (size rim_vertices.old) (size rim_edges.old) }
    ensures place { answer_place result ≡ told (sheet_number book.now (size across.old) (size rim.old) (size rim_vertices.old) (size rim_edges.old)) (broken_at book.now) }
    ensures given { given [] rim_given result ≡ sheet_given book.now (size across.old) (size rim.old) (size rim_vertices.old) (size rim_edges.old) }
    ensures across { across.new ≡ sheet_across book.now across.old rim.old rim_vertices.old rim_edges.old }
    ensures bytes { rim.new ≡ sheet_bytes book.now across.old rim.old rim_vertices.old rim_edges.old }
    ensures vertices { rim_vertices.new ≡ sheet_vertices book.now across.old rim.old rim_vertices.old rim_edges.old }
    ensures edges { rim_edges.new ≡ sheet_edges book.now across.old rim.old rim_vertices.old rim_edges.old }
{
    let right = RightBook::check(book)?;
    if right.dim() != 2 {
        return Err(Refusal::NotSheet(NotSheet::Dimension));
    }
    if !needs_held(&right) {
        return Err(Refusal::NeedMissing);
    }
    tested(&right)?;
    lay(&right, across, rim, rim_vertices, rim_edges)
}
