// The sheet profile under its C name.
ghost use Rattle.std.specs.Prelude.{◌≡◌, cond, length, get_or, eqb};
ghost use Rattle.rules.specs.Broken.{broken_key, broken_place};
ghost use Rattle.rules.specs.Sheet.{rim_edges_of, rim_vertices_of, rim_length_of, sheet_answer, sheet_number, sheet_across, sheet_bytes, sheet_vertices, sheet_edges};

use crate::told::{put_why, refused};

// For a sheet, the cells across, the rim's file and the maps back to the old vertices and edges are written, with the file's length and how many vertices and edges it has; with 28 why it is not a sheet, and which vertex, edge or cell shows it; with 11 the key and the position.
pub fn daybook_sheet(
    book: &[u32],
    across: &mut [u32],
    rim: &mut [u8],
    rim_vertices: &mut [u32],
    rim_edges: &mut [u32],
    rim_length: &mut usize,
    vertex_count: &mut usize,
    edge_count: &mut usize,
    why: &mut u32,
    which: &mut u32,
    key: &mut u32,
    position: &mut usize,
) -> u32
    ensures number { result ≡ sheet_number book.now (length across.old) (length rim.old) (length rim_vertices.old) (length rim_edges.old) }
    ensures key { key.new ≡ cond (eqb result 11) (broken_key book.now) key.old }
    ensures position { position.new ≡ cond (eqb result 11) (broken_place book.now) position.old }
    ensures why { why.new ≡ get_or (sheet_answer book.now (length across.old) (length rim.old) (length rim_vertices.old) (length rim_edges.old)) 1 why.old }
    ensures which { which.new ≡ get_or (sheet_answer book.now (length across.old) (length rim.old) (length rim_vertices.old) (length rim_edges.old)) 2 which.old }
    ensures length { rim_length.new ≡ cond (eqb result 0) (rim_length_of book.now) rim_length.old }
    ensures vertices { vertex_count.new ≡ cond (eqb result 0) (length (rim_vertices_of book.now)) vertex_count.old }
    ensures edges { edge_count.new ≡ cond (eqb result 0) (length (rim_edges_of book.now)) edge_count.old }
    ensures across { across.new ≡ sheet_across book.now across.old rim.old rim_vertices.old rim_edges.old }
    ensures bytes { rim.new ≡ sheet_bytes book.now across.old rim.old rim_vertices.old rim_edges.old }
    ensures old_vertices { rim_vertices.new ≡ sheet_vertices book.now across.old rim.old rim_vertices.old rim_edges.old }
    ensures old_edges { rim_edges.new ≡ sheet_edges book.now across.old rim.old rim_vertices.old rim_edges.old }
{
    match daybook::sheet(book, across, rim, rim_vertices, rim_edges) {
        Ok(found) => {
            *rim_length = found.length;
            *vertex_count = found.vertices;
            *edge_count = found.edges;
            0
        }
        Err(refusal) => {
            put_why(refusal, why, which);
            refused(refusal, key, position)
        }
    }
}
