// The static library: each call of `daybook_c` exported to C under its own name, with the clauses that it has there. include/daybook.h declares these.
#![tactic(auto)]

ghost use Rattle.std.specs.Prelude.{◌≡◌, cond, ◌||◌, length, eqb, get_or};
ghost use Rattle.rules.specs.Book.{row_start, row_of};
ghost use Rattle.rules.specs.Broken.{broken_key, broken_place, broken_offset};
ghost use Rattle.rules.specs.Calls.{fault_cell, load_number, load_words, make_number, make_words, ask_number, ask_words, drop_number, drop_words, list_number, list_answers, list_words, row_number, find_number, find_found, find_read, write_number, write_length, write_bytes, euler_number, euler_of, held_number, held_count};
ghost use Rattle.rules.specs.Closures.{close_number, closures_after, steps_after, bytes_after};
ghost use Rattle.rules.specs.Boxes.{box_number, box_given, whole_number, whole_given, some_box, box_after};
ghost use Rattle.rules.specs.Sheet.{rim_edges_of, rim_vertices_of, rim_length_of, sheet_answer, sheet_number, sheet_across, sheet_bytes, sheet_vertices, sheet_edges};
ghost use Rattle.rules.specs.Plain.{plain_number, plain_yes};
ghost use Rattle.rules.specs.Salvage.{saved_length, dropped_count, spare_was, pad_was, length_was, salvage_number, salvage_bytes, salvage_list};
ghost use Rattle.rules.specs.Book as rule;

// Loads a day file; with 7, 8 and 23 the cell is written.
#[unsafe(no_mangle)]
pub extern "C" fn daybook_load(file: &[u8], book: &mut [u32], cell: &mut u32) -> u32
    ensures number { result ≡ load_number file.now book.old }
    ensures cell { cell.new ≡ cond (eqb result 7 || eqb result 8 || eqb result 23) (fault_cell file.now) cell.old }
    ensures words { book.new ≡ load_words file.now book.old }
{
    daybook_c::daybook_load(file, book, cell)
}

// Makes d→e from what the book stores.
#[unsafe(no_mangle)]
pub extern "C" fn daybook_make(
    book: &mut [u32],
    d: u32,
    e: u32,
    key: &mut u32,
    position: &mut usize,
) -> u32
    ensures number { result ≡ make_number book.old d e }
    ensures key { key.new ≡ cond (eqb result 11) (broken_key book.old) key.old }
    ensures position { position.new ≡ cond (eqb result 11) (broken_place book.old) position.old }
    ensures words { book.new ≡ make_words book.old d e }
{
    daybook_c::daybook_make(book, d, e, key, position)
}

// Makes d→e and, as far as missing, everything it is made from, or nothing at all.
#[unsafe(no_mangle)]
pub extern "C" fn daybook_ask(
    book: &mut [u32],
    d: u32,
    e: u32,
    key: &mut u32,
    position: &mut usize,
) -> u32
    ensures number { result ≡ ask_number book.old d e }
    ensures key { key.new ≡ cond (eqb result 11) (broken_key book.old) key.old }
    ensures position { position.new ≡ cond (eqb result 11) (broken_place book.old) position.old }
    ensures words { book.new ≡ ask_words book.old d e }
{
    daybook_c::daybook_ask(book, d, e, key, position)
}

// Asks for each d, e pair in turn and writes each ask's number in its place; a refused ask does not stop the next.
#[unsafe(no_mangle)]
pub extern "C" fn daybook_ask_list(book: &mut [u32], pairs: &[u32], answers: &mut [u32]) -> u32
    ensures number { result ≡ list_number pairs.now answers.old }
    ensures answers { answers.new ≡ list_answers book.old pairs.now answers.old }
    ensures words { book.new ≡ list_words book.old pairs.now answers.old }
{
    daybook_c::daybook_ask_list(book, pairs, answers)
}

// Takes d→e out of the book and gives back its room; with 11 the key and the position are written.
#[unsafe(no_mangle)]
pub extern "C" fn daybook_drop(
    book: &mut [u32],
    d: u32,
    e: u32,
    key: &mut u32,
    position: &mut usize,
) -> u32
    ensures number { result ≡ drop_number book.old d e }
    ensures key { key.new ≡ cond (eqb result 11) (broken_key book.old) key.old }
    ensures position { position.new ≡ cond (eqb result 11) (broken_place book.old) position.old }
    ensures words { book.new ≡ drop_words book.old d e }
{
    daybook_c::daybook_drop(book, d, e, key, position)
}

// Row i of d→e: where accepted, its first word's place and how many words it has are written.
#[unsafe(no_mangle)]
pub extern "C" fn daybook_row(
    book: &[u32],
    d: u32,
    e: u32,
    i: u32,
    start: &mut usize,
    count: &mut usize,
    key: &mut u32,
    position: &mut usize,
) -> u32
    ensures number { result ≡ row_number book.now d e i }
    ensures key { key.new ≡ cond (eqb result 11) (rule.key d e) key.old }
    ensures position { position.new ≡ cond (eqb result 11) (broken_offset book.now d e i) position.old }
    ensures start { start.new ≡ cond (eqb result 0) (row_start book.now (rule.key d e) i) start.old }
    ensures count { count.new ≡ cond (eqb result 0) (length (row_of book.now (rule.key d e) i)) count.old }
{
    daybook_c::daybook_row(book, d, e, i, start, count, key, position)
}

// Whether j is in row i of d→e: where accepted, 1 or 0 and how many indices were read are written.
#[unsafe(no_mangle)]
pub extern "C" fn daybook_find(
    book: &[u32],
    d: u32,
    e: u32,
    i: u32,
    j: u32,
    yes: &mut u32,
    read: &mut usize,
    key: &mut u32,
    position: &mut usize,
) -> u32
    ensures number { result ≡ find_number book.now d e i j }
    ensures key { key.new ≡ cond (eqb result 11) (rule.key d e) key.old }
    ensures position { position.new ≡ cond (eqb result 11) (broken_offset book.now d e i) position.old }
    ensures yes { yes.new ≡ cond (eqb result 0) (cond (find_found book.now d e i j) 1 0) yes.old }
    ensures read { read.new ≡ cond (eqb result 0) (find_read book.now d e i j) read.old }
{
    daybook_c::daybook_find(book, d, e, i, j, yes, read, key, position)
}

// Writes the book's file; where accepted, its length is written.
#[unsafe(no_mangle)]
pub extern "C" fn daybook_write(
    book: &[u32],
    bytes: &mut [u8],
    length: &mut usize,
    key: &mut u32,
    position: &mut usize,
) -> u32
    ensures number { result ≡ write_number book.now bytes.old }
    ensures key { key.new ≡ cond (eqb result 11) (broken_key book.now) key.old }
    ensures position { position.new ≡ cond (eqb result 11) (broken_place book.now) position.old }
    ensures length { length.new ≡ cond (eqb result 0) (write_length book.now) length.old }
    ensures bytes { bytes.new ≡ write_bytes book.now bytes.old }
{
    daybook_c::daybook_write(book, bytes, length, key, position)
}

// The Euler number, written where accepted.
#[unsafe(no_mangle)]
pub extern "C" fn daybook_euler(
    book: &[u32],
    number: &mut i64,
    key: &mut u32,
    position: &mut usize,
) -> u32
    ensures number { result ≡ euler_number book.now }
    ensures key { key.new ≡ cond (eqb result 11) (broken_key book.now) key.old }
    ensures position { position.new ≡ cond (eqb result 11) (broken_place book.now) position.old }
    ensures value { number.new ≡ cond (eqb result 0) (euler_of book.now) number.old }
{
    daybook_c::daybook_euler(book, number, key, position)
}

// The number of relations held, written where accepted.
#[unsafe(no_mangle)]
pub extern "C" fn daybook_held_count(book: &[u32], count: &mut u32) -> u32
    ensures number { result ≡ held_number book.now }
    ensures count { count.new ≡ cond (eqb result 0) (held_count book.now) count.old }
{
    daybook_c::daybook_held_count(book, count)
}

// Phase closures: where accepted, the closure of every face, the step of every edge in turns, and 1 for each edge that is masked are written.
#[unsafe(no_mangle)]
pub extern "C" fn daybook_closures(
    book: &[u32],
    counts: &[i32],
    closures: &mut [i32],
    steps: &mut [f64],
    masked: &mut [u8],
    key: &mut u32,
    position: &mut usize,
) -> u32
    ensures number { result ≡ close_number book.now counts.now (length closures.old) (length steps.old) (length masked.old) }
    ensures key { key.new ≡ cond (eqb result 11) (broken_key book.now) key.old }
    ensures position { position.new ≡ cond (eqb result 11) (broken_place book.now) position.old }
    ensures closures { closures.new ≡ closures_after book.now counts.now closures.old steps.old masked.old }
    ensures steps { steps.new ≡ steps_after book.now counts.now closures.old steps.old masked.old }
    ensures bytes { masked.new ≡ bytes_after book.now counts.now closures.old steps.old masked.old }
{
    daybook_c::daybook_closures(book, counts, closures, steps, masked, key, position)
}

// The box of the entity (d, i): where accepted, its ends are written.
#[unsafe(no_mangle)]
pub extern "C" fn daybook_box(
    book: &[u32],
    coordinates: &[f64],
    axes: u32,
    d: u32,
    i: u32,
    ends: &mut [f64; 6],
    key: &mut u32,
    position: &mut usize,
) -> u32
    ensures number { result ≡ box_number book.now coordinates.now axes d i }
    ensures key { key.new ≡ cond (eqb result 11) (broken_key book.now) key.old }
    ensures position { position.new ≡ cond (eqb result 11) (broken_place book.now) position.old }
    ensures ends { ends.new ≡ box_after (box_given book.now coordinates.now axes d i) ends.old }
{
    daybook_c::daybook_box(book, coordinates, axes, d, i, ends, key, position)
}

// The box of the whole mesh: where accepted, 1 is written and its ends, or 0 for no box.
#[unsafe(no_mangle)]
pub extern "C" fn daybook_whole_box(
    book: &[u32],
    coordinates: &[f64],
    axes: u32,
    ends: &mut [f64; 6],
    some: &mut u32,
    key: &mut u32,
    position: &mut usize,
) -> u32
    ensures number { result ≡ whole_number book.now coordinates.now axes }
    ensures key { key.new ≡ cond (eqb result 11) (broken_key book.now) key.old }
    ensures position { position.new ≡ cond (eqb result 11) (broken_place book.now) position.old }
    ensures some { some.new ≡ cond (eqb result 0) (cond (some_box (whole_given book.now coordinates.now axes)) 1 0) some.old }
    ensures ends { ends.new ≡ box_after (whole_given book.now coordinates.now axes) ends.old }
{
    daybook_c::daybook_whole_box(book, coordinates, axes, ends, some, key, position)
}

// For a sheet, the cells across, the rim's file and the maps back to the old vertices and edges are written, with the file's length and how many vertices and edges it has; with 28 why it is not a sheet, and which vertex, edge or cell shows it; with 11 the key and the position.
#[unsafe(no_mangle)]
pub extern "C" fn daybook_sheet(
    book: &[u32],
    across: &mut [u32],
    rim: &mut [u8],
    rim_vertices: &mut [u32],
    rim_edges: &mut [u32],
    rim_length: &mut usize,
    vertex_count: &mut usize,
    edge_count: &mut usize,
    why: &mut u32,
    which: &mut u32,
    key: &mut u32,
    position: &mut usize,
) -> u32
    ensures number { result ≡ sheet_number book.now (length across.old) (length rim.old) (length rim_vertices.old) (length rim_edges.old) }
    ensures key { key.new ≡ cond (eqb result 11) (broken_key book.now) key.old }
    ensures position { position.new ≡ cond (eqb result 11) (broken_place book.now) position.old }
    ensures why { why.new ≡ get_or (sheet_answer book.now (length across.old) (length rim.old) (length rim_vertices.old) (length rim_edges.old)) 1 why.old }
    ensures which { which.new ≡ get_or (sheet_answer book.now (length across.old) (length rim.old) (length rim_vertices.old) (length rim_edges.old)) 2 which.old }
    ensures length { rim_length.new ≡ cond (eqb result 0) (rim_length_of book.now) rim_length.old }
    ensures vertices { vertex_count.new ≡ cond (eqb result 0) (length (rim_vertices_of book.now)) vertex_count.old }
    ensures edges { edge_count.new ≡ cond (eqb result 0) (length (rim_edges_of book.now)) edge_count.old }
    ensures across { across.new ≡ sheet_across book.now across.old rim.old rim_vertices.old rim_edges.old }
    ensures bytes { rim.new ≡ sheet_bytes book.now across.old rim.old rim_vertices.old rim_edges.old }
    ensures old_vertices { rim_vertices.new ≡ sheet_vertices book.now across.old rim.old rim_vertices.old rim_edges.old }
    ensures old_edges { rim_edges.new ≡ sheet_edges book.now across.old rim.old rim_vertices.old rim_edges.old }
{
    daybook_c::daybook_sheet(
        book,
        across,
        rim,
        rim_vertices,
        rim_edges,
        rim_length,
        vertex_count,
        edge_count,
        why,
        which,
        key,
        position,
    )
}

// Whether (e, j) is incident to (d, i), from the cells' vertex sets alone: where accepted, 1 or 0 is written; with 11 the key and the position.
#[unsafe(no_mangle)]
pub extern "C" fn daybook_plain(
    book: &[u32],
    d: u32,
    e: u32,
    i: u32,
    j: u32,
    yes: &mut u32,
    key: &mut u32,
    position: &mut usize,
) -> u32
    ensures number { result ≡ plain_number book.now d e i j }
    ensures key { key.new ≡ cond (eqb result 11) (broken_key book.now) key.old }
    ensures position { position.new ≡ cond (eqb result 11) (broken_place book.now) position.old }
    ensures yes { yes.new ≡ cond (eqb result 0) (cond (plain_yes book.now d e i j) 1 0) yes.old }
{
    daybook_c::daybook_plain(book, d, e, i, j, yes, key, position)
}

// Saves what can be saved of a file; where accepted, the file written, the cells dropped, the length, how many were dropped, and 1 or 0 for spare bits, pad bits and a wrong length are written.
#[unsafe(no_mangle)]
pub extern "C" fn daybook_salvage(
    file: &[u8],
    out: &mut [u8],
    dropped: &mut [u32],
    length: &mut usize,
    count: &mut usize,
    spare: &mut u32,
    pad: &mut u32,
    wrong_length: &mut u32,
) -> u32
    ensures number { result ≡ salvage_number file.now out.old dropped.old }
    ensures bytes { out.new ≡ salvage_bytes file.now out.old dropped.old }
    ensures list { dropped.new ≡ salvage_list file.now out.old dropped.old }
    ensures length { length.new ≡ cond (eqb result 0) (saved_length file.now) length.old }
    ensures count { count.new ≡ cond (eqb result 0) (dropped_count file.now) count.old }
    ensures spare { spare.new ≡ cond (eqb result 0) (cond (spare_was file.now) 1 0) spare.old }
    ensures pad { pad.new ≡ cond (eqb result 0) (cond (pad_was file.now) 1 0) pad.old }
    ensures wrong { wrong_length.new ≡ cond (eqb result 0) (cond (length_was file.now) 1 0) wrong_length.old }
{
    daybook_c::daybook_salvage(file, out, dropped, length, count, spare, pad, wrong_length)
}
