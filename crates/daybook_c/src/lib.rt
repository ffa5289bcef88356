// The C interface: each call of `daybook` under the name that include/daybook.h declares. The result is the paper's number, 0 where accepted; what an out reference refers to is written only where the paper gives something, and is otherwise left alone: with 11 the key and the position where the book is broken, with 28 why it is not a sheet.
#![tactic(auto)]

mod boxed;
mod salvaged;
mod sheeted;
mod told;
mod worked;

ghost use Rattle.std.specs.Prelude.{◌≡◌, cond, ◌||◌, ◌+◌, ◌<◌, length, eqb};
ghost use Rattle.rules.specs.Book.{row_start, row_of};
ghost use Rattle.rules.specs.Book as rule;
ghost use Rattle.rules.specs.Broken.{broken_key, broken_place, broken_offset};
ghost use Rattle.rules.specs.Calls.{fault_cell, load_number, load_words, make_number, make_words, ask_number, ask_words, drop_number, drop_words, list_number, list_answers, list_words, row_number, find_number, find_found, find_read, write_number, write_length, write_bytes, euler_number, euler_of, held_number, held_count};
ghost use Rattle.rules.specs.Closures.{close_number, closures_after, steps_after, bytes_after};

use book::Place;
pub use boxed::{daybook_box, daybook_whole_box};
use kinds::number_of;
pub use salvaged::daybook_salvage;
pub use sheeted::daybook_sheet;
use told::{put_cell, refused};
pub use worked::daybook_plain;

// Loads a day file; with 7, 8 and 23 the cell is written.
pub fn daybook_load(file: &[u8], book: &mut [u32], cell: &mut u32) -> u32
    ensures number { result ≡ load_number file.now book.old }
    ensures cell { cell.new ≡ cond (eqb result 7 || eqb result 8 || eqb result 23) (fault_cell file.now) cell.old }
    ensures words { book.new ≡ load_words file.now book.old }
{
    match daybook::load(file, book) {
        Ok(()) => 0,
        Err(refusal) => {
            put_cell(refusal, cell);
            refusal.number()
        }
    }
}

// Makes d→e from what the book stores.
pub fn daybook_make(book: &mut [u32], d: u32, e: u32, key: &mut u32, position: &mut usize) -> u32
    ensures number { result ≡ make_number book.old d e }
    ensures key { key.new ≡ cond (eqb result 11) (broken_key book.old) key.old }
    ensures position { position.new ≡ cond (eqb result 11) (broken_place book.old) position.old }
    ensures words { book.new ≡ make_words book.old d e }
{
    match daybook::make(book, d, e) {
        Ok(()) => 0,
        Err(refusal) => refused(refusal, key, position),
    }
}

// Makes d→e and, as far as missing, everything it is made from, or nothing at all.
pub fn daybook_ask(book: &mut [u32], d: u32, e: u32, key: &mut u32, position: &mut usize) -> u32
    ensures number { result ≡ ask_number book.old d e }
    ensures key { key.new ≡ cond (eqb result 11) (broken_key book.old) key.old }
    ensures position { position.new ≡ cond (eqb result 11) (broken_place book.old) position.old }
    ensures words { book.new ≡ ask_words book.old d e }
{
    match daybook::ask(book, d, e) {
        Ok(()) => 0,
        Err(refusal) => refused(refusal, key, position),
    }
}

// Asks for each d, e pair in turn and writes each ask's number in its place; a refused ask does not stop the next.
pub fn daybook_ask_list(book: &mut [u32], pairs: &[u32], answers: &mut [u32]) -> u32
    ensures number { result ≡ list_number pairs.now answers.old }
    ensures answers { answers.new ≡ list_answers book.old pairs.now answers.old }
    ensures words { book.new ≡ list_words book.old pairs.now answers.old }
{
    number_of(&daybook::ask_list(book, pairs, answers))
}

// Takes d→e out of the book and gives back its room; with 11 the key and the position are written.
pub fn daybook_drop(book: &mut [u32], d: u32, e: u32, key: &mut u32, position: &mut usize) -> u32
    ensures number { result ≡ drop_number book.old d e }
    ensures key { key.new ≡ cond (eqb result 11) (broken_key book.old) key.old }
    ensures position { position.new ≡ cond (eqb result 11) (broken_place book.old) position.old }
    ensures words { book.new ≡ drop_words book.old d e }
{
    match daybook::drop_relation(book, d, e) {
        Ok(()) => 0,
        Err(refusal) => refused(refusal, key, position),
    }
}

// The place where row i of the relation of key k begins.
fn place_of_row(book: &[u32], k: u32, i: u32) -> Place
    requires { k < 16 }
    ensures { result.0 ≡ row_start book.now k i }
{
    let at = book::place_of(book, k).0;
    let first = book::word(book, Place(at + i as usize)) as usize;
    Place(at + book::count(book, k / 4) as usize + 1 + first)
}

// Row i of d→e: where accepted, its first word's place and how many words it has are written.
pub fn daybook_row(
    book: &[u32],
    d: u32,
    e: u32,
    i: u32,
    start: &mut usize,
    count: &mut usize,
    key: &mut u32,
    position: &mut usize,
) -> u32
    ensures number { result ≡ row_number book.now d e i }
    ensures key { key.new ≡ cond (eqb result 11) (rule.key d e) key.old }
    ensures position { position.new ≡ cond (eqb result 11) (broken_offset book.now d e i) position.old }
    ensures start { start.new ≡ cond (eqb result 0) (row_start book.now (rule.key d e) i) start.old }
    ensures count { count.new ≡ cond (eqb result 0) (length (row_of book.now (rule.key d e) i)) count.old }
{
    match daybook::row_answer(book, d, e, i) {
        Ok(()) => {
            let k = book::key(d, e);
            let row = rows::row(book, k, i);
            *count = row.len();
            *start = place_of_row(book, k, i).0;
            0
        }
        Err(refusal) => refused(refusal, key, position),
    }
}

// Whether j is in row i of d→e: where accepted, 1 or 0 and how many indices were read are written.
pub fn daybook_find(
    book: &[u32],
    d: u32,
    e: u32,
    i: u32,
    j: u32,
    yes: &mut u32,
    read: &mut usize,
    key: &mut u32,
    position: &mut usize,
) -> u32
    ensures number { result ≡ find_number book.now d e i j }
    ensures key { key.new ≡ cond (eqb result 11) (rule.key d e) key.old }
    ensures position { position.new ≡ cond (eqb result 11) (broken_offset book.now d e i) position.old }
    ensures yes { yes.new ≡ cond (eqb result 0) (cond (find_found book.now d e i j) 1 0) yes.old }
    ensures read { read.new ≡ cond (eqb result 0) (find_read book.now d e i j) read.old }
{
    match daybook::find(book, d, e, i, j) {
        Ok(found) => {
            *yes = found.yes as u32;
            *read = found.read;
            0
        }
        Err(refusal) => refused(refusal, key, position),
    }
}

// Writes the book's file; where accepted, its length is written.
pub fn daybook_write(
    book: &[u32],
    bytes: &mut [u8],
    length: &mut usize,
    key: &mut u32,
    position: &mut usize,
) -> u32
    ensures number { result ≡ write_number book.now bytes.old }
    ensures key { key.new ≡ cond (eqb result 11) (broken_key book.now) key.old }
    ensures position { position.new ≡ cond (eqb result 11) (broken_place book.now) position.old }
    ensures length { length.new ≡ cond (eqb result 0) (write_length book.now) length.old }
    ensures bytes { bytes.new ≡ write_bytes book.now bytes.old }
{
    match daybook::write(book, bytes) {
        Ok(n) => {
            *length = n;
            0
        }
        Err(refusal) => refused(refusal, key, position),
    }
}

// The Euler number, written where accepted.
pub fn daybook_euler(book: &[u32], number: &mut i64, key: &mut u32, position: &mut usize) -> u32
    ensures number { result ≡ euler_number book.now }
    ensures key { key.new ≡ cond (eqb result 11) (broken_key book.now) key.old }
    ensures position { position.new ≡ cond (eqb result 11) (broken_place book.now) position.old }
    ensures value { number.new ≡ cond (eqb result 0) (euler_of book.now) number.old }
{
    match daybook::euler(book) {
        Ok(n) => {
            *number = n;
            0
        }
        Err(refusal) => refused(refusal, key, position),
    }
}

// The number of relations held, written where accepted.
pub fn daybook_held_count(book: &[u32], count: &mut u32) -> u32
    ensures number { result ≡ held_number book.now }
    ensures count { count.new ≡ cond (eqb result 0) (held_count book.now) count.old }
{
    match daybook::held_count(book) {
        Ok(n) => {
            *count = n;
            0
        }
        Err(refusal) => refusal.number(),
    }
}

// Phase closures: where accepted, the closure of every face, the step of every edge in turns, and 1 for each edge that is masked are written.
pub fn daybook_closures(
    book: &[u32],
    counts: &[i32],
    closures: &mut [i32],
    steps: &mut [f64],
    masked: &mut [u8],
    key: &mut u32,
    position: &mut usize,
) -> u32
    ensures number { result ≡ close_number book.now counts.now (length closures.old) (length steps.old) (length masked.old) }
    ensures key { key.new ≡ cond (eqb result 11) (broken_key book.now) key.old }
    ensures position { position.new ≡ cond (eqb result 11) (broken_place book.now) position.old }
    ensures closures { closures.new ≡ closures_after book.now counts.now closures.old steps.old masked.old }
    ensures steps { steps.new ≡ steps_after book.now counts.now closures.old steps.old masked.old }
    ensures bytes { masked.new ≡ bytes_after book.now counts.now closures.old steps.old masked.old }
{
    match daybook::close(book, counts, closures, steps, masked) {
        Ok(()) => 0,
        Err(refusal) => refused(refusal, key, position),
    }
}
