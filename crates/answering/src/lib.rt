// What the program dayreport prints for a file: the file is loaded, all relations are asked for by ascending key, and the book is reported.
#![tactic(auto)]

ghost use Rattle.std.specs.Prelude.{◌≡◌, cond, ◌/◌, ◌%◌, ◌<◌};
ghost use Rattle.rules.specs.Calls.{ask_number, ask_words};
ghost use Rattle.report.specs.Printed.{Printed};
ghost use Rattle.answering.specs.Program.{within, all_number, all_words, or_refused, printed, printed_from};
ghost use Rattle.kinds.specs.Refusals.{answer_number};
ghost use Rattle.report.specs.Lines as lines;

use daybook::{ask, load};
use kinds::Refusal;
use report::{refused, report, too_long};

// Asks for the relation of key k, if it is one of a mesh of dimension `top`.
#[tactic(auto, unfolding(crate::specs::Program::within))]
fn ask_key(book: &mut [u32], top: u32, k: u32) -> Result<(), Refusal>
    ensures number { answer_number result ≡ cond (within top k) (ask_number book.old (k / 4) (k % 4)) 0 }
    ensures words { book.new ≡ cond (within top k) (ask_words book.old (k / 4) (k % 4)) book.old }
{
    if k / 4 > top || k % 4 > top {
        return Ok(());
    }
    ask(book, k / 4, k % 4)
}

// Asks for all relations by ascending key, up to the first that is refused.
fn ask_all(book: &mut [u32]) -> Result<(), Refusal>
    ensures number { answer_number result ≡ all_number book.old }
    ensures words { book.new ≡ all_words book.old }
{
    let top = book::dim(book);
    for k in 0..16 {
        ask_key(book, top, k)?;
    }
    Ok(())
}

// The report of a loaded book with all its relations, or the refusal. Gives the text's length.
#[tactic(auto, unfolding(crate::specs::Program::or_refused))]
fn report_all(book: &mut [u32], out: &mut [u8]) -> usize
    ensures text { Printed 764 (or_refused (all_number book.old) (lines.report (all_words book.old))) out.old result out.new }
    ensures words { book.new ≡ all_words book.old }
{
    match ask_all(book) {
        Ok(()) => report(book, out),
        Err(refusal) => refused(refusal.number(), out),
    }
}

// All that dayreport prints for a file: "too long" for more than 2,048 bytes, "refused" and the number, or the report. Gives the text's length.
#[tactic(auto, unfolding(crate::specs::Program::or_refused, crate::specs::Program::printed, crate::specs::Program::printed_from))]
pub fn answer(file: &[u8], book: &mut [u32], out: &mut [u8]) -> usize
    ensures text { Printed 764 (printed file.now book.old) out.old result out.new }
    ensures words { book.new ≡ printed_from file.now book.old }
{
    if file.len() > 2048 {
        return too_long(out);
    }
    match load(file, book) {
        Ok(()) => report_all(book, out),
        Err(refusal) => refused(refusal.number(), out),
    }
}
