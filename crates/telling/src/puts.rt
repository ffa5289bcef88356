// The parts of a line, put into lent bytes.
ghost use Rattle.std.specs.Prelude.{◌≡◌, ◌<◌, ◌≤◌, length};
ghost use Rattle.report.specs.Printed.{Puts};
ghost use Rattle.salvaging.specs.Reasons.{reason_number};
ghost use Rattle.telling.specs.Words.{reason, cells_named, kept_line, meaning, refusal_line};
ghost use Rattle.telling.specs.Program.{only_if};

use report::Printer;
use salvaging::Reason;

// Puts one cell, or the cells from the first to the last.
pub fn put_cells(printer: &mut Printer, first: u32, last: u32)
    requires { printer.old.at < 32700 }
    ensures { Puts 30 printer.old (cells_named first last) printer.new }
{
    if first == last {
        printer.put_text(b"cell ");
        return printer.put_number(first);
    }
    printer.put_text(b"cells ");
    printer.put_number(first);
    printer.put_text(b" to ");
    printer.put_number(last);
}

// Puts a line, if it holds.
#[tactic(auto, unfolding(crate::specs::Program::only_if))]
pub fn put_if(printer: &mut Printer, holds: bool, line: &[u8])
    requires { (printer.old.at < 32768) × (length line.now < 256) }
    ensures { Puts (length line.now) printer.old (only_if holds line.now) printer.new }
{
    if holds {
        printer.put_text(line);
    }
}

// Puts how many cells were kept, of how many, and how many bytes were written.
pub fn put_kept(printer: &mut Printer, kept: u32, cells: u32, bytes: u32)
    requires { printer.old.at < 32700 }
    ensures { Puts 62 printer.old (kept_line kept cells bytes) printer.new }
{
    printer.put_text(b"kept ");
    printer.put_number(kept);
    printer.put_text(b" of ");
    printer.put_number(cells);
    printer.put_text(b" cells, ");
    printer.put_number(bytes);
    printer.put_text(b" bytes written\n");
}

// Why a cell is dropped, in words.
#[tactic(auto, unfolding(crate::specs::Words::reason, crate::specs::Words::bytes_of))]
pub fn reason(why: Reason) -> &'static [u8]
    ensures words { result.now ≡ reason (reason_number why) }
    ensures short { length result.now ≤ 24 }
{
    match why {
        Reason::CutOff => b"not whole in the file",
        Reason::VertexOut => b"a vertex out of range",
        Reason::VertexTwice => b"a vertex twice",
        Reason::CellTwice => b"equal to an earlier cell",
    }
}

// What a refusal of that number means, in words; any other number than 1 to 4 is told as too little room.
#[tactic(auto, unfolding(crate::specs::Words::meaning, crate::specs::Words::bytes_of))]
fn meaning(number: u32) -> &'static [u8]
    ensures words { result.now ≡ meaning number }
    ensures short { length result.now ≤ 23 }
{
    match number {
        1 => b"fewer than 4 bytes",
        2 => b"D is 0",
        3 => b"more than 8192 vertices",
        4 => b"more than 4096 cells",
        _ => b"too little room",
    }
}

// Puts the line of a refusal.
pub fn put_refusal(printer: &mut Printer, number: u32)
    requires { printer.old.at < 32700 }
    ensures { Puts 33 printer.old (refusal_line number) printer.new }
{
    printer.put_text(b"refused: ");
    printer.put_text(meaning(number));
    printer.put_text(b"\n");
}
