// The last words: what was wrong with the file besides its cells, and how it went.
ghost use Rattle.std.specs.Prelude.{◌<◌};
ghost use Rattle.report.specs.Printed.{Puts, Printed};
ghost use Rattle.telling.specs.Program.{last_words};

use crate::Outcome;
use crate::puts::{put_if, put_kept, put_refusal};
use report::Printer;

// Puts what was wrong besides and how much was kept, or the refusal.
fn put_outcome(printer: &mut Printer, outcome: Outcome)
    requires { printer.old.at < 32000 }
    ensures { Puts 148 printer.old (last_words outcome) printer.new }
{
    if outcome.number != 0 {
        return put_refusal(printer, outcome.number);
    }
    put_if(printer, outcome.spare, b"spare bits were set\n");
    put_if(printer, outcome.pad, b"pad bits were set\n");
    put_if(
        printer,
        outcome.wrong_length,
        b"the length was not the one that the header asks\n",
    );
    put_kept(printer, outcome.kept, outcome.cells, outcome.length);
}

// Puts the lines that follow those of the cells: what was wrong besides and how much was kept, or the refusal. Gives the text's length.
pub fn last_words(outcome: Outcome, out: &mut [u8]) -> usize
    ensures { Printed 148 (last_words outcome) out.old result out.new }
{
    let mut printer = Printer::new(out);
    put_outcome(&mut printer, outcome);
    printer.at
}
