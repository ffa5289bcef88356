// Runs of dropped cells: those one after another that are dropped for the same reason have one line.
ghost use Rattle.std.specs.Prelude.{◌≡◌, ◌*◌, ◌<◌, ◌≤◌, length};
ghost use Rattle.report.specs.Printed.{Printed};
ghost use Rattle.telling.specs.Words.{run_line};
ghost use Rattle.telling.specs.Runs.{run_size, run_text};

use crate::puts::{put_cells, reason};
use report::Printer;
use salvaging::Reason;

// A run's line: how many cells it is about, and its length.
#[derive(Clone, Copy)]
pub struct Run {
    pub cells: usize,
    pub length: usize,
}

// How many pairs the run has that the pairs begin with.
fn run_size(pairs: &[u32]) -> usize
    requires { 2 ≤ length pairs.now }
    ensures size { result ≡ run_size pairs.now }
    ensures some { 0 < result }
    ensures there { 2 * result ≤ length pairs.now }
{
    let first = pairs[0];
    let why = pairs[1];
    for n in 0..pairs.len() / 2 {
        if pairs[2 * n] as usize != first as usize + n {
            return n;
        }
        if pairs[2 * n + 1] != why {
            return n;
        }
    }
    pairs.len() / 2
}

// Puts the line of a run. Gives its length.
fn put_run(out: &mut [u8], first: u32, last: u32, why: u32) -> usize
    ensures { Printed 79 (run_line first last why) out.old result out.new }
{
    let mut printer = Printer::new(out);
    put_cells(&mut printer, first, last);
    printer.put_text(b": dropped, ");
    printer.put_text(reason(Reason::from(why)));
    printer.put_text(b" (");
    printer.put_number(why);
    printer.put_text(b")\n");
    printer.at
}

// Puts the line of the run that the pairs begin with. Gives how many cells it is about, and the line's length.
#[tactic(auto, unfolding(crate::specs::Runs::run_text))]
pub fn tell_run(pairs: &[u32], out: &mut [u8]) -> Run
    requires { 2 ≤ length pairs.now }
    ensures cells { result.cells ≡ run_size pairs.now }
    ensures some { 0 < result.cells }
    ensures there { 2 * result.cells ≤ length pairs.now }
    ensures text { Printed 79 (run_text pairs.now) out.old result.length out.new }
{
    let cells = run_size(pairs);
    let last = 2 * (cells - 1);
    Run {
        cells,
        length: put_run(out, pairs[0], pairs[last], pairs[1]),
    }
}
