// daysalvage: a day file on standard input, of which no more than 26,628 bytes are read, the length of the longest; on standard output the file of the cells that can be saved, or "refused" and the number. Standard error has the words for people.
// A read that fails is told on standard error, and nothing is written.
#![tactic(auto)]

ghost use Rattle.std.specs.Prelude.{◌*◌, ◌≤◌, length};

use std::io::Write;
use streams::{Failure, read_full};
use telling::Outcome;

// Writes a line for each run of dropped cells. Where the next run begins the last one says, so no range counts the turns.
fn tell_runs(people: &mut impl Write, dropped: &[u32]) {
    let mut line = [0u8; 79];
    let mut rest = dropped;
    while rest.len() >= 2 {
        let run = telling::tell_run(rest, &mut line);
        let _ = people.write_all(&line[..run.length]);
        rest = &rest[2 * run.cells..];
    }
}

// Writes the words for people: a line for each run of dropped cells, and the last words.
fn tell(people: &mut impl Write, dropped: &[u32], outcome: Outcome)
    requires { 2 * outcome.dropped ≤ length dropped.now }
{
    tell_runs(people, &dropped[..2 * outcome.dropped as usize]);
    let mut words = [0u8; 148];
    let length = telling::last_words(outcome, &mut words);
    let _ = people.write_all(&words[..length]);
}

fn main(rt: HostRuntime) -> Result<(), Failure> {
    let mut file = [0u8; 26628];
    let mut out = [0u8; 26628];
    let mut dropped = [0u32; 8192];
    let size = read_full(&mut rt.stdin(), &mut file).map_err(Failure::Input)?;
    let outcome = telling::answer(&file[..size], &mut out, &mut dropped);
    let length = outcome.length as usize;
    rt.stdout()
        .write_all(&out[..length])
        .map_err(Failure::Output)?;
    tell(&mut rt.stderr(), &dropped, outcome);
    Ok(())
}
