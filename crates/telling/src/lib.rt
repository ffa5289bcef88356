// What the program daysalvage writes for a file, and what it tells people.
#![tactic(auto)]

mod ends;
mod puts;
mod runs;

ghost use Rattle.std.specs.Prelude.{◌≡◌};
ghost use Rattle.rules.specs.Salvage.{salvage_list};
ghost use Rattle.report.specs.Printed.{Printed};
ghost use Rattle.telling.specs.Program.{answered, outcome_of};

use daybook::salvage;
pub use ends::last_words;
use report::refused;
pub use runs::{Run, tell_run};

// What is known of a file once it is answered: the refusal's number, or 0; the length of what is written; the cells by the header, and how many of them were kept and dropped; whether spare bits were set, pad bits were set, or the length was not the one that the header asks.
// No `Result`: `last_words` tells of any number, which a `Refusal` would not hold.
#[derive(Clone, Copy)]
pub struct Outcome {
    pub number: u32,
    pub length: u32,
    pub cells: u32,
    pub kept: u32,
    pub dropped: u32,
    pub spare: bool,
    pub pad: bool,
    pub wrong_length: bool,
}

// Puts what the program writes: the file saved, or "refused" and the number. The cells dropped stand in the list then.
pub fn answer(file: &[u8], out: &mut [u8], dropped: &mut [u32]) -> Outcome
    ensures known { result ≡ outcome_of file.now out.old dropped.old }
    ensures text { Printed 26628 (answered file.now out.old dropped.old) out.old result.length out.new }
    ensures list { dropped.new ≡ salvage_list file.now out.old dropped.old }
{
    let cells = dayfile::header(file).cells();
    match salvage(file, out, dropped) {
        Ok(saved) => {
            let gone = saved.dropped as u32;
            Outcome {
                number: 0,
                length: saved.length as u32,
                cells,
                kept: cells - gone,
                dropped: gone,
                spare: saved.spare,
                pad: saved.pad,
                wrong_length: saved.wrong_length,
            }
        }
        Err(refusal) => {
            let number = refusal.number();
            Outcome {
                number,
                length: refused(number, out) as u32,
                cells,
                kept: 0,
                dropped: 0,
                spare: false,
                pad: false,
                wrong_length: false,
            }
        }
    }
}
