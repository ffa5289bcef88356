// dayreport: a day file on standard input, in a book of 12,288 words; on standard output the counts of the mesh and of each relation.
// A read that fails is told on standard error, and nothing is printed.
#![tactic(auto)]

use std::io::Write;
use streams::{Failure, read_full};

fn main(rt: HostRuntime) -> Result<(), Failure> {
    let mut file = [0u8; 2049];
    let mut book = [0u32; 12288];
    let mut out = [0u8; 764];
    let size = read_full(&mut rt.stdin(), &mut file).map_err(Failure::Input)?;
    let length = answering::answer(&file[..size], &mut book, &mut out);
    rt.stdout()
        .write_all(&out[..length])
        .map_err(Failure::Output)
}
