// The streams of a program: its standard input read whole, and how a stream failed.
#![tactic(auto)]

ghost use Rattle.std.specs.Prelude.{◌≤◌, IfOk, length};

use std::fmt;
use std::io::{self, Read};

// A stream that failed, and how.
#[derive(Drop)]
pub enum Failure {
    Input(io::Error),
    Output(io::Error),
}

// What is told on standard error.
impl fmt::Debug for Failure {
    fn fmt<W: fmt::Write>(&self, f: &mut fmt::Formatter<W>) -> fmt::Result {
        match self {
            Failure::Input(error) => write!(f, "standard input: {error}"),
            Failure::Output(error) => write!(f, "standard output: {error}"),
        }
    }
}

// Reads until the input has ended or the bytes are full. Gives how many bytes were read. How much one read gives is the input's to say, so no range counts the turns.
pub fn read_full(input: &mut impl Read, bytes: &mut [u8]) -> io::Result<usize>
    ensures { IfOk result (λ n. n ≤ length bytes.new) }
{
    let mut size: usize = 0;
    while size < bytes.len() {
        let n = input.read(&mut bytes[size..])?;
        if n == 0 {
            break;
        }
        size += n;
    }
    Ok(size)
}
