// Phase closures: readings of counts, steps of edges and closures of faces, in 64-bit floats that are exact.
#![tactic(auto)]

mod values;
mod writing;

ghost use Rattle.std.specs.Prelude.{◌≡◌, T, ℤ};
ghost use Rattle.rules.specs.Phases.{counted, closure_of};
ghost use Rattle.closures.specs.Steps.{reading_of, step_of, wrapped_turns, whole_turns, step_between, closure_between};

pub use values::{Reading, Step};
pub use writing::{write_closures, write_steps};

// The reading of a count: masked at 65,536, else the count over 65,536, which is exact.
pub fn reading(count: i32) -> Reading
    ensures { result ≡ reading_of count }
{
    if count == 65536 {
        return Reading::Masked;
    }
    Reading::Phase(count as f64 / 65536.0)
}

// A difference of phases brought by a whole turn, if need be, to at least −1/2 and below 1/2.
fn wrapped(turns: f64) -> f64
    ensures { result ≡ wrapped_turns turns }
{
    if turns < -0.5 {
        return turns + 1.0;
    }
    if turns < 0.5 {
        return turns;
    }
    turns - 1.0
}

// The step from the lower vertex's reading to the higher's.
pub fn step(lower: Reading, higher: Reading) -> Step
    ensures floats { result ≡ step_between lower higher }
    ensures counts { (k j : ℤ) → T (counted k) → T (counted j) → lower ≡ reading_of k → higher ≡ reading_of j → result ≡ step_of k j }
{
    match lower {
        Reading::Masked => Step::Masked,
        Reading::Phase(x) => match higher {
            Reading::Masked => Step::Masked,
            Reading::Phase(y) => Step::Turns(wrapped(y - x)),
        },
    }
}

// Turns as a number of whole ones, where they are −1, 0 or 1.
fn whole(turns: f64) -> i32
    ensures { result ≡ whole_turns turns }
{
    if turns < 0.0 {
        return -1;
    }
    if 0.0 < turns {
        return 1;
    }
    0
}

// The closure of a face a < b < c from its three steps: −1, 0 or 1, and 2 where one is masked.
pub fn closure(ab: Step, bc: Step, ac: Step) -> i32
    ensures floats { result ≡ closure_between ab bc ac }
    ensures counts { (i j k : ℤ) → T (counted i) → T (counted j) → T (counted k) → ab ≡ step_of i j → bc ≡ step_of j k → ac ≡ step_of i k → result ≡ closure_of i j k }
{
    match ab {
        Step::Masked => 2,
        Step::Turns(x) => match bc {
            Step::Masked => 2,
            Step::Turns(y) => match ac {
                Step::Masked => 2,
                Step::Turns(z) => whole(x + y - z),
            },
        },
    }
}
