// The steps of edges and the closures of faces, written into lent lists.
ghost use Rattle.std.specs.Prelude.{◌≡◌, true, map, ◌+◌, ◌*◌, ◌<◌, length, get_or, pos, ltb};
ghost use Rattle.rules.specs.Lists.{up_to, all_of};
ghost use Rattle.closures.specs.Steps.{reading_of, step_of, turns_written, byte_written};
ghost use Rattle.rules.specs.Closures.{count_at, edge_step, edge_byte, face_closure};
ghost use Rattle.closures.specs.Rows.{pair_at, triple_at, Rowed};

use crate::values::{Reading, Step};
use crate::{closure, reading, step};

// A step's float as it is written: 0.0 where masked.
fn turns_written(s: Step) -> f64
    ensures { result ≡ turns_written s }
{
    match s {
        Step::Masked => 0.0,
        Step::Turns(x) => x,
    }
}

// A step's byte: 1 for masked, else 0.
fn byte_written(s: Step) -> u8
    ensures { result ≡ byte_written s }
{
    match s {
        Step::Masked => 1,
        Step::Turns(_) => 0,
    }
}

// The reading of the vertex that the word at `at` names.
fn reading_at(words: &[u32], counts: &[i32], at: usize) -> Reading
    requires there { at < length words.now }
    requires named { all_of (λ v. ltb v (length counts.now)) words.now ≡ true }
    ensures { result ≡ reading_of (get_or counts.now (get_or words.now at 0) (pos 0)) }
{
    let v = words[at] as usize;
    reading(counts[v])
}

// The step of an edge, two vertices, ascending.
fn edge_step(edge: &[u32], counts: &[i32]) -> Step
    requires { Rowed 2 1 edge.now counts.now }
    ensures { result ≡ step_of (count_at counts.now edge.now 0) (count_at counts.now edge.now 1) }
{
    let lower = reading_at(edge, counts, 0);
    let higher = reading_at(edge, counts, 1);
    step(lower, higher)
}

// The closure of a face, three vertices, ascending.
fn face_closure(face: &[u32], counts: &[i32]) -> i32
    requires { Rowed 3 1 face.now counts.now }
    ensures { result ≡ face_closure counts.now face.now }
{
    let a = reading_at(face, counts, 0);
    let b = reading_at(face, counts, 1);
    let c = reading_at(face, counts, 2);
    closure(step(a, b), step(b, c), step(a, c))
}

// Writes the step of each edge and its byte.
pub fn write_steps(edges: &[u32], counts: &[i32], steps: &mut [f64], bytes: &mut [u8])
    requires rowed { Rowed 2 (length steps.old) edges.now counts.now }
    requires even { length bytes.old ≡ length steps.old }
    ensures steps { steps.new ≡ map (λ i. edge_step counts.now (pair_at edges.now i)) (up_to (length steps.old)) }
    ensures bytes { bytes.new ≡ map (λ i. edge_byte counts.now (pair_at edges.now i)) (up_to (length steps.old)) }
{
    let n = steps.len();
    // By index: a zip of the three lists took five instructions more for each edge.
    for i in 0..n {
        let s = edge_step(&edges[2 * i..2 * i + 2], counts);
        steps[i] = turns_written(s);
        bytes[i] = byte_written(s);
    }
}

// Writes the closure of each face.
pub fn write_closures(faces: &[u32], counts: &[i32], closures: &mut [i32])
    requires { Rowed 3 (length closures.old) faces.now counts.now }
    ensures { closures.new ≡ map (λ i. face_closure counts.now (triple_at faces.now i)) (up_to (length closures.old)) }
{
    let n = closures.len();
    // By index: a zip of the two lists took two instructions more for each face.
    for i in 0..n {
        closures[i] = face_closure(&faces[3 * i..3 * i + 3], counts);
    }
}
