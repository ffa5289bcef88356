// A plain engine beside the relations: is (e, j) incident to (d, i), worked out from the cells' vertex sets each time, with its own numbering of entities. Once the book is found right, it goes by no relation but D→0. With what makes the relations it shares the checks of the book and the reading of single words, and nothing else.
#![tactic(auto)]

mod candidates;
mod chains;
mod incidence;
mod numbering;
mod sets;
mod stored;

ghost use Rattle.std.specs.Prelude.{◌≡◌, false, ◌≤◌};
ghost use Rattle.std.proofs.Math.Option.{none};
ghost use Rattle.rules.specs.Book.{dim};
ghost use Rattle.rules.specs.Broken.{broken_at, told};
ghost use Rattle.rules.specs.Plain.{mesh_in, plain_number, plain_yes};
ghost use Rattle.kinds.specs.Refusals.{answer_number, answer_place, given};
ghost use Rattle.plain.specs.Answers.{by_counts, said_of};

use incidence::worked_out;
use kinds::Refusal;
use numbering::Entity;
use right::RightBook;
use stored::{Mesh, Sizes};

// The answer from the cells of a right book. Refusals: 17 for i, 19 for j.
fn from_cells(book: &RightBook<'_>, d: u32, e: u32, i: u32, j: u32) -> Result<bool, Refusal>
    requires { (d ≤ dim book.now) × (e ≤ dim book.now) }
    ensures number { answer_number result ≡ by_counts (mesh_in book.now) d e i j }
    ensures yes { given false (λ y. y) result ≡ said_of (mesh_in book.now) d e i j }
    ensures place { answer_place result ≡ none }
{
    let top = book.dim();
    let sizes = Sizes {
        dim: top as usize,
        cells: book.count(top) as usize,
        vertices: book.count(0),
    };
    let mesh = Mesh {
        words: cells::cells(book.words()),
        sizes,
    };
    worked_out(
        &mesh,
        Entity {
            dim: d as usize,
            number: i,
        },
        Entity {
            dim: e as usize,
            number: j,
        },
    )
}

// Whether (e, j) is incident to (d, i). Refusals: 10, 11, 12, then 17 for i and 19 for j, by its own counts.
pub fn plain(book: &[u32], d: u32, e: u32, i: u32, j: u32) -> Result<bool, Refusal>
    ensures number { answer_number result ≡ plain_number book.now d e i j }
    ensures yes { given false (λ y. y) result ≡ plain_yes book.now d e i j }
    ensures place { answer_place result ≡ told (plain_number book.now d e i j) (broken_at book.now) }
{
    let right = RightBook::check(book)?;
    let top = right.dim();
    if d > top {
        return Err(Refusal::DimensionOver);
    }
    if e > top {
        return Err(Refusal::DimensionOver);
    }
    from_cells(&right, d, e, i, j)
}
