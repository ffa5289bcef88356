// The lowest vertex that lies in no cell.
ghost use Rattle.std.specs.Prelude.{◌≡◌, true, not, ◌≤◌};
ghost use Rattle.rules.specs.Lists.{up_to, first_at};
ghost use Rattle.rules.specs.Book.{count, frame_right, rows_right};
ghost use Rattle.rules.specs.Stamps.{bears};
ghost use Rattle.rules.specs.Sheet.{unused};
ghost use Rattle.kinds.specs.Lowest.{lowest_below};

use crate::{cells, mark};

// The lowest of the vertices below n that is not marked with 1.
fn first_unmarked(marks: &[u8; 8192], n: u32) -> Option<u32>
    requires { n ≤ 8192 }
    ensures { result ≡ lowest_below (λ v. v) n (first_at (λ v. not (bears marks.now 1 v)) (up_to n)) }
{
    (0..n).find(|v| marks[*v as usize] != 1)
}

// The lowest vertex that lies in no cell.
pub fn first_unused(book: &[u32]) -> Option<u32>
    requires { (frame_right book.now ≡ true) × (rows_right book.now ≡ true) }
    ensures { result ≡ lowest_below (λ v. v) (count book.now 0) (first_at (unused book.now) (up_to (count book.now 0))) }
{
    let mut marks = [0u8; 8192];
    mark(cells(book), &mut marks);
    first_unmarked(&marks, book::count(book, 0))
}
