// A relation among the words of a right book: where it stands, and its rows.
ghost use Rattle.std.specs.Prelude.{◌≡◌, true, ◌/◌, ◌<◌};
ghost use Rattle.rules.specs.Book.{count, held, row_of};
ghost use Rattle.sheets.specs.Stands.{Stands};

use book::Place;
use right::RightBook;

// The relation of a key: where its offsets begin, and where its indices do.
#[derive(Clone, Copy)]
pub struct Stand {
    pub key: u32,
    pub offsets: Place,
    pub indices: Place,
}

// Where the relation of key k, which is held, stands.
pub fn stand_of(book: &RightBook<'_>, k: u32) -> Stand
    requires { held book.now k ≡ true }
    ensures key { result.key ≡ k }
    ensures stands { Stands book.now result }
{
    let at = book::place_of(book.words(), k);
    Stand {
        key: k,
        offsets: at,
        indices: Place(at.0 + book.count(k / 4) as usize + 1),
    }
}

// Row i, by its indices.
pub fn row(book: &[u32], at: Stand, i: u32) -> &[u32]
    requires stands { Stands book.now at }
    requires below { i < count book.now (at.key / 4) }
    ensures { result.now ≡ row_of book.now at.key i }
{
    let offset = at.offsets.0 + i as usize;
    let first = at.indices.0 + book[offset] as usize;
    let end = at.indices.0 + book[offset + 1] as usize;
    &book[first..end]
}
