// A relation among the words of the book: where its rows start, and how a new one is written behind the used words.
#![tactic(auto)]

pub mod words;

ghost use Rattle.std.specs.Prelude.{◌≡◌, ◌+◌, ◌≤◌, ◌<◌, length};
ghost use Rattle.relations.specs.Words.{start_of};

use book::Place;

// A relation that another is made from: `from`→`to` stands at `at`, and has `rows` rows of indices below `below`.
#[derive(Clone, Copy)]
pub struct Source {
    pub from: u32,
    pub to: u32,
    pub at: Place,
    pub rows: u32,
    pub below: u32,
}

impl Source {
    // Where row `i` starts; or, behind the last row, where that ends.
    pub fn start(self, book: &[u32], i: usize) -> Place
        requires { (self.at.0 + self.rows < length book.now) × (i ≤ self.rows) }
        ensures { result.0 ≡ start_of book.now self.at.0 self.rows i }
    {
        words::start_of(book, self.at, self.rows as usize, i)
    }
}
