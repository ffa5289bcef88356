// The entities met, written as a relation.
ghost use Rattle.std.specs.Prelude.{◌≡◌, map, ◌+◌, ◌<◌, ◌^◌, take};
ghost use Rattle.rules.specs.Lists.{joined};
ghost use Rattle.rules.specs.Book.{relation};
ghost use Rattle.relations.specs.Words.{Written};
ghost use Rattle.building.specs.Sets.{vertices};

use crate::meet::Met;
use book::Place;
use relations::words::{put, write_offsets};

// Writes the d + 1 vertices of entity i from `at` on.
fn write_set(book: &mut [u32], sets: &[u32; 73728], at: Place, i: usize, d: u32)
    requires entity { i < 24576 }
    requires place { at.0 < 2 ^ 63 + 200000 }
    requires size { (0 < d) × (d < 3) }
    ensures { Written book.old at.0 (vertices d sets.now i) (at.0 + (d + 1)) book.new }
{
    let second = at.0 + 1;
    let third = at.0 + 2;
    put(book, at, sets[3 * i]);
    put(book, Place(second), sets[3 * i + 1]);
    if d == 2 {
        put(book, Place(third), sets[3 * i + 2]);
    }
}

impl Met {
    // Writes the d + 1 vertices of the entities one after another from `at` on, and gives the place after them.
    fn write_indices(&self, book: &mut [u32], d: u32, at: Place) -> Place
        requires size { (0 < d) × (d < 3) }
        requires place { at.0 < 2 ^ 63 + 100000 }
        ensures { Written book.old at.0 (joined (map (take (d + 1)) self.now)) result.0 book.new }
    {
        let mut to = at.0;
        for i in 0..self.count as usize {
            write_set(book, &self.sets, Place(to), i, d);
            to = to + d as usize + 1;
        }
        Place(to)
    }

    // Writes the relation of the entities, each with its d + 1 vertices, from `dst` on, and gives the place after it.
    pub(crate) fn write(&self, book: &mut [u32], d: u32, dst: Place) -> Place
        requires size { (0 < d) × (d < 3) }
        requires place { dst.0 < 2 ^ 63 }
        ensures { Written book.old dst.0 (relation (map (take (d + 1)) self.now)) result.0 book.new }
    {
        let n = self.count;
        write_offsets(book, dst, n, d + 1);
        let first = dst.0 + n as usize + 1;
        self.write_indices(book, d, Place(first))
    }
}
