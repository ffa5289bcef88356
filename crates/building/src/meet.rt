// Candidates met in turn: one not met before gets the next number, and the chain of its lowest vertex is where it is looked for.
ghost use Rattle.std.specs.Prelude.{◌≡◌, [], ◌∷◌, ◌++◌, map, ◌+◌, ◌*◌, ◌≤◌, ◌<◌, length, get_or, take};
ghost use Rattle.rules.specs.Lists.{up_to, any_of, same};
ghost use Rattle.rules.specs.Made.{met, met_all, built};
ghost use Rattle.relations.specs.Words.{row_at};
ghost use Rattle.building.specs.Sets.{padded};
ghost use Rattle.building.specs.Cells.{Between, Corners, Candidates};

use crate::candidates::{candidates, choices, corners};
use relations::Source;
use std::marker::Model;

// The entities met so far, in their order: three words for each, and the chains of those with the same lowest vertex, the newest first.
#[derive(Drop)]
pub(crate) struct Met {
    pub(crate) sets: [u32; 73728],
    head: [u32; 8192],
    next: [u32; 24576],
    pub(crate) count: u32,
}

impl Model for Met {
    ghost use Rattle.std.specs.Prelude.{List, ℕ};
    ghost use Rattle.building.specs.Sets.{entities, Chained};

    ghost Value = { List (List ℕ) };

    ghost view = { λ m. entities m.sets m.count };

    ghost invariant = { λ m. Chained m.sets m.head m.next m.count };
}

impl Met {
    // No entity yet.
    pub(crate) fn none() -> Met
        ensures { result ≡ [] }
    {
        Met {
            sets: [0; 73728],
            head: [0; 8192],
            next: [0; 24576],
            count: 0,
        }
    }

    // Whether the candidate is entity i. Three words are compared one by one, since this is the innermost test: no call, no loop.
    fn is_entity(&self, i: usize, candidate: [u32; 3]) -> bool
        requires { i < length self.now }
        ensures { result ≡ same candidate (get_or self.now i []) }
    {
        let sets = &self.sets;
        let at = 3 * i;
        candidate[0] == sets[at] && candidate[1] == sets[at + 1] && candidate[2] == sets[at + 2]
    }

    // Whether the candidate was met before.
    fn has(&self, candidate: [u32; 3]) -> bool
        requires { get_or candidate 0 0 < 8192 }
        ensures { result ≡ any_of (same candidate) self.now }
    {
        let mut p = self.head[candidate[0] as usize];
        // No `for` or chain: the next place of the chain is read from the last.
        while p > 0 {
            let i = p as usize - 1;
            if self.is_entity(i, candidate) {
                return true;
            }
            p = self.next[i];
        }
        false
    }

    // Puts the candidate down as one entity more: three stores, with no call for so short a copy.
    fn add(&mut self, candidate: [u32; 3])
        requires room { length self.old < 24576 }
        requires lowest { get_or candidate 0 0 < 8192 }
        ensures { self.new ≡ self.old ++ candidate ∷ [] }
    {
        let v = candidate[0] as usize;
        let n = self.count;
        let i = n as usize;
        self.sets[3 * i] = candidate[0];
        self.sets[3 * i + 1] = candidate[1];
        self.sets[3 * i + 2] = candidate[2];
        self.next[i] = self.head[v];
        self.head[v] = n + 1;
        self.count = n + 1;
    }

    // Meets one candidate.
    fn meet(&mut self, candidate: [u32; 3])
        requires room { length self.old < 24576 }
        requires lowest { get_or candidate 0 0 < 8192 }
        ensures { self.new ≡ met self.old candidate }
    {
        if !self.has(candidate) {
            self.add(candidate);
        }
    }

    // Meets the candidates of a cell in their order.
    fn meet_cell(&mut self, candidates: &[[u32; 3]])
        requires room { length self.old + 6 ≤ 24576 }
        requires few { length candidates.now ≤ 6 }
        requires good { Candidates candidates.now (length candidates.now) }
        ensures { self.new ≡ met_all self.old candidates.now }
    {
        for candidate in candidates {
            self.meet(*candidate);
        }
    }

    // Meets the candidates of every cell of D→0, the cells in ascending order.
    pub(crate) fn meet_cells(&mut self, book: &[u32], cells: Source, d: u32)
        requires none { self.old ≡ [] }
        requires between { Between d cells.from }
        requires corners { Corners book.now cells.from cells.at.0 cells.rows }
        ensures { self.new ≡ map (padded d) (built d [] (map (row_at book.now cells.at.0 cells.rows) (up_to cells.rows))) }
    {
        let top = cells.from;
        let many = choices(top, d);
        for c in 0..cells.rows as usize {
            let cell = corners(book, cells.start(book, c));
            self.meet_cell(&candidates(cell, top, d)[..many]);
        }
    }
}
