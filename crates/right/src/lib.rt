// A book that was looked through and found right: by the frame rule and by the row rule.
#![tactic(auto)]

ghost use Rattle.std.specs.Prelude.{◌≡◌, List, ℕ, IfOk};
ghost use Rattle.rules.specs.Book as rule;
ghost use Rattle.rules.specs.Book.{Right};
ghost use Rattle.rules.specs.Broken.{broken_at, told};
ghost use Rattle.rules.specs.Calls.{rule, first_broken};
ghost use Rattle.kinds.specs.Refusals.{answer_number, answer_place};
ghost use Rattle.right.specs.Checks.{right_number};

use kinds::Refusal;
use std::marker::Model;

// A right book, seen as its words.
#[derive(Drop)]
pub struct RightBook<'a> {
    words: &'a [u32],
}

impl<'a> Model for RightBook<'a> {
    ghost Value = { List ℕ };

    ghost view = { λ b. b.words.now };

    ghost invariant = { λ b. Right b.words.now };
}

impl<'a> RightBook<'a> {
    // Looks a book through. Refusals: 10, and 11 with where it is broken.
    pub fn check(words: &'a [u32]) -> Result<RightBook<'a>, Refusal>
        ensures number { answer_number result ≡ right_number words.now }
        ensures place { answer_place result ≡ told (right_number words.now) (broken_at words.now) }
        ensures words { IfOk result (λ b. b ≡ words.now) }
        ensures right { IfOk result (λ b. Right b) }
    {
        if !frame::frame_right(words) {
            return Err(Refusal::FrameBroken);
        }
        match rows::broken_at(words) {
            Some(place) => Err(Refusal::RowsBroken(place)),
            None => Ok(RightBook { words }),
        }
    }

    // Its words.
    pub fn words(&self) -> &'a [u32]
        ensures words { result.now ≡ self.now }
        ensures right { Right self.now }
    {
        self.words
    }

    // D.
    pub fn dim(&self) -> u32
        ensures dim { result ≡ rule.dim self.now }
        ensures right { Right self.now }
    {
        book::dim(self.words)
    }

    // N_d.
    pub fn count(&self, d: u32) -> u32
        ensures { result ≡ rule.count self.now d }
    {
        book::count(self.words, d)
    }

    // Whether the relation of key k is held.
    pub fn held(&self, k: u32) -> bool
        ensures { result ≡ rule.held self.now k }
    {
        book::held(self.words, k)
    }
}
