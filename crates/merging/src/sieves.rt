// Sieves of indices: which of those that a merge comes to are written.
ghost use Rattle.std.specs.Prelude.{◌≡◌, ⊤, refl, Bool, List, ℕ, ◌<◌, length};
ghost use Rattle.merging.specs.Merge.{but};
ghost use Rattle.merging.specs.Sieving.{Sieving};

// A sieve of the indices below a bound, by the first words of the book and no others.
pub trait Sieve {
    // What it asks of the first m words of a book, to be asked of an index below b.
    ghost asks: { Self → List ℕ → ℕ → ℕ → Type 0 };

    // The indices that it passes.
    ghost passes: { Self → List ℕ → ℕ → Bool };

    // Whether it passes index j.
    fn passes(&self, book: &[u32], j: u32) -> bool
        requires { (b : ℕ) × (asks self.now book.now (length book.now) b × (j < b)) }
        ensures { result ≡ passes self.now book.now j };

    // It reads no other words.
    ghost reads: { Sieving asks passes };
}

// All indices but one.
#[derive(Clone, Copy)]
pub struct But(pub u32);

impl Sieve for But {
    ghost asks = { λ s ws m b. ⊤ };

    ghost passes = { λ s ws j. but s.0 j };

    ghost reads = { record { stays = λ s vs ws m b e l a. tt; same = λ s vs ws m b e a j l. refl } };

    #[tactic(auto, unfolding(crate::specs::Merge::but))]
    fn passes(&self, _book: &[u32], j: u32) -> bool {
        self.0 != j
    }
}
