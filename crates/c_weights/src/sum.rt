// Sums over the nodes of a tree.

ghost use Rattle.std.specs.Prelude.{◌≡◌, ◌||◌, ℕ, ◌+◌, min};
ghost use Rattle.c_types.specs.Seen.{Counts};
ghost use Rattle.c_weights.specs.Sums.{most_told};

use c_types::Words;

// Whether one of two is so.
pub fn either(one: bool, other: bool) -> bool
    ensures { result ≡ (one || other) }
{
    one || other
}

/// What a tree comes to: its weight, whether a type in it has more words than an object may have, and, each as far as 2^22 + 1, its
/// nodes and the words of the objects that it declares.
#[derive(Clone, Copy)]
pub struct Sum {
    pub weight: Words,
    pub is_wide: bool,
    pub nodes: u64,
    pub words: u64,
}

// Two numbers that are told as far as 2^22 + 1, together.
fn together(one: u64, other: u64) -> u64
    ensures { (m n : ℕ) → one ≡ min m most_told → other ≡ min n most_told → result ≡ min (m + n) most_told }
{
    one.saturating_add(other).min(4194305)
}

/// So many words, as far as 2^22 + 1.
pub fn told(words: Words) -> u64
    ensures { (n : ℕ) → Counts words n → result ≡ min n most_told }
{
    if words.at_most(4194304) {
        u64::from(words.low().get())
    } else {
        4194305
    }
}

impl Sum {
    ghost use Rattle.std.specs.Prelude.{◌≡◌, ℕ, ◌+◌, false};
    ghost use Rattle.c_types.specs.Census.{Tally};
    ghost use Rattle.c_types.specs.Seen.{Counts};
    ghost use Rattle.c_weights.specs.Sums.{Sums};

    /// The sum of nothing.
    pub fn nothing() -> Sum
        ensures { Sums result (λ c. 0) }
    {
        Sum {
            weight: Words::of(0),
            is_wide: false,
            nodes: 0,
            words: 0,
        }
    }

    /// One node.
    pub fn node() -> Sum
        ensures { Sums result (λ c. c.node) }
    {
        Sum {
            weight: Words::of(1),
            is_wide: false,
            nodes: 1,
            words: 0,
        }
    }

    /// One node that is a string of so many bytes: its words are these and the zero.
    pub fn string(length: usize) -> Sum
        ensures weight { Counts result.weight (length + 2) }
        ensures wide { result.is_wide ≡ false }
        ensures nodes { result.nodes ≡ 1 }
        ensures words { result.words ≡ 0 }
    {
        Sum {
            weight: Words::of(length).plus(Words::of(2)),
            is_wide: false,
            nodes: 1,
            words: 0,
        }
    }

    /// The sum of two.
    pub fn plus(self, other: Sum) -> Sum
        ensures { (m n : Tally → ℕ) → Sums self m → Sums other n → Sums result (λ c. m c + n c) }
    {
        Sum {
            weight: self.weight.plus(other.weight),
            is_wide: either(self.is_wide, other.is_wide),
            nodes: together(self.nodes, other.nodes),
            words: together(self.words, other.words),
        }
    }
}
