// Laws, each as the clause of a function that does nothing.
ghost use Rattle.std.specs.Prelude.{ℕ, List};
ghost use Rattle.mach_core.specs.Rule.{Rule, IsInput};
ghost use Rattle.eir_core.specs.Eir.{Eir};
ghost use Rattle.sim_trait.specs.Digits.{digit_count, HasDigits};
ghost use Rattle.sim_trait.specs.Bound.{Bound};
ghost use Rattle.sim_trait.specs.Faithful.{Follows};
ghost use Rattle.sim_trait.specs.Consequences.{FollowedRun};

/// A target's program that follows an EIR program never writes or takes ahead of it, meets no fault, ends only where
/// the program has ended, and ends within the bound where the program ends.
pub fn what_follows_runs_alike<D>()
    ensures { (target : Rule D) (first : D) (most : Bound) (p : Eir) → Follows target first most p →
        (input : List ℕ) → IsInput input → FollowedRun target first most p input }
{}

/// The number of a number's binary digits is the least number of digits with which it can be written.
pub fn numbers_have_their_digits()
    ensures { (n : ℕ) → HasDigits n (digit_count n) }
{}
