// What follows from the definitions alone.
ghost use Rattle.std.specs.Prelude.{◌≡◌, ◌<◌, ◌≤◌, ◌++◌, ◌∷◌, [], ℕ, List, Some, None, length, suc, take};
ghost use Rattle.c_syntax.specs.Plain.{CUnit};
ghost use Rattle.c_syntax.specs.declared.token.Token.{Token};
ghost use Rattle.c_grammar.specs.Machine.{Frame, run, start, whole};
ghost use Rattle.c_grammar.specs.Spelling.{Spellings, Spelt, Starts};
ghost use Rattle.c_grammar.specs.Class.{class_of};
ghost use Rattle.c_grammar.specs.Class as class;
ghost use Rattle.c_grammar.specs.Depths.{read_depths, top_depth};
ghost use Rattle.c_grammar.specs.Nesting.{unit_depths};
ghost use Rattle.c_grammar.specs.Spells.{Spells, IsFirstBad, IsDeepAt};
ghost use Rattle.c_grammar.specs.Values.{Open, ValueList, tree_of, depth_of};
ghost use Rattle.c_grammar.specs.Values as values;

/// Tokens spell at most one tree.
pub fn tokens_spell_one_tree()
    ensures { (ts : List Token) (a b : CUnit) → Spells ts a → Spells ts b → a ≡ b }
{}

/// Tokens have at most one spelling.
pub fn tokens_have_one_spelling()
    ensures { (ts : List Token) (a b : Spelt ts) → a.kids ≡ b.kids }
{}

/// What the machine of tokens reads to the end is spelled.
pub fn what_is_read_is_spelled()
    ensures { (ts : List Token) (kids : Spellings) → run ts start ≡ Some (whole kids) → Spelt ts }
{}

/// What is spelled the machine reads, and has its spelling.
pub fn what_is_spelled_is_read()
    ensures { (ts : List Token) (s : Spelt ts) → run ts start ≡ Some (whole s.kids) }
{}

/// Where the machine stands behind some tokens, a unit starts with them.
pub fn what_is_read_starts_a_unit()
    ensures { (ts : List Token) (s : List Frame) → run ts start ≡ Some s → Starts ts }
{}

/// Where it does not, none does.
pub fn what_is_not_read_starts_no_unit()
    ensures { (ts : List Token) → run ts start ≡ None → Starts ts → ⊥ }
{}

/// The token that it refuses is the first such that no unit starts with the tokens through it.
pub fn the_refused_token_is_the_first_bad()
    ensures { (ts : List Token) (k : ℕ) (s : List Frame) → run (take k ts) start ≡ Some s → run (take (suc k) ts) start ≡ None → IsFirstBad ts k }
{}

/// The machine knows the nesting at each token of a unit.
pub fn the_machine_knows_the_nesting()
    ensures { (ts : List Token) (kids : Spellings) → run ts start ≡ Some (whole kids) → read_depths ts start ≡ unit_depths kids }
{}

/// A token at which the machine counts more than 256 is nested too deep.
pub fn what_is_counted_is_deep()
    ensures { (ts : List Token) (k : ℕ) (s : List Frame) → k < length ts → run (take (suc k) ts) start ≡ Some s → 256 < top_depth s → IsDeepAt ts k }
{}

/// And no other is.
pub fn what_is_not_counted_is_not_deep()
    ensures { (ts : List Token) (k : ℕ) (s : List Frame) → k < length ts → run (take (suc k) ts) start ≡ Some s → top_depth s ≤ 256 → IsDeepAt ts k → ⊥ }
{}

/// Where the machine reads the token at a text's end, it has read a whole unit.
pub fn the_end_ends_a_unit()
    ensures { (ts : List Token) (e : Token) (s : List Frame) → class_of e ≡ class.End → run (ts ++ e ∷ []) start ≡ Some s → (kids : Spellings) × s ≡ whole kids }
{}

/// What the machine on values reads to the end spells the tree of its values.
pub fn values_spell_their_tree()
    ensures { (ts : List Token) (vs : ValueList) → values.run ts values.start ≡ Some (values.whole vs) → Spells ts (tree_of vs) }
{}

/// It reads what is spelled, and has its tree.
pub fn what_is_spelled_has_values()
    ensures { (ts : List Token) (tree : CUnit) → Spells ts tree → (vs : ValueList) × (values.run ts values.start ≡ Some (values.whole vs)) × (tree ≡ tree_of vs) }
{}

/// It refuses the first token such that no unit starts with the tokens through it.
pub fn values_refuse_the_first_bad()
    ensures { (ts : List Token) (k : ℕ) (s : List Open) → values.run (take k ts) values.start ≡ Some s → values.run (take (suc k) ts) values.start ≡ None → IsFirstBad ts k }
{}

/// A token at which it counts more than 256 is nested too deep.
pub fn what_values_count_is_deep()
    ensures { (ts : List Token) (k : ℕ) (s : List Open) → k < length ts → values.run (take (suc k) ts) values.start ≡ Some s → 256 < depth_of s → IsDeepAt ts k }
{}

/// And no other is.
pub fn what_values_do_not_count_is_not_deep()
    ensures { (ts : List Token) (k : ℕ) (s : List Open) → k < length ts → values.run (take (suc k) ts) values.start ≡ Some s → depth_of s ≤ 256 → IsDeepAt ts k → ⊥ }
{}
