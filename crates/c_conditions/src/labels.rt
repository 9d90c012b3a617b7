// The labels of a `switch`.

ghost use Rattle.std.specs.Prelude.{◌≡◌, ◌==◌, ◌||◌, ◌++◌, ◌∷◌, [], ℕ, List, Some, None, IfOk, OnOk};
ghost use Rattle.c_types.specs.Refusals.{broken};
ghost use Rattle.c_types.specs.Constants as constants;
ghost use Rattle.c_types.specs.Operands as plain;
ghost use Rattle.c_syntax.specs.Plain as tree;
ghost use Rattle.c_syntax.specs.View.{expr_of, maybe};
ghost use Rattle.std.specs.Result.{result_err};
ghost use Rattle.c_types.specs.Scope.{Scope};
ghost use Rattle.c_types.specs.Statements as statements;
ghost use Rattle.c_types.specs.Statements.{CaseLabel, case_rules, same_case, part_judged, labels_rules};
ghost use Rattle.c_types.specs.Table.{known};
ghost use Rattle.c_types.specs.Known.{Grows};
ghost use Rattle.c_operands.specs.Scoped.{Fits, FitsSome};
ghost use Rattle.c_types.specs.Table.{Table};
ghost use Rattle.c_types.specs.Seen.{constant_of};
ghost use Rattle.c_operands.specs.Seen.{IsOperand};
ghost use Rattle.c_conditions.specs.Cases.{has_word, has_case, labels_in, AreLabels};
ghost use Rattle.c_conditions.specs.Told.{IsTested};
ghost use Rattle.c_types.specs.Refusals.{Judged};

use crate::verdicts::{Tested, broken};
use c_expressions::judge;
use c_operands::{Declarations, Operand, merged};
use c_syntax::tree::Expr;
use c_types::{Constant, TypeFault, Types};
use ordered::OrderedSet;
use std::alloc::{AllocError, Global};

// The refusal of a case that is no constant expression with a value.
fn case_fault(at: u32, constant: Constant) -> Option<TypeFault>
    ensures { result ≡ broken (case_rules at (constant_of constant)) }
{
    match constant {
        Constant::NotConstant => Some(TypeFault::Mismatch(at)),
        Constant::Undefined(place) => Some(TypeFault::Mismatch(place)),
        Constant::Value(_word) => None,
    }
}

// A word more. The answer is whether it was there.
fn add_word(words: &mut OrderedSet<u32>, word: u32) -> Result<bool, AllocError>
    ensures there { IfOk result (λ b. b ≡ has_word words.old.keys word) }
    ensures words { (x : ℕ) → OnOk result (has_word words.new.keys x ≡ (x == word || has_word words.old.keys x)) }
{
    let added = words.insert(word)?;
    Ok(!added)
}

// The word of a constant, if it has one. The answer is whether it was there.
fn add_constant(words: &mut OrderedSet<u32>, constant: Constant) -> Result<bool, AllocError>
    ensures there { IfOk result (λ b. b ≡ has_case words.old.keys (constant_of constant)) }
    ensures words { (x : ℕ) → OnOk result (has_word words.new.keys x ≡ (same_case (constants.Value x) (constant_of constant) || has_word words.old.keys x)) }
{
    match constant {
        Constant::NotConstant => Ok(false),
        Constant::Undefined(_place) => Ok(false),
        Constant::Value(word) => add_word(words, word.get()),
    }
}

/// The labels of a `switch` so far: the refusal of their rules that is told, the words of the cases, and whether one is the default.
#[derive(Drop)]
pub struct Labels {
    pub broken: Option<TypeFault>,
    pub words: OrderedSet<u32>,
    pub default: bool,
}

impl Labels {
    /// No labels yet.
    pub fn new(alloc: Global) -> Labels
        ensures { AreLabels result [] }
    {
        Labels {
            broken: None,
            words: OrderedSet::new(alloc),
            default: false,
        }
    }

    /// A default more, at a place.
    pub fn add_default(&mut self, at: u32)
        ensures { (ls : List CaseLabel) → AreLabels self.old ls → AreLabels self.new (ls ++ record { pos = at; value = None } ∷ []) }
    {
        let own = broken(!self.default, TypeFault::Twice(at));
        self.broken = merged(self.broken, own);
        self.default = true;
    }

    /// A case more, at a place, of a value.
    pub fn add_case(&mut self, at: u32, a: Operand) -> Result<(), AllocError>
        ensures { (table : Table) (x : plain.Operand) (ls : List CaseLabel) → IsOperand table a x → AreLabels self.old ls → OnOk result (AreLabels self.new (ls ++ record { pos = at; value = Some x } ∷ [])) }
    {
        let there = add_constant(&mut self.words, a.constant)?;
        let first = broken(!there, TypeFault::Twice(at));
        let own = merged(first, case_fault(a.at, a.constant));
        self.broken = merged(self.broken, own);
        Ok(())
    }
}

// A label with an expression.
fn add_value(
    types: &mut Types<'_>,
    declared: &Declarations<'_>,
    labels: &mut Labels,
    at: u32,
    e: &Expr,
) -> Result<Option<TypeFault>, AllocError>
    requires { FitsSome types.old declared.now }
    ensures told { (s : Scope) (w : statements.Around) → Fits types.old declared.now s → IfOk result (λ r. r ≡ result_err (part_judged s w (tree.Label at (Some (expr_of e.now))))) }
    ensures labels { (s : Scope) (w : statements.Around) (ls : List CaseLabel) → Fits types.old declared.now s → AreLabels labels.old ls → OnOk result (AreLabels labels.new (ls ++ labels_in (part_judged s w (tree.Label at (Some (expr_of e.now)))))) }
    ensures grows { OnOk result (Grows (known types.old) (known types.new)) }
    ensures tags { OnOk result (types.new.tags ≡ types.old.tags) }
{
    let value = judge(types, declared, e)?;
    match value {
        Ok(a) => {
            labels.add_case(at, a)?;
            Ok(None)
        }
        Err(fault) => Ok(Some(fault)),
    }
}

/// A label, at a place: a case, or the default where there is no expression.
pub fn add_label(
    types: &mut Types<'_>,
    declared: &Declarations<'_>,
    labels: &mut Labels,
    at: u32,
    e: &Option<Expr>,
) -> Result<Option<TypeFault>, AllocError>
    requires { FitsSome types.old declared.now }
    ensures told { (s : Scope) (w : statements.Around) → Fits types.old declared.now s → IfOk result (λ r. r ≡ result_err (part_judged s w (tree.Label at (maybe e.now)))) }
    ensures labels { (s : Scope) (w : statements.Around) (ls : List CaseLabel) → Fits types.old declared.now s → AreLabels labels.old ls → OnOk result (AreLabels labels.new (ls ++ labels_in (part_judged s w (tree.Label at (maybe e.now))))) }
    ensures grows { OnOk result (Grows (known types.old) (known types.new)) }
    ensures tags { OnOk result (types.new.tags ≡ types.old.tags) }
{
    match e {
        Some(e) => add_value(types, declared, labels, at, e),
        None => {
            labels.add_default(at);
            Ok(None)
        }
    }
}

/// What is told of the parts of a `switch`: the refusal of the parts, or that of the labels' rules.
pub fn labelled(told: Option<TypeFault>, labels: &Labels) -> Tested
    ensures none { (ls : List CaseLabel) → told ≡ None → AreLabels labels.now ls → IsTested (labels_rules []) result (Ok ls) }
    ensures some { (e : _) (p : Judged (List CaseLabel)) → told ≡ Some e → p ≡ Err e → IsTested (labels_rules []) result p }
{
    match told {
        None => Ok(labels.broken),
        Some(fault) => Err(fault),
    }
}
