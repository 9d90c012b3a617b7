// Labels of a `switch`.

ghost use Rattle.std.specs.Prelude.{◌≡◌, ◌++◌, length, ℕ, IfOk, OnOk};
ghost use Rattle.c_syntax.specs.Plain as tree;
ghost use Rattle.c_syntax.specs.View.{expr_of, maybe};
ghost use Rattle.c_types.specs.Refusals as refusals;
ghost use Rattle.c_types.specs.Operands as plain;
ghost use Rattle.c_types.specs.Scope.{Scope};
ghost use Rattle.c_eval.specs.Environment.{Environment, word_in, constant_in};
ghost use Rattle.c_code.specs.Code.{label_of};
ghost use Rattle.c_types.specs.Table.{Table, known};
ghost use Rattle.c_types.specs.Known.{Grows};
ghost use Rattle.c_operands.specs.Scoped.{Fits, FitsSome};
ghost use Rattle.c_operands.specs.Seen.{IsOperand, IsJudged};
ghost use Rattle.word24.specs.Word.{number_of};
ghost use Rattle.c_aside.specs.Cases.{labels_of};

use c_aside::Label;
use c_expressions::judge;
use c_operands::{Declarations, Judged, Operand};
use c_syntax::tree::Expr;
use c_types::{Constant, Types};
use std::alloc::AllocError;
use word24::Word;

// The word of a constant expression, or 0.
fn word_of(a: Judged<Operand>) -> Word
    ensures { (table : Table) (p : refusals.Judged plain.Operand) → IsJudged (IsOperand table) a p → number_of result ≡ word_in p }
{
    match a {
        Ok(x) => match x.constant {
            Constant::Value(word) => word,
            _ => Word::wrap(0),
        },
        Err(_) => Word::wrap(0),
    }
}

// The word of a case.
fn case_word(
    types: &mut Types<'_>,
    declared: &Declarations<'_>,
    e: &Expr,
) -> Result<Word, AllocError>
    requires { FitsSome types.old declared.now }
    ensures word { (s : Scope) → Fits types.old declared.now s → IfOk result (λ w. number_of w ≡ constant_in s (expr_of e.now)) }
    ensures grows { OnOk result (Grows (known types.old) (known types.new)) }
    ensures tags { OnOk result (types.new.tags ≡ types.old.tags) }
{
    let a = judge(types, declared, e)?;
    Ok(word_of(a))
}

/// A label more, behind so many instructions of the parts before it.
pub fn add_label(
    types: &mut Types<'_>,
    declared: &Declarations<'_>,
    labels: &mut Vec<Label>,
    at: u32,
    e: &Option<Expr>,
) -> Result<(), AllocError>
    requires { FitsSome types.old declared.now }
    ensures labels { (env : Environment) (pos : ℕ) → Fits types.old declared.now env.scope → OnOk result (labels_of labels.new.items ≡ labels_of labels.old.items ++ label_of (tree.Label pos (maybe e.now)) env at) }
    ensures grows { OnOk result (Grows (known types.old) (known types.new)) }
    ensures tags { OnOk result (types.new.tags ≡ types.old.tags) }
{
    match e {
        Some(there) => {
            let word = case_word(types, declared, there)?;
            labels.push(Label {
                word: Some(word),
                at,
            })?;
            Ok(())
        }
        None => {
            labels.push(Label { word: None, at })?;
            Ok(())
        }
    }
}
