// What first values at file scope are worth.

ghost use Rattle.std.specs.Prelude.{◌≡◌, [], ◌∷◌, IfOk, OnOk};
ghost use Rattle.c_syntax.specs.View.{expr_of};
ghost use Rattle.c_types.specs.Types.{CType};
ghost use Rattle.c_types.specs.Refusals as refusals;
ghost use Rattle.c_types.specs.Operands as plain;
ghost use Rattle.word24.specs.Word.{number_of};
ghost use Rattle.c_types.specs.Table.{Table, known, HasType, IsType};
ghost use Rattle.c_types.specs.Known.{Grows};
ghost use Rattle.c_operands.specs.Seen.{IsOperand, IsJudged};
ghost use Rattle.c_declared.specs.Held.{Holds, HoldsSome};
ghost use Rattle.c_eval.specs.State as run;
ghost use Rattle.c_eval.specs.Operators as operators;
ghost use Rattle.c_eval.specs.Environment.{Environment, word_in};
ghost use Rattle.c_eval.specs.LiteralsIn.{literals_in};
ghost use Rattle.c_eval.specs.Text.{static_value};
ghost use Rattle.c_emitted.specs.Emits.{Emits, tables_of};
ghost use Rattle.c_plain.specs.Operators as words;
ghost use Rattle.c_store.specs.Shown.{value_of};
ghost use Rattle.c_static.specs.Forms.{IsQuiet};
ghost use Rattle.c_static.specs.File.{IsAtFile, IsWorth};

use crate::form::{StaticForm, static_form};
use crate::named::static_named;
use c_emitted::Emitter;
use c_expressions::judge;
use c_kinds::kind;
use c_operands::{Declarations, Judged, Operand};
use c_store::{Kind, Letter, Value, as_pointer};
use c_syntax::tree::Expr;
use c_types::{Constant, Types};
use std::alloc::AllocError;
use word24::Word;

// The word of a constant expression, or 0.
fn word_in(a: Judged<Operand>) -> Word
    ensures { (table : Table) (p : refusals.Judged plain.Operand) → IsJudged (IsOperand table) a p → number_of result ≡ word_in p }
{
    match a {
        Ok(x) => match x.constant {
            Constant::Value(word) => word,
            _ => Word::wrap(0),
        },
        Err(_) => Word::wrap(0),
    }
}

/// What a first value at file scope is worth.
pub fn static_value<'t>(
    types: &mut Types<'_>,
    declared: &Declarations<'_>,
    out: &mut Emitter<'t>,
    e: &'t Expr,
) -> Result<Value, AllocError>
    requires { HoldsSome types.old declared.now }
    ensures worth { (env : Environment) → IsAtFile types.old declared.now out.old env → IfOk result (λ v. IsWorth (tables_of out.new) (static_value env (expr_of e.now)) v) }
    ensures emits { (env : Environment) → IsAtFile types.old declared.now out.old env → IsQuiet env.scope (expr_of e.now) → OnOk result (Emits out.old out.new [] (literals_in env.scope (expr_of e.now))) }
    ensures grows { OnOk result (Grows (known types.old) (known types.new)) }
    ensures tags { OnOk result (types.new.tags ≡ types.old.tags) }
{
    match static_form(e) {
        StaticForm::Text(text) => {
            let literal = out.literal(text)?;
            Ok(Value::Letter(Letter { literal, offset: 0 }))
        }
        StaticForm::Null => Ok(Value::Null),
        StaticForm::Name(name) => static_named(declared, out, name),
        StaticForm::Constant => {
            let judged = judge(types, declared, e)?;
            Ok(Value::Word(word_in(judged)))
        }
    }
}

// A value converts to a kind: the word 0 becomes null where it is one of pointers.
fn converted(kind: Kind, v: Value) -> Value
    ensures { value_of result ≡ words.converted kind (value_of v) }
{
    match kind {
        Kind::Number => v,
        Kind::ObjectPointer | Kind::FunctionPointer => as_pointer(v),
    }
}

/// What the first value of an object of a type of one word is worth.
pub fn first_worth<'t>(
    types: &mut Types<'_>,
    declared: &Declarations<'_>,
    out: &mut Emitter<'t>,
    ty: usize,
    e: &'t Expr,
) -> Result<Value, AllocError>
    requires holds { HoldsSome types.old declared.now }
    requires ty { IsType types.old ty }
    ensures worth { (t : CType) (env : Environment) → HasType types.old ty t → IsAtFile types.old declared.now out.old env → IfOk result (λ v. IsWorth (tables_of out.new) (operators.converted t (static_value env (expr_of e.now))) v) }
    ensures emits { (env : Environment) → IsAtFile types.old declared.now out.old env → IsQuiet env.scope (expr_of e.now) → OnOk result (Emits out.old out.new [] (literals_in env.scope (expr_of e.now))) }
    ensures grows { OnOk result (Grows (known types.old) (known types.new)) }
    ensures tags { OnOk result (types.new.tags ≡ types.old.tags) }
{
    let v = static_value(types, declared, out, e)?;
    Ok(converted(kind(types, ty), v))
}
