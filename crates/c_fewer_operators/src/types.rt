// What operators ask of types.

ghost use Rattle.std.specs.Prelude.{◌≡◌, ◌<◌, ℕ, length, IfOk};
ghost use Rattle.c_syntax.specs.View.{expr_of};
ghost use Rattle.c_types.specs.Types.{CType, Tags, is_unsigned, is_pointer};
ghost use Rattle.c_types.specs.Scope.{Scope};
ghost use Rattle.c_types.specs.Room.{is_wide_pointer};
ghost use Rattle.c_eval.specs.Operators.{element_words};
ghost use Rattle.c_types.specs.Seen.{Counts};
ghost use Rattle.c_types.specs.Table.{known, HasType};
ghost use Rattle.c_layouts.specs.Layouts.{AreLayouts};
ghost use Rattle.c_helpers.specs.Fewer as fewer;
ghost use Rattle.c_fewer_operators.specs.Here.{Stands};

use crate::here::Here;
use c_layouts::{Layout, words};
use c_operands::{class_of, pointee};
use c_syntax::tree::Expr;
use c_terms::number;
use c_types::{Types, Words};
use std::alloc::AllocError;

/// Whether a type is a number without sign.
pub fn is_unsigned(types: &Types<'_>, ty: usize) -> bool
    requires { ty < length (known types.now) }
    ensures { (t : CType) → HasType types.now ty t → result ≡ is_unsigned t }
{
    class_of(types, ty).is_unsigned()
}

/// Whether a type is a pointer.
pub fn is_pointer(types: &Types<'_>, ty: usize) -> bool
    requires { ty < length (known types.now) }
    ensures { (t : CType) → HasType types.now ty t → result ≡ is_pointer t }
{
    class_of(types, ty).is_pointer()
}

// How many words an element has to which a pointer of a type points; 1 of any other type.
fn elements(types: &Types<'_>, layouts: &[Layout<'_>], ty: usize) -> Words
    requires { ty < length (known types.now) }
    ensures { (t : CType) (tags : Tags) → HasType types.now ty t → AreLayouts types.now layouts.now tags → Counts result (element_words tags t) }
{
    match pointee(types.shape(ty)) {
        Some(to) => words(types, layouts, to),
        None => Words::of(1),
    }
}

/// Whether a type is a pointer to elements of more than one word.
pub fn is_wide(types: &Types<'_>, here: &Here<'_>, ty: usize) -> bool
    requires { ty < length (known types.now) }
    ensures { (s : Scope) (t : CType) → Stands types.now here.now s → HasType types.now ty t → result ≡ is_wide_pointer s.tags t }
{
    !elements(types, here.declared.layouts.as_slice(), ty).at_most(1)
}

// A number of words. More than 2^22, which no object of a typed text has, are want of memory.
fn counted(words: Words) -> Result<u32, AllocError>
    ensures count { (n : ℕ) → Counts words n → IfOk result (λ k. k ≡ n) }
    ensures small { IfOk result (λ k. k < 16777216) }
{
    if words.at_most(4194304) {
        Ok(words.low().get())
    } else {
        Err(AllocError)
    }
}

/// The words of an element, as a number.
pub fn words_in(types: &Types<'_>, here: &Here<'_>, ty: usize) -> Result<Expr, AllocError>
    requires { ty < length (known types.now) }
    ensures { (s : Scope) (t : CType) → Stands types.now here.now s → HasType types.now ty t → IfOk result (λ e. expr_of e ≡ fewer.words_in s.tags t) }
{
    let count = counted(elements(types, here.declared.layouts.as_slice(), ty))?;
    Ok(number(0, count, false))
}

/// The words of an element below zero, as a number.
pub fn words_back(types: &Types<'_>, here: &Here<'_>, ty: usize) -> Result<Expr, AllocError>
    requires { ty < length (known types.now) }
    ensures { (s : Scope) (t : CType) → Stands types.now here.now s → HasType types.now ty t → IfOk result (λ e. expr_of e ≡ fewer.words_back s.tags t) }
{
    let count = counted(elements(types, here.declared.layouts.as_slice(), ty))?;
    let back = 16777216 - count;
    Ok(number(0, back, false))
}
