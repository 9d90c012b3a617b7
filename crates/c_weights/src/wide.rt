// Types of more words than an object may have.

ghost use Rattle.std.specs.Prelude.{◌≡◌, ◌<◌, length, nat_lt};
ghost use Rattle.c_types.specs.Types.{CType, CTypes, Tags, words_of};
ghost use Rattle.c_types.specs.Refusals as refusals;
ghost use Rattle.c_types.specs.Census.{of_type};
ghost use Rattle.c_types.specs.Limits.{is_over, wide_types, wide_types_in};
ghost use Rattle.c_forms.specs.Forms.{IsSomeType};
ghost use Rattle.c_types.specs.Table.{known, HasType};
ghost use Rattle.c_layouts.specs.Layouts.{AreLayouts};
ghost use Rattle.c_operands.specs.Seen.{IsJudged};
ghost use Rattle.c_operands.specs.Arguments.{HasList};
ghost use Rattle.c_weights.specs.Shapes.{parts_in};

use crate::sum::either;
use c_layouts::{Layout, words};
use c_operands::Judged;
use c_types::{Shape, Types};

/// The types that a type is made of.
#[derive(Clone, Copy)]
pub enum Parts {
    /// None, for a type.
    Whole,
    /// None, for a list of types.
    Empty,
    Pointer(usize),
    Array(usize),
    /// A function's result and parameters, or the first type of a list and the others.
    Both(usize, usize),
}

// The types that a type is made of.
fn parts_in(shape: Shape) -> Parts
    ensures { result ≡ parts_in shape }
{
    match shape {
        Shape::Pointer(to) => Parts::Pointer(to),
        Shape::Array(of, _) => Parts::Array(of),
        Shape::Function(gives, parameters) => Parts::Both(gives, parameters),
        Shape::MoreType(first, others) => Parts::Both(first, others),
        Shape::NoType => Parts::Empty,
        _ => Parts::Whole,
    }
}

// Whether a type itself has more words than an object may have.
fn is_over(types: &Types<'_>, layouts: &[Layout<'_>], ty: usize) -> bool
    requires { ty < length (known types.now) }
    ensures { (t : CType) (tags : Tags) → HasType types.now ty t → AreLayouts types.now layouts.now tags → result ≡ nat_lt 0 (is_over (words_of tags t)) }
{
    !words(types, layouts, ty).at_most(4194304)
}

/// Whether such a type occurs in a type, or in a list of types.
pub fn has_wide(types: &Types<'_>, layouts: &[Layout<'_>], ty: usize) -> bool
    requires { ty < length (known types.now) }
    ensures one { (t : CType) (tags : Tags) → HasType types.now ty t → AreLayouts types.now layouts.now tags → result ≡ nat_lt 0 (wide_types tags t) }
    ensures list { (ts : CTypes) (tags : Tags) → HasList types.now ty ts → AreLayouts types.now layouts.now tags → result ≡ nat_lt 0 (wide_types_in tags ts) }
{
    let parts = parts_in(types.shape(ty));
    match parts {
        Parts::Whole => is_over(types, layouts, ty),
        Parts::Empty => false,
        Parts::Pointer(to) => has_wide(types, layouts, to),
        Parts::Array(of) => either(is_over(types, layouts, ty), has_wide(types, layouts, of)),
        Parts::Both(first, others) => either(
            has_wide(types, layouts, first),
            has_wide(types, layouts, others),
        ),
    }
}

/// Whether such a type occurs in a type that is judged; none occurs in one that is refused.
pub fn is_wide(types: &Types<'_>, layouts: &[Layout<'_>], ty: Judged<usize>) -> bool
    requires { IsSomeType types.now ty }
    ensures { (p : refusals.Judged CType) (tags : Tags) → IsJudged (HasType types.now) ty p → AreLayouts types.now layouts.now tags → result ≡ nat_lt 0 (of_type (wide_types tags) p) }
{
    match ty {
        Ok(number) => has_wide(types, layouts, number),
        Err(_) => false,
    }
}
