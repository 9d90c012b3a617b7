// A side of an operator.

ghost use Rattle.std.specs.Prelude.{◌≡◌, ◌<◌, ◌^◌, length};
ghost use Rattle.c_types.specs.Types.{CType, Tags, words_of};
ghost use Rattle.c_types.specs.Table.{known, HasType};
ghost use Rattle.c_layouts.specs.Layouts.{AreLayouts};
ghost use Rattle.c_eval.specs.Operators as operators;
ghost use Rattle.c_kinds.specs.Sides.{IsSide};

use c_layouts::{Layout, words};
use c_operands::{Class, class_of, pointee};
use c_types::Types;

/// The type of a side of an operator: its class, and how many words an element has to which it points, or 1.
#[derive(Clone, Copy)]
pub struct Side {
    pub class: Class,
    pub words: u32,
}

/// How many words an object of a type takes, where these are fewer than 2^24.
pub fn word_count(types: &Types<'_>, layouts: &[Layout<'_>], ty: usize) -> u32
    requires { ty < length (known types.now) }
    ensures { (t : CType) (tags : Tags) → HasType types.now ty t → AreLayouts types.now layouts.now tags → words_of tags t < 2 ^ 24 → result ≡ words_of tags t }
{
    words(types, layouts, ty).low().get()
}

/// How many words an element has to which a pointer of a type points, where these are fewer than 2^24; 1 of any other type.
pub fn element_words(types: &Types<'_>, layouts: &[Layout<'_>], ty: usize) -> u32
    requires { ty < length (known types.now) }
    ensures { (t : CType) (tags : Tags) → HasType types.now ty t → AreLayouts types.now layouts.now tags → operators.element_words tags t < 2 ^ 24 → result ≡ operators.element_words tags t }
{
    match pointee(types.shape(ty)) {
        Some(to) => word_count(types, layouts, to),
        None => 1,
    }
}

/// A type as the side of an operator.
pub fn side_of(types: &Types<'_>, layouts: &[Layout<'_>], ty: usize) -> Side
    requires { ty < length (known types.now) }
    ensures { (t : CType) (tags : Tags) → HasType types.now ty t → AreLayouts types.now layouts.now tags → operators.element_words tags t < 2 ^ 24 → IsSide tags result t }
{
    Side {
        class: class_of(types, ty),
        words: element_words(types, layouts, ty),
    }
}
