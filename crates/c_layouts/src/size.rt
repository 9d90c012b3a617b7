// How many words types take.

ghost use Rattle.std.specs.Prelude.{◌≡◌, ◌<◌, length, Option};
ghost use Rattle.c_types.specs.Types as types;
ghost use Rattle.c_types.specs.Types.{CType, Tags, words_of, is_object_type};
ghost use Rattle.c_types.specs.Seen.{Counts};
ghost use Rattle.c_types.specs.Table.{known, HasType};
ghost use Rattle.c_layouts.specs.Layouts.{AreLayouts, LayoutAt, array_parts, tag_of, plain_words, plain_object};

use crate::layout::Layout;
use c_types::{Shape, Types, Words};

/// An array's elements and its length.
pub fn array_parts(shape: Shape) -> Option<(usize, usize)>
    ensures { result ≡ array_parts shape }
{
    match shape {
        Shape::Array(of, count) => Some((of, count)),
        _ => None,
    }
}

/// A struct's tag.
pub fn tag_of(shape: Shape) -> Option<usize>
    ensures { result ≡ tag_of shape }
{
    match shape {
        Shape::Struct(tag) => Some(tag),
        _ => None,
    }
}

// The words of what is no array and no struct.
fn plain_words(shape: Shape) -> usize
    ensures { result ≡ plain_words shape }
{
    match shape {
        Shape::Void | Shape::Function(_, _) | Shape::NoType | Shape::MoreType(_, _) => 0,
        _ => 1,
    }
}

// The words of a struct.
fn struct_words(layouts: &[Layout<'_>], tag: usize) -> Words
    ensures { (all : _) (o : Option types.Layout) → LayoutAt all layouts.now tag o → Counts result (types.layout_words o) }
{
    match layouts.get(tag) {
        Some(layout) => layout.words(),
        None => Words::of(0),
    }
}

/// How many words an object of a type takes.
pub fn words(types: &Types<'_>, layouts: &[Layout<'_>], ty: usize) -> Words
    requires { ty < length (known types.now) }
    ensures { (t : CType) (tags : Tags) → HasType types.now ty t → AreLayouts types.now layouts.now tags → Counts result (words_of tags t) }
{
    let shape = types.shape(ty);
    if let Some((of, count)) = array_parts(shape) {
        return words(types, layouts, of).times(count);
    }
    match tag_of(shape) {
        Some(tag) => struct_words(layouts, tag),
        None => Words::of(plain_words(shape)),
    }
}

// Whether an object may have the type of what is no array and no struct.
fn plain_object(shape: Shape) -> bool
    ensures { result ≡ plain_object shape }
{
    !matches!(
        shape,
        Shape::Void | Shape::Null | Shape::Function(_, _) | Shape::NoType | Shape::MoreType(_, _)
    )
}

// Whether a struct's members are closed.
fn struct_is_finished(layouts: &[Layout<'_>], tag: usize) -> bool
    ensures { (all : _) (o : Option types.Layout) → LayoutAt all layouts.now tag o → result ≡ types.is_finished o }
{
    match layouts.get(tag) {
        Some(layout) => layout.is_finished(),
        None => false,
    }
}

/// Whether an object may have a type.
pub fn is_object_type(types: &Types<'_>, layouts: &[Layout<'_>], ty: usize) -> bool
    requires { ty < length (known types.now) }
    ensures { (t : CType) (tags : Tags) → HasType types.now ty t → AreLayouts types.now layouts.now tags → result ≡ is_object_type tags t }
{
    let shape = types.shape(ty);
    if let Some((of, count)) = array_parts(shape) {
        return is_object_type(types, layouts, of) && count > 0;
    }
    match tag_of(shape) {
        Some(tag) => struct_is_finished(layouts, tag),
        None => plain_object(shape),
    }
}
