// What the values of a braced list stand for.

ghost use Rattle.std.specs.Prelude.{◌≡◌, ◌<◌, ℕ, length, List, Option, Some, slice_get};
ghost use Rattle.c_types.specs.Types as types;
ghost use Rattle.c_types.specs.Types.{CType, Tags};
ghost use Rattle.c_types.specs.Declarations as plain;
ghost use Rattle.c_types.specs.Declarations.{slots_of_struct, first_slot};
ghost use Rattle.c_types.specs.Table.{Table, known, HasType};
ghost use Rattle.c_layouts.specs.declared.layout.Layout.{Layout};
ghost use Rattle.c_layouts.specs.Layouts.{AreLayouts, LayoutAt, LayoutIs};
ghost use Rattle.c_declared.specs.Slots.{AreSlots, IsListed, AreOrdered, IsTypeOrNone, IsSomeOrNone, entries_at, member_number, behind, holds};

use crate::length::array_parts;
use c_layouts::{Layout, tag_of};
use c_types::Types;

/// What the values of a braced list stand for, one after the other.
#[derive(Clone, Copy)]
pub enum Slots {
    /// Objects of one type, and how many.
    Elements(usize, usize),
    /// The members of a tag.
    Members(usize),
    Nothing,
}

// The number of the type of a tag's member, by how many members stand before it.
fn member_at(layouts: &[Layout<'_>], tag: usize, k: usize) -> Option<usize>
    ensures { result ≡ member_number (slice_get (entries_at layouts.now tag) k) }
{
    match layouts.get(tag) {
        Some(Layout::Members(members, _)) => match members.get_index(k) {
            Some((_, ty)) => Some(*ty),
            None => None,
        },
        _ => None,
    }
}

/// How many members a tag has.
pub fn member_count(layouts: &[Layout<'_>], tag: usize) -> usize
    ensures { result ≡ length (entries_at layouts.now tag) }
{
    match layouts.get(tag) {
        Some(Layout::Members(members, _)) => members.len(),
        _ => 0,
    }
}

impl Slots {
    /// The number of the type of the object that a value stands for, if it stands for one, by how many values stand
    /// before it.
    pub fn at(self, layouts: &[Layout<'_>], k: usize) -> Option<usize>
        ensures { (table : Table) (s : plain.Slots) → AreSlots table layouts.now self s → IsTypeOrNone table result (first_slot (behind k s)) }
    {
        match self {
            Slots::Elements(ty, count) => { if k < count { Some(ty) } else { None } }
            Slots::Members(tag) => member_at(layouts, tag, k),
            Slots::Nothing => None,
        }
    }

    /// Whether braces may have so many values.
    pub fn holds(self, layouts: &[Layout<'_>], count: usize) -> bool
        ensures { (table : Table) (s : plain.Slots) → AreSlots table layouts.now self s → result ≡ holds count s }
    {
        match self {
            Slots::Elements(_, most) => count <= most,
            Slots::Members(tag) => count <= member_count(layouts, tag),
            Slots::Nothing => false,
        }
    }
}

// The members of a tag with a layout, if they are closed.
fn slots_of_layout(layout: &Layout<'_>, tag: usize) -> Slots
    ensures { (table : Table) (layouts : List Layout) (o : Option types.Layout) → slice_get layouts tag ≡ Some layout.now → LayoutIs (known table) layout.now o → IsListed (known table) (Some layout.now) o → AreSlots table layouts result (slots_of_struct o) }
{
    match layout {
        Layout::Members(_, _) => Slots::Members(tag),
        Layout::Unfinished | Layout::Undeclared => Slots::Nothing,
    }
}

// The members of a tag, if they are closed.
fn slots_of_struct(layouts: &[Layout<'_>], tag: usize) -> Slots
    ensures { (table : Table) (o : Option types.Layout) → LayoutAt (known table) layouts.now tag o → IsListed (known table) (slice_get layouts.now tag) o → AreSlots table layouts.now result (slots_of_struct o) }
{
    match layouts.get(tag) {
        Some(layout) => slots_of_layout(layout, tag),
        None => Slots::Nothing,
    }
}

// What braces stand for at an object of a type.
fn slots_of_type(types: &Types<'_>, layouts: &[Layout<'_>], ty: usize) -> Slots
    requires { ty < length (known types.now) }
    ensures { (t : CType) (tags : Tags) → HasType types.now ty t → AreLayouts types.now layouts.now tags → AreOrdered types.now layouts.now tags → AreSlots types.now layouts.now result (plain.slots_of tags (Some t)) }
{
    let shape = types.shape(ty);
    if let Some((of, count)) = array_parts(shape) {
        return Slots::Elements(of, count);
    }
    match tag_of(shape) {
        Some(tag) => slots_of_struct(layouts, tag),
        None => Slots::Nothing,
    }
}

/// What braces stand for, one level into an array or a struct.
pub fn slots_of(types: &Types<'_>, layouts: &[Layout<'_>], ty: Option<usize>) -> Slots
    requires { IsSomeOrNone types.now ty }
    ensures { (t : Option CType) (tags : Tags) → IsTypeOrNone types.now ty t → AreLayouts types.now layouts.now tags → AreOrdered types.now layouts.now tags → AreSlots types.now layouts.now result (plain.slots_of tags t) }
{
    match ty {
        Some(number) => slots_of_type(types, layouts, number),
        None => Slots::Nothing,
    }
}
