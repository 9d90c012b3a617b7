// Members of structs.

ghost use Rattle.std.specs.Prelude.{◌≡◌, ◌<◌, length, Option, Ok, Err, IfOk, OnOk};
ghost use Rattle.std.specs.Option.{option_map_or};
ghost use Rattle.std.specs.Map.{lookup};
ghost use Rattle.std.specs.Str.{bytes_eq};
ghost use Rattle.c_types.specs.declared.fault.TypeFault.TheVariants.{Unknown};
ghost use Rattle.c_types.specs.Types as types;
ghost use Rattle.c_types.specs.Types.{CType, Tags};
ghost use Rattle.c_types.specs.Operands as plain;
ghost use Rattle.c_types.specs.Operands.{value_type};
ghost use Rattle.c_types.specs.Table.{Table, known, HasType, IsType};
ghost use Rattle.c_types.specs.Known.{Grows};
ghost use Rattle.c_layouts.specs.Layouts.{AreLayouts, IsMember, LayoutIs, LayoutAt};
ghost use Rattle.c_operands.specs.Seen.{IsOperand, IsJudged};

use c_layouts::{Layout, tag_of};
use c_operands::{Judged, Operand, place_at, pointee, value_of};
use c_types::{TypeFault, Types};
use ordered::OrderedMap;
use std::alloc::AllocError;

// The number of a member's type.
fn number_of(members: &OrderedMap<&[u8], usize>, name: &[u8]) -> Option<usize>
    ensures { result ≡ lookup (λ k. bytes_eq name.now k.now) members.now.entries }
{
    members.get(&name).copied()
}

// A member whose type has a number, if there is one.
fn placed(at: u32, number: Option<usize>) -> Judged<Operand>
    ensures { (table : Table) (o : Option CType) → IsMember (known table) number o → IsJudged (IsOperand table) result (option_map_or (λ t. Ok (plain.place_at at t)) o (Err (Unknown at))) }
{
    match number {
        Some(ty) => Ok(place_at(at, ty)),
        None => Err(TypeFault::Unknown(at)),
    }
}

// A member by its name in a layout.
fn member_in(layout: &Layout<'_>, at: u32, name: &[u8]) -> Judged<Operand>
    ensures { (table : Table) (o : Option types.Layout) → LayoutIs (known table) layout.now o → IsJudged (IsOperand table) result (plain.member_in at name.now o) }
{
    match layout {
        Layout::Members(members, _) => placed(at, number_of(members, name)),
        Layout::Undeclared | Layout::Unfinished => Err(TypeFault::Mismatch(at)),
    }
}

// A member by its name in the layout of a tag.
fn member_of(layouts: &[Layout<'_>], tag: usize, at: u32, name: &[u8]) -> Judged<Operand>
    ensures { (table : Table) (o : Option types.Layout) → LayoutAt (known table) layouts.now tag o → IsJudged (IsOperand table) result (plain.member_in at name.now o) }
{
    match layouts.get(tag) {
        Some(layout) => member_in(layout, at, name),
        None => Err(TypeFault::Mismatch(at)),
    }
}

/// `.`: a member of a struct whose members are closed.
pub fn member(
    types: &Types<'_>,
    layouts: &[Layout<'_>],
    at: u32,
    name: &[u8],
    ty: usize,
) -> Judged<Operand>
    requires { ty < length (known types.now) }
    ensures { (t : CType) (tags : Tags) → HasType types.now ty t → AreLayouts types.now layouts.now tags → IsJudged (IsOperand types.now) result (plain.member_operand tags at name.now t) }
{
    match tag_of(types.shape(ty)) {
        Some(tag) => member_of(layouts, tag, at, name),
        None => Err(TypeFault::Mismatch(at)),
    }
}

// A member of what a pointer points to.
fn member_behind(
    types: &Types<'_>,
    layouts: &[Layout<'_>],
    at: u32,
    name: &[u8],
    ty: usize,
) -> Judged<Operand>
    requires { ty < length (known types.now) }
    ensures { (t : CType) (tags : Tags) → HasType types.now ty t → AreLayouts types.now layouts.now tags → IsJudged (IsOperand types.now) result (plain.arrow_operand tags at name.now t) }
{
    match pointee(types.shape(ty)) {
        Some(to) => member(types, layouts, at, name, to),
        None => Err(TypeFault::Mismatch(at)),
    }
}

/// `->`: a member of the struct that a value points to.
pub fn arrow(
    types: &mut Types<'_>,
    layouts: &[Layout<'_>],
    at: u32,
    name: &[u8],
    a: Operand,
) -> Result<Judged<Operand>, AllocError>
    requires { IsType types.old a.ty }
    ensures judged { (x : plain.Operand) (tags : Tags) → IsOperand types.old a x → AreLayouts types.old layouts.now tags → IfOk result (λ j. IsJudged (IsOperand types.new) j (plain.arrow_operand tags at name.now (value_type x))) }
    ensures grows { OnOk result (Grows (known types.old) (known types.new)) }
    ensures tags { OnOk result (types.new.tags ≡ types.old.tags) }
{
    let value = value_of(types, a)?;
    Ok(member_behind(types, layouts, at, name, value.ty))
}
