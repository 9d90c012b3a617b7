// Places behind pointers.

ghost use Rattle.std.specs.Prelude.{◌≡◌, ◌<◌, length, IfOk, OnOk};
ghost use Rattle.c_types.specs.Types.{CType, Tags};
ghost use Rattle.c_types.specs.Operands as plain;
ghost use Rattle.c_syntax.specs.declared.tree.UnOp.TheVariants.{Deref};
ghost use Rattle.c_types.specs.Table.{known, HasType, IsType};
ghost use Rattle.c_types.specs.Known.{Grows};
ghost use Rattle.c_layouts.specs.Layouts.{AreLayouts};
ghost use Rattle.c_operands.specs.Classes.{function_pointer};
ghost use Rattle.c_operands.specs.Seen.{IsOperand, IsJudged};
ghost use Rattle.c_forms.specs.Given.{HaveLayouts};

use c_layouts::{Layout, is_object_type};
use c_operands::{
    Class, Judged, Operand, class_of, one_rule, place_at, pointee, value_at, value_of,
};
use c_types::{TypeFault, Types};
use std::alloc::AllocError;

// Whether a class is that of pointers to functions.
fn is_function_pointer(class: Class) -> bool
    ensures { result ≡ function_pointer class }
{
    matches!(class, Class::FunctionPointer)
}

/// What a pointer points to: a pointer to a function gives itself.
pub fn pointed(types: &Types<'_>, layouts: &[Layout<'_>], at: u32, ty: usize) -> Judged<Operand>
    requires { ty < length (known types.now) }
    ensures { (t : CType) (tags : Tags) → HasType types.now ty t → AreLayouts types.now layouts.now tags → IsJudged (IsOperand types.now) result (plain.pointed_operand tags at t) }
{
    let class = class_of(types, ty);
    match pointee(types.shape(ty)) {
        None => Err(TypeFault::Mismatch(at)),
        Some(to) => {
            if is_function_pointer(class) {
                Ok(value_at(at, ty))
            } else {
                let kept = is_object_type(types, layouts, to);
                one_rule(kept, TypeFault::Mismatch(at), place_at(at, to))
            }
        }
    }
}

/// `*`: what a value points to.
pub fn target(
    types: &mut Types<'_>,
    layouts: &[Layout<'_>],
    at: u32,
    a: Operand,
) -> Result<Judged<Operand>, AllocError>
    requires { IsType types.old a.ty }
    ensures judged { (x : plain.Operand) (tags : Tags) → IsOperand types.old a x → AreLayouts types.old layouts.now tags → IfOk result (λ j. IsJudged (IsOperand types.new) j (plain.unary_operand tags at Deref x)) }
    ensures grows { OnOk result (Grows (known types.old) (known types.new)) }
    ensures tags { OnOk result (types.new.tags ≡ types.old.tags) }
{
    let value = value_of(types, a)?;
    Ok(pointed(types, layouts, at, value.ty))
}
