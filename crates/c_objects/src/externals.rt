// What is declared behind externals.

ghost use Rattle.std.specs.Prelude.{◌≡◌, ◌∷◌, ℕ, List, OnOk};
ghost use Rattle.c_syntax.specs.View.{ty_of, decls_of, tag_of};
ghost use Rattle.c_types.specs.Scope.{Scope};
ghost use Rattle.c_types.specs.Types.{CType, Members};
ghost use Rattle.c_types.specs.Declarations.{tag_declared, scope_or, with_tag};
ghost use Rattle.c_types.specs.Units as plain;
ghost use Rattle.c_types.specs.Units.{type_of, with_function};
ghost use Rattle.c_signatures.specs.Signatures.{IsSignature};
ghost use Rattle.c_types.specs.Table.{known};
ghost use Rattle.c_types.specs.Known.{Grows};
ghost use Rattle.c_declared.specs.Held.{Holds, HoldsSome};
ghost use Rattle.c_cells.specs.Structs.{AreStructKinds};
ghost use Rattle.c_opening.specs.Named.{HasNumber};
ghost use Rattle.c_objects.specs.Passed.{behind_function, IsClosedTag};

use c_cells::StructKinds;
use c_declarations::declare_tag;
use c_declared::{declare, entity_behind, found_here};
use c_operands::Declarations;
use c_signatures::{Signature, judge_signature};
use c_syntax::tree::{Decls, Tag, Ty};
use c_types::Types;
use std::alloc::AllocError;

// A function of a signature is declared, or defined.
fn declare_signed<'t>(
    types: &Types<'_>,
    declared: &mut Declarations<'t>,
    name: &'t [u8],
    f: &Signature<'_>,
    defines: bool,
) -> Result<(), AllocError>
    ensures { (s : Scope) (g : plain.Signature) → Holds types.now declared.old s → IsSignature types.now s f.now g → OnOk result (Holds types.now declared.new (with_function s name.now (type_of g) defines)) }
{
    let found = found_here(types, declared, name);
    let entity = entity_behind(found, f.ty, defines);
    declare(types, declared, name, entity)
}

/// A function is declared, or defined, if its signature isn't refused; its body isn't looked at.
pub fn declare_function<'t>(
    types: &mut Types<'_>,
    declared: &mut Declarations<'t>,
    name: &'t [u8],
    at: u32,
    gives: &Ty,
    parameters: &'t Decls,
    defines: bool,
) -> Result<(), AllocError>
    requires { HoldsSome types.old declared.old }
    ensures holds { (s : Scope) → Holds types.old declared.old s → OnOk result (Holds types.new declared.new (behind_function s name.now at (ty_of gives.now) (decls_of parameters.now.items.items) defines)) }
    ensures grows { OnOk result (Grows (known types.old) (known types.new)) }
    ensures tags { OnOk result (types.new.tags ≡ types.old.tags) }
{
    let signature = judge_signature(types, declared, at, gives, parameters)?;
    match signature {
        Ok(f) => declare_signed(types, declared, name, &f, defines),
        Err(_fault) => Ok(()),
    }
}

// The kinds of the struct of a tag whose members are closed.
fn close_struct(
    types: &Types<'_>,
    declared: &Declarations<'_>,
    structs: &mut StructKinds,
    name: &[u8],
) -> Result<(), AllocError>
    requires { IsClosedTag types.now declared.now name.now }
    ensures { (s : Scope) (members : List (List ℕ × CType)) (words : ℕ) → Holds types.now declared.now (with_tag s name.now (Members members words)) → AreStructKinds types.now structs.old s.tags → OnOk result (AreStructKinds types.now structs.new ((name.now, Members members words) ∷ s.tags)) }
{
    match types.tag(name) {
        Some(number) => structs.close(types, declared.layouts.as_slice(), number),
        None => Ok(()),
    }
}

/// A tag is declared, if it isn't refused, and the kinds of its struct are known from then on.
pub fn declare_struct<'t>(
    types: &mut Types<'_>,
    declared: &mut Declarations<'t>,
    structs: &mut StructKinds,
    tag: &'t Tag,
) -> Result<(), AllocError>
    requires holds { HoldsSome types.old declared.old }
    requires numbered { HasNumber types.old tag.now.name }
    ensures holds { (s : Scope) → Holds types.old declared.old s → OnOk result (Holds types.new declared.new (scope_or s (tag_declared s (tag_of tag.now)))) }
    ensures structs { (s : Scope) → Holds types.old declared.old s → AreStructKinds types.old structs.old s.tags → OnOk result (AreStructKinds types.new structs.new (scope_or s (tag_declared s (tag_of tag.now))).tags) }
    ensures grows { OnOk result (Grows (known types.old) (known types.new)) }
    ensures tags { OnOk result (types.new.tags ≡ types.old.tags) }
{
    let refusal = declare_tag(types, declared, tag)?;
    match refusal {
        Some(_fault) => Ok(()),
        None => close_struct(types, declared, structs, tag.name.as_bytes()),
    }
}
