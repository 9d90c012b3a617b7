// The string literals of functions, external by external.

ghost use Rattle.std.specs.Prelude.{◌≡◌, true, ℕ, List, [], ◌∷◌, Ok, Some, map, IfOk, OnOk, IsOk};
ghost use Rattle.c_syntax.specs.Plain as tree;
ghost use Rattle.c_syntax.specs.Plain.{CDecl};
ghost use Rattle.c_syntax.specs.View.{ty_of, decl_of, decls_of, tag_of, stmt_of, maybe_stmt, item_of, unit_of};
ghost use Rattle.c_types.specs.Scope.{Scope, contains};
ghost use Rattle.c_types.specs.Declarations.{scope_or};
ghost use Rattle.c_types.specs.Units as plain;
ghost use Rattle.c_types.specs.Units.{item_judged, all_items, start_scope};
ghost use Rattle.c_eval.specs.Text.{item_definitions, definitions, text_of};
ghost use Rattle.c_declared.specs.Held.{Holds, HoldsSome};
ghost use Rattle.c_census.specs.Sums.{HoldsWith};
ghost use Rattle.c_signatures.specs.Signatures.{IsSignature};
ghost use Rattle.c_opening.specs.Named.{tag_in, tags_in, HasNumber};
ghost use Rattle.c_lower.specs.Functions.{defined};
ghost use Rattle.c_lower.specs.Bodies.{AddsBodies, PassesBodies, AreBodies};

use c_declarations::{declare_object, declare_tag};
use c_lower_literals::statement_literals;
use c_objects::declare_function;
use c_opening::open;
use c_operands::Declarations;
use c_signatures::{Signature, enter_body, judge_signature, leave_body};
use c_syntax::tree::{Decl, Decls, Item, Stmt, Tag, Ty, Unit};
use c_types::Types;
use std::alloc::{AllocError, Global};

/// A function, and how many string literals its body has.
#[derive(Clone, Copy)]
pub struct Body<'t> {
    pub name: &'t [u8],
    pub count: usize,
}

/// The functions of a text, and the texts of the string literals in their bodies, both in the order of the text.
#[derive(Drop)]
pub struct Bodies<'t> {
    pub each: Vec<Body<'t>>,
    pub literals: Vec<&'t [u8]>,
}

// The literals of a function of a signature, behind those before.
fn add_signed<'t>(
    types: &mut Types<'_>,
    declared: &mut Declarations<'t>,
    name: &'t [u8],
    f: &Signature<'t>,
    body: &'t Stmt,
    bodies: &mut Bodies<'t>,
) -> Result<(), AllocError>
    requires { HoldsWith types.old declared.old f.now }
    ensures holds { (s : Scope) → Holds types.old declared.old s → OnOk result (Holds types.new declared.new s) }
    ensures adds { (s : Scope) (g : plain.Signature) (params : List CDecl) → Holds types.old declared.old s → IsSignature types.old s f.now g → OnOk result (AddsBodies bodies.old bodies.new (defined s name.now params (stmt_of body.now) g ∷ [])) }
    ensures tags { OnOk result (types.new.tags ≡ types.old.tags) }
{
    let before = bodies.literals.len();
    let mark = enter_body(types, declared, name, f)?;
    statement_literals(types, declared, body, &mut bodies.literals)?;
    leave_body(declared, mark)?;
    let count = bodies.literals.len().saturating_sub(before);
    bodies.each.push(Body { name, count })?;
    Ok(())
}

// The literals of a function that is defined, if its signature isn't refused.
fn add_definition<'t>(
    types: &mut Types<'_>,
    declared: &mut Declarations<'t>,
    name: &'t [u8],
    at: u32,
    gives: &Ty,
    parameters: &'t Decls,
    body: &'t Stmt,
    bodies: &mut Bodies<'t>,
) -> Result<(), AllocError>
    requires { HoldsSome types.old declared.old }
    ensures holds { (s : Scope) → Holds types.old declared.old s → OnOk result (Holds types.new declared.new s) }
    ensures adds { (s : Scope) → Holds types.old declared.old s → OnOk result (AddsBodies bodies.old bodies.new (item_definitions s (tree.Function name.now at (ty_of gives.now) (decls_of parameters.now.items.items) (Some (stmt_of body.now))))) }
    ensures tags { OnOk result (types.new.tags ≡ types.old.tags) }
{
    let signature = judge_signature(types, declared, at, gives, parameters)?;
    match signature {
        Ok(f) => add_signed(types, declared, name, &f, body, bodies),
        Err(_fault) => Ok(()),
    }
}

// The literals of a function, if it is defined.
fn add_body<'t>(
    types: &mut Types<'_>,
    declared: &mut Declarations<'t>,
    name: &'t [u8],
    at: u32,
    gives: &Ty,
    parameters: &'t Decls,
    body: &'t Option<Stmt>,
    bodies: &mut Bodies<'t>,
) -> Result<(), AllocError>
    requires { HoldsSome types.old declared.old }
    ensures holds { (s : Scope) → Holds types.old declared.old s → OnOk result (Holds types.new declared.new s) }
    ensures adds { (s : Scope) → Holds types.old declared.old s → OnOk result (AddsBodies bodies.old bodies.new (item_definitions s (tree.Function name.now at (ty_of gives.now) (decls_of parameters.now.items.items) (maybe_stmt body.now)))) }
    ensures tags { OnOk result (types.new.tags ≡ types.old.tags) }
{
    match body {
        Some(there) => add_definition(types, declared, name, at, gives, parameters, there, bodies),
        None => Ok(()),
    }
}

// The literals of a function, if it is defined, and it is declared from then on.
fn take_function<'t>(
    types: &mut Types<'_>,
    declared: &mut Declarations<'t>,
    name: &'t [u8],
    at: u32,
    gives: &Ty,
    parameters: &'t Decls,
    body: &'t Option<Stmt>,
    bodies: &mut Bodies<'t>,
) -> Result<(), AllocError>
    requires { HoldsSome types.old declared.old }
    ensures some { OnOk result (HoldsSome types.new declared.new) }
    ensures passes { (s : Scope) → Holds types.old declared.old s → IsOk (item_judged s (tree.Function name.now at (ty_of gives.now) (decls_of parameters.now.items.items) (maybe_stmt body.now)))
        → OnOk result (PassesBodies types.new declared.new bodies.old bodies.new (scope_or s (item_judged s (tree.Function name.now at (ty_of gives.now) (decls_of parameters.now.items.items) (maybe_stmt body.now)))) (item_definitions s (tree.Function name.now at (ty_of gives.now) (decls_of parameters.now.items.items) (maybe_stmt body.now)))) }
    ensures tags { OnOk result (types.new.tags ≡ types.old.tags) }
{
    add_body(types, declared, name, at, gives, parameters, body, bodies)?;
    let defines = body.is_some();
    declare_function(types, declared, name, at, gives, parameters, defines)
}

// An object is declared.
fn take_object<'t>(
    types: &mut Types<'_>,
    declared: &mut Declarations<'t>,
    d: &'t Decl,
    bodies: &Bodies<'t>,
) -> Result<(), AllocError>
    requires { HoldsSome types.old declared.old }
    ensures some { OnOk result (HoldsSome types.new declared.new) }
    ensures passes { (s : Scope) → Holds types.old declared.old s → OnOk result (PassesBodies types.new declared.new bodies.now bodies.now (scope_or s (item_judged s (tree.Object (decl_of d.now)))) []) }
    ensures tags { OnOk result (types.new.tags ≡ types.old.tags) }
{
    let _bodies = bodies;
    declare_object(types, declared, true, d)?;
    Ok(())
}

// A tag is declared.
fn take_struct<'t>(
    types: &mut Types<'_>,
    declared: &mut Declarations<'t>,
    tag: &'t Tag,
    bodies: &Bodies<'t>,
) -> Result<(), AllocError>
    requires holds { HoldsSome types.old declared.old }
    requires numbered { HasNumber types.old tag.now.name }
    ensures some { OnOk result (HoldsSome types.new declared.new) }
    ensures passes { (s : Scope) → Holds types.old declared.old s → OnOk result (PassesBodies types.new declared.new bodies.now bodies.now (scope_or s (item_judged s (tree.StructItem (tag_of tag.now)))) []) }
    ensures tags { OnOk result (types.new.tags ≡ types.old.tags) }
{
    let _bodies = bodies;
    declare_tag(types, declared, tag)?;
    Ok(())
}

// An external: the literals of a function that is defined stand behind those before, and what is declared is known from
// then on.
fn take_item<'t>(
    types: &mut Types<'_>,
    declared: &mut Declarations<'t>,
    item: &'t Item,
    bodies: &mut Bodies<'t>,
) -> Result<(), AllocError>
    requires holds { HoldsSome types.old declared.old }
    requires numbered { (name : List ℕ) → tag_in (item_of item.now) ≡ Some name → HasNumber types.old name }
    ensures some { OnOk result (HoldsSome types.new declared.new) }
    ensures passes { (s : Scope) → Holds types.old declared.old s → IsOk (item_judged s (item_of item.now)) → OnOk result (PassesBodies types.new declared.new bodies.old bodies.new (scope_or s (item_judged s (item_of item.now))) (item_definitions s (item_of item.now))) }
    ensures tags { OnOk result (types.new.tags ≡ types.old.tags) }
{
    match item {
        Item::Struct(tag) => take_struct(types, declared, tag, bodies),
        Item::Object(d) => take_object(types, declared, d, bodies),
        Item::Function {
            name,
            pos,
            result: gives,
            params,
            body,
        } => take_function(
            types,
            declared,
            name.as_bytes(),
            *pos,
            gives,
            params,
            body,
            bodies,
        ),
    }
}

// The literals of the functions of externals, behind those before.
fn take_items<'t>(
    types: &mut Types<'_>,
    declared: &mut Declarations<'t>,
    items: &'t [Item],
    bodies: &mut Bodies<'t>,
) -> Result<(), AllocError>
    requires holds { HoldsSome types.old declared.old }
    requires numbered { (name : List ℕ) → contains (tags_in (map item_of items.now)) name ≡ true → HasNumber types.old name }
    ensures { (s end : Scope) → Holds types.old declared.old s → all_items s (map item_of items.now) ≡ Ok end → OnOk result (AddsBodies bodies.old bodies.new (definitions s (map item_of items.now))) }
{
    for item in items {
        take_item(types, declared, item, bodies)?;
    }
    Ok(())
}

/// The functions of a typed text, with the string literals of their bodies.
pub fn bodies_of<'t>(alloc: Global, unit: &'t Unit) -> Result<Bodies<'t>, AllocError>
    ensures { (end : Scope) → all_items (start_scope (unit_of unit.now)) (unit_of unit.now).items ≡ Ok end → IfOk result (λ b. AreBodies b (text_of (unit_of unit.now)).functions) }
{
    let opening = open(alloc, unit)?;
    let mut types = opening.types;
    let mut declared = opening.declared;
    let each = Vec::new(alloc);
    let literals = Vec::new(alloc);
    let mut bodies = Bodies { each, literals };
    let items = unit.items.items.as_slice();
    take_items(&mut types, &mut declared, items, &mut bodies)?;
    Ok(bodies)
}
