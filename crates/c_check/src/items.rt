// Externals, one after the other.

ghost use Rattle.std.specs.Prelude.{◌≡◌, true, nat_lt, Some, slice_get, ℕ, List, map, IfOk, OnOk};
ghost use Rattle.c_syntax.specs.Plain as tree;
ghost use Rattle.c_syntax.specs.View.{ty_of, decl_of, decls_of, maybe_stmt, tag_of, item_of};
ghost use Rattle.c_types.specs.Types as ctype;
ghost use Rattle.c_types.specs.Scope.{Scope, contains};
ghost use Rattle.c_types.specs.Limits.{wide_types};
ghost use Rattle.c_types.specs.Table.{known};
ghost use Rattle.c_types.specs.Known.{Grows};
ghost use Rattle.c_declared.specs.Held.{Holds, HoldsSome};
ghost use Rattle.c_opening.specs.Named.{tag_in, tags_in, HasNumber};
ghost use Rattle.c_check.specs.Items.{IsTag, IsTaken, AreTaken};

use crate::functions::judge_function;
use crate::words::object_words;
use c_census::{count_forgotten, count_function, count_tag};
use c_declarations::{declare_object, declare_tag};
use c_operands::{Declarations, merged};
use c_syntax::tree::{Decl, Decls, Item, Stmt, Tag, Ty};
use c_types::{Shape, TypeFault, Types, Words};
use c_weights::{Sum, has_wide};
use std::alloc::AllocError;

/// What is told of externals, their sums and the words of their objects.
#[derive(Clone, Copy)]
pub struct Taken {
    pub refusal: Option<TypeFault>,
    pub sum: Sum,
    pub words: Words,
}

// A tag.
fn take_tag<'t>(
    types: &mut Types<'_>,
    declared: &mut Declarations<'t>,
    tag: &'t Tag,
) -> Result<Taken, AllocError>
    requires holds { HoldsSome types.old declared.old }
    requires numbered { HasNumber types.old tag.now.name }
    ensures { IfOk result (λ r. IsTaken types.old types.new declared.old declared.new r (tree.StructItem (tag_of tag.now))) }
{
    let parts = count_tag(types, declared, tag)?;
    let refusal = declare_tag(types, declared, tag)?;
    let is_wide = tag_is_wide(types, declared, tag.name.as_bytes())?;
    let own = Sum {
        weight: Words::of(0),
        is_wide,
        nodes: 0,
        words: 0,
    };
    Ok(Taken {
        refusal,
        sum: parts.plus(own),
        words: Words::of(0),
    })
}

// Whether the struct of the tag of this number has too many words.
fn struct_is_wide(
    types: &mut Types<'_>,
    declared: &Declarations<'_>,
    number: usize,
) -> Result<bool, AllocError>
    requires { IsTag types.old number }
    ensures wide { (s : Scope) (name : List ℕ) → slice_get types.old.tags number ≡ Some name → Holds types.old declared.now s → IfOk result (λ wide. wide ≡ nat_lt 0 (wide_types s.tags (ctype.Struct name))) }
    ensures grows { OnOk result (Grows (known types.old) (known types.new)) }
    ensures tags { OnOk result (types.new.tags ≡ types.old.tags) }
{
    let ty = types.number(Shape::Struct(number))?;
    Ok(has_wide(types, declared.layouts.as_slice(), ty))
}

// Whether the struct of a tag that has a number has too many words.
fn tag_is_wide(
    types: &mut Types<'_>,
    declared: &Declarations<'_>,
    name: &[u8],
) -> Result<bool, AllocError>
    requires { HasNumber types.old name.now }
    ensures wide { (s : Scope) → Holds types.old declared.now s → IfOk result (λ wide. wide ≡ nat_lt 0 (wide_types s.tags (ctype.Struct name.now))) }
    ensures grows { OnOk result (Grows (known types.old) (known types.new)) }
    ensures tags { OnOk result (types.new.tags ≡ types.old.tags) }
{
    match types.tag(name) {
        Some(number) => struct_is_wide(types, declared, number),
        None => unreachable!(),
    }
}

// An object at file scope.
fn take_object<'t>(
    types: &mut Types<'_>,
    declared: &mut Declarations<'t>,
    d: &'t Decl,
) -> Result<Taken, AllocError>
    requires { HoldsSome types.old declared.old }
    ensures { IfOk result (λ r. IsTaken types.old types.new declared.old declared.new r (tree.Object (decl_of d.now))) }
{
    let words = object_words(types, declared, d)?;
    let sum = count_forgotten(types, declared, d)?;
    let refusal = declare_object(types, declared, true, d)?;
    Ok(Taken {
        refusal,
        sum: Sum::node().plus(sum),
        words,
    })
}

// A function.
fn take_function<'t>(
    types: &mut Types<'_>,
    declared: &mut Declarations<'t>,
    name: &'t [u8],
    at: u32,
    gives: &Ty,
    parameters: &'t Decls,
    body: &'t Option<Stmt>,
) -> Result<Taken, AllocError>
    requires { HoldsSome types.old declared.old }
    ensures { IfOk result (λ r. IsTaken types.old types.new declared.old declared.new r (tree.Function name.now at (ty_of gives.now) (decls_of parameters.now.items.items) (maybe_stmt body.now))) }
{
    let sum = count_function(types, declared, name, at, gives, parameters, body)?;
    let refusal = judge_function(types, declared, name, at, gives, parameters, body)?;
    Ok(Taken {
        refusal,
        sum,
        words: Words::of(0),
    })
}

// An external.
fn take_item<'t>(
    types: &mut Types<'_>,
    declared: &mut Declarations<'t>,
    item: &'t Item,
) -> Result<Taken, AllocError>
    requires holds { HoldsSome types.old declared.old }
    requires numbered { (name : List ℕ) → tag_in (item_of item.now) ≡ Some name → HasNumber types.old name }
    ensures { IfOk result (λ r. IsTaken types.old types.new declared.old declared.new r (item_of item.now)) }
{
    match item {
        Item::Struct(tag) => take_tag(types, declared, tag),
        Item::Object(d) => take_object(types, declared, d),
        Item::Function {
            name,
            pos,
            result: gives,
            params,
            body,
        } => take_function(types, declared, name.as_bytes(), *pos, gives, params, body),
    }
}

/// The externals of a text.
pub fn take_items<'t>(
    types: &mut Types<'_>,
    declared: &mut Declarations<'t>,
    items: &'t [Item],
) -> Result<Taken, AllocError>
    requires holds { HoldsSome types.old declared.old }
    requires numbered { (name : List ℕ) → contains (tags_in (map item_of items.now)) name ≡ true → HasNumber types.old name }
    ensures { (s : Scope) → Holds types.old declared.old s → IfOk result (λ r. AreTaken r s (map item_of items.now)) }
{
    let mut taken = Taken {
        refusal: None,
        sum: Sum::nothing(),
        words: Words::of(0),
    };
    for item in items {
        let next = take_item(types, declared, item)?;
        taken = Taken {
            refusal: merged(taken.refusal, next.refusal),
            sum: taken.sum.plus(next.sum),
            words: taken.words.plus(next.words),
        };
    }
    Ok(taken)
}
