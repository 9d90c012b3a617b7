//! Lists of parts.

ghost use Rattle.std.specs.Prelude.{◌≡◌, ◌∷◌, [], ◌++◌, map, IfOk, OnOk};
ghost use Rattle.c_syntax.specs.Plain as plain;
ghost use Rattle.c_syntax.specs.Plain.{CTy};
ghost use Rattle.c_syntax.specs.View.{expr_of, ty_of, decl_of, decls_of, stmt_of, part_of, item_of};
ghost use Rattle.c_grammar.specs.Tree as grammar;
ghost use Rattle.c_grammar.specs.Tree.{more, none};
ghost use Rattle.c_grammar.specs.Values.{meanings_of};
ghost use Rattle.c_held.specs.View.{meaning_of, means, row_of, declared_of, all_of, layers_of};

use c_held::parts::{take_declarations, take_declared, take_expression, take_statement};
use c_held::value::{Declared, Layer, Made, Meaning, Value};
use c_syntax::tree::{Decl, Expr, Item, Part, Stmt, Ty};
use std::alloc::{AllocError, Global};
use std::collections::VecDeque;
use std::mem;

fn push_expression(exprs: &mut Vec<Expr>, part: &mut Meaning) -> Result<(), AllocError>
    ensures { OnOk result (map expr_of exprs.new.items ≡ map expr_of exprs.old.items ++ grammar.expression (meaning_of part.old) ∷ []) }
{
    exprs.push(take_expression(part))?;
    Ok(())
}

fn push_each_expressions(exprs: &mut Vec<Expr>, row: &mut [Made]) -> Result<(), AllocError>
    ensures { OnOk result (map expr_of exprs.new.items ≡ map expr_of exprs.old.items ++ grammar.next_expressions (meanings_of (row_of row.old))) }
{
    for made in row.iter_mut() {
        push_expression(exprs, &mut made.meaning)?;
    }
    Ok(())
}

/// Adds the expressions of a row.
pub fn push_expressions(exprs: &mut Vec<Expr>, value: &mut Value) -> Result<(), AllocError>
    ensures { OnOk result (map expr_of exprs.new.items ≡ map expr_of exprs.old.items ++ grammar.next_expressions (grammar.several (means value.old))) }
{
    match value {
        Value::Row(row) => push_each_expressions(exprs, row.make_contiguous()),
        _ => Ok(()),
    }
}

#[tactic(auto, using(crate::proofs::Loops::layers_last))]
fn push_length(layers: &mut Vec<Layer>, part: &mut Meaning) -> Result<(), AllocError>
    ensures { OnOk result ((t : CTy) → layers_of layers.new.items t ≡ layers_of layers.old.items (grammar.array (meaning_of part.old) t)) }
{
    match part {
        Meaning::Length(length) => {
            layers.push(Layer::Array(mem::replace(length, None)))?;
            Ok(())
        }
        _ => Ok(()),
    }
}

fn push_each_lengths(layers: &mut Vec<Layer>, row: &mut [Made]) -> Result<(), AllocError>
    ensures { OnOk result ((t : CTy) → layers_of layers.new.items t ≡ layers_of layers.old.items (grammar.arrays (meanings_of (row_of row.old)) t)) }
{
    for made in row.iter_mut() {
        push_length(layers, &mut made.meaning)?;
    }
    Ok(())
}

/// Adds the lengths of a row inside.
pub fn push_lengths(layers: &mut Vec<Layer>, value: &mut Value) -> Result<(), AllocError>
    ensures { OnOk result ((t : CTy) → layers_of layers.new.items t ≡ layers_of layers.old.items (grammar.arrays (grammar.several (means value.old)) t)) }
{
    match value {
        Value::Row(row) => push_each_lengths(layers, row.make_contiguous()),
        _ => Ok(()),
    }
}

/// Adds a star inside.
#[tactic(auto, using(crate::proofs::Loops::layers_last))]
pub fn push_star(layers: &mut Vec<Layer>) -> Result<(), AllocError>
    ensures { OnOk result ((t : CTy) → layers_of layers.new.items t ≡ layers_of layers.old.items (plain.Pointer t)) }
{
    layers.push(Layer::Pointer)?;
    Ok(())
}

fn push_each_star(layers: &mut Vec<Layer>, row: &[Made]) -> Result<(), AllocError>
    ensures { OnOk result ((t : CTy) → layers_of layers.new.items t ≡ layers_of layers.old.items (grammar.pointers (grammar.count (meanings_of (row_of row.now))) t)) }
{
    for made in row {
        let _star = made;
        push_star(layers)?;
    }
    Ok(())
}

/// Adds the stars of a row inside.
pub fn push_stars(layers: &mut Vec<Layer>, value: &mut Value) -> Result<(), AllocError>
    ensures { OnOk result ((t : CTy) → layers_of layers.new.items t ≡ layers_of layers.old.items (grammar.starred (means value.old) t)) }
{
    match value {
        Value::Row(row) => push_each_star(layers, row.make_contiguous()),
        _ => Ok(()),
    }
}

#[tactic(auto, using(crate::proofs::Last::all_last))]
fn push_one_declared(
    alloc: Global,
    all: &mut Vec<Declared>,
    part: &mut Meaning,
) -> Result<(), AllocError>
    ensures { OnOk result ((t : CTy) → all_of all.new.items t ≡ all_of all.old.items t ++ grammar.declares (meaning_of part.old) t ∷ []) }
{
    all.push(take_declared(alloc, part))?;
    Ok(())
}

fn push_each_declared(
    alloc: Global,
    all: &mut Vec<Declared>,
    row: &mut [Made],
) -> Result<(), AllocError>
    ensures { OnOk result ((t : CTy) → all_of all.new.items t ≡ all_of all.old.items t ++ grammar.all_declared t (meanings_of (row_of row.old))) }
{
    for made in row.iter_mut() {
        push_one_declared(alloc, all, &mut made.meaning)?;
    }
    Ok(())
}

/// Adds what a row declares.
pub fn push_declared(
    alloc: Global,
    all: &mut Vec<Declared>,
    value: &mut Value,
) -> Result<(), AllocError>
    ensures { OnOk result ((t : CTy) → all_of all.new.items t ≡ all_of all.old.items t ++ grammar.all_declared t (grammar.several (means value.old))) }
{
    match value {
        Value::Row(row) => push_each_declared(alloc, all, row.make_contiguous()),
        _ => Ok(()),
    }
}

fn append_declarations(
    alloc: Global,
    decls: &mut Vec<Decl>,
    part: &mut Meaning,
) -> Result<(), AllocError>
    ensures { OnOk result (decls_of decls.new.items ≡ decls_of decls.old.items ++ grammar.declarations (meaning_of part.old)) }
{
    let mut more = take_declarations(alloc, part);
    decls.append(&mut more)?;
    Ok(())
}

fn push_each_members(
    alloc: Global,
    decls: &mut Vec<Decl>,
    row: &mut [Made],
) -> Result<(), AllocError>
    ensures { OnOk result (decls_of decls.new.items ≡ decls_of decls.old.items ++ grammar.member_list (meanings_of (row_of row.old))) }
{
    for made in row.iter_mut() {
        append_declarations(alloc, decls, &mut made.meaning)?;
    }
    Ok(())
}

/// Adds the members of a row.
pub fn push_members(
    alloc: Global,
    decls: &mut Vec<Decl>,
    value: &mut Value,
) -> Result<(), AllocError>
    ensures { OnOk result (decls_of decls.new.items ≡ decls_of decls.old.items ++ grammar.member_list (grammar.several (means value.old))) }
{
    match value {
        Value::Row(row) => push_each_members(alloc, decls, row.make_contiguous()),
        _ => Ok(()),
    }
}

fn push_local(stmts: &mut Vec<Stmt>, decl: Decl) -> Result<(), AllocError>
    ensures { OnOk result (map stmt_of stmts.new.items ≡ map stmt_of stmts.old.items ++ plain.Local (decl_of decl) ∷ []) }
{
    stmts.push(Stmt::Local(decl))?;
    Ok(())
}

/// Adds a local for each declaration.
pub fn push_locals(stmts: &mut Vec<Stmt>, decls: Vec<Decl>) -> Result<(), AllocError>
    ensures { OnOk result (map stmt_of stmts.new.items ≡ map stmt_of stmts.old.items ++ map plain.Local (decls_of decls.items)) }
{
    let mut left = VecDeque::from(decls);
    while let Some(decl) = left.pop_front() {
        push_local(stmts, decl)?;
    }
    Ok(())
}

fn push_statement(stmts: &mut Vec<Stmt>, part: &mut Meaning) -> Result<(), AllocError>
    ensures { OnOk result (map stmt_of stmts.new.items ≡ map stmt_of stmts.old.items ++ grammar.statement (meaning_of part.old) ∷ []) }
{
    stmts.push(take_statement(part))?;
    Ok(())
}

fn push_block_item(
    alloc: Global,
    stmts: &mut Vec<Stmt>,
    part: &mut Meaning,
) -> Result<(), AllocError>
    ensures { OnOk result (map stmt_of stmts.new.items ≡ map stmt_of stmts.old.items ++ grammar.block_items (more (meaning_of part.old) none)) }
{
    match part {
        Meaning::Declarations(decls) => push_locals(stmts, mem::replace(decls, Vec::new(alloc))),
        other => push_statement(stmts, other),
    }
}

#[tactic(auto, using(crate::proofs::Loops::block_split))]
fn push_each_block_items(
    alloc: Global,
    stmts: &mut Vec<Stmt>,
    row: &mut [Made],
) -> Result<(), AllocError>
    ensures { OnOk result (map stmt_of stmts.new.items ≡ map stmt_of stmts.old.items ++ grammar.block_items (meanings_of (row_of row.old))) }
{
    for made in row.iter_mut() {
        push_block_item(alloc, stmts, &mut made.meaning)?;
    }
    Ok(())
}

/// Adds what stands in a block.
pub fn push_block_items(
    alloc: Global,
    stmts: &mut Vec<Stmt>,
    value: &mut Value,
) -> Result<(), AllocError>
    ensures { OnOk result (map stmt_of stmts.new.items ≡ map stmt_of stmts.old.items ++ grammar.block_items (grammar.several (means value.old))) }
{
    match value {
        Value::Row(row) => push_each_block_items(alloc, stmts, row.make_contiguous()),
        _ => Ok(()),
    }
}

fn push_local_part(parts: &mut Vec<Part>, decl: Decl) -> Result<(), AllocError>
    ensures { OnOk result (map part_of parts.new.items ≡ map part_of parts.old.items ++ grammar.local_part (decl_of decl) ∷ []) }
{
    parts.push(Part::Item(Stmt::Local(decl)))?;
    Ok(())
}

fn push_local_parts(parts: &mut Vec<Part>, decls: Vec<Decl>) -> Result<(), AllocError>
    ensures { OnOk result (map part_of parts.new.items ≡ map part_of parts.old.items ++ map grammar.local_part (decls_of decls.items)) }
{
    let mut left = VecDeque::from(decls);
    while let Some(decl) = left.pop_front() {
        push_local_part(parts, decl)?;
    }
    Ok(())
}

fn push_part(parts: &mut Vec<Part>, part: Part) -> Result<(), AllocError>
    ensures { OnOk result (map part_of parts.new.items ≡ map part_of parts.old.items ++ part_of part ∷ []) }
{
    parts.push(part)?;
    Ok(())
}

// What stands for a part where there is none.
fn no_part() -> Part
    ensures { part_of result ≡ plain.Item plain.Empty }
{
    Part::Item(Stmt::Empty)
}

fn push_switch_part(
    alloc: Global,
    parts: &mut Vec<Part>,
    part: &mut Meaning,
) -> Result<(), AllocError>
    ensures { OnOk result (map part_of parts.new.items ≡ map part_of parts.old.items ++ grammar.switch_parts (more (meaning_of part.old) none)) }
{
    match part {
        Meaning::Declarations(decls) => {
            push_local_parts(parts, mem::replace(decls, Vec::new(alloc)))
        }
        Meaning::Label(label) => push_part(parts, mem::replace(label, no_part())),
        other => push_part(parts, Part::Item(take_statement(other))),
    }
}

#[tactic(auto, using(crate::proofs::Loops::switch_split))]
fn push_each_switch_parts(
    alloc: Global,
    parts: &mut Vec<Part>,
    row: &mut [Made],
) -> Result<(), AllocError>
    ensures { OnOk result (map part_of parts.new.items ≡ map part_of parts.old.items ++ grammar.switch_parts (meanings_of (row_of row.old))) }
{
    for made in row.iter_mut() {
        push_switch_part(alloc, parts, &mut made.meaning)?;
    }
    Ok(())
}

/// Adds what stands in a `switch`.
pub fn push_switch_parts(
    alloc: Global,
    parts: &mut Vec<Part>,
    value: &mut Value,
) -> Result<(), AllocError>
    ensures { OnOk result (map part_of parts.new.items ≡ map part_of parts.old.items ++ grammar.switch_parts (grammar.several (means value.old))) }
{
    match value {
        Value::Row(row) => push_each_switch_parts(alloc, parts, row.make_contiguous()),
        _ => Ok(()),
    }
}

fn push_object(items: &mut Vec<Item>, decl: Decl) -> Result<(), AllocError>
    ensures { OnOk result (map item_of items.new.items ≡ map item_of items.old.items ++ plain.Object (decl_of decl) ∷ []) }
{
    items.push(Item::Object(decl))?;
    Ok(())
}

/// Adds an object for each declaration.
pub fn push_objects(items: &mut Vec<Item>, decls: Vec<Decl>) -> Result<(), AllocError>
    ensures { OnOk result (map item_of items.new.items ≡ map item_of items.old.items ++ map plain.Object (decls_of decls.items)) }
{
    let mut left = VecDeque::from(decls);
    while let Some(decl) = left.pop_front() {
        push_object(items, decl)?;
    }
    Ok(())
}

fn push_type(types: &mut Vec<Ty>, decl: Decl) -> Result<(), AllocError>
    ensures { OnOk result (map ty_of types.new.items ≡ map ty_of types.old.items ++ (decl_of decl).ty ∷ []) }
{
    types.push(decl.ty)?;
    Ok(())
}

/// Adds the types of declarations.
pub fn push_types(types: &mut Vec<Ty>, decls: Vec<Decl>) -> Result<(), AllocError>
    ensures { OnOk result (map ty_of types.new.items ≡ map ty_of types.old.items ++ grammar.parameter_types (decls_of decls.items)) }
{
    let mut left = VecDeque::from(decls);
    while let Some(decl) = left.pop_front() {
        push_type(types, decl)?;
    }
    Ok(())
}
