//! Declared names, parameters, members and first values.

ghost use Rattle.std.specs.Prelude.{◌≡◌, ◌∷◌, [], map, IfOk, Some, None, Bool};
ghost use Rattle.c_syntax.specs.Plain as plain;
ghost use Rattle.c_syntax.specs.Plain.{CTy, values};
ghost use Rattle.c_syntax.specs.View.{ty_of, value_of, maybe_value, decl_of, decls_of};
ghost use Rattle.c_grammar.specs.Tree as grammar;
ghost use Rattle.c_grammar.specs.Tree.{Meanings, more, none, act};
ghost use Rattle.c_grammar.specs.declared.names.Production.TheVariants as production;
ghost use Rattle.c_grammar.specs.declared.names.Piece.TheVariants as piece;
ghost use Rattle.c_held.specs.View.{meaning_of, means, layers_of, declared_of, base_of};
ghost use Rattle.c_held.specs.Shape.{IsWords};

use c_declare_types::words::{and, words};
use c_held::parts::{
    expression, first, initial, initials, is_none, maybe_expression, maybe_initial, no_text, place,
    take_declarations, take_token, text, token,
};
use c_held::value::{Base, Declarator, Declared, Layer, Meaning, Value};
use c_held_rows::rows::{push_declared, push_lengths, push_members};
use c_held_rows::types::{
    behind_stars, declare, declare_of, function_layers, lengths, pointed_function,
    push_declarations, starred, type_of, with_layers,
};
use c_syntax::Token;
use c_syntax::tree::{self, Decl, Ty, Values};
use std::alloc::{AllocError, Global};
use std::mem;

/// A type in brackets: its words, its stars, and the parameters of a function that it points to.
#[tactic(auto, unfolding(c_grammar::specs::Tree::act))]
pub fn type_inside(
    alloc: Global,
    spec: &mut Value,
    stars: &mut Value,
    function: &mut Value,
) -> Result<Meaning, AllocError>
    ensures { (c : grammar.Meaning) → IfOk result (λ m. meaning_of m ≡ act production.TypeInside (more (means spec.old) (more (means stars.old) (more (means function.old) (more c none))))) }
{
    let ty = type_of(alloc, spec)?;
    let ty = starred(alloc, stars, ty)?;
    Ok(Meaning::TypeName(in_function(alloc, function, ty)?))
}

/// A pointer to a function with the parameters of a row and a result of the type, or the type itself where the row is empty. An `Err` is want of memory.
fn in_function(alloc: Global, function: &mut Value, ty: Ty) -> Result<Ty, AllocError>
    ensures { IfOk result (λ t. ty_of t ≡ grammar.in_function (means function.old) (ty_of ty)) }
{
    match function {
        Value::Row(row) => match first(row) {
            Some(params) => pointed_function(alloc, take_declarations(alloc, params), ty),
            None => Ok(ty),
        },
        _ => Ok(ty),
    }
}

/// The declarations of a row behind a first one, each of the type that words say. An `Err` is want of memory.
fn declare_all(
    alloc: Global,
    first: Decl,
    others: &mut Value,
    base: &Base,
) -> Result<Vec<Decl>, AllocError>
    ensures { IfOk result (λ v. decls_of v.items ≡ decl_of first ∷ grammar.all_declared (base_of base.now) (grammar.several (means others.old))) }
{
    let mut decls = Vec::new(alloc);
    decls.push(first)?;
    let mut all = Vec::new(alloc);
    push_declared(alloc, &mut all, others)?;
    push_declarations(alloc, &mut decls, all.as_mut_slice(), base)?;
    Ok(decls)
}

/// The declaration of a name behind stars, of the type that words say. An `Err` is want of memory.
fn declare_behind(
    alloc: Global,
    stars: &mut Value,
    core: &mut Value,
    base: &Base,
) -> Result<Decl, AllocError>
    ensures { IfOk result (λ d. decl_of d ≡ grammar.declared (means stars.old) (means core.old) (base_of base.now)) }
{
    let mut declared = behind_stars(alloc, stars, core)?;
    declare(alloc, &mut declared, base)
}

/// A declaration of members.
#[tactic(auto, unfolding(c_grammar::specs::Tree::act))]
pub fn members(
    alloc: Global,
    spec: &mut Value,
    stars: &mut Value,
    core: &mut Value,
    others: &mut Value,
) -> Result<Meaning, AllocError>
    requires { IsWords spec.old }
    ensures { (semi : grammar.Meaning) → IfOk result (λ m. meaning_of m ≡ act production.MemberP (more (means spec.old) (more (means stars.old) (more (means core.old) (more (means others.old) (more semi none)))))) }
{
    let base = words(spec);
    let first = declare_behind(alloc, stars, core, &base)?;
    let decls = declare_all(alloc, first, others, &base)?;
    Ok(Meaning::Declarations(decls))
}

/// A token as a declared name, with what stands around its type.
#[tactic(auto, using(crate::proofs::Same::named_same))]
fn named(alloc: Global, mut token: Token, layers: Vec<Layer>) -> Meaning
    ensures { (m : grammar.Meaning) (f : CTy → CTy) → grammar.kind_name token.kind ≡ grammar.name m → token.pos ≡ grammar.place m → ((t : CTy) → layers_of layers.items t ≡ f t) → meaning_of result ≡ grammar.Declares (grammar.named m f) }
{
    Meaning::Declares(Declared::Of(Declarator {
        name: text(alloc, &mut token.kind),
        pos: token.pos,
        layers,
        first: None,
    }))
}

/// A declared name with its lengths.
#[tactic(auto, unfolding(c_grammar::specs::Tree::act))]
pub fn name_core(alloc: Global, n: &mut Value, sizes: &mut Value) -> Result<Meaning, AllocError>
    ensures { (o : Bool) → IfOk result (λ m. meaning_of m ≡ act (production.NameCore o) (more (means n.old) (more (means sizes.old) none))) }
{
    let layers = lengths(alloc, sizes)?;
    Ok(named(alloc, token(n), layers))
}

/// A declared pointer to a function: its name, its lengths and its parameters.
#[tactic(auto, unfolding(c_grammar::specs::Tree::act))]
pub fn function_core(
    alloc: Global,
    n: &mut Value,
    sizes: &mut Value,
    params: &mut Value,
) -> Result<Meaning, AllocError>
    ensures { (o : Bool) (l star r l2 : grammar.Meaning) → IfOk result (λ m. meaning_of m ≡ act (production.FunctionCore o) (more l (more star (more (means n.old) (more (means sizes.old) (more r (more l2 (more (means params.old) none)))))))) }
{
    let layers = function_layers(alloc, sizes, params)?;
    Ok(named(alloc, token(n), layers))
}

/// The parameters of a function that has none.
#[tactic(auto, unfolding(c_grammar::specs::Tree::act))]
pub fn no_params(alloc: Global) -> Meaning
    ensures { (ms : Meanings) → meaning_of result ≡ act production.NoParams ms }
{
    Meaning::Declarations(Vec::new(alloc))
}

/// The layers of a parameter without a name, taken out of a meaning; none of another meaning.
fn take_unnamed(alloc: Global, part: &mut Meaning) -> Vec<Layer>
    ensures { (t : CTy) (ms : Meanings) → layers_of result.items t ≡ grammar.unnamed (grammar.Several (more (meaning_of part.old) ms)) t }
{
    match part {
        Meaning::Unnamed(layers) => mem::replace(layers, Vec::new(alloc)),
        _ => Vec::new(alloc),
    }
}

/// The layers of a parameter that a row has, taken out of it; none where it is empty.
fn unnamed(alloc: Global, value: &mut Value) -> Vec<Layer>
    ensures { (t : CTy) → layers_of result.items t ≡ grammar.unnamed (means value.old) t }
{
    match value {
        Value::Row(row) => match first(row) {
            Some(part) => take_unnamed(alloc, part),
            None => Vec::new(alloc),
        },
        _ => Vec::new(alloc),
    }
}

/// A parameter without a name: layers around a type, at a place. An `Err` is want of memory.
fn unnamed_parameter(
    alloc: Global,
    mut layers: Vec<Layer>,
    pos: u32,
    ty: Ty,
) -> Result<Decl, AllocError>
    ensures { IfOk result (λ d. decl_of d ≡ record { name = []; pos = pos; ty = layers_of layers.items (ty_of ty); first = None }) }
{
    let ty = with_layers(alloc, &mut layers, ty)?;
    Ok(Decl {
        name: no_text(alloc),
        pos,
        ty,
        first: None,
    })
}

/// A parameter of a type, at a place, by the meaning behind its stars: a name with its layers, or layers alone. An `Err` is want of memory.
fn parameter_in(alloc: Global, tail: &mut Meaning, pos: u32, ty: Ty) -> Result<Decl, AllocError>
    ensures { IfOk result (λ d. (ms : Meanings) → decl_of d ≡ grammar.parameter_of (grammar.Several (more (meaning_of tail.old) ms)) pos (ty_of ty)) }
{
    match tail {
        Meaning::Declares(declared) => declare_of(alloc, declared, ty),
        other => unnamed_parameter(alloc, take_unnamed(alloc, other), pos, ty),
    }
}

/// A parameter of a type, at a place, by what stands behind its stars. An `Err` is want of memory.
fn parameter_of(alloc: Global, tail: &mut Value, pos: u32, ty: Ty) -> Result<Decl, AllocError>
    ensures { IfOk result (λ d. decl_of d ≡ grammar.parameter_of (means tail.old) pos (ty_of ty)) }
{
    match tail {
        Value::Row(row) => match first(row) {
            Some(part) => parameter_in(alloc, part, pos, ty),
            None => unnamed_parameter(alloc, Vec::new(alloc), pos, ty),
        },
        _ => unnamed_parameter(alloc, Vec::new(alloc), pos, ty),
    }
}

/// A parameter: its words, its stars, and what stands behind them. An `Err` is want of memory.
fn parameter(
    alloc: Global,
    spec: &mut Value,
    stars: &mut Value,
    tail: &mut Value,
) -> Result<Decl, AllocError>
    ensures { IfOk result (λ d. decl_of d ≡ grammar.parameter (means spec.old) (means stars.old) (means tail.old)) }
{
    let pos = place(spec);
    let ty = type_of(alloc, spec)?;
    let ty = starred(alloc, stars, ty)?;
    parameter_of(alloc, tail, pos, ty)
}

/// Whether a meaning is the word `void` by itself.
fn is_bare_in(part: &Meaning) -> bool
    ensures { result ≡ grammar.is_bare (meaning_of part.now) }
{
    match part {
        Meaning::Words(_, _, bare, _) => *bare,
        _ => false,
    }
}

/// Whether a value is the word `void` by itself.
fn is_bare(value: &Value) -> bool
    ensures { result ≡ grammar.is_bare (means value.now) }
{
    match value {
        Value::Part(made) => is_bare_in(&made.meaning),
        _ => false,
    }
}

/// Whether `void` by itself says that there are no parameters.
fn is_only_void(spec: &Value, stars: &Value, tail: &Value, others: &Value) -> bool
    ensures { result ≡ grammar.and (grammar.is_bare (means spec.now)) (grammar.and (grammar.is_none (means stars.now)) (grammar.and (grammar.is_none (means tail.now)) (grammar.is_none (means others.now)))) }
{
    let others = is_none(others);
    let tail = and(is_none(tail), others);
    let stars = and(is_none(stars), tail);
    and(is_bare(spec), stars)
}

/// The parameters of a function, the first and the others.
#[tactic(auto, unfolding(c_grammar::specs::Tree::act))]
pub fn params(
    alloc: Global,
    spec: &mut Value,
    stars: &mut Value,
    tail: &mut Value,
    others: &mut Value,
) -> Result<Meaning, AllocError>
    ensures { (r : grammar.Meaning) → IfOk result (λ m. meaning_of m ≡ act production.Params (more (means spec.old) (more (means stars.old) (more (means tail.old) (more (means others.old) (more r none)))))) }
{
    if is_only_void(spec, stars, tail, others) {
        return Ok(Meaning::Declarations(Vec::new(alloc)));
    }
    let first = parameter(alloc, spec, stars, tail)?;
    let decls = declare_all(alloc, first, others, &Base::Void)?;
    Ok(Meaning::Declarations(decls))
}

/// A further parameter.
#[tactic(auto, unfolding(c_grammar::specs::Tree::act), using(c_held_rows::proofs::Functions::declares_same, c_held_rows::proofs::Functions::decl_same))]
pub fn next_param(
    alloc: Global,
    spec: &mut Value,
    stars: &mut Value,
    tail: &mut Value,
) -> Result<Meaning, AllocError>
    ensures { (comma : grammar.Meaning) → IfOk result (λ m. meaning_of m ≡ act (production.PieceP piece.NextParam) (more comma (more (means spec.old) (more (means stars.old) (more (means tail.old) none))))) }
{
    let decl = parameter(alloc, spec, stars, tail)?;
    Ok(Meaning::Declares(Declared::Fixed(decl)))
}

/// The name of a parameter, with its lengths.
#[tactic(auto, unfolding(c_grammar::specs::Tree::act))]
pub fn param_name(alloc: Global, n: &mut Value, sizes: &mut Value) -> Meaning
    ensures { meaning_of result ≡ act production.ParamName (more (means n.old) (more (means sizes.old) none)) }
{
    let layers = unnamed(alloc, sizes);
    named(alloc, token(n), layers)
}

/// A pointer to a function as a parameter, with the name that a row has, or without.
#[tactic(auto, using(c_held_rows::proofs::Functions::unnamed_same))]
fn function_parameter(alloc: Global, n: &mut Value, layers: Vec<Layer>) -> Meaning
    ensures { (f : CTy → CTy) → ((t : CTy) → layers_of layers.items t ≡ f t) → meaning_of result ≡ grammar.function_parameter (means n.old) f }
{
    match n {
        Value::Row(row) => match first(row) {
            Some(name) => named(alloc, take_token(name), layers),
            None => Meaning::Unnamed(layers),
        },
        _ => Meaning::Unnamed(layers),
    }
}

/// A pointer to a function as a parameter, with a name or without.
#[tactic(auto, unfolding(c_grammar::specs::Tree::act))]
pub fn param_function(
    alloc: Global,
    n: &mut Value,
    size: &mut Value,
    params: &mut Value,
) -> Result<Meaning, AllocError>
    ensures { (l star r l2 : grammar.Meaning) → IfOk result (λ m. meaning_of m ≡ act production.ParamFunction (more l (more star (more (means n.old) (more (means size.old) (more r (more l2 (more (means params.old) none)))))))) }
{
    let layers = function_layers(alloc, size, params)?;
    Ok(function_parameter(alloc, n, layers))
}

/// Gives a declaration a first value, or none.
fn set_value(decl: &mut Decl, value: Option<tree::Value>)
    ensures { decl_of decl.new ≡ grammar.with_value (decl_of decl.old) (maybe_value value) }
{
    decl.first = value;
}

/// Gives what is declared a first value, or none.
pub fn set_first(declared: &mut Declared, value: Option<tree::Value>)
    ensures { (t : CTy) → declared_of declared.new t ≡ grammar.with_value (declared_of declared.old t) (maybe_value value) }
{
    match declared {
        Declared::Of(declarator) => declarator.first = value,
        Declared::Fixed(decl) => set_value(decl, value),
    }
}

/// A declared name behind stars, with its first value. An `Err` is want of memory.
fn with_first(
    alloc: Global,
    stars: &mut Value,
    core: &mut Value,
    v: &mut Value,
) -> Result<Declared, AllocError>
    ensures { IfOk result (λ d. (t : CTy) → declared_of d t ≡ grammar.with_value (grammar.declared (means stars.old) (means core.old) t) (grammar.maybe_value (means v.old))) }
{
    let mut declared = behind_stars(alloc, stars, core)?;
    set_first(&mut declared, maybe_initial(v));
    Ok(declared)
}

/// A declaration: the words, and the first name with its stars and its value, and the others.
#[tactic(auto, unfolding(c_grammar::specs::Tree::act))]
pub fn declaration(
    alloc: Global,
    spec: &mut Value,
    stars: &mut Value,
    core: &mut Value,
    v: &mut Value,
    others: &mut Value,
) -> Result<Meaning, AllocError>
    requires { IsWords spec.old }
    ensures { (semi : grammar.Meaning) → IfOk result (λ m. meaning_of m ≡ act production.Declaration (more (means spec.old) (more (means stars.old) (more (means core.old) (more (means v.old) (more (means others.old) (more semi none))))))) }
{
    let base = words(spec);
    let mut first = declare_behind(alloc, stars, core, &base)?;
    set_value(&mut first, maybe_initial(v));
    let decls = declare_all(alloc, first, others, &base)?;
    Ok(Meaning::Declarations(decls))
}

/// A further member.
#[tactic(auto, unfolding(c_grammar::specs::Tree::act), using(c_held_rows::proofs::Functions::declares_same))]
pub fn next_member(
    alloc: Global,
    stars: &mut Value,
    core: &mut Value,
) -> Result<Meaning, AllocError>
    ensures { (comma : grammar.Meaning) → IfOk result (λ m. meaning_of m ≡ act (production.PieceP piece.NextMember) (more comma (more (means stars.old) (more (means core.old) none)))) }
{
    let declared = behind_stars(alloc, stars, core)?;
    Ok(Meaning::Declares(declared))
}

/// A further declared name with its first value.
#[tactic(auto, unfolding(c_grammar::specs::Tree::act), using(c_held_rows::proofs::Functions::declares_same))]
pub fn next_init(
    alloc: Global,
    stars: &mut Value,
    core: &mut Value,
    v: &mut Value,
) -> Result<Meaning, AllocError>
    ensures { (comma : grammar.Meaning) → IfOk result (λ m. meaning_of m ≡ act (production.PieceP piece.NextInit) (more comma (more (means stars.old) (more (means core.old) (more (means v.old) none))))) }
{
    let declared = with_first(alloc, stars, core, v)?;
    Ok(Meaning::Declares(declared))
}

/// The lengths of a parameter without a name.
#[tactic(auto, unfolding(c_grammar::specs::Tree::act), using(c_held_rows::proofs::Functions::unnamed_same))]
pub fn param_lengths(
    alloc: Global,
    n: &mut Value,
    others: &mut Value,
) -> Result<Meaning, AllocError>
    ensures { (o c : grammar.Meaning) → IfOk result (λ m. meaning_of m ≡ act (production.PieceP piece.ParamLengths) (more o (more (means n.old) (more c (more (means others.old) none))))) }
{
    let mut layers = Vec::new(alloc);
    layers.push(Layer::Array(maybe_expression(n)))?;
    push_lengths(&mut layers, others)?;
    Ok(Meaning::Unnamed(layers))
}

/// The members of a struct.
#[tactic(auto, unfolding(c_grammar::specs::Tree::act))]
pub fn all_members(alloc: Global, ms: &mut Value) -> Result<Meaning, AllocError>
    ensures { (o c : grammar.Meaning) → IfOk result (λ m. meaning_of m ≡ act (production.PieceP piece.Members) (more o (more (means ms.old) (more c none)))) }
{
    let mut decls = Vec::new(alloc);
    push_members(alloc, &mut decls, ms)?;
    Ok(Meaning::Declarations(decls))
}

/// A length that may be left out.
#[tactic(auto, unfolding(c_grammar::specs::Tree::act))]
pub fn any_length(n: &mut Value) -> Meaning
    ensures { (o c : grammar.Meaning) → meaning_of result ≡ act (production.PieceP piece.AnyLength) (more o (more (means n.old) (more c none))) }
{
    Meaning::Length(maybe_expression(n))
}

/// A length.
#[tactic(auto, unfolding(c_grammar::specs::Tree::act))]
pub fn full_length(n: &mut Value) -> Meaning
    ensures { (o c : grammar.Meaning) → meaning_of result ≡ act (production.PieceP piece.FullLength) (more o (more (means n.old) (more c none))) }
{
    Meaning::Length(Some(expression(n)))
}

/// A first value behind `=`.
#[tactic(auto, unfolding(c_grammar::specs::Tree::act))]
pub fn first_value(v: &mut Value) -> Meaning
    ensures { (eq : grammar.Meaning) → meaning_of result ≡ act (production.PieceP piece.Initial) (more eq (more (means v.old) none)) }
{
    Meaning::Initial(initial(v))
}

/// The first of the first values in braces.
#[tactic(auto, unfolding(c_grammar::specs::Tree::act))]
pub fn begin_values(alloc: Global, v: &mut Value) -> Result<Meaning, AllocError>
    ensures { (l : grammar.Meaning) → IfOk result (λ m. meaning_of m ≡ act production.FirstValue (more l (more (means v.old) none))) }
{
    let mut values = Vec::new(alloc);
    values.push(initial(v))?;
    Ok(Meaning::Initials(values))
}

/// A further value in braces.
#[tactic(auto, unfolding(c_grammar::specs::Tree::act))]
pub fn next_value(alloc: Global, vs: &mut Value, v: &mut Value) -> Result<Meaning, AllocError>
    ensures { IfOk result (λ m. meaning_of m ≡ act production.NextValue (more (means vs.old) (more (means v.old) none))) }
{
    let mut values = initials(alloc, vs);
    values.push(initial(v))?;
    Ok(Meaning::Initials(values))
}

/// First values in braces.
fn many(items: Vec<tree::Value>) -> tree::Value
    ensures { value_of result ≡ plain.Many (values (map value_of items.items)) }
{
    tree::Value::Many(Values { items })
}

/// First values in braces.
#[tactic(auto, unfolding(c_grammar::specs::Tree::act))]
pub fn braces(alloc: Global, vs: &mut Value) -> Meaning
    ensures { (r : grammar.Meaning) → meaning_of result ≡ act production.Braces (more (means vs.old) (more r none)) }
{
    Meaning::Initial(many(initials(alloc, vs)))
}
