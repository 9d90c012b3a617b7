// Names that are called.

ghost use Rattle.std.specs.Prelude.{◌≡◌, ℕ, Some};
ghost use Rattle.std.specs.Str.{bytes_eq};
ghost use Rattle.c_syntax.specs.Plain as plain;
ghost use Rattle.c_syntax.specs.View.{expr_of};
ghost use Rattle.c_types.specs.Types.{CType};
ghost use Rattle.c_types.specs.Scope as scope;
ghost use Rattle.c_types.specs.Scope.{Scope, entity_of};
ghost use Rattle.c_operands.specs.Scoped.{IsEntityOrNone};
ghost use Rattle.c_fewer_operators.specs.Here.{Stands};
ghost use Rattle.c_fewer_expressions.specs.Calls.{CallsAs};

use c_expressions::name_in;
use c_fewer_operators::Here;
use c_scopes::Entity;
use c_syntax::tree::Expr;
use c_types::Types;

/// What the call of a name becomes.
#[derive(Clone, Copy)]
pub enum Named {
    /// A call of the function of a format.
    Printf,
    /// A call of the function that stands for `puts`.
    Puts,
    /// A call of what is called.
    Other,
}

// What a name stands for.
fn entity_of(types: &Types<'_>, here: &Here<'_>, name: &[u8]) -> Option<Entity>
    ensures { (s : Scope) → Stands types.now here.now s → IsEntityOrNone types.now result (entity_of s name.now) }
{
    let _types = types;
    here.declared.names.get(name)
}

// Whether a name is this word.
fn is_word(name: &[u8], word: &[u8]) -> bool
    ensures { result ≡ bytes_eq name.now word.now }
{
    name == word
}

// What the call of a function becomes that is always known.
fn built_in(name: &[u8]) -> Named
    ensures { (s : Scope) (t : CType) (pos : ℕ) → entity_of s name.now ≡ Some (scope.BuiltIn t) → CallsAs s result (plain.Var pos name.now) pos }
{
    if is_word(name, b"puts") {
        Named::Puts
    } else {
        Named::Other
    }
}

// What the call of a name becomes.
fn by_name(types: &Types<'_>, here: &Here<'_>, name: &[u8]) -> Named
    ensures { (s : Scope) (pos : ℕ) → Stands types.now here.now s → CallsAs s result (plain.Var pos name.now) pos }
{
    match entity_of(types, here, name) {
        Some(Entity::Printf) => Named::Printf,
        Some(Entity::BuiltIn(_ty)) => built_in(name),
        Some(Entity::Object(_ty)) => Named::Other,
        Some(Entity::Routine(_ty, _begun)) => Named::Other,
        None => Named::Other,
    }
}

/// What the call of an expression becomes.
pub fn naming(types: &Types<'_>, here: &Here<'_>, f: &Expr) -> Named
    ensures { (s : Scope) → Stands types.now here.now s → CallsAs s result (expr_of f.now) f.now.pos }
{
    match name_in(f) {
        Some(name) => by_name(types, here, name),
        None => Named::Other,
    }
}
