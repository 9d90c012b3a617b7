//! Externals, of the parts of a production: an `Err` is want of memory.

ghost use Rattle.std.specs.Prelude.{◌≡◌, length, IfOk};
ghost use Rattle.c_grammar.specs.Grammar.{rhs};
ghost use Rattle.c_grammar.specs.Tree.{act};
ghost use Rattle.c_grammar.specs.Values.{meanings_of};
ghost use Rattle.c_grammar.specs.declared.names.Production.TheVariants as is;
ghost use Rattle.c_held.specs.View.{meaning_of, values_of};
ghost use Rattle.c_held.specs.Shape.{StandAt};

use c_declare_externals::externals as build;
use c_held::parts::passed;
use c_held::value::{Meaning, Value};
use std::alloc::{AllocError, Global};

/// A whole text.
pub fn whole(alloc: Global, parts: &mut [Value]) -> Result<Meaning, AllocError>
    requires { length parts.old ≡ 2 }
    ensures { IfOk result (λ m. meaning_of m ≡ act is.Whole (meanings_of (values_of parts.old))) }
{
    let [externals, _] = parts else {
        unreachable!()
    };
    build::whole(alloc, externals)
}

/// An external behind `static`.
pub fn static_external(parts: &mut [Value]) -> Result<Meaning, AllocError>
    requires full { length parts.old ≡ 2 }
    requires stand { StandAt (rhs is.StaticExternal) parts.old }
    ensures { IfOk result (λ m. meaning_of m ≡ act is.StaticExternal (meanings_of (values_of parts.old))) }
{
    let [_, external] = parts else { unreachable!() };
    Ok(passed(external))
}

/// An external: the words of its type, and what they declare.
pub fn declared_external(alloc: Global, parts: &mut [Value]) -> Result<Meaning, AllocError>
    requires full { length parts.old ≡ 2 }
    requires stand { StandAt (rhs is.DeclaredP) parts.old }
    ensures { IfOk result (λ m. meaning_of m ≡ act is.DeclaredP (meanings_of (values_of parts.old))) }
{
    let [words, rest] = parts else { unreachable!() };
    build::declared_external(alloc, words, rest)
}

/// What an external declares behind a star.
pub fn pointed_external(alloc: Global, parts: &mut [Value]) -> Result<Meaning, AllocError>
    requires { length parts.old ≡ 3 }
    ensures { IfOk result (λ m. meaning_of m ≡ act is.Pointed (meanings_of (values_of parts.old))) }
{
    let [_, _, rest] = parts else { unreachable!() };
    build::pointed_external(alloc, rest)
}

/// A function, declared or defined.
pub fn function(alloc: Global, parts: &mut [Value]) -> Result<Meaning, AllocError>
    requires { length parts.old ≡ 4 }
    ensures { IfOk result (λ m. meaning_of m ≡ act is.Function (meanings_of (values_of parts.old))) }
{
    let [name, _, params, end] = parts else {
        unreachable!()
    };
    Ok(build::function(alloc, name, params, end))
}

/// The objects that an external declares.
pub fn objects(alloc: Global, parts: &mut [Value]) -> Result<Meaning, AllocError>
    requires { length parts.old ≡ 4 }
    ensures { IfOk result (λ m. meaning_of m ≡ act is.Objects (meanings_of (values_of parts.old))) }
{
    let [name, value, others, _] = parts else {
        unreachable!()
    };
    build::objects(alloc, name, value, others)
}
