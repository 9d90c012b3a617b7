//! Types, declared names and first values, of the parts of a production: an `Err` is want of memory.

ghost use Rattle.std.specs.Prelude.{◌≡◌, length, IfOk, Bool, true, false};
ghost use Rattle.c_grammar.specs.Grammar.{rhs};
ghost use Rattle.c_grammar.specs.Tree.{act};
ghost use Rattle.c_grammar.specs.Values.{meanings_of};
ghost use Rattle.c_grammar.specs.declared.names.Production.TheVariants as is;
ghost use Rattle.c_held.specs.View.{meaning_of, values_of};
ghost use Rattle.c_held.specs.Shape.{StandAt, AreWords};

use c_declare::declarations as build;
use c_declare_types::words as build_words;
use c_held::parts::passed;
use c_held::value::{Meaning, Value};
use std::alloc::{AllocError, Global};

/// `const` and the words of a type.
pub fn const_words(external: bool, parts: &mut [Value]) -> Result<Meaning, AllocError>
    requires full { length parts.old ≡ 2 }
    requires stand { StandAt (rhs (is.ConstSpec external)) parts.old }
    ensures gives { IfOk result (λ m. meaning_of m ≡ act (is.ConstSpec external) (meanings_of (values_of parts.old))) }
    ensures words { IfOk result (λ m. AreWords m) }
{
    let [word, words] = parts else { unreachable!() };
    Ok(build_words::const_words(word, words))
}

/// The word of a type.
pub fn one_word(parts: &mut [Value]) -> Result<Meaning, AllocError>
    requires { length parts.old ≡ 2 }
    ensures gives { (e : Bool) → IfOk result (λ m. meaning_of m ≡ act (is.WordSpec e) (meanings_of (values_of parts.old))) }
    ensures words { IfOk result (λ m. AreWords m) }
{
    let [word, consts] = parts else {
        unreachable!()
    };
    Ok(build_words::one_word(word, consts))
}

/// A declared name with its lengths.
pub fn name_core(alloc: Global, parts: &mut [Value]) -> Result<Meaning, AllocError>
    requires { length parts.old ≡ 2 }
    ensures { (e : Bool) → IfOk result (λ m. meaning_of m ≡ act (is.NameCore e) (meanings_of (values_of parts.old))) }
{
    let [name, lengths] = parts else {
        unreachable!()
    };
    build::name_core(alloc, name, lengths)
}

/// The name of a parameter with its lengths.
pub fn param_name(alloc: Global, parts: &mut [Value]) -> Result<Meaning, AllocError>
    requires { length parts.old ≡ 2 }
    ensures { IfOk result (λ m. meaning_of m ≡ act is.ParamName (meanings_of (values_of parts.old))) }
{
    let [name, lengths] = parts else {
        unreachable!()
    };
    Ok(build::param_name(alloc, name, lengths))
}

/// A list of first values that has one.
pub fn begin_values(alloc: Global, parts: &mut [Value]) -> Result<Meaning, AllocError>
    requires { length parts.old ≡ 2 }
    ensures { IfOk result (λ m. meaning_of m ≡ act is.FirstValue (meanings_of (values_of parts.old))) }
{
    let [_, value] = parts else { unreachable!() };
    build::begin_values(alloc, value)
}

/// A list of first values before a comma.
pub fn value_comma(parts: &mut [Value]) -> Result<Meaning, AllocError>
    requires full { length parts.old ≡ 2 }
    requires stand { StandAt (rhs is.ValueComma) parts.old }
    ensures { IfOk result (λ m. meaning_of m ≡ act is.ValueComma (meanings_of (values_of parts.old))) }
{
    let [values, _] = parts else { unreachable!() };
    Ok(passed(values))
}

/// A list of first values with a further one.
pub fn next_value(alloc: Global, parts: &mut [Value]) -> Result<Meaning, AllocError>
    requires { length parts.old ≡ 2 }
    ensures { IfOk result (λ m. meaning_of m ≡ act is.NextValue (meanings_of (values_of parts.old))) }
{
    let [values, value] = parts else {
        unreachable!()
    };
    build::next_value(alloc, values, value)
}

/// A list of first values before the closing brace.
pub fn braces(alloc: Global, parts: &mut [Value]) -> Result<Meaning, AllocError>
    requires { length parts.old ≡ 2 }
    ensures { IfOk result (λ m. meaning_of m ≡ act is.Braces (meanings_of (values_of parts.old))) }
{
    let [values, _] = parts else { unreachable!() };
    Ok(build::braces(alloc, values))
}

/// `signed` or `unsigned`, and a word behind it.
pub fn sign_words(parts: &mut [Value]) -> Result<Meaning, AllocError>
    requires { length parts.old ≡ 3 }
    ensures gives { (e : Bool) → IfOk result (λ m. meaning_of m ≡ act (is.SignSpec e) (meanings_of (values_of parts.old))) }
    ensures words { IfOk result (λ m. AreWords m) }
{
    let [sign, _, second] = parts else {
        unreachable!()
    };
    Ok(build_words::sign_words(sign, second))
}

/// A struct by its name.
pub fn struct_words(alloc: Global, parts: &mut [Value]) -> Result<Meaning, AllocError>
    requires { length parts.old ≡ 3 }
    ensures gives { IfOk result (λ m. meaning_of m ≡ act (is.StructSpec false) (meanings_of (values_of parts.old))) }
    ensures words { IfOk result (λ m. AreWords m) }
{
    let [word, name, _] = parts else {
        unreachable!()
    };
    Ok(build_words::struct_words(alloc, word, name))
}

/// A struct with its members.
pub fn struct_with_members(alloc: Global, parts: &mut [Value]) -> Result<Meaning, AllocError>
    requires { length parts.old ≡ 4 }
    ensures gives { IfOk result (λ m. meaning_of m ≡ act (is.StructSpec true) (meanings_of (values_of parts.old))) }
    ensures words { IfOk result (λ m. AreWords m) }
{
    let [word, name, members, _] = parts else {
        unreachable!()
    };
    build_words::struct_with_members(alloc, word, name, members)
}

/// A declaration of members.
pub fn members(alloc: Global, parts: &mut [Value]) -> Result<Meaning, AllocError>
    requires full { length parts.old ≡ 5 }
    requires stand { StandAt (rhs is.MemberP) parts.old }
    ensures { IfOk result (λ m. meaning_of m ≡ act is.MemberP (meanings_of (values_of parts.old))) }
{
    let [words, stars, name, others, _] = parts else {
        unreachable!()
    };
    build::members(alloc, words, stars, name, others)
}

/// The parameters of a function.
pub fn params(alloc: Global, parts: &mut [Value]) -> Result<Meaning, AllocError>
    requires { length parts.old ≡ 5 }
    ensures { IfOk result (λ m. meaning_of m ≡ act is.Params (meanings_of (values_of parts.old))) }
{
    let [words, stars, tail, others, _] = parts else {
        unreachable!()
    };
    build::params(alloc, words, stars, tail, others)
}

/// A declaration of objects.
pub fn declaration(alloc: Global, parts: &mut [Value]) -> Result<Meaning, AllocError>
    requires full { length parts.old ≡ 6 }
    requires stand { StandAt (rhs is.Declaration) parts.old }
    ensures { IfOk result (λ m. meaning_of m ≡ act is.Declaration (meanings_of (values_of parts.old))) }
{
    let [words, stars, name, value, others, _] = parts else {
        unreachable!()
    };
    build::declaration(alloc, words, stars, name, value, others)
}

/// A declared pointer to a function.
pub fn function_core(alloc: Global, parts: &mut [Value]) -> Result<Meaning, AllocError>
    requires { length parts.old ≡ 7 }
    ensures { (e : Bool) → IfOk result (λ m. meaning_of m ≡ act (is.FunctionCore e) (meanings_of (values_of parts.old))) }
{
    let [_, _, name, lengths, _, _, params] = parts else {
        unreachable!()
    };
    build::function_core(alloc, name, lengths, params)
}

/// A parameter that is a pointer to a function.
pub fn param_function(alloc: Global, parts: &mut [Value]) -> Result<Meaning, AllocError>
    requires { length parts.old ≡ 7 }
    ensures { IfOk result (λ m. meaning_of m ≡ act is.ParamFunction (meanings_of (values_of parts.old))) }
{
    let [_, _, name, length, _, _, params] = parts else {
        unreachable!()
    };
    build::param_function(alloc, name, length, params)
}
