// The parameters of the function of a format.

ghost use Rattle.std.specs.Prelude.{◌≡◌, IfOk};
ghost use Rattle.c_syntax.specs.View.{decl_of, decls_of, ty_of};
ghost use Rattle.c_helpers.specs.Terms.{declaration};
ghost use Rattle.c_helpers.specs.Functions as plain;
ghost use Rattle.c_helpers.specs.Functions.{argument_name, arguments_from};

use c_syntax::text::Text;
use c_syntax::tree::{Decl, Ty};
use c_terms::pointer;
use itoa::Buffer;
use std::alloc::{AllocError, Global};

// The type of what a conversion takes.
fn conversion_type(alloc: Global, letter: u8) -> Result<Ty, AllocError>
    ensures { IfOk result (λ t. ty_of t ≡ plain.conversion_type letter) }
{
    if letter == b's' {
        return pointer(alloc, Ty::Char);
    }
    if letter == b'd' {
        return Ok(Ty::Int);
    }
    if letter == b'c' {
        return Ok(Ty::Int);
    }
    Ok(Ty::Unsigned)
}

// The name of the parameter behind so many others.
fn argument_text(alloc: Global, index: usize) -> Result<Text, AllocError>
    ensures { IfOk result (λ t. t ≡ argument_name index) }
{
    let mut buffer = Buffer::new();
    let name = buffer.format(index).as_bytes();
    let text = Vec::from_slice(alloc, name)?;
    Ok(Text::from_bytes(text))
}

// The parameter for a conversion, behind so many others.
fn parameter(alloc: Global, index: usize, letter: u8) -> Result<Decl, AllocError>
    ensures { IfOk result (λ d. decl_of d ≡ declaration (plain.conversion_type letter) (argument_name index)) }
{
    let ty = conversion_type(alloc, letter)?;
    let name = argument_text(alloc, index)?;
    Ok(Decl {
        name,
        pos: 0,
        ty,
        first: None,
    })
}

/// The parameters for conversions, one after the other.
pub fn parameters(alloc: Global, letters: &[u8]) -> Result<Vec<Decl>, AllocError>
    ensures { IfOk result (λ ds. decls_of ds.items ≡ arguments_from 0 letters.now) }
{
    let mut items = Vec::new(alloc);
    for letter in letters {
        let index = items.len();
        let item = parameter(alloc, index, *letter)?;
        items.push(item)?;
    }
    Ok(items)
}
