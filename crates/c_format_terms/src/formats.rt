// The functions of the formats of a text.

ghost use Rattle.std.specs.Prelude.{◌≡◌, ◌++◌, map, take, drop, IfOk, OnOk};
ghost use Rattle.std.specs.List.{filter};
ghost use Rattle.c_syntax.specs.View.{item_of};
ghost use Rattle.c_helpers.specs.Functions as functions;
ghost use Rattle.c_helpers.specs.Meanings as meanings;
ghost use Rattle.c_helpers.specs.Fewer.{distinct, function_of, helpers_for};
ghost use Rattle.c_tree_names.specs.Added.{texts};
ghost use Rattle.c_format_terms.specs.Formats.{with_format};

use crate::conversions::conversions;
use crate::parameters::parameters;
use crate::pieces::body;
use c_helper_terms::add_fixed;
use c_syntax::text::Text;
use c_syntax::tree::{Decls, Item, Ty};
use c_tree_names::{add_bodies, put_name};
use ordered::OrderedSet;
use std::alloc::{AllocError, Global};

// The name of a format's function.
fn function_name(alloc: Global, format: &[u8]) -> Result<Text, AllocError>
    ensures { IfOk result (λ t. t ≡ functions.format_name format.now) }
{
    let mut name = Vec::from_slice(alloc, b"printf ")?;
    name.extend_from_slice(format)?;
    Ok(Text::from_bytes(name))
}

/// The function of a format, with the arguments as parameters.
pub fn print_format(alloc: Global, format: &[u8]) -> Result<Item, AllocError>
    ensures { IfOk result (λ i. item_of i ≡ function_of (functions.print_format format.now)) }
{
    let name = function_name(alloc, format)?;
    let letters = conversions(alloc, format)?;
    let items = parameters(alloc, letters.as_slice())?;
    let whole = body(alloc, format)?;
    Ok(Item::Function {
        name,
        pos: 0,
        result: Ty::Void,
        params: Decls { items },
        body: Some(whole),
    })
}

// The bytes before the format in the name of its function, or of another name its first ones.
fn front(name: &[u8]) -> &[u8]
    ensures { result.now ≡ take 7 name.now }
{
    if name.len() < 7 { name } else { &name[..7] }
}

// The format in the name of its function.
fn format_of(name: &[u8]) -> &[u8]
    ensures { result.now ≡ drop 7 name.now }
{
    if name.len() < 7 { b"" } else { &name[7..] }
}

// Whether a name is that of a format's function.
fn is_format(name: &[u8]) -> bool
    ensures { result ≡ meanings.is_format name.now }
{
    front(name) == b"printf ".as_slice()
}

// A name more, where it is that of a format's function.
fn put_format<'t>(formats: &mut OrderedSet<&'t [u8]>, name: &'t [u8]) -> Result<(), AllocError>
    ensures { OnOk result (texts formats.new.keys ≡ with_format (texts formats.old.keys) name.now) }
{
    if is_format(name) {
        put_name(formats, name)
    } else {
        Ok(())
    }
}

// The names of formats' functions among names, each once.
fn formats_among<'t>(alloc: Global, names: &[&'t [u8]]) -> Result<OrderedSet<&'t [u8]>, AllocError>
    ensures { IfOk result (λ formats. texts formats.keys ≡ distinct (filter meanings.is_format (texts names.now))) }
{
    let mut formats = OrderedSet::new(alloc);
    for name in names {
        put_format(&mut formats, name)?;
    }
    Ok(formats)
}

// The functions of formats by their names, behind other externals.
fn add_formats(alloc: Global, names: &[&[u8]], items: &mut Vec<Item>) -> Result<(), AllocError>
    ensures { OnOk result (map item_of items.new.items ≡ map item_of items.old.items ++ map (λ name. function_of (functions.print_format (drop 7 name))) (texts names.now)) }
{
    for name in names {
        let format = format_of(name);
        let item = print_format(alloc, format)?;
        items.push(item)?;
    }
    Ok(())
}

/// All helper functions that a text may call, behind other externals.
pub fn add_helpers_for(
    alloc: Global,
    text: &[Item],
    items: &mut Vec<Item>,
) -> Result<(), AllocError>
    ensures { OnOk result (map item_of items.new.items ≡ map item_of items.old.items ++ map function_of (helpers_for (map item_of text.now))) }
{
    let mut names = Vec::new(alloc);
    add_bodies(&mut names, text)?;
    let formats = formats_among(alloc, names.as_slice())?;
    add_fixed(alloc, items)?;
    add_formats(alloc, formats.as_slice(), items)
}
