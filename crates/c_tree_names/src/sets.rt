// Sets of names.

ghost use Rattle.std.specs.Prelude.{◌≡◌, OnOk};
ghost use Rattle.c_tree_names.specs.Added.{texts};
ghost use Rattle.c_tree_names.specs.Sets.{with_name};

use ordered::OrderedSet;
use std::alloc::AllocError;

/// A name more in a set of names, in the order in which they came.
pub fn put_name<'t>(names: &mut OrderedSet<&'t [u8]>, name: &'t [u8]) -> Result<(), AllocError>
    ensures { OnOk result (texts names.new.keys ≡ with_name (texts names.old.keys) name.now) }
{
    names.insert(name)?;
    Ok(())
}
