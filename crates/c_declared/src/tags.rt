// The members of tags while they are declared.

ghost use Rattle.std.specs.Prelude.{◌≡◌, ◌<◌, List, Option, Some, set, slice_get, vec_len, is_some};
ghost use Rattle.c_types.specs.Types as types;
ghost use Rattle.c_types.specs.Known.{Known};
ghost use Rattle.c_layouts.specs.Layouts.{LayoutIs};
ghost use Rattle.c_layouts.specs.declared.layout.Layout.TheVariants.{Unfinished};

use c_layouts::Layout;
use std::mem;

/// Whether a layout is that of a tag that is declared.
pub fn is_tag(layout: &Layout<'_>) -> bool
    ensures { (all : List Known) (o : Option types.Layout) → LayoutIs all layout.now o → result ≡ is_some o }
{
    !matches!(layout, Layout::Undeclared)
}

/// The members of a tag begin. The answer is what was known of them.
pub fn open_tag<'t>(layouts: &mut Vec<Layout<'t>>, tag: usize) -> Layout<'t>
    requires { tag < vec_len layouts.old }
    ensures known { slice_get layouts.old.items tag ≡ Some result }
    ensures opened { layouts.new.items ≡ set layouts.old.items tag Unfinished }
{
    mem::replace(&mut layouts[tag], Layout::Unfinished)
}

/// This is known of the members of a tag from now on.
pub fn close_tag<'t>(layouts: &mut Vec<Layout<'t>>, tag: usize, layout: Layout<'t>)
    requires { tag < vec_len layouts.old }
    ensures { layouts.new.items ≡ set layouts.old.items tag layout.entry }
{
    layouts[tag] = layout;
}
