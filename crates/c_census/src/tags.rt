// Sums over tags.

ghost use Rattle.std.specs.Prelude.{◌≡◌, ◌+◌, Some, slice_get, IfOk, OnOk};
ghost use Rattle.c_syntax.specs.View.{decls_of};
ghost use Rattle.c_types.specs.Types.{Unfinished};
ghost use Rattle.c_types.specs.Scope.{Scope};
ghost use Rattle.c_types.specs.Declarations.{with_tag};
ghost use Rattle.c_types.specs.Census.{members_sum};
ghost use Rattle.c_declared.specs.Held.{Holds, HoldsSome};
ghost use Rattle.c_weights.specs.Sums.{AreCounted};
ghost use Rattle.c_census.specs.Sums.{HasNumber};

use crate::members::count_members;
use c_declared::{close_tag, open_tag};
use c_operands::Declarations;
use c_syntax::tree::Tag;
use c_types::Types;
use c_weights::Sum;
use std::alloc::AllocError;

// The sum over a tag that has this number: two nodes, and its members while they aren't closed.
fn count_numbered<'t>(
    types: &mut Types<'_>,
    declared: &mut Declarations<'t>,
    number: usize,
    tag: &'t Tag,
) -> Result<Sum, AllocError>
    requires holds { HoldsSome types.old declared.old }
    requires numbered { slice_get types.old.tags number ≡ Some tag.now.name }
    ensures counted { IfOk result (λ r. AreCounted types.old types.new declared.old r (λ s k. k.node + k.node + members_sum k (with_tag s tag.now.name Unfinished) (decls_of tag.now.members.items.items))) }
    ensures holds { (s : Scope) → Holds types.old declared.old s → OnOk result (Holds types.new declared.new s) }
{
    let before = open_tag(&mut declared.layouts, number);
    let members = count_members(types, declared, &tag.members)?;
    close_tag(&mut declared.layouts, number, before);
    Ok(Sum::node().plus(Sum::node()).plus(members))
}

/// The sum over a tag without its struct: two nodes, and its members while they aren't closed. Nothing is declared.
pub fn count_tag<'t>(
    types: &mut Types<'_>,
    declared: &mut Declarations<'t>,
    tag: &'t Tag,
) -> Result<Sum, AllocError>
    requires holds { HoldsSome types.old declared.old }
    requires numbered { HasNumber types.old tag.now.name }
    ensures counted { IfOk result (λ r. AreCounted types.old types.new declared.old r (λ s k. k.node + k.node + members_sum k (with_tag s tag.now.name Unfinished) (decls_of tag.now.members.items.items))) }
    ensures holds { (s : Scope) → Holds types.old declared.old s → OnOk result (Holds types.new declared.new s) }
{
    match types.tag(tag.name.as_bytes()) {
        Some(number) => count_numbered(types, declared, number, tag),
        None => unreachable!(),
    }
}
