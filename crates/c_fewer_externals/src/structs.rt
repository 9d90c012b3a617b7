// Structs.

ghost use Rattle.std.specs.Prelude.{◌≡◌, Some, map, slice_get, IfOk, OnOk};
ghost use Rattle.c_syntax.specs.Plain as plain;
ghost use Rattle.c_syntax.specs.View.{decls_of, tag_of};
ghost use Rattle.c_types.specs.Types.{Unfinished};
ghost use Rattle.c_types.specs.Scope.{Scope};
ghost use Rattle.c_types.specs.Declarations.{tag_declared, scope_or, with_tag};
ghost use Rattle.c_types.specs.Table.{known};
ghost use Rattle.c_types.specs.Known.{Grows};
ghost use Rattle.c_opening.specs.Named.{HasNumber};
ghost use Rattle.c_helpers.specs.Fewer.{fewer_in_declaration, fewer_in_item};
ghost use Rattle.c_fewer_declarations.specs.Standing.{StandsIn, StandsInSome};

use crate::declarations::fewer_in_members;
use c_declarations::declare_tag;
use c_declared::{close_tag, open_tag};
use c_fewer_operators::Here;
use c_syntax::tree::{Decl, Decls, Tag};
use c_types::Types;
use std::alloc::AllocError;

// The members of a tag of this number, which stand behind the tag.
fn members_behind<'t>(
    types: &mut Types<'_>,
    here: &mut Here<'t>,
    number: usize,
    tag: &'t Tag,
) -> Result<Vec<Decl>, AllocError>
    requires stands { StandsInSome types.old here.old }
    requires numbered { slice_get types.old.tags number ≡ Some tag.now.name }
    ensures trees { (s : Scope) → StandsIn types.old here.old s → IfOk result (λ r. decls_of r.items ≡ map (fewer_in_declaration (with_tag s tag.now.name Unfinished) (λ e. e)) (decls_of tag.now.members.items.items)) }
    ensures stands { (s : Scope) → StandsIn types.old here.old s → OnOk result (StandsIn types.new here.new s) }
    ensures grows { OnOk result (Grows (known types.old) (known types.new)) }
    ensures tags { OnOk result (types.new.tags ≡ types.old.tags) }
{
    let before = open_tag(&mut here.declared.layouts, number);
    let members = fewer_in_members(types, here, &tag.members)?;
    close_tag(&mut here.declared.layouts, number, before);
    Ok(members)
}

// The members of a tag, which stand behind the tag.
fn members_of<'t>(
    types: &mut Types<'_>,
    here: &mut Here<'t>,
    tag: &'t Tag,
) -> Result<Vec<Decl>, AllocError>
    requires stands { StandsInSome types.old here.old }
    requires numbered { HasNumber types.old tag.now.name }
    ensures trees { (s : Scope) → StandsIn types.old here.old s → IfOk result (λ r. decls_of r.items ≡ map (fewer_in_declaration (with_tag s tag.now.name Unfinished) (λ e. e)) (decls_of tag.now.members.items.items)) }
    ensures stands { (s : Scope) → StandsIn types.old here.old s → OnOk result (StandsIn types.new here.new s) }
    ensures grows { OnOk result (Grows (known types.old) (known types.new)) }
    ensures tags { OnOk result (types.new.tags ≡ types.old.tags) }
{
    match types.tag(tag.name.as_bytes()) {
        Some(number) => members_behind(types, here, number, tag),
        None => unreachable!(),
    }
}

/// A struct, which is declared.
pub fn fewer_in_struct<'t>(
    types: &mut Types<'_>,
    here: &mut Here<'t>,
    tag: &'t Tag,
) -> Result<Tag, AllocError>
    requires stands { StandsInSome types.old here.old }
    requires numbered { HasNumber types.old tag.now.name }
    ensures tree { (s : Scope) → StandsIn types.old here.old s → IfOk result (λ r. plain.StructItem (tag_of r) ≡ fewer_in_item s (plain.StructItem (tag_of tag.now))) }
    ensures stands { (s : Scope) → StandsIn types.old here.old s → OnOk result (StandsIn types.new here.new (scope_or s (tag_declared s (tag_of tag.now)))) }
    ensures grows { OnOk result (Grows (known types.old) (known types.new)) }
    ensures tags { OnOk result (types.new.tags ≡ types.old.tags) }
{
    let items = members_of(types, here, tag)?;
    declare_tag(types, &mut here.declared, tag)?;
    let name = tag.name.copied(here.declared.alloc)?;
    Ok(Tag {
        name,
        pos: tag.pos,
        members: Decls { items },
    })
}
