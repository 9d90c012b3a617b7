// Tags that are declared.

ghost use Rattle.std.specs.Prelude.{◌≡◌, ◌<◌, ℕ, List, Some, slice_get, set, vec_len, is_some, if◌then◌else◌, IfOk, OnOk};
ghost use Rattle.std.specs.Result.{result_err};
ghost use Rattle.c_syntax.specs.Words.{meaning};
ghost use Rattle.c_syntax.specs.View.{tag_of, decls_of};
ghost use Rattle.c_types.specs.Refusals.{broken};
ghost use Rattle.c_types.specs.Scope.{Scope};
ghost use Rattle.c_types.specs.Declarations.{tag_declared, scope_or, some_members};
ghost use Rattle.c_types.specs.Table.{known};
ghost use Rattle.c_types.specs.Known.{Known, Grows};
ghost use Rattle.c_layouts.specs.Layouts.{LayoutIs};
ghost use Rattle.c_declared.specs.Held.{Holds, HoldsSome};
ghost use Rattle.c_declarations.specs.Members.{tag_rules};

use crate::members::judge_members;
use c_declared::{broken_rule, close_tag, is_tag, open_tag};
use c_layouts::Layout;
use c_operands::{Declarations, merged};
use c_syntax::tree::{Decls, Tag};
use c_types::{TypeFault, Types};
use std::alloc::AllocError;

// Whether there are members.
fn has_members(members: &Decls) -> bool
    ensures { result ≡ some_members (decls_of members.now.items.items) }
{
    members.items.len() > 0
}

// The refusal of a tag's own rules: it isn't declared before, and has members.
fn tag_fault(before: &Layout<'_>, tag: &Tag) -> Option<TypeFault>
    ensures { (all : List Known) (s : Scope) → LayoutIs all before.now (meaning s.tags tag.now.name) → result ≡ broken (tag_rules s (tag_of tag.now)) }
{
    let is_new = !is_tag(before);
    let is_full = has_members(&tag.members);
    merged(
        broken_rule(is_new, TypeFault::Twice(tag.pos)),
        broken_rule(is_full, TypeFault::Mismatch(tag.pos)),
    )
}

// The members of a tag are closed, or what was known of them is put back where the tag is refused.
fn settle_tag<'t>(
    declared: &mut Declarations<'t>,
    tag: usize,
    before: Layout<'t>,
    closed: Layout<'t>,
    refusal: Option<TypeFault>,
)
    requires { tag < vec_len declared.old.layouts }
    ensures layouts { declared.new.layouts.items ≡ set declared.old.layouts.items tag (if is_some refusal then before.entry else closed.entry) }
    ensures names { declared.new.names ≡ declared.old.names }
    ensures defined { declared.new.defined ≡ declared.old.defined }
{
    match refusal {
        Some(_) => close_tag(&mut declared.layouts, tag, before),
        None => close_tag(&mut declared.layouts, tag, closed),
    }
}

// The refusal of a tag that has this number, if it is refused. Where it isn't, its members are closed.
fn declare_numbered<'t>(
    types: &mut Types<'_>,
    declared: &mut Declarations<'t>,
    number: usize,
    tag: &'t Tag,
) -> Result<Option<TypeFault>, AllocError>
    requires holds { HoldsSome types.old declared.old }
    requires numbered { slice_get types.old.tags number ≡ Some tag.now.name }
    ensures told { (s : Scope) → Holds types.old declared.old s → IfOk result (λ r. r ≡ result_err (tag_declared s (tag_of tag.now))) }
    ensures holds { (s : Scope) → Holds types.old declared.old s → OnOk result (Holds types.new declared.new (scope_or s (tag_declared s (tag_of tag.now)))) }
    ensures grows { OnOk result (Grows (known types.old) (known types.new)) }
    ensures tags { OnOk result (types.new.tags ≡ types.old.tags) }
    ensures names { OnOk result (declared.new.names ≡ declared.old.names) }
{
    let before = open_tag(&mut declared.layouts, number);
    let members = judge_members(types, declared, &tag.members)?;
    match members {
        Ok(closed) => {
            let refusal = tag_fault(&before, tag);
            settle_tag(declared, number, before, closed, refusal);
            Ok(refusal)
        }
        Err(told) => {
            close_tag(&mut declared.layouts, number, before);
            Ok(Some(told))
        }
    }
}

/// The refusal of a tag's declaration, if it is refused. Where it isn't, the tag is declared with its members.
pub fn declare_tag<'t>(
    types: &mut Types<'_>,
    declared: &mut Declarations<'t>,
    tag: &'t Tag,
) -> Result<Option<TypeFault>, AllocError>
    requires holds { HoldsSome types.old declared.old }
    requires numbered { (n : ℕ) × (slice_get types.old.tags n ≡ Some tag.now.name) }
    ensures judged { (s : Scope) → Holds types.old declared.old s → IfOk result (λ r. r ≡ result_err (tag_declared s (tag_of tag.now))) }
    ensures holds { (s : Scope) → Holds types.old declared.old s → OnOk result (Holds types.new declared.new (scope_or s (tag_declared s (tag_of tag.now)))) }
    ensures grows { OnOk result (Grows (known types.old) (known types.new)) }
    ensures tags { OnOk result (types.new.tags ≡ types.old.tags) }
    ensures names { OnOk result (declared.new.names ≡ declared.old.names) }
{
    match types.tag(tag.name.as_bytes()) {
        Some(number) => declare_numbered(types, declared, number, tag),
        None => unreachable!(),
    }
}
