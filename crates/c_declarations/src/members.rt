// The members of a tag, one after the other.

ghost use Rattle.std.specs.Prelude.{◌≡◌, ◌<◌, [], ◌∷◌, length, List, Ok, IfOk, OnOk};
ghost use Rattle.std.specs.Result.{result_err};
ghost use Rattle.c_syntax.specs.View.{decl_of, decls_of, ty_of};
ghost use Rattle.c_types.specs.Types.{CType};
ghost use Rattle.c_types.specs.Refusals.{broken, after};
ghost use Rattle.c_types.specs.Scope.{Scope};
ghost use Rattle.c_types.specs.Expressions as expressions;
ghost use Rattle.c_types.specs.Declarations as plain;
ghost use Rattle.c_types.specs.Declarations.{object_type, members_or};
ghost use Rattle.c_types.specs.Table.{known, HasType};
ghost use Rattle.c_types.specs.Known.{Known, Grows};
ghost use Rattle.c_layouts.specs.Layouts.{AreLayouts};
ghost use Rattle.c_operands.specs.Seen.{IsJudged};
ghost use Rattle.c_declared.specs.Slots.{AreListed};
ghost use Rattle.c_declared.specs.Held.{Holds, HoldsSome};
ghost use Rattle.c_declared.specs.Told.{told_behind};
ghost use Rattle.c_declarations.specs.Members.{AreSoFar, IsClosed, member_rules, member_of};

use c_declared::{as_object, broken_rule};
use c_expressions::written;
use c_layouts::{Layout, words};
use c_operands::{Declarations, Judged, merged};
use c_syntax::tree::{Decl, Decls};
use c_types::{TypeFault, Types, Words};
use ordered::OrderedMap;
use std::alloc::{AllocError, Global};

/// The members of a tag so far, with the numbers of their types, and how many words they take.
#[derive(Drop)]
pub struct Members<'t> {
    pub entries: OrderedMap<&'t [u8], usize>,
    pub words: Words,
}

// The type of a member.
fn member_type(
    types: &mut Types<'_>,
    declared: &Declarations<'_>,
    m: &Decl,
) -> Result<Judged<usize>, AllocError>
    requires { HoldsSome types.old declared.now }
    ensures judged { (s : Scope) → Holds types.old declared.now s → IfOk result (λ j. IsJudged (HasType types.new) j (after (expressions.written s m.now.pos (ty_of m.now.ty)) (λ t. object_type s m.now.pos t))) }
    ensures grows { OnOk result (Grows (known types.old) (known types.new)) }
    ensures tags { OnOk result (types.new.tags ≡ types.old.tags) }
{
    let ty = written(types, declared, m.pos, &m.ty)?;
    match ty {
        Ok(number) => {
            let layouts = declared.layouts.as_slice();
            Ok(as_object(types, layouts, m.pos, number))
        }
        Err(fault) => Ok(Err(fault)),
    }
}

impl<'t> Members<'t> {
    /// No members yet.
    pub fn new(alloc: Global) -> Members<'t>
        ensures { (all : List Known) (tags : _) → AreSoFar all tags result [] }
    {
        Members {
            entries: OrderedMap::new(alloc),
            words: Words::of(0),
        }
    }

    // The refusal of a member's own rules: its name is new, and it has no first value.
    fn rules(&self, m: &Decl) -> Option<TypeFault>
        ensures { (all : List Known) (tags : _) (before : _) → AreSoFar all tags self.now before → result ≡ broken (member_rules before (decl_of m.now)) }
    {
        let name = m.name.as_bytes();
        let is_new = !self.entries.contains_key(&name);
        let is_plain = m.first.is_none();
        merged(
            broken_rule(is_new, TypeFault::Twice(m.pos)),
            broken_rule(is_plain, TypeFault::Mismatch(m.pos)),
        )
    }

    // A member more, of a type, if it keeps its rules; or its refusal.
    fn add_typed(
        &mut self,
        types: &Types<'_>,
        layouts: &[Layout<'_>],
        m: &'t Decl,
        ty: usize,
    ) -> Result<Option<TypeFault>, AllocError>
        requires { ty < length (known types.now) }
        ensures told { (tags : _) (before : _) → AreSoFar (known types.now) tags self.old before → IfOk result (λ r. r ≡ broken (member_rules before (decl_of m.now))) }
        ensures are { (s : Scope) (before : _) (t : CType) → AreSoFar (known types.now) s.tags self.old before → HasType types.now ty t → AreLayouts types.now layouts.now s.tags → OnOk result (AreSoFar (known types.now) s.tags self.new (members_or before (member_of before (decl_of m.now) t))) }
    {
        let refusal = self.rules(m);
        if refusal.is_none() {
            self.entries.insert(m.name.as_bytes(), ty)?;
            self.words = self.words.plus(words(types, layouts, ty));
        }
        Ok(refusal)
    }

    // A member more, or its refusal.
    fn add(
        &mut self,
        types: &mut Types<'_>,
        declared: &Declarations<'_>,
        m: &'t Decl,
    ) -> Result<Option<TypeFault>, AllocError>
        requires { HoldsSome types.old declared.now }
        ensures told { (s : Scope) (before : _) → Holds types.old declared.now s → AreSoFar (known types.old) s.tags self.old before → IfOk result (λ r. r ≡ result_err (plain.member s before (decl_of m.now))) }
        ensures are { (s : Scope) (before : _) → Holds types.old declared.now s → AreSoFar (known types.old) s.tags self.old before → OnOk result (AreSoFar (known types.new) s.tags self.new (members_or before (plain.member s before (decl_of m.now)))) }
        ensures grows { OnOk result (Grows (known types.old) (known types.new)) }
        ensures tags { OnOk result (types.new.tags ≡ types.old.tags) }
    {
        let ty = member_type(types, declared, m)?;
        match ty {
            Ok(number) => {
                let layouts = declared.layouts.as_slice();
                self.add_typed(types, layouts, m, number)
            }
            Err(fault) => Ok(Some(fault)),
        }
    }
}

/// The members of a tag, closed behind the last one, or the refusal that is told.
pub fn judge_members<'t>(
    types: &mut Types<'_>,
    declared: &Declarations<'_>,
    all: &'t Decls,
) -> Result<Judged<Layout<'t>>, AllocError>
    requires { HoldsSome types.old declared.now }
    ensures judged { (s : Scope) → Holds types.old declared.now s → IfOk result (λ j. IsJudged (IsClosed (known types.new) s.tags) j (plain.members s [] (decls_of all.now.items.items))) }
    ensures grows { OnOk result (Grows (known types.old) (known types.new)) }
    ensures tags { OnOk result (types.new.tags ≡ types.old.tags) }
{
    let mut members = Members::new(declared.alloc);
    let mut told = None;
    for m in &all.items {
        let refusal = members.add(types, declared, m)?;
        told = merged(told, refusal);
    }
    Ok(closed(members, told))
}

// All members, if none is refused.
fn closed(members: Members<'_>, told: Option<TypeFault>) -> Judged<Layout<'_>>
    ensures { (all : List Known) (tags : _) (before : _) → AreSoFar all tags members.entry before → IsJudged (IsClosed all tags) result (told_behind told (Ok before)) }
{
    let Members { entries, words } = members;
    match told {
        None => Ok(Layout::Members(entries, words)),
        Some(fault) => Err(fault),
    }
}
