// Words of objects at file scope.

ghost use Rattle.std.specs.Prelude.{◌≡◌, IfOk, OnOk};
ghost use Rattle.c_syntax.specs.View.{decl_of};
ghost use Rattle.c_types.specs.Types.{CType, Tags, words_of};
ghost use Rattle.c_types.specs.Refusals as refusals;
ghost use Rattle.c_types.specs.Scope.{Scope};
ghost use Rattle.c_types.specs.Declarations as plain;
ghost use Rattle.c_types.specs.Census.{of_type};
ghost use Rattle.c_types.specs.Seen.{Counts};
ghost use Rattle.c_types.specs.Table.{known, HasType};
ghost use Rattle.c_types.specs.Known.{Grows};
ghost use Rattle.c_layouts.specs.Layouts.{AreLayouts};
ghost use Rattle.c_operands.specs.Seen.{IsJudged};
ghost use Rattle.c_forms.specs.Forms.{IsSomeType};
ghost use Rattle.c_declared.specs.Held.{Holds, HoldsSome};

use c_declarations::declared_type;
use c_layouts::{Layout, words};
use c_operands::{Declarations, Judged};
use c_syntax::tree::Decl;
use c_types::{Types, Words};
use std::alloc::AllocError;

// The words of a type that is judged; a refused one has none.
fn judged_words(types: &Types<'_>, layouts: &[Layout<'_>], ty: Judged<usize>) -> Words
    requires { IsSomeType types.now ty }
    ensures { (p : refusals.Judged CType) (tags : Tags) → IsJudged (HasType types.now) ty p → AreLayouts types.now layouts.now tags → Counts result (of_type (words_of tags) p) }
{
    match ty {
        Ok(number) => words(types, layouts, number),
        Err(_) => Words::of(0),
    }
}

/// The words of an object that is declared.
pub fn object_words(
    types: &mut Types<'_>,
    declared: &Declarations<'_>,
    d: &Decl,
) -> Result<Words, AllocError>
    requires { HoldsSome types.old declared.now }
    ensures words { (s : Scope) → Holds types.old declared.now s → IfOk result (λ n. Counts n (of_type (words_of s.tags) (plain.declared_type s (decl_of d.now)))) }
    ensures grows { OnOk result (Grows (known types.old) (known types.new)) }
    ensures tags { OnOk result (types.new.tags ≡ types.old.tags) }
{
    let ty = declared_type(types, declared, d)?;
    Ok(judged_words(types, declared.layouts.as_slice(), ty))
}
