// Declarations whose names aren't in scope behind what stands around them.

ghost use Rattle.std.specs.Prelude.{◌≡◌, false, IfOk, OnOk};
ghost use Rattle.std.specs.Result.{result_err};
ghost use Rattle.c_syntax.specs.Plain as plain;
ghost use Rattle.c_syntax.specs.Plain.{CDecl};
ghost use Rattle.c_syntax.specs.View.{decl_of, stmt_of};
ghost use Rattle.c_types.specs.Scope.{Scope};
ghost use Rattle.c_types.specs.Declarations as declarations;
ghost use Rattle.c_types.specs.Declarations.{scope_or};
ghost use Rattle.c_types.specs.Census.{scope_behind};
ghost use Rattle.c_types.specs.Table.{Table};
ghost use Rattle.c_declared.specs.Held.{Holds, IsAround};
ghost use Rattle.c_helpers.specs.Fewer as fewer;
ghost use Rattle.c_fewer_declarations.specs.Standing.{StandsIn, StandsInSome};
ghost use Rattle.c_fewer_parts.specs.Going.{Goes, Stays};

use c_declarations::declare_object;
use c_fewer_declarations::fewer_in_first;
use c_fewer_operators::Here;
use c_fewer_trees::fewer_in_type;
use c_operands::Declarations;
use c_syntax::tree::{Decl, Stmt};
use c_types::{TypeFault, Types};
use std::alloc::AllocError;

/// A declaration with fewer operators, and the refusal of the one from which it comes, if that is refused.
#[derive(Drop)]
pub struct Announced {
    pub tree: Decl,
    pub refusal: Option<TypeFault>,
}

/// A declaration inside a function, whose name is in scope from its first value on, if it isn't refused.
pub fn announce<'t>(
    types: &mut Types<'_>,
    here: &mut Here<'t>,
    d: &'t Decl,
) -> Result<Announced, AllocError>
    requires { StandsInSome types.old here.old }
    ensures tree { (s : Scope) → StandsIn types.old here.old s → IfOk result (λ r. plain.Local (decl_of r.tree) ≡ fewer.fewer_in s (plain.Local (decl_of d.now))) }
    ensures refusal { (s : Scope) → StandsIn types.old here.old s → IfOk result (λ r. r.refusal ≡ result_err (declarations.declared s false (decl_of d.now))) }
    ensures behind { (s : Scope) → StandsIn types.old here.old s → OnOk result (StandsIn types.new here.new (scope_behind s (plain.Local (decl_of d.now)))) }
    ensures goes { OnOk result (Goes types.old types.new here.old here.new) }
{
    let ty = fewer_in_type(types, here, &d.ty)?;
    let refusal = declare_object(types, &mut here.declared, false, d)?;
    let first = fewer_in_first(types, here, &d.first)?;
    let name = d.name.copied(here.declared.alloc)?;
    let tree = Decl {
        name,
        pos: d.pos,
        ty,
        first,
    };
    Ok(Announced { tree, refusal })
}

/// The last declaration goes again, if it isn't refused.
pub fn withdraw(
    declared: &mut Declarations<'_>,
    refusal: Option<TypeFault>,
) -> Result<(), AllocError>
    ensures holds { (table : Table) (s : Scope) (d : CDecl) → refusal ≡ result_err (declarations.declared s false d) → Holds table declared.old (scope_or s (declarations.declared s false d)) → OnOk result (Holds table declared.new s) }
    ensures around { OnOk result (IsAround declared.old declared.new) }
{
    match refusal {
        Some(_) => Ok(()),
        None => {
            declared.names.withdraw()?;
            Ok(())
        }
    }
}

/// A declaration that is a statement of its own, outside a block: its name is in scope in its first value alone.
pub fn forgotten<'t>(
    types: &mut Types<'_>,
    here: &mut Here<'t>,
    d: &'t Decl,
) -> Result<Stmt, AllocError>
    requires { StandsInSome types.old here.old }
    ensures tree { (s : Scope) → StandsIn types.old here.old s → IfOk result (λ r. stmt_of r ≡ fewer.fewer_in s (plain.Local (decl_of d.now))) }
    ensures stays { OnOk result (Stays types.old types.new here.old here.new) }
{
    let local = announce(types, here, d)?;
    withdraw(&mut here.declared, local.refusal)?;
    Ok(Stmt::Local(local.tree))
}
