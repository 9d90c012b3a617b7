// The charge of a call.

ghost use Rattle.std.specs.Prelude.{◌≡◌, ◌^◌, List, length, min, IfOk, OnOk};
ghost use Rattle.c_syntax.specs.Plain.{CDecl, CStmt};
ghost use Rattle.c_syntax.specs.View.{stmt_of};
ghost use Rattle.c_types.specs.Scope.{Scope};
ghost use Rattle.c_types.specs.Units as plain;
ghost use Rattle.c_types.specs.Units.{body_scope};
ghost use Rattle.c_types.specs.Room.{charge_of};
ghost use Rattle.c_types.specs.Table.{known};
ghost use Rattle.c_types.specs.Known.{Grows};
ghost use Rattle.c_declared.specs.Held.{Holds};
ghost use Rattle.c_signatures.specs.Blocks.{IsSame};
ghost use Rattle.c_signatures.specs.Signatures.{IsSignature};
ghost use Rattle.c_weights.specs.Sums.{Sums};
ghost use Rattle.c_census.specs.Sums.{HoldsWith};
ghost use Rattle.c_types.specs.Census.{body_sum};

use crate::functions::count_inner;
use c_operands::Declarations;
use c_signatures::Signature;
use c_syntax::tree::Stmt;
use c_types::Types;
use c_weights::Sum;
use std::alloc::AllocError;

// The charge of so many parameters and a body of such a sum, as far as 2^22.
fn charge_by(parameters: usize, sum: Sum) -> u32
    ensures { (s : Scope) (params : List CDecl) (body : CStmt) → length params ≡ parameters → Sums sum (λ k. body_sum k s body) → result ≡ min (charge_of s params body) (2 ^ 22) }
{
    let counted = parameters.min(4194304) as u64;
    let words = sum.words.min(4194304);
    let nodes = sum.nodes.min(4194304);
    (counted + words + 2 + 4 * nodes).min(4194304) as u32
}

/// The charge of a call of a function of a signature and so many parameters, by its body, as far as 2^22.
pub fn charge<'t>(
    types: &mut Types<'_>,
    declared: &mut Declarations<'t>,
    name: &'t [u8],
    f: &Signature<'t>,
    parameters: usize,
    body: &'t Stmt,
) -> Result<u32, AllocError>
    requires { HoldsWith types.old declared.old f.now }
    ensures charge { (s : Scope) (g : plain.Signature) (params : List CDecl) → Holds types.old declared.old s → IsSignature types.old s f.now g → length params ≡ parameters → IfOk result (λ n. n ≡ min (charge_of (body_scope s name.now g) params (stmt_of body.now)) (2 ^ 22)) }
    ensures same { OnOk result (IsSame declared.old declared.new) }
    ensures grows { OnOk result (Grows (known types.old) (known types.new)) }
    ensures tags { OnOk result (types.new.tags ≡ types.old.tags) }
{
    let sum = count_inner(types, declared, name, f, body)?;
    Ok(charge_by(parameters, sum))
}
