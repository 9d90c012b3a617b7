// Blocks that begin and end.

ghost use Rattle.std.specs.Prelude.{◌≡◌, ◌≤◌, [], length, OnOk};
ghost use Rattle.c_statements.specs.Blocks.{IsInside, IsSame};

use c_operands::Declarations;
use std::alloc::AllocError;

/// A block begins. The answer ends it again.
pub fn begin_block(declared: &mut Declarations<'_>) -> usize
    ensures block { declared.new.names.block ≡ [] }
    ensures inside { IsInside declared.old declared.new }
    ensures mark { result ≡ length declared.old.names.outer }
{
    declared.names.enter()
}

/// A block ends, which began with this answer of `begin_block`: what is declared is what was before it.
pub fn end_block(declared: &mut Declarations<'_>, mark: usize) -> Result<(), AllocError>
    requires { mark ≤ length declared.old.names.outer }
    ensures { (d : Declarations) → IsInside d declared.old → mark ≡ length d.names.outer → OnOk result (IsSame d declared.new) }
{
    declared.names.leave(mark)?;
    Ok(())
}
