// Blocks that begin and end, with their names and slots.

ghost use Rattle.std.specs.Prelude.{◌≤◌, length, OnOk};
ghost use Rattle.c_here.specs.declared.here.Here as rust;
ghost use Rattle.c_blocks.specs.Blocks.{IsEntered, IsInside, AreMarks, IsSame};

use c_here::Here;
use std::alloc::AllocError;

/// What ends a block again: how many names, and how many slots, stood around the block around it.
#[derive(Clone, Copy)]
pub struct Marks {
    pub names: usize,
    pub slots: usize,
}

/// A block begins. The answer ends it again.
pub fn enter(here: &mut Here<'_>) -> Marks
    ensures { IsEntered here.old here.new result }
{
    let names = here.declared.names.enter();
    let slots = here.slots.enter();
    Marks { names, slots }
}

/// A block ends, which began with this answer of `enter`: what is declared is what was before it.
pub fn leave(here: &mut Here<'_>, marks: Marks) -> Result<(), AllocError>
    requires names { marks.names ≤ length here.old.declared.names.outer }
    requires slots { marks.slots ≤ length here.old.slots.outer }
    ensures { (h : rust.Here) → IsInside h here.old → AreMarks h marks → OnOk result (IsSame h here.new) }
{
    here.declared.names.leave(marks.names)?;
    here.slots.leave(marks.slots)?;
    Ok(())
}
