// A program.

ghost use Rattle.std.specs.Prelude.{◌≡◌, ◌<◌, ◌^◌, ◌++◌, ◌∷◌, [], length, IfOk, OnOk, OnErr};
ghost use Rattle.sq_lang.specs.Step.{cells_from};

use crate::cells::Cells;
use std::alloc::{AllocError, Global};
use std::marker::Model;

/// The numbers of a program, laid out as its cells from address 0 on. A clause sees the list of them.
#[derive(Drop)]
pub struct SqProgram {
    cells: Cells,
    count: u64,
}

impl Model for SqProgram {
    ghost use Rattle.std.specs.Prelude.{◌≡◌, List, ℤ};
    ghost use Rattle.sq_lang.specs.Step.{cells_from};
    ghost use Rattle.sq_lang.specs.Listed.{first_cells};

    ghost Value = { List ℤ };

    ghost view = { λ p. first_cells p.count p.cells };

    ghost invariant = { λ p. p.cells ≡ cells_from 0 (first_cells p.count p.cells) };
}

impl SqProgram {
    /// The program of no numbers.
    pub(crate) fn new(alloc: Global) -> Result<SqProgram, AllocError>
        ensures { IfOk result (λ p. p ≡ []) }
    {
        Ok(SqProgram {
            cells: Cells::new(alloc)?,
            count: 0,
        })
    }

    /// One more number behind the others.
    pub(crate) fn push(&mut self, number: i64) -> Result<(), AllocError>
        requires { length self.old < 2 ^ 32 }
        ensures ok { OnOk result (self.new ≡ self.old ++ number ∷ []) }
        ensures err { OnErr result (self.new ≡ self.old) }
    {
        self.cells.set(self.count, number)?;
        self.count += 1;
        Ok(())
    }

    /// The cells that the program begins with.
    pub(crate) fn into_cells(self) -> Cells
        ensures { result ≡ cells_from 0 self }
    {
        let SqProgram { cells, count: _ } = self;
        cells
    }
}
