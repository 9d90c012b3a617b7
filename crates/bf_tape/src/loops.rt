// Pieces with pieces in them.

ghost use Rattle.std.specs.Prelude.{◌≡◌, ◌≢◌, ◌<◌, ◌≤◌, ◌++◌, OnOk, OnErr};
ghost use Rattle.bf_tape.specs.Code.{while_code, times_code, walk_code, slide_code, if_code};
ghost use Rattle.bf_tape.specs.Piece.{joined, Loops, Strolls, Times, Chooses};

use crate::code::{put_if, put_slide, put_times, put_while};
use crate::frag::Frag;
use std::alloc::AllocError;

impl Frag {
    /// Runs `yes` where a cell is not 0, else `other`, and leaves the cell and the one to spare 0. The pieces end at cell 0,
    /// and leave both cells as they found them; the one to spare is 1 there.
    pub fn if_else(
        &mut self,
        cell: u32,
        spare: u32,
        yes: Frag,
        other: Frag,
    ) -> Result<(), AllocError>
        requires cell { cell < 256 }
        requires spare { spare < 256 }
        requires differ { cell ≢ spare }
        requires yes_home { yes.cell ≡ 0 }
        requires other_home { other.cell ≡ 0 }
        ensures code { OnOk result (self.new ≡ joined self.old (if_code self.old.cell cell spare yes.commands other.commands) spare) }
        ensures effect { OnOk result (Chooses self.old self.new yes other cell spare) }
        ensures err { OnErr result (self.new ≡ self.old) }
    {
        let mut code = Vec::new(self.alloc());
        put_if(
            &mut code,
            self.cell(),
            cell,
            spare,
            yes.commands(),
            other.commands(),
        )?;
        self.join(&code, spare)
    }

    /// Repeats a body, which ends at cell 0, as long as a cell is not 0.
    pub fn while_nonzero(&mut self, cell: u32, body: Frag) -> Result<(), AllocError>
        requires below { cell < 256 }
        requires home { body.cell ≡ 0 }
        ensures code { OnOk result (self.new ≡ joined self.old (while_code self.old.cell cell body.commands) cell) }
        ensures effect { OnOk result (Loops self.old self.new body cell) }
        ensures err { OnErr result (self.new ≡ self.old) }
    {
        let mut code = Vec::new(self.alloc());
        put_while(&mut code, self.cell(), cell, body.commands())?;
        self.join(&code, cell)
    }

    /// As long as a cell is not 0, runs a body, which ends at cell 0, and then shifts the frame.
    pub fn shift_while(
        &mut self,
        cell: u32,
        by: u32,
        right: bool,
        body: Frag,
    ) -> Result<(), AllocError>
        requires below { cell < 256 }
        requires some { 1 ≤ by }
        requires few { by ≤ 256 }
        requires home { body.cell ≡ 0 }
        ensures code { OnOk result (self.new ≡ joined self.old (walk_code self.old.cell cell by right body.commands) cell) }
        ensures effect { OnOk result (Strolls self.old self.new body cell by right) }
        ensures err { OnErr result (self.new ≡ self.old) }
    {
        let mut turn = Vec::new(self.alloc());
        turn.extend_from_slice(body.commands())?;
        put_slide(&mut turn, by, right)?;
        let mut code = Vec::new(self.alloc());
        put_while(&mut code, self.cell(), cell, &turn)?;
        self.join(&code, cell)
    }

    /// Runs a body, from a cell to itself, as often as that cell says, and leaves it 0. It is 1 less in each turn. Of a cell
    /// that is 0 or 1 this is a condition.
    pub fn times(&mut self, cell: u32, body: Frag) -> Result<(), AllocError>
        requires below { cell < 256 }
        requires home { body.cell ≡ cell }
        ensures code { OnOk result (self.new ≡ joined self.old (times_code self.old.cell cell body.commands) cell) }
        ensures effect { OnOk result (Times self.old self.new body cell) }
        ensures err { OnErr result (self.new ≡ self.old) }
    {
        let mut code = Vec::new(self.alloc());
        put_times(&mut code, self.cell(), cell, body.commands())?;
        self.join(&code, cell)
    }
}
