// A piece of a program.

ghost use Rattle.std.specs.Prelude.{◌≡◌, ◌≢◌, ℕ, ◌+◌, ◌-◌, ◌%◌, ◌^◌, ◌<◌, ◌≤◌, ◌++◌, ◌∷◌, [], List, IfOk, OnOk, OnErr};
ghost use Rattle.bf_lang.specs.Balance.{IsBalanced};
ghost use Rattle.bf_tape.specs.Tape.{Tape, get, put};
ghost use Rattle.bf_tape.specs.Code.{goto_code, clear_code, add_code, move_code, drain_code, dup_code, copy_code, read_code, write_code, shift_code};
ghost use Rattle.bf_tape.specs.Piece.{Piece, IsPiece, joined, Adds, any, moved, drained, doubled, copied, taken_in, written_out, shifted, IsRoom, renamed};

use crate::code::{
    put_add, put_carry, put_clear, put_copy, put_dup, put_goto, put_read, put_shift, put_write,
};
use bf_lang::Command;
use std::alloc::{AllocError, Global};
use std::marker::Model;

/// A list of commands whose brackets balance, over the named cells 0 to 255 of a frame, with the head at a known cell. A
/// clause sees the commands and that cell.
///
/// A call that finds no memory leaves it as it was.
#[derive(Drop)]
pub struct Frag {
    alloc: Global,
    commands: Vec<Command>,
    cell: u32,
}

impl Model for Frag {
    ghost Value = { Piece };

    ghost view = { λ f. record { commands = f.commands.items; cell = f.cell } };

    ghost invariant = { λ f. IsPiece (record { commands = f.commands.items; cell = f.cell }) };
}

impl Frag {
    /// No commands, with the head at cell 0. It takes no memory.
    pub fn new(alloc: Global) -> Frag
        ensures { result ≡ record { commands = []; cell = 0 } }
    {
        Frag {
            alloc,
            commands: Vec::new(alloc),
            cell: 0,
        }
    }

    /// No commands, with the head at a cell, from the same allocator.
    pub fn begin(&self, cell: u32) -> Frag
        requires { cell < 256 }
        ensures { result ≡ record { commands = []; cell = cell } }
    {
        Frag {
            alloc: self.alloc,
            commands: Vec::new(self.alloc),
            cell,
        }
    }

    /// The allocator.
    pub fn alloc(&self) -> Global {
        self.alloc
    }

    /// The cell at which the head stands after the commands.
    pub fn cell(&self) -> u32
        ensures cell { result ≡ self.now.cell }
        ensures below { result < 256 }
    {
        self.cell
    }

    /// The commands.
    pub fn commands(&self) -> &[Command]
        ensures commands { result.now ≡ self.now.commands }
        ensures balanced { IsBalanced result.now }
    {
        self.commands.as_slice()
    }

    /// These commands behind the others, after which the head is at a cell.
    pub fn join(&mut self, code: &[Command], cell: u32) -> Result<(), AllocError>
        requires balanced { IsBalanced code.now }
        requires cell { cell < 256 }
        ensures ok { OnOk result (self.new ≡ joined self.old code.now cell) }
        ensures err { OnErr result (self.new ≡ self.old) }
    {
        self.commands.extend_from_slice(code)?;
        self.cell = cell;
        Ok(())
    }

    /// The same place has another name, as a cell of another frame. No command comes.
    pub fn rename(&mut self, cell: u32)
        requires { cell < 256 }
        ensures code { self.new ≡ record { commands = self.old.commands; cell = cell } }
        ensures effect { Adds self.old self.new (λ s. cell ≤ s.base + self.old.cell) (λ input s. renamed s self.old.cell cell) 0 0 }
    {
        self.cell = cell;
    }

    /// The head goes to a cell.
    pub fn goto(&mut self, cell: u32) -> Result<(), AllocError>
        requires { cell < 256 }
        ensures code { OnOk result (self.new ≡ joined self.old (goto_code self.old.cell cell) cell) }
        ensures effect { OnOk result (Adds self.old self.new any (λ input s. s) 255 255) }
        ensures err { OnErr result (self.new ≡ self.old) }
    {
        let mut code = Vec::new(self.alloc());
        put_goto(&mut code, self.cell(), cell)?;
        self.join(&code, cell)
    }

    /// A cell becomes 0.
    pub fn clear(&mut self, cell: u32) -> Result<(), AllocError>
        requires { cell < 256 }
        ensures code { OnOk result (self.new ≡ joined self.old (clear_code self.old.cell cell) cell) }
        ensures effect { OnOk result (Adds self.old self.new any (λ input s. put s cell 0) 1024 258) }
        ensures err { OnErr result (self.new ≡ self.old) }
    {
        let mut code = Vec::new(self.alloc());
        put_clear(&mut code, self.cell(), cell)?;
        self.join(&code, cell)
    }

    /// Adds to a cell modulo 256.
    pub fn add_const(&mut self, cell: u32, v: u8) -> Result<(), AllocError>
        requires { cell < 256 }
        ensures code { OnOk result (self.new ≡ joined self.old (add_code self.old.cell cell v) cell) }
        ensures effect { OnOk result (Adds self.old self.new any (λ input s. put s cell ((get s cell + v) % 2 ^ 8)) 512 512) }
        ensures err { OnErr result (self.new ≡ self.old) }
    {
        let mut code = Vec::new(self.alloc());
        put_add(&mut code, self.cell(), cell, v)?;
        self.join(&code, cell)
    }

    /// The cell becomes the next byte of the input, or 0 past its end.
    pub fn read(&mut self, cell: u32) -> Result<(), AllocError>
        requires { cell < 256 }
        ensures code { OnOk result (self.new ≡ joined self.old (read_code self.old.cell cell) cell) }
        ensures effect { OnOk result (Adds self.old self.new any (λ input s. taken_in input s cell) 256 256) }
        ensures err { OnErr result (self.new ≡ self.old) }
    {
        let mut code = Vec::new(self.alloc());
        put_read(&mut code, self.cell(), cell)?;
        self.join(&code, cell)
    }

    /// Writes a cell.
    pub fn write(&mut self, cell: u32) -> Result<(), AllocError>
        requires { cell < 256 }
        ensures code { OnOk result (self.new ≡ joined self.old (write_code self.old.cell cell) cell) }
        ensures effect { OnOk result (Adds self.old self.new any (λ input s. written_out s cell) 256 256) }
        ensures err { OnErr result (self.new ≡ self.old) }
    {
        let mut code = Vec::new(self.alloc());
        put_write(&mut code, self.cell(), cell)?;
        self.join(&code, cell)
    }

    /// Adds a cell to another modulo 256, and clears it.
    pub fn move_to(&mut self, from: u32, to: u32) -> Result<(), AllocError>
        requires from { from < 256 }
        requires to { to < 256 }
        requires differ { from ≢ to }
        ensures code { OnOk result (self.new ≡ joined self.old (move_code self.old.cell from to) from) }
        ensures effect { OnOk result (Adds self.old self.new any (λ input s. moved s from to) (2 ^ 18) 1024) }
        ensures err { OnErr result (self.new ≡ self.old) }
    {
        let mut code = Vec::new(self.alloc());
        put_carry(&mut code, Command::Plus, self.cell(), from, to)?;
        self.join(&code, from)
    }

    /// Takes a cell from another modulo 256, and clears it.
    pub fn drain(&mut self, from: u32, to: u32) -> Result<(), AllocError>
        requires from { from < 256 }
        requires to { to < 256 }
        requires differ { from ≢ to }
        ensures code { OnOk result (self.new ≡ joined self.old (drain_code self.old.cell from to) from) }
        ensures effect { OnOk result (Adds self.old self.new any (λ input s. drained s from to) (2 ^ 18) 1024) }
        ensures err { OnErr result (self.new ≡ self.old) }
    {
        let mut code = Vec::new(self.alloc());
        put_carry(&mut code, Command::Minus, self.cell(), from, to)?;
        self.join(&code, from)
    }

    /// Adds a cell to another modulo 256 and keeps it, by a cell to spare that is 0 before and afterwards.
    pub fn dup(&mut self, from: u32, to: u32, spare: u32) -> Result<(), AllocError>
        requires from { from < 256 }
        requires to { to < 256 }
        requires spare { spare < 256 }
        requires apart { from ≢ to }
        requires from_spare { from ≢ spare }
        requires to_spare { to ≢ spare }
        ensures code { OnOk result (self.new ≡ joined self.old (dup_code self.old.cell from to spare) spare) }
        ensures effect { OnOk result (Adds self.old self.new (λ s. get s spare ≡ 0) (λ input s. doubled s from to) (2 ^ 20) 2048) }
        ensures err { OnErr result (self.new ≡ self.old) }
    {
        let mut code = Vec::new(self.alloc());
        put_dup(&mut code, self.cell(), from, to, spare)?;
        self.join(&code, spare)
    }

    /// Sets a cell to another and keeps that, by a cell to spare, which is 0 afterwards.
    pub fn copy(&mut self, from: u32, to: u32, spare: u32) -> Result<(), AllocError>
        requires from { from < 256 }
        requires to { to < 256 }
        requires spare { spare < 256 }
        requires apart { from ≢ to }
        requires from_spare { from ≢ spare }
        requires to_spare { to ≢ spare }
        ensures code { OnOk result (self.new ≡ joined self.old (copy_code self.old.cell from to spare) spare) }
        ensures effect { OnOk result (Adds self.old self.new any (λ input s. copied s from to spare) (2 ^ 21) 4096) }
        ensures err { OnErr result (self.new ≡ self.old) }
    {
        let mut code = Vec::new(self.alloc());
        put_copy(&mut code, self.cell(), from, to, spare)?;
        self.join(&code, spare)
    }

    /// Moves the base so many cells to the right or to the left, with the head at cell 0 of the moved frame.
    pub fn shift(&mut self, by: u32, right: bool) -> Result<(), AllocError>
        requires some { 1 ≤ by }
        requires few { by ≤ 256 }
        ensures code { OnOk result (self.new ≡ joined self.old (shift_code self.old.cell by right) 0) }
        ensures effect { OnOk result (Adds self.old self.new (IsRoom by right) (λ input s. shifted s by right) 512 512) }
        ensures err { OnErr result (self.new ≡ self.old) }
    {
        let mut code = Vec::new(self.alloc());
        put_shift(&mut code, self.cell(), by, right)?;
        self.join(&code, 0)
    }
}
