// Where a run is.

ghost use Rattle.std.specs.Prelude.{◌≡◌, ◌≤◌, ◌<◌, ◌+◌, ◌^◌, ℕ, List, false, length, IfOk, OnOk, OnErr};
ghost use Rattle.mach_core.specs.Silent.{StepsSilently};
ghost use Rattle.bf_lang.specs.declared.command.Command.{Command};
ghost use Rattle.bf_lang.specs.Cells.{cells_from};
ghost use Rattle.bf_lang.specs.Step.{here, placed_at, with_here, to_left, bf_rule, bf_start};

use crate::plan::Plan;
use crate::quiet::{Spot, run_quietly};
use std::alloc::{AllocError, Global};
use std::marker::Model;

/// By how many cells the tape grows.
const PAGE: u32 = 4096;

/// The place of the next command, the place of the head, and the tape up to some cell, behind which all are 0.
#[derive(Drop)]
pub struct BfState {
    place: u32,
    head: usize,
    cells: Vec<u8>,
    fell: bool,
}

impl Model for BfState {
    ghost use Rattle.std.specs.Prelude.{◌<◌, length};
    ghost use Rattle.bf_lang.specs.Step.{Config};
    ghost use Rattle.bf_lang.specs.Codes.{config_code};

    ghost Value = { Config };

    ghost coded = { config_code };

    ghost use Rattle.bf_lang.specs.StateInside.{config_of};

    ghost view = { config_of };

    ghost invariant = { λ s. s.head < length s.cells.items };
}

// Adds a page of zeros to the cells, or some of it where memory runs out.
fn grow(cells: &mut Vec<u8>) -> Result<(), AllocError>
    ensures same { cells_from 0 cells.new.items ≡ cells_from 0 cells.old.items }
    ensures more { OnOk result (length cells.old.items < length cells.new.items) }
    ensures no_fewer { length cells.old.items ≤ length cells.new.items }
{
    for _k in 0..PAGE {
        cells.push(0)?;
    }
    Ok(())
}

impl BfState {
    /// Where a program starts.
    pub(crate) fn start(alloc: Global) -> Result<BfState, AllocError>
        ensures { IfOk result (λ s. (code : List Command) → s ≡ bf_start code) }
    {
        let mut cells = Vec::new(alloc);
        grow(&mut cells)?;
        Ok(BfState {
            place: 0,
            head: 0,
            cells,
            fell: false,
        })
    }

    /// The place of the next command.
    pub(crate) fn place(&self) -> u32
        ensures { result ≡ self.now.place }
    {
        self.place
    }

    /// The head fell off the tape.
    pub(crate) fn fell(&self) -> bool
        ensures { result ≡ self.now.fell }
    {
        self.fell
    }

    /// The cell under the head.
    pub(crate) fn here(&self) -> u8
        ensures { result ≡ here self.now }
    {
        self.cells[self.head]
    }

    /// Goes to another place of the program.
    pub(crate) fn go_to(&mut self, place: u32)
        ensures { self.new ≡ placed_at self.old place }
    {
        self.place = place;
    }

    /// Goes on, with another number in the cell under the head.
    pub(crate) fn put(&mut self, value: u8)
        requires { self.old.place + 1 < 2 ^ 32 }
        ensures { self.new ≡ with_here self.old value }
    {
        self.cells[self.head] = value;
        self.place += 1;
    }

    /// Goes on, with the head one cell to the left, or off the tape.
    pub(crate) fn left(&mut self)
        requires { self.old.place + 1 < 2 ^ 32 }
        ensures { self.new ≡ to_left self.old self.old.head }
    {
        if self.head == 0 {
            self.fell = true;
        } else {
            self.head -= 1;
            self.place += 1;
        }
    }

    /// Goes on, with the head one cell to the right.
    pub(crate) fn right(&mut self) -> Result<(), AllocError>
        requires { self.old.place + 1 < 2 ^ 32 }
        ensures ok { OnOk result (self.new ≡ record { place = self.old.place + 1; head = self.old.head + 1; cells = self.old.cells; fell = self.old.fell }) }
        ensures err { OnErr result (self.new ≡ self.old) }
    {
        if self.head + 1 >= self.cells.len() {
            grow(&mut self.cells)?;
        }
        self.head += 1;
        self.place += 1;
        Ok(())
    }

    /// Makes some of the next steps of a program, at most so many, and says how many: none that takes, writes, needs
    /// memory or falls off the tape.
    pub(crate) fn run_quietly(&mut self, plan: &Plan, most: u64) -> u64
        ensures few { result ≤ most }
        ensures silent { StepsSilently (bf_rule plan.now) self.old result self.new }
    {
        if self.fell || self.place as usize >= plan.len() {
            return 0;
        }
        let mut spot = Spot {
            place: self.place,
            head: self.head,
        };
        let made = run_quietly(plan, &mut self.cells, &mut spot, most);
        self.place = spot.place;
        self.head = spot.head;
        made
    }
}
