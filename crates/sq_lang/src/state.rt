// Where a run is.

ghost use Rattle.std.specs.Prelude.{◌≡◌, ◌≢◌, ◌≤◌, ◌+◌, ◌-◌, ◌^◌, List, ℤ, pos, ◌+ℤ◌, ◌-ℤ◌, ◌≤ℤ◌, int_le, if◌then◌else◌, OnOk, OnErr, Some};
ghost use Rattle.mach_core.specs.Integer.{byte_of};
ghost use Rattle.mach_core.specs.Held.{StepsHeld};
ghost use Rattle.sq_lang.specs.Step.{act_at, cell_at, with_cell, onward, at_fault, subtracted, standing_of, sq_rule, sq_start};
ghost use Rattle.sq_lang.specs.Want.{IsBlank};

use crate::act::Act;
use crate::buffered::run_buffered;
use crate::cells::Cells;
use crate::program::SqProgram;
use mach_core::{Feed, Put, Status};
use std::alloc::AllocError;
use std::marker::Model;

/// The greatest address at which three words stand.
pub(crate) const LAST: i64 = 9223372036854775804;

/// The address of the next step, the cells, and the fault, if there is one.
#[derive(Drop)]
pub struct SqState {
    address: i64,
    cells: Cells,
    fault: Option<u8>,
}

impl Model for SqState {
    ghost use Rattle.sq_lang.specs.Step.{Config};
    ghost use Rattle.sq_lang.specs.Codes.{config_code};

    ghost Value = { Config };

    ghost coded = { config_code };

    ghost use Rattle.sq_lang.specs.Inside.{config_of};

    ghost view = { config_of };
}

/// Where a run goes on after a subtraction: at the target where the difference is at most 0.
#[inline(always)]
pub(crate) fn address_after(address: i64, difference: i64, target: i64) -> i64
    requires { address ≤ℤ pos (2 ^ 63 - 4) }
    ensures { result ≡ (if int_le difference (pos 0) then target else address +ℤ pos 3) }
{
    if difference <= 0 { target } else { address + 3 }
}

/// The byte that a number is written as.
#[inline]
pub(crate) fn written_byte(value: i64) -> u8
    ensures { result ≡ byte_of value }
{
    value.rem_euclid(256) as u8
}

impl SqState {
    /// Where a program starts.
    pub(crate) fn start(p: SqProgram) -> SqState
        ensures { result ≡ sq_start p }
    {
        SqState {
            address: 0,
            cells: p.into_cells(),
            fault: None,
        }
    }

    /// How the run stands.
    pub(crate) fn status(&self) -> Status
        ensures { result ≡ standing_of self.now.fault self.now.address }
    {
        match self.fault {
            Some(code) => Status::Fault(code),
            None if self.address < 0 => Status::Ended,
            None => Status::Going,
        }
    }

    /// What the next step does.
    pub(crate) fn act(&self) -> Act
        ensures { result ≡ act_at self.now }
    {
        let place = self.address.unsigned_abs();
        if place > LAST as u64 {
            return Act::Stop(2);
        }
        let target = self.cells.get(place + 2);
        match (self.cells.get(place), self.cells.get(place + 1)) {
            (-1, b) if b >= 0 => Act::Take(b as u64),
            (a, -1) if a >= 0 => Act::Write(a as u64),
            (a, b) if a >= 0 && b >= 0 => Act::Subtract(a as u64, b as u64, target),
            _ => Act::Stop(1),
        }
    }

    /// The byte that the cell at an address is written as.
    pub(crate) fn byte(&self, address: u64) -> u8
        ensures { result ≡ byte_of (cell_at self.now.cells address) }
    {
        written_byte(self.cells.get(address))
    }

    /// Goes to the next three words.
    pub(crate) fn go_on(&mut self)
        requires { self.old.address ≤ℤ pos (2 ^ 63 - 4) }
        ensures { self.new ≡ onward self.old self.old.cells }
    {
        self.address += 3;
    }

    /// Stops at a fault.
    pub(crate) fn stop(&mut self, code: u8)
        ensures { self.new ≡ at_fault self.old code }
    {
        self.fault = Some(code);
    }

    /// Puts a byte into a cell, and goes to the next three words.
    pub(crate) fn take(&mut self, address: u64, byte: u8) -> Result<(), AllocError>
        requires { self.old.address ≤ℤ pos (2 ^ 63 - 4) }
        ensures ok { OnOk result (self.new ≡ onward self.old (with_cell self.old.cells address (pos byte))) }
        ensures err { OnErr result (self.new ≡ self.old) }
        ensures cause { OnErr result ((byte ≢ 0) × IsBlank self.old.cells address) }
    {
        self.cells.set(address, byte as i64)?;
        self.address += 3;
        Ok(())
    }

    /// Subtracts the cell at `a` from the one at `b`, and goes to the target or on.
    pub(crate) fn subtract(&mut self, a: u64, b: u64, target: i64) -> Result<(), AllocError>
        requires { self.old.address ≤ℤ pos (2 ^ 63 - 4) }
        ensures ok { OnOk result (self.new ≡ subtracted self.old b (cell_at self.old.cells b -ℤ cell_at self.old.cells a) target) }
        ensures err { OnErr result (self.new ≡ self.old) }
        ensures cause { OnErr result ((cell_at self.old.cells b -ℤ cell_at self.old.cells a ≢ pos 0) × IsBlank self.old.cells b) }
    {
        let Some(difference) = self.cells.get(b).checked_sub(self.cells.get(a)) else {
            self.fault = Some(2);
            return Ok(());
        };
        let next = address_after(self.address, difference, target);
        self.cells.set(b, difference)?;
        self.address = next;
        Ok(())
    }

    /// Makes at most so many steps with what is held, and says how many. It stops before a step that takes where no byte is
    /// held, that writes where there is no room, that faults or needs memory.
    pub(crate) fn run_buffered(&mut self, most: u64, feed: &mut Feed, put: &mut Put) -> u64
        ensures few { result ≤ most }
        ensures held { (program : List ℤ) → StepsHeld (sq_rule program) self.old (record { held = feed.old; put = put.old }) result self.new (record { held = feed.new; put = put.new }) }
    {
        match self.fault {
            None => run_buffered(&mut self.cells, &mut self.address, most, feed, put),
            Some(_) => 0,
        }
    }
}
