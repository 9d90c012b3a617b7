// Where a run is.

ghost use Rattle.std.specs.Prelude.{◌≡◌, ◌≤◌, IfOk, OnErr};
ghost use Rattle.mach_core.specs.declared.machine.Status.TheVariants.{Going};
ghost use Rattle.mach_core.specs.Moved.{MovesBy};
ghost use Rattle.mach_core.specs.Silent.{StepsSilently};
ghost use Rattle.c_plain.specs.Rule.{plain_rule, plain_start, standing_of};

use crate::execute::execute;
use crate::silent::{run_quietly, standing_after};
use crate::start::{begin_main, parts_at_start};
use crate::takes::takes_at;
use c_parts::Parts;
use c_plain::Plain;
use mach_core::{Moved, Status};
use std::alloc::{AllocError, Global};
use std::marker::Model;

/// What a machine has, and how it stands.
#[derive(Drop)]
pub struct CState {
    standing: Status,
    parts: Parts,
}

impl Model for CState {
    ghost use Rattle.c_plain.specs.Machine.{Config};

    ghost Value = { Config };

    ghost use Rattle.c_machine.specs.States.{config_of};

    ghost view = { config_of };
}

impl CState {
    /// Where a program starts that has so many units of fuel.
    pub(crate) fn start(alloc: Global, plain: &Plain, fuel: u64) -> Result<CState, AllocError>
        ensures { IfOk result (λ state. state ≡ plain_start plain.now fuel) }
    {
        let mut parts = parts_at_start(alloc, plain, fuel)?;
        match begin_main(&mut parts, plain) {
            Ok(()) => Ok(CState {
                standing: Status::Going,
                parts,
            }),
            Err(halt) => match standing_after(halt) {
                Some(standing) => Ok(CState { standing, parts }),
                None => Err(AllocError),
            },
        }
    }

    /// How the run stands.
    pub(crate) fn status(&self) -> Status
        ensures { result ≡ standing_of self.now }
    {
        self.standing
    }

    /// Whether the next step takes a byte.
    pub(crate) fn wants(&self, plain: &Plain) -> bool
        ensures { result ≡ (plain_rule plain.now).wants self.now }
    {
        match self.standing {
            Status::Going => takes_at(plain, self.parts.at),
            Status::Ended => false,
            Status::Fault(_) => false,
        }
    }

    /// Makes the next step, fed a byte. Where memory is wanted nothing is done.
    pub(crate) fn step(&mut self, plain: &Plain, fed: u8) -> Result<Moved, AllocError>
        requires { standing_of self.old ≡ Going }
        ensures moved { IfOk result (MovesBy (plain_rule plain.now) self.old fed self.new) }
        ensures err { OnErr result (self.new ≡ self.old) }
    {
        match execute(&mut self.parts, plain, fed) {
            Ok(moved) => Ok(moved),
            Err(halt) => match standing_after(halt) {
                Some(standing) => {
                    self.standing = standing;
                    Ok(Moved::Quiet)
                }
                None => Err(AllocError),
            },
        }
    }

    /// Makes at most so many steps, and says how many. It stops before one that takes, may write, or finds no memory.
    pub(crate) fn run_quietly(&mut self, plain: &Plain, most: u64) -> u64
        ensures few { result ≤ most }
        ensures silent { StepsSilently (plain_rule plain.now) self.old result self.new }
    {
        match self.standing {
            Status::Going => {
                let made = run_quietly(&mut self.parts, plain, most);
                self.standing = made.standing;
                made.count
            }
            Status::Ended => 0,
            Status::Fault(_) => 0,
        }
    }
}
