// Steps that neither take nor write, one after the other.

ghost use Rattle.std.specs.Prelude.{◌≡◌, ◌≤◌, MatchOption};
ghost use Rattle.mach_core.specs.Silent.{StepsSilently};
ghost use Rattle.c_plain.specs.Machine.{At};
ghost use Rattle.c_plain.specs.Program.{program_of};
ghost use Rattle.c_plain.specs.Rule.{plain_rule};
ghost use Rattle.c_parts.specs.Parts.{machine_of};
ghost use Rattle.c_machine.specs.States.{config_at, HaltsAt};
ghost use Rattle.c_machine.specs.Silent.{StepsAs};

use crate::exchange::exchange_of;
use crate::quiet::quiet_step;
use c_parts::{Halt, Parts};
use c_plain::Plain;
use c_store::number_of_act;
use mach_core::Status;

/// What came of a step.
#[derive(Clone, Copy)]
pub enum Tried {
    /// It was made, and the machine goes on.
    Made,
    /// It was made, and the machine stands so.
    Stopped(Status),
    /// Nothing was done.
    Left,
}

/// How many steps were made, and how the machine then stands.
#[derive(Clone, Copy)]
pub struct Made {
    pub count: u64,
    pub standing: Status,
}

/// How a machine stands that has come to a halt, unless it wants memory.
#[inline(always)]
pub fn standing_after(halt: Halt) -> Option<Status>
    ensures { MatchOption result (halt ≡ Halt.Memory) (λ standing. HaltsAt halt standing) }
{
    match halt {
        Halt::Ended => Some(Status::Ended),
        Halt::Exhausted => Some(Status::Fault(0)),
        Halt::Act(act) => Some(Status::Fault(number_of_act(act))),
        Halt::Memory => None,
    }
}

// Makes the next step, where it neither takes nor writes and finds its memory. Else nothing is done.
#[inline(always)]
fn try_step(parts: &mut Parts, plain: &Plain) -> Tried
    ensures { StepsAs (program_of plain.now) (machine_of parts.old) (machine_of parts.new) result }
{
    let Some(i) = plain.instruction(parts.at) else {
        return Tried::Left;
    };
    if exchange_of(i).is_some() {
        return Tried::Left;
    }
    match quiet_step(parts, plain, i) {
        Ok(()) => Tried::Made,
        Err(halt) => match standing_after(halt) {
            Some(standing) => Tried::Stopped(standing),
            None => Tried::Left,
        },
    }
}

/// Makes at most so many steps. It stops before one that takes, may write, or finds no memory.
pub fn run_quietly(parts: &mut Parts, plain: &Plain, most: u64) -> Made
    ensures few { result.count ≤ most }
    ensures silent { StepsSilently (plain_rule plain.now) (At (machine_of parts.old)) result.count (config_at result.standing (machine_of parts.new)) }
{
    let mut count = 0;
    'steps: while count < most {
        match try_step(parts, plain) {
            Tried::Made => {
                count += 1;
                continue 'steps;
            }
            Tried::Stopped(standing) => {
                return Made {
                    count: count + 1,
                    standing,
                };
            }
            Tried::Left => break 'steps,
        }
    }
    Made {
        count,
        standing: Status::Going,
    }
}
