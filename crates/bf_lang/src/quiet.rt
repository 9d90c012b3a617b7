// Commands that take nothing, write nothing and need no memory, many at a time.

ghost use Rattle.std.specs.Prelude.{◌≡◌, ◌≤◌, ◌<◌, ◌+◌, ◌*◌, ◌^◌, nat_eq, cond, length};
ghost use Rattle.mach_core.specs.Silent.{StepsSilently};
ghost use Rattle.bf_lang.specs.Step.{bf_rule};
ghost use Rattle.bf_lang.specs.StateInside.{config_at};

use crate::fold::Fold;
use crate::plan::Plan;

/// Where commands were made up to.
#[derive(Clone, Copy)]
pub(crate) struct Spot {
    /// The place of the next command.
    pub place: u32,
    /// The place of the head.
    pub head: usize,
}

// How many steps `[-]` takes at a cell.
#[inline(always)]
fn steps_to_clear(cell: u8) -> u64
    ensures { result ≡ cond (nat_eq cell 0) 1 (2 * cell + 1) }
{
    if cell == 0 { 1 } else { 2 * cell as u64 + 1 }
}

/// Makes at most so many steps on a tape that begins with these cells, and says how many. It stops before a command that
/// takes, writes, needs memory or falls off the tape, and before a row of commands that is longer than what is left.
pub(crate) fn run_quietly(plan: &Plan, cells: &mut [u8], spot: &mut Spot, most: u64) -> u64
    requires head { spot.old.head < length cells.old }
    requires place { spot.old.place ≤ length plan.now }
    ensures few { result ≤ most }
    ensures head { spot.new.head < length cells.new }
    ensures place { spot.new.place ≤ length plan.now }
    ensures silent { StepsSilently (bf_rule plan.now) (config_at spot.old.place spot.old.head cells.old) result (config_at spot.new.place spot.new.head cells.new) }
{
    let folds = plan.folds();
    let mut place = spot.place as usize;
    let mut head = spot.head;
    let mut left = most;
    'folds: loop {
        match folds[place] {
            Fold::Right(n) => {
                let to = head + n as usize;
                if n as u64 > left || to >= cells.len() {
                    break 'folds;
                }
                head = to;
                place += n as usize;
                left -= n as u64;
                continue 'folds;
            }
            Fold::Left(n) => {
                if n as u64 > left || n as usize > head {
                    break 'folds;
                }
                head -= n as usize;
                place += n as usize;
                left -= n as u64;
                continue 'folds;
            }
            Fold::Plus(n) => {
                if n as u64 > left {
                    break 'folds;
                }
                cells[head] = cells[head].wrapping_add((n % 256) as u8);
                place += n as usize;
                left -= n as u64;
                continue 'folds;
            }
            Fold::Minus(n) => {
                if n as u64 > left {
                    break 'folds;
                }
                cells[head] = cells[head].wrapping_sub((n % 256) as u8);
                place += n as usize;
                left -= n as u64;
                continue 'folds;
            }
            Fold::Clear => {
                let count = steps_to_clear(cells[head]);
                if count > left {
                    break 'folds;
                }
                cells[head] = 0;
                place += 3;
                left -= count;
                continue 'folds;
            }
            Fold::Open(to) => {
                if left == 0 {
                    break 'folds;
                }
                left -= 1;
                if cells[head] == 0 {
                    place = to as usize;
                    continue 'folds;
                }
                place += 1;
                continue 'folds;
            }
            Fold::Close(to) => {
                if left == 0 {
                    break 'folds;
                }
                left -= 1;
                if cells[head] != 0 {
                    place = to as usize;
                    continue 'folds;
                }
                place += 1;
                continue 'folds;
            }
            Fold::Other => break 'folds,
        }
    }
    *spot = Spot {
        place: place as u32,
        head,
    };
    most - left
}
