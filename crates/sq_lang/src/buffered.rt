// Steps with the bytes that are held of the input and for the output, one after the other.

ghost use Rattle.std.specs.Prelude.{◌≡◌, ◌≤◌, List, ℤ, MatchOption};
ghost use Rattle.mach_core.specs.Held.{StepHeld, StepsHeld};
ghost use Rattle.sq_lang.specs.Quiet.{placed, IsQuietStep};
ghost use Rattle.sq_lang.specs.Step.{sq_rule};

use crate::cells::Cells;
use crate::state::{LAST, address_after, written_byte};
use mach_core::{Feed, Put};

// Makes the step at an address, where it only subtracts and needs no memory, and says where the run goes on. Else
// nothing is done.
#[inline(always)]
fn subtract_at(cells: &mut Cells, at: i64) -> Option<i64>
    ensures { MatchOption result (cells.new ≡ cells.old) (λ next. IsQuietStep (placed at cells.old) (placed next cells.new)) }
{
    if at < 0 || at > LAST {
        return None;
    }
    let Some((a, b, target)) = cells.three(at as u64) else {
        return None;
    };
    if a < 0 || b < 0 {
        return None;
    }
    let Some(difference) = cells.get(b as u64).checked_sub(cells.get(a as u64)) else {
        return None;
    };
    if !cells.put(b as u64, difference) {
        return None;
    }
    Some(address_after(at, difference, target))
}

// Makes the step at an address, where it takes a byte that is held and needs no memory for it, or writes one for which
// there is room, and says where the run goes on. Else nothing is done.
#[cold]
#[inline(never)]
fn exchange_at(cells: &mut Cells, at: i64, feed: &mut Feed, put: &mut Put) -> Option<i64>
    ensures { MatchOption result ((cells.new ≡ cells.old) × (feed.new ≡ feed.old) × (put.new ≡ put.old)) (λ next. (program : List ℤ) →
        StepHeld (sq_rule program) (placed at cells.old) (record { held = feed.old; put = put.old }) (placed next cells.new) (record { held = feed.new; put = put.new })) }
{
    if at < 0 || at > LAST {
        return None;
    }
    let a = cells.get(at as u64);
    let b = cells.get(at as u64 + 1);
    if a == -1 && b >= 0 && !feed.is_empty() {
        if !cells.put(b as u64, feed.first() as i64) {
            return None;
        }
        feed.pop();
        return Some(at + 3);
    }
    if a >= 0 && b == -1 && put.room() > 0 {
        put.hold_byte(written_byte(cells.get(a as u64)));
        return Some(at + 3);
    }
    None
}

// Makes the step at an address with what is held, where it needs no memory and meets no fault, and says where the run
// goes on. Else nothing is done.
#[inline(always)]
fn step_at(cells: &mut Cells, at: i64, feed: &mut Feed, put: &mut Put) -> Option<i64>
    ensures { MatchOption result ((cells.new ≡ cells.old) × (feed.new ≡ feed.old) × (put.new ≡ put.old)) (λ next. (program : List ℤ) →
        StepHeld (sq_rule program) (placed at cells.old) (record { held = feed.old; put = put.old }) (placed next cells.new) (record { held = feed.new; put = put.new })) }
{
    match subtract_at(cells, at) {
        Some(next) => Some(next),
        None => exchange_at(cells, at, feed, put),
    }
}

/// Makes at most so many steps from an address on with what is held, and says how many. It stops before a step that takes
/// where no byte is held, that writes where there is no room, that faults or needs memory.
pub(crate) fn run_buffered(
    cells: &mut Cells,
    address: &mut i64,
    most: u64,
    feed: &mut Feed,
    put: &mut Put,
) -> u64
    ensures few { result ≤ most }
    ensures held { (program : List ℤ) → StepsHeld (sq_rule program) (placed address.old cells.old) (record { held = feed.old; put = put.old }) result
        (placed address.new cells.new) (record { held = feed.new; put = put.new }) }
{
    let mut at = *address;
    let mut made = 0;
    'steps: while made < most {
        let Some(next) = step_at(cells, at, feed, put) else {
            *address = at;
            return made;
        };
        at = next;
        made += 1;
    }
    *address = at;
    made
}
