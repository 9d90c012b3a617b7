// Steps with the bytes that are held of the input and for the output, one after the other.
ghost use Rattle.std.specs.Prelude.{◌≡◌, ◌≤◌, ◌<◌, ◌+◌, ◌^◌, ℕ, List, ℤ, true, false, length, drop};
ghost use Rattle.mach_core.specs.Held.{StepsHeld};
ghost use Rattle.ws_lang.specs.Step.{Goes, ws_rule};
ghost use Rattle.ws_lang.specs.Effect.{act_for};
ghost use Rattle.ws_lang.specs.Stack.{values_of};
ghost use Rattle.ws_lang.specs.Acts.{ActsHeld};
ghost use Rattle.ws_lang.specs.Quiet.{running};

use crate::decide::effect_at;
use crate::effect::Effect;
use crate::heap::Heap;
use crate::program::WsProgram;
use crate::slots::{put_in_slot, swap_top};
use mach_core::{Feed, Put};

// Does what an instruction does, if it goes on or jumps and needs no memory.
#[inline(always)]
fn perform(
    slots: &mut [i64],
    len: &mut usize,
    heap: &mut Heap,
    place: &mut u32,
    effect: Effect,
) -> bool
    requires len { len.old ≤ length slots.old }
    requires place { place.old < 2 ^ 30 }
    ensures len { len.new ≤ length slots.new }
    ensures done { result ≡ true → (returns : List ℕ) → act_for (running returns place.old (values_of slots.old len.old) heap.old) effect ≡ Goes (running returns place.new (values_of slots.new len.new) heap.new) }
    ensures not { result ≡ false → (returns : List ℕ) → running returns place.new (values_of slots.new len.new) heap.new ≡ running returns place.old (values_of slots.old len.old) heap.old }
{
    match effect {
        Effect::Put(count, value) => {
            if !put_in_slot(slots, len, count, value) {
                return false;
            }
            *place += 1;
            true
        }
        Effect::Discard(count) => {
            *len = len.saturating_sub(count);
            *place += 1;
            true
        }
        Effect::Swap => {
            swap_top(slots, *len);
            *place += 1;
            true
        }
        Effect::Jump(count, to) => {
            *len = len.saturating_sub(count);
            *place = to;
            true
        }
        Effect::Store(address, value) => {
            if !heap.put(address, value) {
                return false;
            }
            *len = len.saturating_sub(2);
            *place += 1;
            true
        }
        _ => false,
    }
}

// Takes a byte that is held, or writes one for which there is room, if that is what an instruction does and it needs no
// memory.
#[cold]
#[inline(never)]
fn exchange(heap: &mut Heap, effect: Effect, feed: &mut Feed, put: &mut Put) -> bool
    ensures done { result ≡ true → (returns : List ℕ) (place : ℕ) (stack : List ℤ) → ActsHeld (running returns place stack heap.old) (act_for (running returns place stack heap.old) effect) (record { held = feed.old; put = put.old })
        (running returns (place + 1) (drop 1 stack) heap.new) (record { held = feed.new; put = put.new }) }
    ensures not { result ≡ false → (heap.new ≡ heap.old) × (feed.new ≡ feed.old) × (put.new ≡ put.old) }
{
    match effect {
        Effect::Take(address) if !feed.is_empty() => {
            if !heap.put(address, feed.first() as i64) {
                return false;
            }
            feed.pop();
            true
        }
        Effect::Write(byte) if put.room() > 0 => {
            put.hold_byte(byte);
            true
        }
        _ => false,
    }
}

// Does what an instruction does with what is held, if it goes on, jumps, takes or writes a byte, and needs no memory.
#[inline(always)]
fn perform_held(
    slots: &mut [i64],
    len: &mut usize,
    heap: &mut Heap,
    place: &mut u32,
    effect: Effect,
    feed: &mut Feed,
    put: &mut Put,
) -> bool
    requires len { len.old ≤ length slots.old }
    requires place { place.old < 2 ^ 30 }
    ensures len { len.new ≤ length slots.new }
    ensures done { result ≡ true → (returns : List ℕ) → ActsHeld (running returns place.old (values_of slots.old len.old) heap.old) (act_for (running returns place.old (values_of slots.old len.old) heap.old) effect) (record { held = feed.old; put = put.old })
        (running returns place.new (values_of slots.new len.new) heap.new) (record { held = feed.new; put = put.new }) }
    ensures not { result ≡ false → (returns : List ℕ) → running returns place.new (values_of slots.new len.new) heap.new ≡ running returns place.old (values_of slots.old len.old) heap.old }
    ensures kept { result ≡ false → (feed.new ≡ feed.old) × (put.new ≡ put.old) }
{
    match effect {
        Effect::Take(_) | Effect::Write(_) => {
            if !exchange(heap, effect, feed, put) {
                return false;
            }
            *len = len.saturating_sub(1);
            *place += 1;
            true
        }
        _ => perform(slots, len, heap, place, effect),
    }
}

/// Makes at most so many steps with what is held, with the place and the number of values in variables of its own, and
/// says how many. It stops before a step that takes where no byte is held, that writes where there is no room, that reads
/// or writes a number, meets a fault, calls, returns, ends, or needs memory.
pub fn run_buffered(
    program: &WsProgram,
    slots: &mut [i64],
    len: &mut usize,
    heap: &mut Heap,
    place: &mut u32,
    most: u64,
    feed: &mut Feed,
    put: &mut Put,
) -> u64
    requires { len.old ≤ length slots.old }
    ensures len { len.new ≤ length slots.new }
    ensures few { result ≤ most }
    ensures held { (returns : List ℕ) → StepsHeld (ws_rule program.now) (running returns place.old (values_of slots.old len.old) heap.old) (record { held = feed.old; put = put.old }) result
        (running returns place.new (values_of slots.new len.new) heap.new) (record { held = feed.new; put = put.new }) }
{
    let steps = program.steps();
    let mut depth = *len;
    let mut at = *place;
    let mut made = 0;
    while made < most && (at as usize) < steps.len() {
        let step = steps[at as usize];
        let effect = effect_at(slots, depth, heap, step);
        if !perform_held(slots, &mut depth, heap, &mut at, effect, feed, put) {
            *len = depth;
            *place = at;
            return made;
        }
        made += 1;
    }
    *len = depth;
    *place = at;
    made
}
