// Steps with the bytes that are held of the input and for the output, one after the other.

ghost use Rattle.std.specs.Prelude.{ℕ, ◌-◌, ◌<◌, ◌≤◌, ◌^◌, List, length, slice_get, slice_index, Vec};
ghost use Rattle.std.specs.declared.alloc.Global.{Global};
ghost use Rattle.wasm_parts.specs.declared.jumps.Jump.{Jump};
ghost use Rattle.mach_core.specs.Feed.{ReadAhead};
ghost use Rattle.wasm_rule.specs.Step.{call_act as call_act_of};
ghost use Rattle.wasm_run.specs.InCall.{Acts, ActsInside, ActsHeld, CallsHost, act_on, RunsHeld};

use crate::linked::Linked;
use mach_core::{Feed, Put};
use std::alloc::AllocError;
use wasm_bin::{Instr, Module};
use wasm_parts::decide::{act, call_act};
use wasm_parts::frame::{CallFrame, set_item};
use wasm_parts::jumps::Jump;
use wasm_parts::memory::Pages;
use wasm_parts::stack::Room;
use wasm_rule::Act;

/// Stores so many bytes of a word, if they lie in the memory and that needs no more of it.
#[inline(always)]
fn store(frame: &mut CallFrame, memory: &mut Pages, count: u32, address: u64, word: u32) -> bool
    requires { frame.old.place < 2 ^ 63 }
    ensures { (globals : Vec ℕ Global) (jumps : List Jump) → Acts result (Act.Store count address word) jumps frame.old globals memory.old frame.new globals memory.new }
{
    if !memory.contains(address, count) {
        return false;
    }
    if !memory.put(address as usize, count, word) {
        return false;
    }
    frame.take(2);
    true
}

/// Begins a block, if there is room for its mark.
#[inline(always)]
fn block(frame: &mut CallFrame, jumps: &[Jump], count: u32, gives: bool) -> bool
    requires { frame.old.place < 2 ^ 63 }
    ensures { ActsInside result (Act.Block count gives) jumps.now frame.old frame.new }
{
    let Some(jump) = jumps.get(frame.place) else {
        return false;
    };
    let place = frame.place + 1;
    match frame.enter(Room::Held, count as usize, gives, jump.past, place) {
        Ok(()) => true,
        Err(AllocError) => false,
    }
}

/// Begins a block at its `else`, if there is room for its mark.
#[inline(always)]
fn otherwise(frame: &mut CallFrame, jumps: &[Jump], gives: bool) -> bool
    ensures { ActsInside result (Act.Otherwise gives) jumps.now frame.old frame.new }
{
    let Some(jump) = jumps.get(frame.place) else {
        return false;
    };
    match frame.enter(Room::Held, 1, gives, jump.past, jump.other) {
        Ok(()) => true,
        Err(AllocError) => false,
    }
}

/// Puts a value in the place of so many, if there is room.
#[inline(always)]
fn put(frame: &mut CallFrame, count: u32, value: u32) -> bool
    requires { frame.old.place < 2 ^ 63 }
    ensures { (jumps : List Jump) → ActsInside result (Act.Put count value) jumps frame.old frame.new }
{
    match frame.put(Room::Held, count as usize, value) {
        Ok(()) => true,
        Err(AllocError) => false,
    }
}

/// Begins a loop, if there is room for its mark.
#[inline(always)]
fn begin_loop(frame: &mut CallFrame) -> bool
    requires { frame.old.place < 2 ^ 63 }
    ensures { (jumps : List Jump) → ActsInside result Act.Loop jumps frame.old frame.new }
{
    match frame.begin_loop(Room::Held) {
        Ok(()) => true,
        Err(AllocError) => false,
    }
}

/// Branches to the block so far out, if there is one.
#[inline(always)]
fn branch(frame: &mut CallFrame, count: u32, depth: u32) -> bool
    ensures { (jumps : List Jump) → ActsInside result (Act.Branch count depth) jumps frame.old frame.new }
{
    let Some(mark) = frame.marks.get(depth as usize) else {
        return false;
    };
    match frame.go_out(Room::Held, count as usize, depth, mark) {
        Ok(()) => true,
        Err(AllocError) => false,
    }
}

/// Leaves the innermost block, if there is one.
#[inline(always)]
fn leave(frame: &mut CallFrame) -> bool
    ensures { (jumps : List Jump) → ActsInside result Act.Leave jumps frame.old frame.new }
{
    match frame.marks.get(0) {
        Some(mark) => {
            frame.leave(mark);
            true
        }
        None => false,
    }
}

/// Ends the innermost block, if there is one.
#[inline(always)]
fn close(frame: &mut CallFrame) -> bool
    requires { frame.old.place < 2 ^ 63 }
    ensures { (jumps : List Jump) → ActsInside result Act.End jumps frame.old frame.new }
{
    if frame.marks.len() == 0 {
        return false;
    }
    frame.close();
    true
}

/// Does an act, if it takes nothing, writes nothing, needs no memory and doesn't leave the call, and says so.
#[inline(always)]
fn perform(
    frame: &mut CallFrame,
    globals: &mut Vec<u32>,
    memory: &mut Pages,
    jumps: &[Jump],
    act: Act,
) -> bool
    requires { frame.old.place < 2 ^ 63 }
    ensures { Acts result act jumps.now frame.old globals.old memory.old frame.new globals.new memory.new }
{
    match act {
        Act::Take(count) => {
            frame.take(count as usize);
            true
        }
        Act::Put { taken, value } => put(frame, taken, value),
        Act::SetLocal {
            taken,
            index,
            value,
        } => {
            frame.set_local(taken as usize, index, value);
            true
        }
        Act::SetGlobal { index, value } => {
            set_item(globals, index, value);
            frame.take(1);
            true
        }
        Act::Store {
            count,
            address,
            word,
        } => store(frame, memory, count, address, word),
        Act::Block { taken, gives } => block(frame, jumps, taken, gives),
        Act::Loop => begin_loop(frame),
        Act::Otherwise { gives } => otherwise(frame, jumps, gives),
        Act::Leave => leave(frame),
        Act::End => close(frame),
        Act::Branch { taken, depth } => branch(frame, taken, depth),
        _ => false,
    }
}

/// Takes the byte that a call of `getchar` gives, if one is held and there is room for its value.
#[inline(always)]
fn read(frame: &mut CallFrame, feed: &mut Feed) -> bool
    requires { frame.old.place < 2 ^ 63 }
    ensures { (put : List ℕ) → CallsHost result Act.Read frame.old (record { held = feed.old; put = put }) frame.new (record { held = feed.new; put = put }) }
{
    if feed.is_empty() {
        return false;
    }
    match frame.values.push(Room::Held, 0) {
        Ok(()) => {
            frame.put_top(feed.pop() as u32);
            true
        }
        Err(AllocError) => false,
    }
}

/// Writes the byte that a call of `putchar` takes, if there is room for it.
#[inline(always)]
fn write(frame: &mut CallFrame, byte: u8, put: &mut Put) -> bool
    requires { frame.old.place < 2 ^ 63 }
    ensures { (held : ReadAhead) → CallsHost result (Act.Write byte) frame.old (record { held = held; put = put.old }) frame.new (record { held = held; put = put.new }) }
{
    if put.room() == 0 {
        return false;
    }
    put.hold_byte(byte);
    frame.take(1);
    true
}

/// Makes the step of a call, if it is one of the host, the byte that it takes is held, and there is room for the one that
/// it writes, and says so.
#[inline(always)]
fn call_host(
    m: &Module,
    calls: usize,
    index: u32,
    frame: &mut CallFrame,
    feed: &mut Feed,
    put: &mut Put,
) -> bool
    requires { frame.old.place < 2 ^ 63 }
    ensures { CallsHost result (call_act_of (slice_get m.now.imports index) (index - length m.now.imports) calls (slice_index frame.old.values 0))
        frame.old (record { held = feed.old; put = put.old }) frame.new (record { held = feed.new; put = put.new }) }
{
    match call_act(m, calls, frame.values.top(), index) {
        Act::Read => read(frame, feed),
        Act::Write(byte) => write(frame, byte, put),
        _ => false,
    }
}

/// Makes the step of an instruction with what is held, if it needs no memory and doesn't leave the call, and says so.
#[inline(always)]
fn make(
    m: &Module,
    calls: usize,
    jumps: &[Jump],
    instr: &Instr,
    frame: &mut CallFrame,
    globals: &mut Vec<u32>,
    memory: &mut Pages,
    feed: &mut Feed,
    put: &mut Put,
) -> bool
    requires { frame.old.place < 2 ^ 63 }
    ensures { ActsHeld result (act_on m.now calls frame.old globals.old memory.old instr.now) jumps.now
        frame.old globals.old memory.old (record { held = feed.old; put = put.old }) frame.new globals.new memory.new (record { held = feed.new; put = put.new }) }
{
    if let Instr::Call(index) = instr {
        return call_host(m, calls, *index, frame, feed, put);
    }
    let act = act(
        m,
        calls,
        frame.locals.as_slice(),
        globals.as_slice(),
        memory,
        &frame.values,
        instr,
    );
    perform(frame, globals, memory, jumps, act)
}

/// Makes at most so many steps with what is held, and says how many. It stops before a step that takes where no byte is
/// held, that writes where there is no room, that needs memory, or that leaves the call.
#[inline(always)]
pub fn run_buffered(
    linked: &Linked,
    calls: usize,
    frame: &mut CallFrame,
    globals: &mut Vec<u32>,
    memory: &mut Pages,
    most: u64,
    feed: &mut Feed,
    put: &mut Put,
) -> u64
    ensures few { result ≤ most }
    ensures runs { RunsHeld linked.now calls frame.old globals.old memory.old (record { held = feed.old; put = put.old }) result
        frame.new globals.new memory.new (record { held = feed.new; put = put.new }) }
{
    let code = linked.code(frame.body);
    let jumps = linked.jumps(frame.body);
    let mut made = 0;
    'steps: while made < most && frame.place < code.len() {
        if !make(
            linked.module(),
            calls,
            jumps,
            &code[frame.place],
            frame,
            globals,
            memory,
            feed,
            put,
        ) {
            return made;
        }
        made += 1;
    }
    made
}
