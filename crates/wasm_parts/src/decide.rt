// What an instruction does with the values that it meets.

ghost use Rattle.std.specs.Prelude.{◌≡◌, ◌+◌, ◌-◌, ◌<◌, ◌^◌, cond, nat_eq, length, slice_index, slice_index_or, slice_get};
ghost use Rattle.wasm_rule.specs.Number.{extended, word_of};
ghost use Rattle.wasm_rule.specs.Memory.{is_within};
ghost use Rattle.wasm_rule.specs.Step.{load_act, memory_act as memory_act_of, variable_act as variable_act_of, host_act, call_act as call_act_of, act_of};

use crate::memory::Pages;
use crate::number::{number_act, of_one};
use crate::stack::Stack;
use wasm_bin::{Import, Instr, MemArg, Module};
use wasm_rule::Act;

/// The word of a byte, whose highest bit is read as its sign.
#[inline(always)]
fn extend_byte(word: u32) -> u32
    requires { word < 2 ^ 8 }
    ensures { result ≡ extended 8 word }
{
    if word < 128 { word } else { word + 0xFFFF_FF00 }
}

/// The word of two bytes, whose highest bit is read as its sign.
#[inline(always)]
fn extend_half(word: u32) -> u32
    requires { word < 2 ^ 16 }
    ensures { result ≡ extended 16 word }
{
    if word < 0x8000 {
        word
    } else {
        word + 0xFFFF_0000
    }
}

/// The address of an access.
#[inline(always)]
fn address_of(base: u32, arg: &MemArg) -> u64
    ensures { result ≡ base + arg.now.offset }
{
    base as u64 + arg.offset as u64
}

/// What a load of one byte does at an address.
#[inline(always)]
fn load_byte(memory: &Pages, address: u64) -> Act
    ensures { result ≡ load_act memory.now address 1 (λ word. word) }
{
    if memory.contains(address, 1) {
        of_one(memory.byte_word(address as usize))
    } else {
        Act::Stop(2)
    }
}

/// The same, where its highest bit is read as its sign.
#[inline(always)]
fn load_signed_byte(memory: &Pages, address: u64) -> Act
    ensures { result ≡ load_act memory.now address 1 (extended 8) }
{
    if memory.contains(address, 1) {
        of_one(extend_byte(memory.byte_word(address as usize)))
    } else {
        Act::Stop(2)
    }
}

/// What a load of two bytes does at an address.
#[inline(always)]
fn load_half(memory: &Pages, address: u64) -> Act
    ensures { result ≡ load_act memory.now address 2 (λ word. word) }
{
    if memory.contains(address, 2) {
        of_one(memory.half_word(address as usize))
    } else {
        Act::Stop(2)
    }
}

/// The same, where the highest bit is read as the sign.
#[inline(always)]
fn load_signed_half(memory: &Pages, address: u64) -> Act
    ensures { result ≡ load_act memory.now address 2 (extended 16) }
{
    if memory.contains(address, 2) {
        of_one(extend_half(memory.half_word(address as usize)))
    } else {
        Act::Stop(2)
    }
}

/// What a load of four bytes does at an address.
#[inline(always)]
fn load_word(memory: &Pages, address: u64) -> Act
    ensures { result ≡ load_act memory.now address 4 (λ word. word) }
{
    if memory.contains(address, 4) {
        of_one(memory.full_word(address as usize))
    } else {
        Act::Stop(2)
    }
}

/// What an instruction on the memory, or else on numbers, does with the values at the top.
#[inline(always)]
fn memory_act(memory: &Pages, values: &Stack<u32>, instr: &Instr) -> Act
    ensures { result ≡ memory_act_of memory.now (slice_index values.now 1) (slice_index values.now 0) instr.now }
{
    match instr {
        Instr::Load(arg) => load_word(memory, address_of(values.top(), arg)),
        Instr::Load8S(arg) => load_signed_byte(memory, address_of(values.top(), arg)),
        Instr::Load8U(arg) => load_byte(memory, address_of(values.top(), arg)),
        Instr::Load16S(arg) => load_signed_half(memory, address_of(values.top(), arg)),
        Instr::Load16U(arg) => load_half(memory, address_of(values.top(), arg)),
        Instr::Store(arg) => Act::Store {
            count: 4,
            address: address_of(values.second(), arg),
            word: values.top(),
        },
        Instr::Store8(arg) => Act::Store {
            count: 1,
            address: address_of(values.second(), arg),
            word: values.top(),
        },
        Instr::Store16(arg) => Act::Store {
            count: 2,
            address: address_of(values.second(), arg),
            word: values.top(),
        },
        Instr::MemorySize => Act::Put {
            taken: 0,
            value: memory.count(),
        },
        Instr::MemoryGrow => Act::Grow(values.top()),
        other => number_act(other, values.second(), values.top()),
    }
}

/// The item at an index, or 0 where there is none.
#[inline(always)]
fn item(items: &[u32], index: u32) -> u32
    ensures { result ≡ slice_index items.now index }
{
    match items.get(index as usize) {
        Some(value) => *value,
        None => 0,
    }
}

/// What an instruction on a constant, a local, a global, or else on the memory, does with the values at the top.
#[inline(always)]
fn variable_act(
    locals: &[u32],
    globals: &[u32],
    memory: &Pages,
    values: &Stack<u32>,
    instr: &Instr,
) -> Act
    ensures { result ≡ variable_act_of locals.now globals.now memory.now (slice_index values.now 1) (slice_index values.now 0) instr.now }
{
    match instr {
        Instr::Const(value) => Act::Put {
            taken: 0,
            value: value.cast_unsigned(),
        },
        Instr::LocalGet(index) => Act::Put {
            taken: 0,
            value: item(locals, *index),
        },
        Instr::LocalSet(index) => Act::SetLocal {
            taken: 1,
            index: *index,
            value: values.top(),
        },
        Instr::LocalTee(index) => Act::SetLocal {
            taken: 0,
            index: *index,
            value: values.top(),
        },
        Instr::GlobalGet(index) => Act::Put {
            taken: 0,
            value: item(globals, *index),
        },
        Instr::GlobalSet(index) => Act::SetGlobal {
            index: *index,
            value: values.top(),
        },
        other => memory_act(memory, values, other),
    }
}

/// What a call of an import does with the top value.
fn call_host(import: &Import, y: u32) -> Act
    ensures { result ≡ host_act import.now y }
{
    if import.name.as_slice() == b"getchar".as_slice() {
        Act::Read
    } else {
        Act::Write((y % 256) as u8)
    }
}

/// What a call of a function does, where there are so many calls, with the top value.
pub fn call_act(m: &Module, calls: usize, y: u32, index: u32) -> Act
    ensures { result ≡ call_act_of (slice_get m.now.imports index) (index - length m.now.imports) calls y }
{
    match m.imports.as_slice().get(index as usize) {
        Some(import) => call_host(import, y),
        None => {
            if calls < 4096 {
                Act::Call(index - m.imports.len() as u32)
            } else {
                Act::Stop(5)
            }
        }
    }
}

/// The target of a `br_table` at an index.
#[inline(always)]
fn table_target(depths: &[u32], index: u32, last: u32) -> u32
    ensures { result ≡ slice_index_or depths.now index last }
{
    match depths.get(index as usize) {
        Some(depth) => *depth,
        None => last,
    }
}

/// What an `if` does with the top value.
#[inline(always)]
fn if_act(gives: bool, y: u32) -> Act
    ensures { result ≡ cond (nat_eq y 0) (Act.Otherwise gives) (Act.Block 1 gives) }
{
    if y == 0 {
        Act::Otherwise { gives }
    } else {
        Act::Block { taken: 1, gives }
    }
}

/// What a `br_if` does with the top value.
#[inline(always)]
fn branch_act(depth: u32, y: u32) -> Act
    ensures { result ≡ cond (nat_eq y 0) (Act.Take 1) (Act.Branch 1 depth) }
{
    if y == 0 {
        Act::Take(1)
    } else {
        Act::Branch { taken: 1, depth }
    }
}

/// What a `select` does with the values at the top.
#[inline(always)]
fn select_act(values: &Stack<u32>) -> Act
    ensures { result ≡ Act.Put 3 (cond (nat_eq (slice_index values.now 0) 0) (slice_index values.now 1) (slice_index values.now 2)) }
{
    let depth = if values.top() == 0 { 1 } else { 2 };
    Act::Put {
        taken: 3,
        value: values.value(depth),
    }
}

/// What an instruction does where there are so many calls.
#[inline(always)]
pub fn act(
    m: &Module,
    calls: usize,
    locals: &[u32],
    globals: &[u32],
    memory: &Pages,
    values: &Stack<u32>,
    instr: &Instr,
) -> Act
    ensures { result ≡ act_of m.now (record { calls = calls; locals = locals.now; globals = globals.now; memory = memory.now; values = values.now }) instr.now }
{
    match instr {
        Instr::Unreachable => Act::Stop(1),
        Instr::Nop => Act::Take(0),
        Instr::Block(gives) => Act::Block {
            taken: 0,
            gives: *gives,
        },
        Instr::Loop(_) => Act::Loop,
        Instr::If(gives) => if_act(*gives, values.top()),
        Instr::Else => Act::Leave,
        Instr::End => Act::End,
        Instr::Br(depth) => Act::Branch {
            taken: 0,
            depth: *depth,
        },
        Instr::BrIf(depth) => branch_act(*depth, values.top()),
        Instr::BrTable(depths, last) => {
            Act::Branch {
                taken: 1,
                depth: table_target(depths.as_slice(), values.top(), *last),
            }
        }
        Instr::Return => Act::Return,
        Instr::Call(index) => call_act(m, calls, values.top(), *index),
        Instr::Drop => Act::Take(1),
        Instr::Select => select_act(values),
        other => variable_act(locals, globals, memory, values, other),
    }
}
