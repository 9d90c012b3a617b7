// The parts of a module.

use std::alloc::Global;
use wasm_bytes::items::Items;

/// The type of a function. All values are 32-bit integers, so the counts say all.
#[derive(Clone, Copy)]
pub struct FuncType {
    /// How many values it takes.
    pub params: u32,
    /// How many values it gives; a valid type has one at most.
    pub results: u32,
}

/// A function that comes from the host.
#[derive(Drop)]
pub struct Import {
    pub module: Items<u8>,
    pub name: Items<u8>,
    /// The index of its type.
    pub kind: u32,
}

/// The size of a memory, in pages of 65,536 bytes.
#[derive(Clone, Copy)]
pub struct Limits {
    pub min: u32,
    pub max: Option<u32>,
}

/// A global variable.
#[derive(Clone, Copy)]
pub struct GlobalVar {
    pub mutable: bool,
    /// Its value at the start.
    pub first: i32,
}

/// What a module shows under a name.
#[derive(Drop)]
pub struct Export {
    pub name: Items<u8>,
    /// 0 for a function, 2 for a memory, 3 for a global.
    pub sort: u8,
    pub index: u32,
}

/// The code of a function.
#[derive(Drop)]
pub struct Body {
    /// How many locals it has besides its parameters.
    pub locals: u32,
    /// The instructions, the last `End` included.
    pub code: Items<Instr>,
}

/// Bytes that stand in the memory at the start.
#[derive(Drop)]
pub struct Segment {
    pub offset: i32,
    pub bytes: Items<u8>,
}

/// The two numbers of an access to memory.
#[derive(Clone, Copy)]
pub struct MemArg {
    /// The power of 2 that the address is said to be a multiple of.
    pub align: u32,
    /// What is added to the address.
    pub offset: u32,
}

/// An instruction. Blocks are flat: `End` closes them.
#[derive(Drop)]
pub enum Instr {
    Unreachable,
    Nop,
    /// Whether it leaves a value, as for `Loop` and `If`.
    Block(bool),
    Loop(bool),
    If(bool),
    Else,
    End,
    Br(u32),
    BrIf(u32),
    /// The targets and the default.
    BrTable(Items<u32>, u32),
    Return,
    Call(u32),
    Drop,
    Select,
    LocalGet(u32),
    LocalSet(u32),
    LocalTee(u32),
    GlobalGet(u32),
    GlobalSet(u32),
    Load(MemArg),
    Load8S(MemArg),
    Load8U(MemArg),
    Load16S(MemArg),
    Load16U(MemArg),
    Store(MemArg),
    Store8(MemArg),
    Store16(MemArg),
    MemorySize,
    MemoryGrow,
    Const(i32),
    Eqz,
    Eq,
    Ne,
    LtS,
    LtU,
    GtS,
    GtU,
    LeS,
    LeU,
    GeS,
    GeU,
    Clz,
    Ctz,
    Popcnt,
    Add,
    Sub,
    Mul,
    DivS,
    DivU,
    RemS,
    RemU,
    And,
    Or,
    Xor,
    Shl,
    ShrS,
    ShrU,
    Rotl,
    Rotr,
}

/// A module.
pub struct Module {
    pub types: Items<FuncType>,
    pub imports: Items<Import>,
    /// The index of each own function's type.
    pub funcs: Items<u32>,
    pub memory: Option<Limits>,
    pub globals: Items<GlobalVar>,
    pub exports: Items<Export>,
    /// The index of the function that runs first.
    pub start: Option<u32>,
    /// The code of each own function.
    pub bodies: Items<Body>,
    pub segments: Items<Segment>,
}

impl Drop for Module {
    fn drop(self) {
        let Module {
            types,
            imports,
            funcs,
            memory: _,
            globals,
            exports,
            start: _,
            bodies,
            segments,
        } = self;
        drop(types);
        drop(imports);
        drop(funcs);
        drop(globals);
        drop(exports);
        drop(bodies);
        drop(segments);
    }
}
