//! Tests of calls that take memory and that no row of the top call reaches: the arithmetic on cells that Brainfuck's back end does
//! without, the reader of C tokens by itself, and modules of WebAssembly by their bytes: runs of them, on more than is held at
//! once too, and an emitted one.
#![tactic(auto)]

#[cfg(test)]
mod cells;
#[cfg(test)]
mod emitted;
#[cfg(test)]
mod modules;
#[cfg(test)]
mod tokens;
