// Code with labels becomes a program.
#![tactic(auto)]

ghost use Rattle.std.specs.Prelude.{◌≡◌, ◌≤◌, ◌<◌, ◌^◌, ◌++◌, [], ℕ, map, IfOk, OnOk, IsOk, IfErr, OnErr};
ghost use Rattle.std.specs.Option.{option_to_list};
ghost use Rattle.eir_core.specs.Eir.{HasGoodBlocks, program_of, size_of};
ghost use Rattle.c_routines.specs.declared.linking.LinkFault.TheVariants.{Memory, TooLarge};
ghost use Rattle.c_routines.specs.Items;
ghost use Rattle.c_routines.specs.Cuts;
ghost use Rattle.c_routines.specs.Links.{place_or, place_of, with_label, ops_of};

use crate::item::Item;
use crate::pieces::constant;
use c_place::is_jump;
use eir_core::{Op, Operand, Program};
use std::alloc::{AllocError, Global};
use std::collections::BTreeMap;
use thiserror::Error;
use word24::Word;

/// Why code is not linked.
#[derive(Clone, Copy, Debug, PartialEq, Eq, Error)]
pub enum LinkFault {
    /// The blocks, the operations and the data words are more than 2^21 together.
    #[error("the program is too large")]
    TooLarge,
    #[error("out of memory")]
    Memory,
}

impl From<AllocError> for LinkFault {
    ghost from_gives = { λ _ e. e ≡ Memory };

    fn from(_e: AllocError) -> LinkFault {
        LinkFault::Memory
    }
}

// Whether a block ends with the item.
fn ends_block(item: Item) -> bool
    ensures { result ≡ Items.ends_block item }
{
    match item {
        Item::Does(op) => is_jump(&op),
        Item::Label(_) => true,
        Item::Jump(_) => true,
        Item::JumpIf(_, _, _, _) => true,
        Item::MoveLabel(_, _) => false,
    }
}

// The number of the block that begins next, where this one has operations or none.
fn next_block(block: u64, within: bool) -> u64
    requires { block < 2 ^ 63 }
    ensures { result ≡ Cuts.next_block block within }
{
    if within { block + 1 } else { block }
}

// A label is put at a block, where it is at none.
fn put_label(places: &mut BTreeMap<u32, u64>, label: u32, block: u64) -> Result<(), AllocError>
    ensures { OnOk result ((name other : ℕ) → place_or places.new name other ≡ place_or places.old name (with_label label block name other)) }
{
    if !places.contains_key(&label) {
        places.insert(label, block)?;
    }
    Ok(())
}

// The blocks of the labels.
fn places(alloc: Global, items: &[Item]) -> Result<BTreeMap<u32, u64>, AllocError>
    ensures { IfOk result (λ places. (name : ℕ) → place_of places name ≡ Cuts.block_at items.now name) }
{
    let mut places = BTreeMap::new(alloc);
    let mut block = 0u64;
    let mut within = false;
    for item in items {
        match item {
            Item::Label(label) => {
                block = next_block(block, within);
                within = false;
                put_label(&mut places, *label, block)?;
            }
            _ => {
                let ends = ends_block(*item);
                block = next_block(block, ends);
                within = !ends;
            }
        }
    }
    Ok(places)
}

// The block of a label, as an operand.
fn block_of(places: &BTreeMap<u32, u64>, label: u32) -> Operand
    ensures { result ≡ Items.constant (place_of places.now label) }
{
    match places.get(&label) {
        Some(block) => constant(*block),
        None => constant(0),
    }
}

// The operation of an item, if it has one.
fn op_of(places: &BTreeMap<u32, u64>, item: Item) -> Option<Op>
    ensures { option_to_list result ≡ ops_of (place_of places.now) item }
{
    match item {
        Item::Does(op) => Some(op),
        Item::Label(_) => None,
        Item::Jump(label) => Some(Op::Jump(block_of(places, label))),
        Item::JumpIf(test, label, r, v) => Some(Op::JumpIf(test, block_of(places, label), r, v)),
        Item::MoveLabel(r, label) => Some(Op::Mov(r, block_of(places, label))),
    }
}

// The operation of an item is put to a block.
fn put_op(block: &mut Vec<Op>, places: &BTreeMap<u32, u64>, item: Item) -> Result<(), AllocError>
    ensures { OnOk result (block.new.items ≡ block.old.items ++ ops_of (place_of places.now) item) }
{
    if let Some(op) = op_of(places, item) {
        block.push(op)?;
    }
    Ok(())
}

// A block is put to the others, if it has operations.
fn put_block(blocks: &mut Vec<Vec<Op>>, block: Vec<Op>) -> Result<(), AllocError>
    ensures { OnOk result (map (λ b. b.items) blocks.new.items ≡ map (λ b. b.items) blocks.old.items ++ Cuts.filled block.items []) }
{
    if !block.is_empty() {
        blocks.push(block)?;
    }
    Ok(())
}

// The code, cut into blocks.
fn cut(
    alloc: Global,
    places: &BTreeMap<u32, u64>,
    items: &[Item],
) -> Result<Vec<Vec<Op>>, AllocError>
    ensures { IfOk result (λ blocks. map (λ b. b.items) blocks.items ≡ Cuts.blocks_of (Cuts.cut_items (place_of places.now) items.now)) }
{
    let mut blocks = Vec::new(alloc);
    let mut block = Vec::new(alloc);
    for item in items {
        put_op(&mut block, places, *item)?;
        if ends_block(*item) {
            put_block(&mut blocks, block)?;
            block = Vec::new(alloc);
        }
    }
    put_block(&mut blocks, block)?;
    Ok(blocks)
}

// The program of good blocks, if it is not too large.
fn program(blocks: Vec<Vec<Op>>, words: Vec<Word>) -> Result<Program, LinkFault>
    requires { HasGoodBlocks (program_of blocks.items words.items 0) }
    ensures program { IfOk result (λ p. p ≡ program_of blocks.items words.items 0) }
    ensures fits { IsOk result → size_of (program_of blocks.items words.items 0) ≤ 2 ^ 21 }
    ensures refused { OnErr result (2 ^ 21 < size_of (program_of blocks.items words.items 0)) }
    ensures fault { IfErr result (λ e. e ≡ TooLarge) }
{
    if blocks.len() > 2097152 {
        return Err(LinkFault::TooLarge);
    }
    match Program::new(blocks, words, 0) {
        Ok(program) => Ok(program),
        Err(_) => Err(LinkFault::TooLarge),
    }
}

/// The program of code and of data words, which begins with the first block. A label is the block at the first place
/// where it stands, and block 0 if it stands nowhere. Above a size of 2^21 the program is too large.
pub fn link(alloc: Global, items: &[Item], words: Vec<Word>) -> Result<Program, LinkFault>
    ensures program { IfOk result (λ p. p ≡ Cuts.linked items.now words.items) }
    ensures fits { IsOk result → size_of (Cuts.linked items.now words.items) ≤ 2 ^ 21 }
    ensures too_large { result ≡ Err TooLarge → 2 ^ 21 < size_of (Cuts.linked items.now words.items) }
{
    let places = places(alloc, items)?;
    let blocks = cut(alloc, &places, items)?;
    program(blocks, words)
}
