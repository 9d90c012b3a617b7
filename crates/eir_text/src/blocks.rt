//! The blocks of the text section.

ghost use Rattle.std.specs.Prelude.{◌≡◌, ℕ, ◌+◌, ◌-◌, ◌*◌, ◌≤◌, ◌<◌, ◌^◌, List, [], ◌∷◌, ◌++◌, length, map, IfOk, IfErr, OnOk, if◌then◌else◌};
ghost use Rattle.std.specs.Option.{option_to_list};
ghost use Rattle.eir_line.specs.Reading.{statement_of};
ghost use Rattle.eir_text.specs.declared.fault.EirFault.TheVariants.{Memory};
ghost use Rattle.eir_text.specs.Names.{defined_after};
ghost use Rattle.eir_text.specs.Sections.{Placed, is_jump, text_lines};
ghost use Rattle.eir_text.specs.Spells.{op_for};
ghost use Rattle.eir_text.specs.Blocks.{first_block, behind_labels, behind_statement, block_labels, filled, ended_by, kept_by, blocks_from};

use crate::fault::EirFault;
use crate::lines::PlacedLine;
use crate::section::Section;
use crate::statements::{is_jump, is_operation};
use crate::values::{Values, define, op_of};
use eir_core::Op;
use eir_line::ReadStatement;
use indexmap::IndexMap;
use std::alloc::Global;
use std::mem;

/// The number of the current block, and whether it has an operation.
#[derive(Clone, Copy)]
pub struct Block {
    pub number: u32,
    pub has_operation: bool,
}

ghost use Rattle.eir_text.specs.Reading.{texts, place_of, places, number_at, value_in, current_of};

// The current block behind a line's labels.
fn behind_labels(block: Block, labels: &[&[u8]]) -> Block
    requires { block.number < 2 ^ 32 - 1 }
    ensures block { current_of result ≡ behind_labels (current_of block) (texts labels.now) }
    ensures near { result.number ≤ block.number + 1 }
{
    match labels {
        [] => block,
        [_, ..] => Block {
            number: if block.has_operation {
                block.number + 1
            } else {
                block.number
            },
            has_operation: false,
        },
    }
}

// The current block behind a statement.
fn behind_statement(block: Block, statement: &ReadStatement<'_>) -> Block
    requires { block.number < 2 ^ 32 - 1 }
    ensures block { current_of result ≡ behind_statement (current_of block) (statement_of statement.now) }
    ensures near { result.number ≤ block.number + 1 }
{
    if is_jump(statement) {
        Block {
            number: block.number + 1,
            has_operation: false,
        }
    } else {
        Block {
            number: block.number,
            has_operation: block.has_operation || is_operation(statement),
        }
    }
}

// Gives the labels of a line of the text section their numbers; the current block behind the line.
fn define_line<'t>(
    numbers: &mut IndexMap<&'t [u8], u32>,
    block: Block,
    line: &PlacedLine<'t>,
) -> Result<Block, EirFault>
    requires { block.number < 2 ^ 32 - 2 }
    ensures defined { IfOk result (λ b. (rest : List Placed) (name : List ℕ) → defined_after (number_at numbers.new name) (block_labels (current_of b) (text_lines rest)) name ≡ defined_after (number_at numbers.old name) (block_labels (current_of block) (text_lines (place_of line.now ∷ rest))) name) }
    ensures near { IfOk result (λ b. b.number ≤ block.number + 2) }
    ensures memory { IfErr result (λ e. e ≡ Memory) }
{
    match line.section {
        Section::Text => {
            let here = behind_labels(block, &line.line.labels);
            define(numbers, &line.line.labels, here.number)?;
            Ok(behind_statement(here, &line.line.statement))
        }
        Section::Data(_) => Ok(block),
    }
}

// Gives the labels of the text section their numbers.
pub fn define_blocks<'t>(
    numbers: &mut IndexMap<&'t [u8], u32>,
    lines: &[PlacedLine<'t>],
) -> Result<(), EirFault>
    requires { length lines.now ≤ 2 ^ 30 }
    ensures defined { OnOk result ((name : List ℕ) → number_at numbers.new name ≡ defined_after (number_at numbers.old name) (block_labels first_block (text_lines (places lines.now))) name) }
    ensures memory { IfErr result (λ e. e ≡ Memory) }
{
    let mut block = Block {
        number: 0,
        has_operation: false,
    };
    for line in lines {
        block = define_line(numbers, block, line)?;
    }
    Ok(())
}

// Ends the current block, if it has an operation.
fn end_block(alloc: Global, blocks: &mut Vec<Vec<Op>>, ops: &mut Vec<Op>) -> Result<(), EirFault>
    ensures blocks { OnOk result (map (λ b. b.items) blocks.new.items ≡ map (λ b. b.items) blocks.old.items ++ filled ops.old.items) }
    ensures ops { OnOk result (ops.new.items ≡ []) }
    ensures memory { IfErr result (λ e. e ≡ Memory) }
{
    if ops.is_empty() {
        return Ok(());
    }
    let block = mem::replace(ops, Vec::new(alloc));
    blocks.push(block)?;
    Ok(())
}

// Ends the current block where labels stand.
fn end_by_labels(
    alloc: Global,
    blocks: &mut Vec<Vec<Op>>,
    ops: &mut Vec<Op>,
    labels: &[&[u8]],
) -> Result<(), EirFault>
    ensures blocks { OnOk result (map (λ b. b.items) blocks.new.items ≡ map (λ b. b.items) blocks.old.items ++ ended_by (texts labels.now) ops.old.items) }
    ensures ops { OnOk result (ops.new.items ≡ kept_by (texts labels.now) ops.old.items) }
    ensures memory { IfErr result (λ e. e ≡ Memory) }
{
    match labels {
        [] => Ok(()),
        [_, ..] => end_block(alloc, blocks, ops),
    }
}

// Adds the operation of a statement to the current block, if it is one.
fn push_op(values: &Values<'_>, ops: &mut Vec<Op>, line: &PlacedLine<'_>) -> Result<(), EirFault>
    ensures ops { OnOk result (ops.new.items ≡ ops.old.items ++ option_to_list (op_for (value_in values.now) (statement_of line.now.line.statement))) }
    ensures memory { IfErr result (λ e. e ≡ Memory) }
{
    match op_of(values, &line.line.statement) {
        None => Ok(()),
        Some(op) => {
            ops.push(op)?;
            Ok(())
        }
    }
}

// Ends the current block behind a jump.
fn end_by_jump(
    alloc: Global,
    blocks: &mut Vec<Vec<Op>>,
    ops: &mut Vec<Op>,
    statement: &ReadStatement<'_>,
) -> Result<(), EirFault>
    ensures blocks { OnOk result (map (λ b. b.items) blocks.new.items ≡ map (λ b. b.items) blocks.old.items ++ (if is_jump (statement_of statement.now) then filled ops.old.items else [])) }
    ensures ops { OnOk result (ops.new.items ≡ (if is_jump (statement_of statement.now) then [] else ops.old.items)) }
    ensures memory { IfErr result (λ e. e ≡ Memory) }
{
    if is_jump(statement) {
        end_block(alloc, blocks, ops)
    } else {
        Ok(())
    }
}

// Adds a line to the blocks, if it is of the text section.
fn add_line(
    alloc: Global,
    values: &Values<'_>,
    blocks: &mut Vec<Vec<Op>>,
    ops: &mut Vec<Op>,
    line: &PlacedLine<'_>,
) -> Result<(), EirFault>
    ensures blocks { OnOk result ((rest : List Placed) → map (λ b. b.items) blocks.new.items ++ blocks_from (op_for (value_in values.now)) ops.new.items (text_lines rest) ≡ map (λ b. b.items) blocks.old.items ++ blocks_from (op_for (value_in values.now)) ops.old.items (text_lines (place_of line.now ∷ rest))) }
    ensures memory { IfErr result (λ e. e ≡ Memory) }
{
    match line.section {
        Section::Text => {
            end_by_labels(alloc, blocks, ops, &line.line.labels)?;
            push_op(values, ops, line)?;
            end_by_jump(alloc, blocks, ops, &line.line.statement)
        }
        Section::Data(_) => Ok(()),
    }
}

// The blocks of the text section.
pub fn blocks_of(
    alloc: Global,
    values: &Values<'_>,
    lines: &[PlacedLine<'_>],
) -> Result<Vec<Vec<Op>>, EirFault>
    ensures blocks { IfOk result (λ v. map (λ b. b.items) v.items ≡ blocks_from (op_for (value_in values.now)) [] (text_lines (places lines.now))) }
    ensures memory { IfErr result (λ e. e ≡ Memory) }
{
    let mut blocks = Vec::new(alloc);
    let mut ops = Vec::new(alloc);
    for line in lines {
        add_line(alloc, values, &mut blocks, &mut ops, line)?;
    }
    end_block(alloc, &mut blocks, &mut ops)?;
    Ok(blocks)
}
