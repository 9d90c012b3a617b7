// Where the labels of a program are marked.
ghost use Rattle.std.specs.Prelude.{◌≡◌, ◌≤◌, ◌<◌, ◌^◌, List, [], Some, length, map, cond, is_some, OnOk, IfOk, MatchResult, Vec, Bool, true};
ghost use Rattle.std.specs.Option.{option_map, option_to_list};
ghost use Rattle.std.specs.declared.alloc.Global.{Global};
ghost use Rattle.ws_lang.specs.Instruction.{Instruction, marks_of, uses_of};
ghost use Rattle.ws_lang.specs.Step.{is_same_label};
ghost use Rattle.ws_lang.specs.OpInstruction.{instruction_of};
ghost use Rattle.ws_lang.specs.Listing.{AllRight, WalkRefused};
ghost use Rattle.ws_lang.specs.Resolved.{resolved_in};
ghost use Rattle.ws_lang.specs.Labels.{HasMarks, found_at, target_of, LabelsRight, LabelsWrong};

use crate::fault::WsFault;
use crate::instruction::Op;
use crate::resolved::{Resolved, with_target};
use indexmap::IndexMap;
use std::alloc::{AllocError, Global};

// The label that an instruction marks.
fn mark(op: &Op) -> Option<&Vec<bool>>
    ensures { marks_of (instruction_of op.now) ≡ option_to_list (option_map (λ label. label.now.items) result) }
{
    match op {
        Op::Mark(label) => Some(label),
        _ => None,
    }
}

// The label that an instruction goes to.
fn goal(op: &Op) -> Option<&Vec<bool>>
    ensures { uses_of (instruction_of op.now) ≡ option_to_list (option_map (λ label. label.now.items) result) }
{
    match op {
        Op::Call(label) | Op::Jump(label) | Op::JumpIfZero(label) | Op::JumpIfNegative(label) =>
            Some(label),
        _ => None,
    }
}

// Notes that a label is marked at a place, unless it was marked before.
fn note(
    alloc: Global,
    table: &mut IndexMap<Vec<bool>, u32>,
    label: &Vec<bool>,
    place: u32,
) -> Result<(), AllocError>
    ensures { OnOk result ((other : Vec Bool Global) → found_at other table.new.entries ≡ cond (is_some (found_at other table.old.entries)) (found_at other table.old.entries) (cond (is_same_label label.now.items other.items) (Some place) None)) }
{
    if !table.contains_key(label) {
        table.insert(Vec::from_slice(alloc, label)?, place)?;
    }
    Ok(())
}

// The first places of the labels that are marked.
fn table_of(alloc: Global, ops: &[Op]) -> Result<IndexMap<Vec<bool>, u32>, AllocError>
    requires { length ops.now < 2 ^ 32 }
    ensures { IfOk result (λ table. HasMarks table.entries (map instruction_of ops.now)) }
{
    let mut table = IndexMap::new(alloc);
    for (place, op) in ops.iter().enumerate() {
        if let Some(label) = mark(op) {
            note(alloc, &mut table, label, place as u32)?;
        }
    }
    Ok(table)
}

// Where the instruction at a place goes to, or 0.
fn target(table: &IndexMap<Vec<bool>, u32>, op: &Op, place: u32, start: u32) -> Result<u32, WsFault>
    ensures { (code : List Instruction) → HasMarks table.now.entries code → MatchResult result (λ to. (to ≡ target_of code (instruction_of op.now)) × LabelsRight code place (instruction_of op.now)) (LabelsWrong code place start (instruction_of op.now)) }
{
    if let Some(label) = mark(op) {
        return match table.get(label) {
            Some(first) => {
                if *first == place {
                    Ok(0)
                } else {
                    Err(WsFault::DuplicateLabel(start))
                }
            }
            None => Err(WsFault::DuplicateLabel(start)),
        };
    }
    match goal(op) {
        Some(label) => match table.get(label) {
            Some(to) => Ok(*to),
            None => Err(WsFault::UnknownLabel(start)),
        },
        None => Ok(0),
    }
}

/// The instructions, each with the place that its label marks. They begin at `starts`.
pub fn resolve(alloc: Global, ops: &[Op], starts: &[u32]) -> Result<Vec<Resolved>, WsFault>
    requires small { length ops.now < 2 ^ 32 }
    requires starts { length starts.now ≡ length ops.now }
    ensures { let code = map instruction_of ops.now in MatchResult result (λ steps. (steps.items ≡ map (resolved_in code) code) × AllRight code (length code)) (WalkRefused code starts.now) }
{
    let table = table_of(alloc, ops)?;
    let mut steps = Vec::new(alloc);
    for (place, op) in ops.iter().enumerate() {
        let to = target(&table, op, place as u32, starts[place])?;
        steps.push(with_target(op, to))?;
    }
    Ok(steps)
}
