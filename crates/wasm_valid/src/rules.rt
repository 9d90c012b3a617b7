// The rules of a module apart from its code.
ghost use Rattle.std.specs.Prelude.{◌≡◌, ◌&&◌, ◌||◌, length, is_some, nat_eq, nat_lt, IfOk, MatchBool};
ghost use Rattle.std.specs.List.{list_all};
ghost use Rattle.wasm_valid.specs.Rules.{have_few_results, have_types, are_limits, is_memory, is_there, are_there, is_start, FollowsRules};

use crate::instruction::function_type;
use crate::names::have_distinct_names;
use std::alloc::{AllocError, Global};
use wasm_bin::{Export, Limits, Module};

/// The greatest size of a memory, in pages.
const MOST_PAGES: u32 = 65536;

fn have_few_results(m: &Module) -> bool
    ensures { result ≡ have_few_results m.now }
{
    m.types.as_slice().iter().all(|kind| kind.results <= 1)
}

fn have_import_types(m: &Module) -> bool
    ensures { result ≡ list_all (λ i. nat_lt i.kind (length m.now.types)) m.now.imports }
{
    m.imports
        .as_slice()
        .iter()
        .all(|import| (import.kind as usize) < m.types.len())
}

fn have_own_types(m: &Module) -> bool
    ensures { result ≡ list_all (λ index. nat_lt index (length m.now.types)) m.now.funcs }
{
    m.funcs
        .as_slice()
        .iter()
        .all(|index| (*index as usize) < m.types.len())
}

fn have_types(m: &Module) -> bool
    ensures { result ≡ have_types m.now }
{
    have_import_types(m) && have_own_types(m)
}

fn are_limits(limits: Limits) -> bool
    ensures { result ≡ are_limits limits }
{
    let max = limits.max.unwrap_or(MOST_PAGES);
    limits.min <= max && max <= MOST_PAGES
}

fn is_memory(memory: Option<Limits>) -> bool
    ensures { result ≡ is_memory memory }
{
    match memory {
        None => true,
        Some(limits) => are_limits(limits),
    }
}

// Whether what is shown is there: a function, the memory or a global.
fn is_there(m: &Module, sort: u8, index: u32) -> bool
    ensures { result ≡ is_there m.now sort index }
{
    let place = index as usize;
    match sort {
        0 => place < m.imports.len() || place - m.imports.len() < m.funcs.len(),
        2 => index == 0 && m.memory.is_some(),
        3 => place < m.globals.len(),
        _ => false,
    }
}

fn are_there(m: &Module) -> bool
    ensures { result ≡ are_there m.now }
{
    m.exports
        .as_slice()
        .iter()
        .all(|export| is_there(m, export.sort, export.index))
}

fn is_start(m: &Module) -> bool
    ensures { result ≡ is_start m.now m.now.start }
{
    match m.start {
        None => true,
        Some(index) => match function_type(m, index) {
            Some(kind) => kind.params == 0 && kind.results == 0,
            None => false,
        },
    }
}

// Whether a module follows the rules on its types, functions and memory.
fn follows_first_rules(m: &Module) -> bool
    ensures { result ≡ (have_few_results m.now && (have_types m.now && (nat_eq (length m.now.bodies) (length m.now.funcs) && is_memory m.now.memory))) }
{
    have_few_results(m) && have_types(m) && m.bodies.len() == m.funcs.len() && is_memory(m.memory)
}

// Whether a module follows the rules on its exports, start and data, but for the names of the exports.
fn follows_last_rules(m: &Module) -> bool
    ensures { result ≡ (are_there m.now && (is_start m.now m.now.start && (nat_eq (length m.now.segments) 0 || is_some m.now.memory))) }
{
    are_there(m) && is_start(m) && (m.segments.as_slice().is_empty() || m.memory.is_some())
}

/// Whether a module follows the rules apart from its code.
pub fn follows_rules(alloc: Global, m: &Module) -> Result<bool, AllocError>
    ensures { IfOk result (λ yes. MatchBool yes (FollowsRules m.now) (FollowsRules m.now → ⊥)) }
{
    if !(follows_first_rules(m) && follows_last_rules(m)) {
        return Ok(false);
    }
    have_distinct_names(alloc, m.exports.as_slice())
}
