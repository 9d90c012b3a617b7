// How many objects a block declares.

ghost use Rattle.std.specs.Prelude.{◌≡◌, IfOk};
ghost use Rattle.c_blocks.specs.Counts.{one_if, count_in, is_local, is_local_part};

use c_emitted::number_of;
use c_syntax::tree::{Part, Stmt};
use std::alloc::AllocError;

// Whether a statement is a declaration.
#[tactic(auto, unfolding(crate::specs::Counts::is_local))]
fn is_local(statement: &Stmt) -> bool
    ensures { result ≡ is_local statement.now }
{
    matches!(statement, Stmt::Local(_))
}

// Whether a part of a `switch` is a declaration.
#[tactic(auto, unfolding(crate::specs::Counts::is_local, crate::specs::Counts::is_local_part))]
fn is_local_part(part: &Part) -> bool
    ensures { result ≡ is_local_part part.now }
{
    match part {
        Part::Label(_, _) => false,
        Part::Item(statement) => is_local(statement),
    }
}

// 1 where something is so.
fn one_if(so: bool) -> u32
    ensures { result ≡ one_if so }
{
    if so { 1 } else { 0 }
}

/// How many of the statements of a block are declarations.
pub fn local_count(all: &[Stmt]) -> Result<u32, AllocError>
    ensures { IfOk result (λ n. n ≡ count_in is_local all.now) }
{
    let mut count = 0u32;
    for t in all {
        let more = one_if(is_local(t));
        let next = number_of(count as usize + more as usize)?;
        count = next;
    }
    Ok(count)
}

/// How many of the parts of a `switch` are declarations.
pub fn local_part_count(all: &[Part]) -> Result<u32, AllocError>
    ensures { IfOk result (λ n. n ≡ count_in is_local_part all.now) }
{
    let mut count = 0u32;
    for p in all {
        let more = one_if(is_local_part(p));
        let next = number_of(count as usize + more as usize)?;
        count = next;
    }
    Ok(count)
}
