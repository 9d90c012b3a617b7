//! The names that lines define and use.

ghost use Rattle.std.specs.Prelude.{◌≡◌, ℕ, ◌≤◌, ◌^◌, List, [], ◌++◌, length, None, Some, IfOk, IfErr, OnOk, if◌then◌else◌};
ghost use Rattle.eir_line.specs.Reading.{term_of, statement_of};
ghost use Rattle.eir_text.specs.declared.fault.EirFault.TheVariants.{Memory};
ghost use Rattle.eir_text.specs.Names.{names_of, is_known, term_is_known, are_known, repeats};
ghost use Rattle.eir_text.specs.Refusals.{first_repeat, first_unknown, names_refusal};
ghost use Rattle.eir_text.specs.Reading.{texts, lines_in, Refuses, Holds, first_of};

use crate::fault::EirFault;
use crate::lines::PlacedLine;
use eir_line::{ReadStatement, ReadTerm};
use indexmap::IndexSet;
use std::alloc::Global;

/// The name of the first address past the data.
const DATA_END: &[u8] = b"_edata";

// Adds labels to the names, and says whether one of them was there before.
fn add_names<'t>(names: &mut IndexSet<&'t [u8]>, labels: &[&'t [u8]]) -> Result<bool, EirFault>
    ensures holds { (before : List (List ℕ)) → Holds names.old before → OnOk result (Holds names.new (before ++ texts labels.now)) }
    ensures repeats { (before : List (List ℕ)) → Holds names.old before → IfOk result (λ again. again ≡ repeats before (texts labels.now)) }
    ensures memory { IfErr result (λ e. e ≡ Memory) }
{
    let mut again = false;
    for name in labels {
        again |= !names.insert(*name)?;
    }
    Ok(again)
}

// The line that was found before, or else this one if it defines a name again.
fn first_found(found: Option<u32>, again: bool, line: u32) -> Option<u32>
    ensures { result ≡ first_of found (if again then Some line else None) }
{
    match (found, again) {
        (Some(k), _) => Some(k),
        (None, true) => Some(line),
        (None, false) => None,
    }
}

// All names, and the lowest line that defines one again.
fn names_of<'t>(
    alloc: Global,
    lines: &[PlacedLine<'t>],
) -> Result<(IndexSet<&'t [u8]>, Option<u32>), EirFault>
    requires { length lines.now ≤ 2 ^ 30 }
    ensures names { IfOk result (λ r. Holds r.0 (names_of (lines_in lines.now))) }
    ensures repeat { IfOk result (λ r. r.1 ≡ first_repeat [] 1 (lines_in lines.now)) }
    ensures memory { IfErr result (λ e. e ≡ Memory) }
{
    let mut names = IndexSet::new(alloc);
    let mut found = None;
    for (i, line) in lines.iter().enumerate() {
        let again = add_names(&mut names, &line.line.labels)?;
        found = first_found(found, again, i as u32 + 1);
    }
    Ok((names, found))
}

// Whether a name is one of these, or `_edata`.
fn is_known(names: &IndexSet<&[u8]>, name: &[u8]) -> bool
    ensures { (all : List (List ℕ)) → Holds names.now all → result ≡ is_known all name.now }
{
    name == DATA_END || names.contains(&name)
}

// Whether a term's name is known, if it has one.
fn term_is_known(names: &IndexSet<&[u8]>, term: ReadTerm<'_>) -> bool
    ensures { (all : List (List ℕ)) → Holds names.now all → result ≡ term_is_known all (term_of term.entry) }
{
    match term {
        ReadTerm::Label(name, _) => is_known(names, name),
        _ => true,
    }
}

// Whether each name that a statement uses is known.
fn are_known(names: &IndexSet<&[u8]>, statement: &ReadStatement<'_>) -> bool
    ensures { (all : List (List ℕ)) → Holds names.now all → result ≡ are_known all (statement_of statement.now) }
{
    match statement {
        ReadStatement::Binary(_, _, term)
        | ReadStatement::Putc(term)
        | ReadStatement::Jump(term)
        | ReadStatement::Long(term) => term_is_known(names, *term),
        ReadStatement::JumpIf(_, target, _, term) => {
            term_is_known(names, *target) && term_is_known(names, *term)
        }
        _ => true,
    }
}

// The lowest line that uses a name that is not known.
fn first_unknown(names: &IndexSet<&[u8]>, lines: &[PlacedLine<'_>]) -> Option<u32>
    requires { length lines.now ≤ 2 ^ 30 }
    ensures { (all : List (List ℕ)) → Holds names.now all → result ≡ first_unknown all 1 (lines_in lines.now) }
{
    for (i, line) in lines.iter().enumerate() {
        if !are_known(names, &line.line.statement) {
            return Some(i as u32 + 1);
        }
    }
    None
}

// The refusal of the lower of two lines.
fn names_refusal(again: Option<u32>, unknown: Option<u32>) -> Option<EirFault>
    ensures { result ≡ names_refusal again unknown }
{
    match (again, unknown) {
        (None, None) => None,
        (Some(k), None) => Some(EirFault::DuplicateLabel(k)),
        (None, Some(k)) => Some(EirFault::UnknownLabel(k)),
        (Some(j), Some(k)) => Some(if j <= k {
            EirFault::DuplicateLabel(j)
        } else {
            EirFault::UnknownLabel(k)
        }),
    }
}

// Sees that no name is defined twice, and that each name that is used is known.
pub fn check_names(alloc: Global, lines: &[PlacedLine<'_>]) -> Result<(), EirFault>
    requires { length lines.now ≤ 2 ^ 30 }
    ensures good { let all = lines_in lines.now in OnOk result (names_refusal (first_repeat [] 1 all) (first_unknown (names_of all) 1 all) ≡ None) }
    ensures refused { let all = lines_in lines.now in IfErr result (λ e. Refuses e (names_refusal (first_repeat [] 1 all) (first_unknown (names_of all) 1 all))) }
{
    let (names, again) = names_of(alloc, lines)?;
    match names_refusal(again, first_unknown(&names, lines)) {
        None => Ok(()),
        Some(fault) => Err(fault),
    }
}
