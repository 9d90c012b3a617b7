//! The lines of a text, each read in its section.

ghost use Rattle.std.specs.Prelude.{◌≡◌, ℕ, ◌+◌, ◌≤◌, ◌<◌, ◌^◌, length, map, Some, None, IfOk, IfErr, OnOk, vec_len};
ghost use Rattle.eir_line.specs.Grammar.{form_of};
ghost use Rattle.eir_line.specs.Reading.{line_of};
ghost use Rattle.std.specs.List.{filter_map};
ghost use Rattle.eir_text.specs.declared.section.Section.TheVariants as section;
ghost use Rattle.eir_text.specs.Sections.{lines_of, placed_from, placed_of};
ghost use Rattle.eir_text.specs.Refusals.{line_refusal, lines_refusal};
ghost use Rattle.eir_text.specs.Reading.{texts, places, Refuses};

use crate::fault::EirFault;
use crate::lines::PlacedLine;
use crate::section::Section;
use crate::statements::{may_stand, section_after};
use eir_line::{LineFault, is_in_range, read_line};
use std::alloc::{AllocError, Global};

// The text cut at its line feeds.
fn line_slices(alloc: Global, text: &[u8]) -> Result<Vec<&[u8]>, AllocError>
    ensures { IfOk result (λ v. texts v.items ≡ lines_of text.now) }
{
    text.split(|b| *b == b'\n').collect(alloc)
}

// The line of this number in its section.
fn placed_line<'t>(
    alloc: Global,
    section: Section,
    number: u32,
    line: &'t [u8],
) -> Result<PlacedLine<'t>, EirFault>
    ensures form { IfOk result (λ l. form_of line.now ≡ Some (line_of l.line)) }
    ensures section { IfOk result (λ l. l.section ≡ section) }
    ensures good { OnOk result (line_refusal section number (form_of line.now) ≡ None) }
    ensures refused { IfErr result (λ e. Refuses e (line_refusal section number (form_of line.now))) }
{
    let read = match read_line(alloc, line) {
        Ok(read) => read,
        Err(LineFault::NoForm) => return Err(EirFault::BadLine(number)),
        Err(LineFault::Memory) => return Err(EirFault::Memory),
    };
    if !may_stand(section, &read.statement) {
        return Err(EirFault::BadLine(number));
    }
    if !is_in_range(&read.statement) {
        return Err(EirFault::NumberRange(number));
    }
    Ok(PlacedLine {
        section,
        line: read,
    })
}

// The lines in their sections, or why the lowest bad one is refused.
fn placed_lines<'t>(alloc: Global, lines: &[&'t [u8]]) -> Result<Vec<PlacedLine<'t>>, EirFault>
    requires { length lines.now ≤ 2 ^ 30 }
    ensures places { IfOk result (λ v. places v.items ≡ placed_from section.Text (filter_map form_of (texts lines.now))) }
    ensures count { IfOk result (λ v. vec_len v ≡ length lines.now) }
    ensures good { OnOk result (lines_refusal section.Text 1 (map form_of (texts lines.now)) ≡ None) }
    ensures refused { IfErr result (λ e. Refuses e (lines_refusal section.Text 1 (map form_of (texts lines.now)))) }
{
    let mut section = Section::Text;
    let mut found = Vec::new(alloc);
    for (i, line) in lines.iter().enumerate() {
        let placed = placed_line(alloc, section, i as u32 + 1, line)?;
        section = section_after(section, &placed.line.statement);
        found.push(placed)?;
    }
    Ok(found)
}

// The lines of a text in their sections, or why the lowest bad one is refused.
pub fn lines_read(alloc: Global, text: &[u8]) -> Result<Vec<PlacedLine<'_>>, EirFault>
    requires { length text.now ≤ 2 ^ 29 }
    ensures places { IfOk result (λ v. places v.items ≡ placed_of text.now) }
    ensures count { IfOk result (λ v. vec_len v ≤ 2 ^ 30) }
    ensures good { OnOk result (lines_refusal section.Text 1 (map form_of (lines_of text.now)) ≡ None) }
    ensures refused { IfErr result (λ e. Refuses e (lines_refusal section.Text 1 (map form_of (lines_of text.now)))) }
{
    let slices = line_slices(alloc, text)?;
    placed_lines(alloc, &slices)
}
