//! A line that was read.

ghost use Rattle.std.specs.Prelude.{IsTrue};
ghost use Rattle.eir_line.specs.Line.{is_in_range};
ghost use Rattle.eir_line.specs.Reading.{statement_of};

use crate::section::Section;
use eir_line::ReadLine;

/// A line, and the section in force where it begins. Its numbers are in range.
#[derive(Drop)]
pub struct PlacedLine<'t> {
    pub section: Section,
    pub line: ReadLine<'t>,
    pub ghost in_range: { IsTrue (is_in_range (statement_of line.statement)) },
}
