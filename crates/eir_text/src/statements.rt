//! What statements say of sections and numbers.

ghost use Rattle.std.specs.Prelude.{◌≡◌, ◌<◌, ◌^◌, IsTrue};
ghost use Rattle.eir_line.specs.Line.{fits, is_in_range};
ghost use Rattle.eir_line.specs.Numbers.{value_of};
ghost use Rattle.eir_line.specs.Reading.{statement_of};
ghost use Rattle.eir_text.specs.Sections.{section_after, is_jump, is_operation, may_stand};

use crate::section::Section;
use eir_line::{ReadStatement, number_up_to};

// The number that digits write.
pub fn number_of(digits: &[u8]) -> u32
    requires { IsTrue (fits (value_of 10 digits.now)) }
    ensures value { result ≡ value_of 10 digits.now }
    ensures small { result < 2 ^ 24 }
{
    number_up_to(10, digits)
}

// The section behind a statement.
pub fn section_after(section: Section, statement: &ReadStatement<'_>) -> Section
    requires { IsTrue (is_in_range (statement_of statement.now)) }
    ensures { result ≡ section_after section (statement_of statement.now) }
{
    match statement {
        ReadStatement::Text => Section::Text,
        ReadStatement::Data(digits) => Section::Data(number_of(digits)),
        _ => section,
    }
}

// Whether a statement is a jump.
pub fn is_jump(statement: &ReadStatement<'_>) -> bool
    ensures { result ≡ is_jump (statement_of statement.now) }
{
    matches!(
        statement,
        ReadStatement::Jump(_) | ReadStatement::JumpIf(..)
    )
}

// Whether a statement is an operation.
pub fn is_operation(statement: &ReadStatement<'_>) -> bool
    ensures { result ≡ is_operation (statement_of statement.now) }
{
    matches!(
        statement,
        ReadStatement::Binary(..)
            | ReadStatement::Putc(_)
            | ReadStatement::Getc(_)
            | ReadStatement::Exit
            | ReadStatement::Jump(_)
            | ReadStatement::JumpIf(..)
    )
}

// Whether a statement may stand in the section.
pub fn may_stand(section: Section, statement: &ReadStatement<'_>) -> bool
    ensures { result ≡ may_stand section (statement_of statement.now) }
{
    let in_text = matches!(section, Section::Text);
    match statement {
        ReadStatement::Dump => in_text,
        ReadStatement::Long(_) | ReadStatement::Bytes(_) => !in_text,
        _ => in_text || !is_operation(statement),
    }
}
