//! Which numbers are in range.

ghost use Rattle.std.specs.Prelude.{◌≡◌};
ghost use Rattle.eir_line.specs.Line.{fits, term_fits, is_in_range};
ghost use Rattle.eir_line.specs.Numbers.{value_of};
ghost use Rattle.eir_line.specs.Reading.{term_of, statement_of};

use crate::line::{ReadStatement, ReadTerm};
use crate::numbers::number_up_to;

// Whether decimal digits write a number below 2^24.
fn fits(digits: &[u8]) -> bool
    ensures { result ≡ fits (value_of 10 digits.now) }
{
    number_up_to(10, digits) < 16777216
}

fn term_fits(term: &ReadTerm) -> bool
    ensures { result ≡ term_fits (term_of term.now) }
{
    match term {
        ReadTerm::Register(_) => true,
        ReadTerm::Number(_, digits) => fits(digits),
        ReadTerm::Label(_, digits) => fits(digits),
    }
}

/// Whether each number, addend and piece's number of a statement is below 2^24.
pub fn is_in_range(statement: &ReadStatement) -> bool
    ensures { result ≡ is_in_range (statement_of statement.now) }
{
    match statement {
        ReadStatement::Data(digits) => fits(digits),
        ReadStatement::Binary(_, _, term)
        | ReadStatement::Putc(term)
        | ReadStatement::Jump(term)
        | ReadStatement::Long(term) => term_fits(term),
        ReadStatement::JumpIf(_, target, _, term) => term_fits(target) && term_fits(term),
        _ => true,
    }
}
