//! Reading a line.

ghost use Rattle.std.specs.Prelude.{◌≡◌};
ghost use Rattle.eir_line.specs.Grammar.{form_of};
ghost use Rattle.eir_line.specs.Reading.{Gives, line_of};

use crate::bytes::ends;
use crate::labels::labels_of;
use crate::line::{LineFault, ReadLine};
use crate::operands::statement_read;
use std::alloc::Global;

/// Reads one line of EIR text, given without its line feed.
///
/// `NoForm` comes exactly where the line has no form.
#[tactic(auto, unfolding(crate::specs::Grammar::form_of))]
pub fn read_line(alloc: Global, line: &[u8]) -> Result<ReadLine<'_>, LineFault>
    ensures form { Gives line_of result (form_of line.now) }
{
    let (labels, rest) = labels_of(alloc, line)?;
    let (statement, rest) = statement_read(alloc, rest)?;
    if !ends(rest) {
        return Err(LineFault::NoForm);
    }
    Ok(ReadLine { labels, statement })
}
