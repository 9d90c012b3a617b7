//! The typed tree of a text.

ghost use Rattle.std.specs.Prelude.{◌≤◌, ◌^◌, length, IfErr, IfOk};
ghost use Rattle.c_types.specs.Typed.{plain_of};
ghost use Rattle.c_source.specs.Source.{Spells, IsRefusedFor};

use crate::fault::SourceFault;
use c_check::check;
use c_parse::parse;
use c_prep::prepare;
use c_text::prepared_texts_end;
use c_types::Typed;
use std::alloc::Global;

/// The typed tree of a text of at most 2^29 bytes: the text is prepared to tokens, these are parsed and the unit is checked.
/// The first of these steps that refuses it tells why; want of memory, of any of them, says nothing of the text.
pub fn read_c(alloc: Global, text: &[u8]) -> Result<Typed, SourceFault>
    requires { length text.now ≤ 2 ^ 29 }
    ensures ok { IfOk result (λ t. Spells text.now (plain_of t)) }
    ensures err { IfErr result (IsRefusedFor text.now) }
{
    prepared_texts_end();
    let tokens = match prepare(alloc, text) {
        Ok(tokens) => tokens,
        Err(fault) => return Err(SourceFault::Prepare(fault)),
    };
    let unit = match parse(alloc, tokens.as_slice()) {
        Ok(unit) => unit,
        Err(fault) => return Err(SourceFault::Parse(fault)),
    };
    match check(alloc, unit) {
        Ok(typed) => Ok(typed),
        Err(fault) => Err(SourceFault::Check(fault)),
    }
}
