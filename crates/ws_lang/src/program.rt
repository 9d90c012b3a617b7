// A program.
ghost use Rattle.std.specs.Prelude.{◌≡◌, ◌≤◌, ◌^◌, length, map, slice_get, MatchResult};
ghost use Rattle.std.specs.Option.{option_map};
ghost use Rattle.ws_lang.specs.Resolved.{resolved_in};
ghost use Rattle.ws_lang.specs.Spelling.{ws_spells};
ghost use Rattle.ws_lang.specs.Refusal.{IsRefused};

use crate::fault::WsFault;
use crate::instruction::Op;
use crate::labels::resolve;
use crate::listing::{Listing, read_listing};
use crate::resolved::Resolved;
use std::alloc::Global;
use std::marker::Model;

/// A program, which a clause sees as the list of its instructions.
#[derive(Drop)]
pub struct WsProgram {
    ops: Vec<Op>,
    /// The same instructions as a machine executes them.
    steps: Vec<Resolved>,
}

impl Model for WsProgram {
    ghost use Rattle.std.specs.Prelude.{List};
    ghost use Rattle.ws_lang.specs.Instruction.{Instruction};

    ghost Value = { List Instruction };

    ghost use Rattle.ws_lang.specs.Inside.{code_of, IsInside};

    ghost view = { code_of };

    ghost invariant = { IsInside };
}

impl WsProgram {
    /// How many instructions it has.
    pub fn len(&self) -> usize
        ensures len { result ≡ length self.now }
        ensures few { result ≤ 2 ^ 29 }
    {
        self.ops.len()
    }

    /// The instructions as a machine executes them.
    pub(crate) fn steps(&self) -> &[Resolved]
        ensures steps { result.now ≡ map (resolved_in self.now) self.now }
        ensures few { length self.now ≤ 2 ^ 29 }
    {
        self.steps.as_slice()
    }

    /// The instruction at a place, as a machine executes it.
    pub(crate) fn step(&self, place: u32) -> Option<Resolved>
        ensures step { result ≡ option_map (resolved_in self.now) (slice_get self.now place) }
        ensures few { length self.now ≤ 2 ^ 29 }
    {
        let steps = self.steps();
        if (place as usize) < steps.len() {
            return Some(steps[place as usize]);
        }
        None
    }
}

/// Reads the text of a program. A position in a refusal counts the bytes of the text before it, comments too.
/// The lowest instruction that is cut, has no form or has a number out of range comes first; where there is
/// none, the lowest with a label that was marked before, or is marked nowhere.
pub fn read_ws(alloc: Global, text: &[u8]) -> Result<WsProgram, WsFault>
    requires { length text.now ≤ 2 ^ 29 }
    ensures { MatchResult result (ws_spells text.now) (IsRefused text.now) }
{
    let Listing { ops, starts } = read_listing(alloc, text)?;
    let steps = resolve(alloc, &ops, &starts)?;
    Ok(WsProgram { ops, steps })
}
