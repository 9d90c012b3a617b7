// The text of a program.

ghost use Rattle.std.specs.Prelude.{◌≡◌, ◌≤◌, ◌<◌, ◌+◌, ◌++◌, ◌^◌, [], ℕ, length, MatchOption, MatchResult, OnOk};
ghost use Rattle.bf_lang.specs.Brackets.{IsUnopened};
ghost use Rattle.bf_lang.specs.Reading.{IsScanned};
ghost use Rattle.bf_lang.specs.Text.{command_of, with_command, is_open_byte, is_close_byte, bf_spells, IsFirst, IsRefusedFor};

use crate::command::Command;
use crate::program::BfProgram;
use std::alloc::{AllocError, Global};
use thiserror::Error;

/// Why a text was refused. A place is the index of a byte.
#[derive(Clone, Copy, Debug, PartialEq, Eq, Error)]
pub enum BfFault {
    /// The `]` at this place has no partner.
    #[error("no partner of the `]` at {0}")]
    Unopened(u32),
    /// The `[` at this place has no partner.
    #[error("no partner of the `[` at {0}")]
    Unclosed(u32),
    #[error("out of memory")]
    Memory,
}

/// The brackets that are open at a place of a text.
#[derive(Clone, Copy)]
struct Brackets {
    /// How many.
    depth: u32,
    /// The place of the outermost, where there is one.
    outer: u32,
}

// The command that a byte is; a comment is none.
fn command_of(byte: u8) -> Option<Command>
    ensures { result ≡ command_of byte }
{
    match byte {
        b'>' => Some(Command::Right),
        b'<' => Some(Command::Left),
        b'+' => Some(Command::Plus),
        b'-' => Some(Command::Minus),
        b'.' => Some(Command::Write),
        b',' => Some(Command::Read),
        b'[' => Some(Command::Open),
        b']' => Some(Command::Close),
        _ => None,
    }
}

// Adds the command that a byte is.
fn put(commands: &mut Vec<Command>, byte: u8) -> Result<(), AllocError>
    ensures { OnOk result (commands.new.items ≡ commands.old.items ++ with_command (command_of byte) []) }
{
    if let Some(command) = command_of(byte) {
        commands.push(command)?;
    }
    Ok(())
}

// The brackets that are open behind the byte at a place; none says that it is a `]` without a partner.
fn bracket(text: &[u8], at: usize, old: Brackets) -> Option<Brackets>
    requires at { at < length text.now }
    requires few { length text.now ≤ 2 ^ 29 }
    requires scanned { IsScanned text.now at old }
    ensures { MatchOption result (IsFirst (IsUnopened is_open_byte is_close_byte text.now) at) (IsScanned text.now (at + 1)) }
{
    match text[at] {
        b'[' => Some(Brackets {
            depth: old.depth + 1,
            outer: if old.depth == 0 { at as u32 } else { old.outer },
        }),
        b']' if old.depth == 0 => None,
        b']' => Some(Brackets {
            depth: old.depth - 1,
            outer: old.outer,
        }),
        _ => Some(old),
    }
}

/// Reads a program: `>` `<` `+` `-` `.` `,` `[` `]` are its commands, and each other byte is a comment.
///
/// The first `]` without a partner gives the fault; where there is none, the first `[` without one.
pub fn read_bf(alloc: Global, text: &[u8]) -> Result<BfProgram, BfFault>
    requires { length text.now ≤ 2 ^ 29 }
    ensures { MatchResult result (bf_spells text.now) (IsRefusedFor text.now) }
{
    let mut commands = Vec::new(alloc);
    let mut brackets = Brackets { depth: 0, outer: 0 };
    for at in 0..text.len() {
        let Some(next) = bracket(text, at, brackets) else {
            return Err(BfFault::Unopened(at as u32));
        };
        brackets = next;
        let Ok(()) = put(&mut commands, text[at]) else {
            return Err(BfFault::Memory);
        };
    }
    if brackets.depth > 0 {
        return Err(BfFault::Unclosed(brackets.outer));
    }
    Ok(BfProgram::of(commands))
}
