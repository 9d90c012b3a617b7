// The text of a piece.

ghost use Rattle.std.specs.Prelude.{◌≡◌};
ghost use Rattle.mach_core.specs.Puts.{Puts};
ghost use Rattle.bf_lang.specs.Text.{byte_of};
ghost use Rattle.bf_lang.specs.Laws.{text_of};

use crate::frag::Frag;
use bf_lang::Command;
use mach_core::{Failed, Put, Sink};

// The byte of a command.
fn byte_of(command: Command) -> u8
    ensures { result ≡ byte_of command }
{
    match command {
        Command::Right => b'>',
        Command::Left => b'<',
        Command::Plus => b'+',
        Command::Minus => b'-',
        Command::Write => b'.',
        Command::Read => b',',
        Command::Open => b'[',
        Command::Close => b']',
    }
}

impl Frag {
    /// Writes the commands, one byte each. It takes no memory. On an error out got a prefix of what was held and then the
    /// commands.
    pub fn send<O: Sink>(&self, put: &mut Put, out: &mut O) -> Result<(), Failed>
        ensures { Puts (record { got = O.got out.old; faults = O.faults out.old; held = put.old })
            (record { got = O.got out.new; faults = O.faults out.new; held = put.new })
            (text_of self.now.commands) result }
    {
        let commands = self.commands();
        for command in commands {
            put.byte(byte_of(*command), out)?;
        }
        Ok(())
    }
}
