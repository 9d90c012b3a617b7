// A place in a text, and the signs from there on.
ghost use Rattle.std.specs.Prelude.{◌≡◌, ◌≤◌, ◌<◌, ◌++◌, [], None, Some, true, false, IsSome, MatchOption, OnOk, IfOk, drop, length};
ghost use Rattle.std.specs.Option.{option_to_list};
ghost use Rattle.ws_lang.specs.Spelling.{sign_of, signs_of};
ghost use Rattle.ws_lang.specs.Refusal.{IsSignAt};
ghost use Rattle.ws_lang.specs.Decode.{picked, stack_command, arithmetic_command, outside_command, tab_command, flow_command, command_in, bits_in};

use crate::command::Command;
use crate::sign::Sign;
use std::alloc::{AllocError, Global};

/// A place in a text.
#[derive(Drop)]
pub struct Cursor<'t> {
    pub text: &'t [u8],
    pub at: usize,
}

// The sign that a byte is.
fn sign(byte: u8) -> Option<Sign>
    ensures { result ≡ sign_of byte }
{
    match byte {
        32 => Some(Sign::Space),
        9 => Some(Sign::Tab),
        10 => Some(Sign::LineFeed),
        _ => None,
    }
}

impl<'t> Cursor<'t> {
    ghost use Rattle.ws_lang.specs.Cursor.{left, Follows, Passes};

    /// Takes the next sign, with the comments before it.
    pub fn next(&mut self) -> Option<Sign>
        ensures follows { Follows self.old self.new }
        ensures moves { IsSome result → (self.old.at < self.new.at) × (self.new.at ≤ length self.old.text.now) }
        ensures signs { left self.old ≡ option_to_list result ++ left self.new }
        ensures none { result ≡ None → left self.old ≡ [] }
    {
        while self.at < self.text.len() {
            let byte = self.text[self.at];
            self.at += 1;
            if let Some(found) = sign(byte) {
                return Some(found);
            }
        }
        None
    }

    /// Passes comments, and says whether a sign stands behind them.
    pub fn skip_comments(&mut self) -> bool
        ensures passes { Passes self.old self.new }
        ensures sign { result ≡ true → IsSignAt self.old.text.now self.new.at × (self.new.at < length self.old.text.now) }
        ensures end { result ≡ false → left self.new ≡ [] }
    {
        while self.at < self.text.len() {
            if sign(self.text[self.at]).is_some() {
                return true;
            }
            self.at += 1;
        }
        false
    }

    // The command that the next sign picks.
    fn pick(
        &mut self,
        space: Option<Command>,
        tab: Option<Command>,
        line_feed: Option<Command>,
    ) -> Option<Command>
        ensures follows { Follows self.old self.new }
        ensures command { MatchOption result (picked space tab line_feed (left self.old) ≡ None) (λ k. picked space tab line_feed (left self.old) ≡ Some (k, left self.new)) }
    {
        match self.next()? {
            Sign::Space => space,
            Sign::Tab => tab,
            Sign::LineFeed => line_feed,
        }
    }

    // The command after a space: of the stack.
    fn stack_command(&mut self) -> Option<Command>
        ensures follows { Follows self.old self.new }
        ensures command { MatchOption result (stack_command (left self.old) ≡ None) (λ k. stack_command (left self.old) ≡ Some (k, left self.new)) }
    {
        match self.next()? {
            Sign::Space => Some(Command::Push),
            Sign::Tab => self.pick(Some(Command::Copy), None, Some(Command::Slide)),
            Sign::LineFeed => self.pick(
                Some(Command::Duplicate),
                Some(Command::Swap),
                Some(Command::Discard),
            ),
        }
    }

    // The command after a tab and a space: arithmetic.
    fn arithmetic_command(&mut self) -> Option<Command>
        ensures follows { Follows self.old self.new }
        ensures command { MatchOption result (arithmetic_command (left self.old) ≡ None) (λ k. arithmetic_command (left self.old) ≡ Some (k, left self.new)) }
    {
        match self.next()? {
            Sign::Space => self.pick(
                Some(Command::Add),
                Some(Command::Subtract),
                Some(Command::Multiply),
            ),
            Sign::Tab => self.pick(Some(Command::Divide), Some(Command::Modulo), None),
            Sign::LineFeed => None,
        }
    }

    // The command after a tab and a line feed: of bytes and numbers.
    fn outside_command(&mut self) -> Option<Command>
        ensures follows { Follows self.old self.new }
        ensures command { MatchOption result (outside_command (left self.old) ≡ None) (λ k. outside_command (left self.old) ≡ Some (k, left self.new)) }
    {
        match self.next()? {
            Sign::Space => self.pick(
                Some(Command::WriteCharacter),
                Some(Command::WriteNumber),
                None,
            ),
            Sign::Tab => self.pick(
                Some(Command::ReadCharacter),
                Some(Command::ReadNumber),
                None,
            ),
            Sign::LineFeed => None,
        }
    }

    // The command after a tab.
    fn tab_command(&mut self) -> Option<Command>
        ensures follows { Follows self.old self.new }
        ensures command { MatchOption result (tab_command (left self.old) ≡ None) (λ k. tab_command (left self.old) ≡ Some (k, left self.new)) }
    {
        match self.next()? {
            Sign::Space => self.arithmetic_command(),
            Sign::Tab => self.pick(Some(Command::Store), Some(Command::Retrieve), None),
            Sign::LineFeed => self.outside_command(),
        }
    }

    // The command after a line feed: where to go on.
    fn flow_command(&mut self) -> Option<Command>
        ensures follows { Follows self.old self.new }
        ensures command { MatchOption result (flow_command (left self.old) ≡ None) (λ k. flow_command (left self.old) ≡ Some (k, left self.new)) }
    {
        match self.next()? {
            Sign::Space => self.pick(
                Some(Command::Mark),
                Some(Command::Call),
                Some(Command::Jump),
            ),
            Sign::Tab => self.pick(
                Some(Command::JumpIfZero),
                Some(Command::JumpIfNegative),
                Some(Command::Return),
            ),
            Sign::LineFeed => self.pick(None, None, Some(Command::End)),
        }
    }

    /// Takes the signs of a command.
    pub fn command(&mut self) -> Option<Command>
        ensures follows { Follows self.old self.new }
        ensures moves { IsSome result → self.old.at < self.new.at }
        ensures command { MatchOption result (command_in (left self.old) ≡ None) (λ k. command_in (left self.old) ≡ Some (k, left self.new)) }
    {
        match self.next()? {
            Sign::Space => self.stack_command(),
            Sign::Tab => self.tab_command(),
            Sign::LineFeed => self.flow_command(),
        }
    }

    /// Takes the signs up to the next line feed, and it: a tab is `true`.
    #[tactic(auto, using(crate::proofs::CursorLemmas::bits_read))]
    pub fn bits(&mut self, alloc: Global) -> Result<Option<Vec<bool>>, AllocError>
        ensures follows { OnOk result (Follows self.old self.new) }
        ensures bits { IfOk result (λ found. MatchOption found (bits_in (left self.old) ≡ None) (λ v. bits_in (left self.old) ≡ Some (v.items, left self.new))) }
    {
        let mut bits = Vec::new(alloc);
        while let Some(sign) = self.next() {
            match sign {
                Sign::Space => bits.push(false)?,
                Sign::Tab => bits.push(true)?,
                Sign::LineFeed => return Ok(Some(bits)),
            }
        }
        Ok(None)
    }
}
