//! The arguments that `clap` finds in the words.
ghost use Rattle.std.specs.Prelude.{◌≡◌, None, Some, IfOk, IsErrOf, map, string_bytes};
ghost use Rattle.elvm_words.specs.Arguments.{argument_texts, bare_app, command, texts_of};
ghost use Rattle.clap.specs.Words.{app_of};
ghost use Rattle.elvm_words.specs.declared.arguments.WordFault.TheVariants.{Memory};

use clap::error::ErrorKind;
use clap::{Arg, Command};
use std::alloc::{AllocError, Global};
use thiserror::Error;

/// Why the words were not read.
#[derive(Clone, Copy, Debug, PartialEq, Eq, Error)]
pub enum WordFault {
    /// The words are no request.
    #[error("the words are no request")]
    Usage,
    /// There was no memory to read them.
    #[error("out of memory")]
    Memory,
}

impl From<AllocError> for WordFault {
    ghost from_gives = { λ _ e. e ≡ Memory };

    fn from(_: AllocError) -> Self {
        WordFault::Memory
    }
}

/// The text of each argument of the command, where it is given.
#[derive(Clone, Copy)]
pub struct Arguments<'a> {
    pub verb: Option<&'a str>,
    pub what: Option<&'a str>,
    pub target: Option<&'a str>,
    pub steps: Option<&'a str>,
    pub codel: Option<&'a str>,
}

// A command that takes every word that it is given, with no help or version flag.
#[tactic(auto, using(crate::proofs::CommandLemmas::settings))]
fn bare_command<'a>(alloc: Global, name: &'a str) -> Command<'a>
    ensures { app_of result ≡ bare_app name.entry.now }
{
    Command::new(alloc, name)
        .no_binary_name(true)
        .disable_help_flag(true)
        .disable_version_flag(true)
}

// The command: two positionals and three options.
fn elvm_command<'a>(alloc: Global) -> Result<Command<'a>, AllocError>
    ensures { IfOk result (λ c. app_of c ≡ command) }
{
    bare_command(alloc, "elvm")
        .arg(Arg::new(alloc, "verb"))?
        .arg(Arg::new(alloc, "what"))?
        .arg(Arg::new(alloc, "target").long("target"))?
        .arg(Arg::new(alloc, "steps").long("steps"))?
        .arg(Arg::new(alloc, "codel").long("codel"))
}

/// Reads the words as one simple command.
pub fn read_arguments<'a>(alloc: Global, words: &'a [String]) -> Result<Arguments<'a>, WordFault>
    ensures ok { IfOk result (λ a. argument_texts (map string_bytes words.now) ≡ Some (texts_of a)) }
    ensures usage { IsErrOf result WordFault.Usage → argument_texts (map string_bytes words.now) ≡ None }
{
    match elvm_command(alloc)?.try_get_matches_from(words) {
        Ok(matches) => Ok(Arguments {
            verb: matches.get_str("verb"),
            what: matches.get_str("what"),
            target: matches.get_str("target"),
            steps: matches.get_str("steps"),
            codel: matches.get_str("codel"),
        }),
        Err(error) => match error.kind() {
            ErrorKind::OutOfMemory => Err(WordFault::Memory),
            _ => Err(WordFault::Usage),
        },
    }
}
