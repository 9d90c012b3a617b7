//! What the words ask for.
ghost use Rattle.std.specs.Prelude.{◌≡◌, ◌≤◌, None, Some, IfOk, IfSome, IsErrOf, map, option_map, string_bytes};
ghost use Rattle.elvm_words.specs.Arguments.{texts_of};
ghost use Rattle.elvm_words.specs.Number.{number_in};
ghost use Rattle.elvm_words.specs.Invocation.{IsWithinLimits, blocks_given, codel_given, invocation_by, invocation_in, invocation_of, invocation_with, steps_given, target_named, verb_named};

use crate::arguments::{Arguments, WordFault, read_arguments};
use crate::number::number;
use std::alloc::Global;

/// What is to be done.
#[derive(Clone, Copy)]
pub enum Verb {
    Compile,
    Eir,
    Emit,
    Build,
    Run,
    Sample,
    Opt,
    C,
}

/// The language that a program is emitted to, built for or run in.
#[derive(Clone, Copy, Debug, PartialEq, Eq)]
pub enum Target {
    Brainfuck,
    Whitespace,
    Subleq,
    Piet,
    Wasm,
}

/// What the words ask for. The names of files are the caller's own texts.
#[derive(Clone, Copy, Debug, PartialEq, Eq)]
pub enum Request<'a> {
    /// C text to EIR text.
    Compile {
        file: &'a str,
    },
    /// Run an EIR file for at most so many steps.
    Eir {
        file: &'a str,
        steps: u64,
    },
    /// EIR file to a program of the target.
    Emit {
        target: Target,
        file: &'a str,
    },
    /// C text to a program of the target.
    Build {
        target: Target,
        file: &'a str,
    },
    /// Run a program of the target for at most so many steps. The side of a codel, in pixels, is for a picture.
    Run {
        target: Target,
        file: &'a str,
        steps: u64,
        codel: u32,
    },
    /// Emit and run the sample of so many blocks.
    Sample {
        blocks: u32,
    },
    /// EIR file to the EIR text of its program, folded and trimmed.
    Opt {
        file: &'a str,
    },
    /// Run a C text by its meaning, with so much fuel: a unit for each call, each turn of a loop and each character of a
    /// string that is printed.
    C {
        file: &'a str,
        fuel: u64,
    },
}

impl Verb {
    fn from_name(name: &str) -> Option<Verb>
        ensures { result ≡ verb_named name.now }
    {
        match name {
            "compile" => Some(Verb::Compile),
            "eir" => Some(Verb::Eir),
            "emit" => Some(Verb::Emit),
            "build" => Some(Verb::Build),
            "run" => Some(Verb::Run),
            "sample" => Some(Verb::Sample),
            "opt" => Some(Verb::Opt),
            "c" => Some(Verb::C),
            _ => None,
        }
    }
}

impl Target {
    fn from_name(name: &str) -> Option<Target>
        ensures { result ≡ target_named name.now }
    {
        match name {
            "brainfuck" => Some(Target::Brainfuck),
            "whitespace" => Some(Target::Whitespace),
            "subleq" => Some(Target::Subleq),
            "piet" => Some(Target::Piet),
            "wasm" => Some(Target::Wasm),
            _ => None,
        }
    }
}

// The limit on the steps of a run, and the fuel of a C text.
fn steps_of(text: Option<&str>) -> Option<u64>
    ensures { result ≡ steps_given (option_map (λ s. s.now) text.entry) }
{
    match text {
        None => Some(1_000_000_000_000),
        Some(text) => number(text, 20, 0, u64::MAX),
    }
}

// The side of a codel, in pixels.
fn codel_of(target: Target, text: Option<&str>) -> Option<u32>
    ensures value { result ≡ codel_given target (option_map (λ s. s.now) text.entry) }
    ensures low { IfSome result (λ n. 1 ≤ n) }
    ensures high { IfSome result (λ n. n ≤ 65535) }
{
    match (target, text) {
        (_, None) => Some(1),
        (Target::Piet, Some(text)) => {
            let codel = number(text, 5, 1, 65535)?;
            Some(codel as u32)
        }
        _ => None,
    }
}

// The number of blocks of a sample.
fn blocks_of(text: &str) -> Option<u32>
    ensures value { result ≡ blocks_given text.now }
    ensures high { IfSome result (λ n. n ≤ 20000) }
{
    let blocks = number(text, 5, 0, 20000)?;
    Some(blocks as u32)
}

// What a verb asks for, with its file or number and the options.
fn request_by<'a>(verb: Verb, what: &'a str, arguments: &Arguments<'a>) -> Option<Request<'a>>
    ensures value { option_map invocation_of result ≡ invocation_by verb what.entry.now (texts_of arguments.now).target (texts_of arguments.now).steps (texts_of arguments.now).codel }
    ensures limits { IfSome result IsWithinLimits }
{
    match (verb, arguments.target, arguments.steps, arguments.codel) {
        (Verb::Compile, None, None, None) => Some(Request::Compile { file: what }),
        (Verb::Eir, None, steps, None) => {
            let steps = steps_of(steps)?;
            Some(Request::Eir { file: what, steps })
        }
        (Verb::Emit, Some(target), None, None) => {
            let target = Target::from_name(target)?;
            Some(Request::Emit { target, file: what })
        }
        (Verb::Build, Some(target), None, None) => {
            let target = Target::from_name(target)?;
            Some(Request::Build { target, file: what })
        }
        (Verb::Run, Some(target), steps, codel) => {
            let target = Target::from_name(target)?;
            let steps = steps_of(steps)?;
            let codel = codel_of(target, codel)?;
            Some(Request::Run {
                target,
                file: what,
                steps,
                codel,
            })
        }
        (Verb::Sample, None, None, None) => {
            let blocks = blocks_of(what)?;
            Some(Request::Sample { blocks })
        }
        (Verb::Opt, None, None, None) => Some(Request::Opt { file: what }),
        (Verb::C, None, steps, None) => {
            let fuel = steps_of(steps)?;
            Some(Request::C { file: what, fuel })
        }
        _ => None,
    }
}

// What the arguments ask for.
fn request_with<'a>(arguments: &Arguments<'a>) -> Option<Request<'a>>
    ensures value { option_map invocation_of result ≡ invocation_with (texts_of arguments.now) }
    ensures limits { IfSome result IsWithinLimits }
{
    let verb = Verb::from_name(arguments.verb?)?;
    let what = arguments.what?;
    if what.is_empty() {
        return None;
    }
    request_by(verb, what, arguments)
}

/// Reads the words that follow the program's name.
///
/// `Usage` comes exactly where the words are no request, but for want of memory, which may come at any words.
pub fn read_words<'a>(alloc: Global, words: &'a [String]) -> Result<Request<'a>, WordFault>
    ensures ok { IfOk result (λ r. invocation_in (map string_bytes words.now) ≡ Some (invocation_of r)) }
    ensures usage { IsErrOf result WordFault.Usage → invocation_in (map string_bytes words.now) ≡ None }
    ensures limits { IfOk result IsWithinLimits }
{
    let arguments = match read_arguments(alloc, words) {
        Ok(arguments) => arguments,
        Err(fault) => return Err(fault),
    };
    match request_with(&arguments) {
        Some(request) => Ok(request),
        None => Err(WordFault::Usage),
    }
}
