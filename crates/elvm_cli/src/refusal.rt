//! The refusals of the readers.
ghost use Rattle.std.specs.Prelude.{◌≡◌, Some};
ghost use Rattle.elvm_cli.specs.declared.outcome.Outcome.{Outcome};
ghost use Rattle.elvm_cli.specs.declared.outcome.Outcome.TheVariants.{Refused};

use crate::outcome::{Kind, Outcome};
use bf_lang::BfFault;
use c_parse::ParseFault;
use c_prep::PrepFault;
use c_source::SourceFault;
use c_types::TypeFault;
use eir_text::EirFault;
use piet_image::PpmFault;
use sq_lang::SqFault;
use wasm_bytes::fault::ModFault;
use wasm_rule::LinkFault;
use wasm_valid::ValidFault;
use ws_lang::WsFault;

/// Why a reader gives no program.
pub trait Refusal {
    /// What comes out.
    ghost comes_out: { Self → Outcome };

    /// How the call comes out.
    fn outcome(self) -> Outcome
        ensures { result ≡ comes_out self };
}

// A text that is refused by this name at this place.
fn refused_at(kind: Kind, place: u32) -> Outcome
    ensures { result ≡ Refused kind (Some place) }
{
    Outcome::Refused {
        kind,
        place: Some(place),
    }
}

impl Refusal for EirFault {
    ghost use Rattle.elvm_cli.specs.Refusals.{eir_refusal};

    ghost comes_out = { eir_refusal };

    fn outcome(self) -> Outcome {
        match self {
            EirFault::BadLine(line) => refused_at(Kind::BadLine, line),
            EirFault::NumberRange(line) => refused_at(Kind::NumberRange, line),
            EirFault::DuplicateLabel(line) => refused_at(Kind::DuplicateLabel, line),
            EirFault::UnknownLabel(line) => refused_at(Kind::UnknownLabel, line),
            EirFault::TooLarge => Outcome::TooLarge,
            EirFault::Memory => Outcome::NoMemory,
        }
    }
}

impl Refusal for BfFault {
    ghost use Rattle.elvm_cli.specs.Refusals.{bf_refusal};

    ghost comes_out = { bf_refusal };

    fn outcome(self) -> Outcome {
        match self {
            BfFault::Unopened(at) => refused_at(Kind::Unopened, at),
            BfFault::Unclosed(at) => refused_at(Kind::Unclosed, at),
            BfFault::Memory => Outcome::NoMemory,
        }
    }
}

impl Refusal for WsFault {
    ghost use Rattle.elvm_cli.specs.Refusals.{ws_refusal};

    ghost comes_out = { ws_refusal };

    fn outcome(self) -> Outcome {
        match self {
            WsFault::BadForm(at) => refused_at(Kind::BadForm, at),
            WsFault::NumberRange(at) => refused_at(Kind::NumberRange, at),
            WsFault::DuplicateLabel(at) => refused_at(Kind::DuplicateLabel, at),
            WsFault::UnknownLabel(at) => refused_at(Kind::UnknownLabel, at),
            WsFault::Memory => Outcome::NoMemory,
        }
    }
}

impl Refusal for SqFault {
    ghost use Rattle.elvm_cli.specs.Refusals.{sq_refusal};

    ghost comes_out = { sq_refusal };

    fn outcome(self) -> Outcome {
        match self {
            SqFault::BadNumber(at) => refused_at(Kind::BadNumber, at),
            SqFault::NumberRange(at) => refused_at(Kind::NumberRange, at),
            SqFault::Memory => Outcome::NoMemory,
        }
    }
}

impl Refusal for PpmFault {
    ghost use Rattle.elvm_cli.specs.Refusals.{image_refusal};

    ghost comes_out = { image_refusal };

    fn outcome(self) -> Outcome {
        let kind = match self {
            PpmFault::BadHeader => Kind::BadHeader,
            PpmFault::NotCodel => Kind::NotCodel,
            PpmFault::Short => Kind::Short,
            PpmFault::BadNumber(at) => return refused_at(Kind::BadNumber, at),
            PpmFault::Extra(at) => return refused_at(Kind::Extra, at),
            PpmFault::TooLarge => return Outcome::TooLarge,
            PpmFault::Memory => return Outcome::NoMemory,
        };
        Outcome::Refused { kind, place: None }
    }
}

impl Refusal for ModFault {
    ghost use Rattle.elvm_cli.specs.Refusals.{module_refusal};

    ghost comes_out = { module_refusal };

    fn outcome(self) -> Outcome {
        match self {
            ModFault::Malformed(at) => refused_at(Kind::Malformed, at),
            ModFault::Unsupported(at) => refused_at(Kind::Unsupported, at),
            ModFault::TooLarge(_) => Outcome::TooLarge,
            ModFault::Memory => Outcome::NoMemory,
        }
    }
}

impl Refusal for ValidFault {
    ghost use Rattle.elvm_cli.specs.Refusals.{valid_refusal};

    ghost comes_out = { valid_refusal };

    fn outcome(self) -> Outcome {
        match self {
            ValidFault::Invalid(func) => refused_at(Kind::Invalid, func),
            ValidFault::Memory => Outcome::NoMemory,
        }
    }
}

impl Refusal for LinkFault {
    ghost use Rattle.elvm_cli.specs.Refusals.{link_refusal};

    ghost comes_out = { link_refusal };

    fn outcome(self) -> Outcome {
        let kind = match self {
            LinkFault::WrongImport => Kind::WrongImport,
            LinkFault::NoMain => Kind::NoMain,
            LinkFault::BadData => Kind::BadData,
            LinkFault::Memory => return Outcome::NoMemory,
        };
        Outcome::Refused { kind, place: None }
    }
}

impl Refusal for PrepFault {
    ghost use Rattle.elvm_cli.specs.Refusals.{prep_refusal};

    ghost comes_out = { prep_refusal };

    fn outcome(self) -> Outcome {
        match self {
            PrepFault::BadChar(at) => refused_at(Kind::BadChar, at),
            PrepFault::Unclosed(at) => refused_at(Kind::Unclosed, at),
            PrepFault::NumberRange(at) => refused_at(Kind::NumberRange, at),
            PrepFault::BadDirective(at) => refused_at(Kind::BadDirective, at),
            PrepFault::Unbalanced(at) => refused_at(Kind::Unbalanced, at),
            PrepFault::TooLarge => Outcome::TooLarge,
            PrepFault::Memory => Outcome::NoMemory,
        }
    }
}

impl Refusal for ParseFault {
    ghost use Rattle.elvm_cli.specs.Refusals.{parse_refusal};

    ghost comes_out = { parse_refusal };

    fn outcome(self) -> Outcome {
        match self {
            ParseFault::Syntax(at) => refused_at(Kind::Syntax, at),
            ParseFault::TooDeep(_) => Outcome::TooLarge,
            ParseFault::TooLarge => Outcome::TooLarge,
            ParseFault::Memory => Outcome::NoMemory,
        }
    }
}

impl Refusal for TypeFault {
    ghost use Rattle.elvm_cli.specs.Refusals.{type_refusal};

    ghost comes_out = { type_refusal };

    fn outcome(self) -> Outcome {
        match self {
            TypeFault::Unknown(at) => refused_at(Kind::Unknown, at),
            TypeFault::Twice(at) => refused_at(Kind::Twice, at),
            TypeFault::Mismatch(at) => refused_at(Kind::Mismatch, at),
            TypeFault::NotLvalue(at) => refused_at(Kind::NotLvalue, at),
            TypeFault::BadCall(at) => refused_at(Kind::BadCall, at),
            TypeFault::NoMain(at) => refused_at(Kind::NoMain, at),
            TypeFault::TooLarge => Outcome::TooLarge,
            TypeFault::Memory => Outcome::NoMemory,
        }
    }
}

impl Refusal for SourceFault {
    ghost use Rattle.elvm_cli.specs.Refusals.{source_refusal};

    ghost comes_out = { source_refusal };

    fn outcome(self) -> Outcome {
        match self {
            SourceFault::Prepare(fault) => fault.outcome(),
            SourceFault::Parse(fault) => fault.outcome(),
            SourceFault::Check(fault) => fault.outcome(),
        }
    }
}
