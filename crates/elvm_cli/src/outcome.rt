// How a call comes out.
ghost use Rattle.std.specs.Prelude.{◌≡◌};
ghost use Rattle.elvm_cli.specs.Refusals.{kind_name};
ghost use Rattle.elvm_cli.specs.Line.{status_of};

/// The name of a reader's refusal.
#[derive(Clone, Copy)]
pub enum Kind {
    BadCall,
    BadChar,
    BadData,
    BadDirective,
    BadForm,
    BadHeader,
    BadLine,
    BadNumber,
    DuplicateLabel,
    Extra,
    Invalid,
    Malformed,
    Mismatch,
    NoMain,
    NotCodel,
    NotLvalue,
    NumberRange,
    Short,
    Syntax,
    Twice,
    Unbalanced,
    Unclosed,
    Unknown,
    UnknownLabel,
    Unopened,
    Unsupported,
    WrongImport,
}

impl Kind {
    /// The name as a message has it.
    pub fn name(self) -> &'static str
        ensures { result.now ≡ kind_name self }
    {
        match self {
            Kind::BadCall => "BadCall",
            Kind::BadChar => "BadChar",
            Kind::BadData => "BadData",
            Kind::BadDirective => "BadDirective",
            Kind::BadForm => "BadForm",
            Kind::BadHeader => "BadHeader",
            Kind::BadLine => "BadLine",
            Kind::BadNumber => "BadNumber",
            Kind::DuplicateLabel => "DuplicateLabel",
            Kind::Extra => "Extra",
            Kind::Invalid => "Invalid",
            Kind::Malformed => "Malformed",
            Kind::Mismatch => "Mismatch",
            Kind::NoMain => "NoMain",
            Kind::NotCodel => "NotCodel",
            Kind::NotLvalue => "NotLvalue",
            Kind::NumberRange => "NumberRange",
            Kind::Short => "Short",
            Kind::Syntax => "Syntax",
            Kind::Twice => "Twice",
            Kind::Unbalanced => "Unbalanced",
            Kind::Unclosed => "Unclosed",
            Kind::Unknown => "Unknown",
            Kind::UnknownLabel => "UnknownLabel",
            Kind::Unopened => "Unopened",
            Kind::Unsupported => "Unsupported",
            Kind::WrongImport => "WrongImport",
        }
    }
}

/// How a call comes out, with what its line names.
#[derive(Clone, Copy)]
pub enum Outcome {
    Done,
    /// The words ask for nothing.
    Usage,
    NoFile,
    /// The file, or the program in it, is too large.
    TooLarge,
    /// The file is no program, for the reason of this name, at this place.
    Refused { kind: Kind, place: Option<u32> },
    NoInput,
    NoOutput,
    /// The run is at a fault with this code.
    Fault { code: u8 },
    /// The run goes on after as many steps as were allowed.
    Limit,
    NoMemory,
}

impl Outcome {
    /// The exit status.
    pub fn status(self) -> u8
        ensures { result ≡ status_of self }
    {
        match self {
            Outcome::Done => 0,
            Outcome::Refused { .. } => 1,
            Outcome::Usage => 2,
            Outcome::Limit => 3,
            Outcome::Fault { .. } => 4,
            Outcome::NoFile => 5,
            Outcome::NoInput => 6,
            Outcome::NoOutput => 7,
            Outcome::TooLarge => 8,
            Outcome::NoMemory => 9,
        }
    }
}
