// Texts at columns, noted in bytes.

ghost use Rattle.std.specs.Prelude.{◌≡◌};
ghost use Rattle.bf_columns.specs.Noted.{notation, sweep_text, question_text, is_equality};

/// What one way along the columns does, with a register, another one and the lanes x and y.
#[derive(Clone, Copy)]
pub enum Sweep {
    /// The register becomes 0.
    Clear,
    /// The register becomes the other one.
    Copy,
    /// The register goes to lane y, and stays.
    ToY,
    /// The register goes to lane x, and stays.
    ToX,
    /// The other register is added.
    Sum,
    /// Lane y is added, and becomes 0.
    LaneSum,
    /// The other register is taken away.
    Difference,
    /// Lane y is taken away, and becomes 0.
    LaneDifference,
}

/// What a comparison asks of a register and another one, or of the register and lane y, which becomes 0.
#[derive(Clone, Copy)]
pub enum Question {
    /// Are they equal?
    Equal,
    /// Is the register less than the other one?
    Less,
    /// Is the register more than the other one?
    More,
    /// Is the register what lane y has?
    LaneEqual,
    /// Is the register less than what lane y has?
    LaneLess,
    /// Is the register more than what lane y has?
    LaneMore,
}

impl Sweep {
    /// The text at one column: `+`, `-` and brackets as they are, and a figure where the head goes to that cell of the row.
    pub(crate) fn text(self) -> &'static [u8]
        ensures { result.now ≡ notation (sweep_text self) }
    {
        match self {
            Sweep::Clear => b"0[-]6",
            Sweep::Copy => b"0[-]1[-0+2+1]2[-1+2]6",
            Sweep::ToY => b"0[-3+2+0]2[-0+2]6",
            Sweep::ToX => b"0[-2+3+0]3[-0+3]6",
            Sweep::Sum => b"1[-0+2+1]2[-1+2]4[-0+4]0[-2+0[-2+0[-2+0[-2---5+0[-2+0]0]0]0]0]2[-0+2]6",
            Sweep::LaneSum => b"3[-0+3]4[-0+4]0[-2+0[-2+0[-2+0[-2---5+0[-2+0]0]0]0]0]2[-0+2]6",
            Sweep::Difference =>
                b"5+0++++1[-0-2+1]2[-1+2]4[-0-4]0[-2+0[-2+0[-2+0[-2---5-0[-2+0]0]0]0]0]2[-0+2]6",
            Sweep::LaneDifference =>
                b"5+0++++3[-0-3]4[-0-4]0[-2+0[-2+0[-2+0[-2---5-0[-2+0]0]0]0]0]2[-0+2]6",
        }
    }
}

impl Question {
    /// The text at one column, as that of a sweep.
    pub(crate) fn text(self) -> &'static [u8]
        ensures { result.now ≡ notation (question_text self) }
    {
        match self {
            Question::Equal => b"5[-4+5]1[-2-3+1]3[-1+3]0[-2+3+0]3[-0+3]2[+++[-]4+2]6",
            Question::Less => b"1[-2-3+1]3[-1+3]0[-2+3+0]3[-0+3]4[-2-4]5+2++++[-[-[-[-5-2[-]]]]]6",
            Question::More => b"1[-2+3+1]3[-1+3]0[-2-3+0]3[-0+3]4[-2-4]5+2++++[-[-[-[-5-2[-]]]]]6",
            Question::LaneEqual => b"5[-4+5]3[-2-3]0[-2+3+0]3[-0+3]2[+++[-]4+2]6",
            Question::LaneLess => b"3[-2-3]0[-2+3+0]3[-0+3]4[-2-4]5+2++++[-[-[-[-5-2[-]]]]]6",
            Question::LaneMore => b"3[-2+3]0[-2-3+0]3[-0+3]4[-2-4]5+2++++[-[-[-[-5-2[-]]]]]6",
        }
    }

    /// Is it about equality, and not about order?
    pub(crate) fn asks_equality(self) -> bool
        ensures { result ≡ is_equality self }
    {
        match self {
            Question::Equal | Question::LaneEqual => true,
            Question::Less | Question::More | Question::LaneLess | Question::LaneMore => false,
        }
    }
}
