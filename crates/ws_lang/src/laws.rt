// What follows from the definitions alone.
ghost use Rattle.std.specs.Prelude.{◌≡◌, ℕ, List};
ghost use Rattle.ws_lang.specs.Instruction.{Instruction, IsWhitespace};
ghost use Rattle.ws_lang.specs.Laws.{NumbersAreStored, ValuesStayInRange};
ghost use Rattle.ws_lang.specs.Places.{HasOnePlaceEach};
ghost use Rattle.ws_lang.specs.Spelling.{ws_spells};
ghost use Rattle.ws_lang.specs.Silence.{FaultsAreQuiet};
ghost use Rattle.ws_lang.specs.Verdict.{HasOneAnswer, IsSpelledOrRefused};

/// A text spells at most one program.
pub fn texts_spell_one_program()
    ensures { (text : List ℕ) (a b : List Instruction) → ws_spells text a → ws_spells text b → a ≡ b }
{}

/// A step that meets a fault takes nothing, writes nothing and changes nothing else.
pub fn faults_are_quiet()
    ensures { (code : List Instruction) → FaultsAreQuiet code }
{}

/// Every text spells a program or is refused for a reason that lies in it, and so want of memory is never its only answer.
pub fn texts_are_spelled_or_refused()
    ensures { (text : List ℕ) → IsSpelledOrRefused text }
{}

/// No text is both spelled and refused, or refused in two ways: the answer of the reader is determined, but for want of memory.
pub fn texts_have_one_answer()
    ensures { (text : List ℕ) → HasOneAnswer text }
{}

/// A jump of a program goes to the one place that marks its label.
pub fn labels_have_one_place()
    ensures { (code : List Instruction) → IsWhitespace code → HasOnePlaceEach code }
{}

/// The text of a number that comes next in the input is taken byte by byte, and its number is stored.
pub fn numbers_are_stored()
    ensures { NumbersAreStored }
{}

/// Values of the stack and of the heap are signed numbers of 64 bits all along a run, whatever the input.
pub fn values_stay_in_range()
    ensures { ValuesStayInRange }
{}
