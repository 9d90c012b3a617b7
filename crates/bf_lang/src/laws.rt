// What holds of the definitions.

ghost use Rattle.std.specs.Prelude.{List, ℕ};
ghost use Rattle.mach_core.specs.Rule.{FaultsAreSilent};
ghost use Rattle.bf_lang.specs.declared.command.Command.{Command};
ghost use Rattle.bf_lang.specs.Balance.{IsBalanced, is_open, is_close};
ghost use Rattle.bf_lang.specs.Brackets.{IsCloseOf};
ghost use Rattle.bf_lang.specs.Text.{bf_spells, is_open_byte, is_close_byte};
ghost use Rattle.bf_lang.specs.Laws.{AreMutual, IsReadInOneWay, JumpsToPartners, AreSpelled};
ghost use Rattle.bf_lang.specs.Step.{bf_rule};

/// Partners are mutual, in a text and in a program.
pub fn partners_are_mutual()
    ensures texts { (text : List ℕ) → AreMutual is_open_byte is_close_byte text }
    ensures programs { (code : List Command) → AreMutual is_open is_close code }
{}

/// A bracket jumps to its partner.
pub fn jumps_go_to_partners()
    ensures { (code : List Command) (i j : ℕ) → IsCloseOf is_open is_close code i j → JumpsToPartners code i j }
{}

/// A text spells one program, or it is refused for one reason.
pub fn texts_are_read_in_one_way()
    ensures { (text : List ℕ) → IsReadInOneWay text }
{}

/// Commands whose brackets are closed in order are spelled by their text, and a text spells no others.
pub fn commands_are_spelled()
    ensures all { (code : List Command) → AreSpelled code }
    ensures no_others { (text : List ℕ) (code : List Command) → bf_spells text code → IsBalanced code }
{}

/// A step that meets a fault takes nothing and writes nothing.
pub fn faults_are_silent()
    ensures { (code : List Command) → FaultsAreSilent (bf_rule code) }
{}
