// Laws of the translation.

ghost use Rattle.std.specs.Prelude.{◌≤◌, ◌^◌};
ghost use Rattle.eir_core.specs.Eir.{Eir, IsEir, size_of};
ghost use Rattle.bf_back.specs.Laws.{FewCommandsFollow, CodeIsWhole};
ghost use Rattle.bf_back.specs.Own.{OwnTextsAreShort};

/// Each step of a program is followed by the commands that its operation takes, which for a load or a store is 3 * 2^23 for
/// each record on the way to the address and one more, and by at most 2^15 more for each block and 2^24 and 2 besides.
pub fn few_commands_follow()
    ensures { FewCommandsFollow }
{}

/// Each program whose size is at most 2^14 has a Brainfuck program, whatever memory there is: its commands are given by a
/// definition, and they are at most 4,096 for each unit of the size and one more.
pub fn programs_have_code()
    ensures { (p : Eir) → IsEir p → size_of p ≤ 2 ^ 14 → CodeIsWhole p }
{}

/// Each operation, a conditional jump among them, has at most 1,000 commands of its own in the text, whatever its registers,
/// constants and goal are. Besides stands the way on to the operation that follows, and what the choice of it takes.
pub fn own_texts_are_short()
    ensures { OwnTextsAreShort }
{}
