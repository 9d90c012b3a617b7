// What holds of the definitions.

ghost use Rattle.bf_choice.specs.Choice.{ChosenRuns, ChosenComes, PickIsByNumber, TreesAreShort, DigitsAreANumbers, AimIsTheNextChoice};

/// The piece that the digits name runs, and the digits are 0 afterwards.
pub fn chosen_pieces_run()
    ensures { ChosenRuns }
{}

/// The digits of a number name the piece that so many others stand before.
pub fn pick_is_by_number()
    ensures { PickIsByNumber }
{}

/// The tree has the pieces' commands, and at most 264 more for each piece and each digit.
pub fn trees_are_short()
    ensures { TreesAreShort }
{}

/// So many digits of a number below 2 to their count are those of that number.
pub fn digits_are_a_numbers()
    ensures { DigitsAreANumbers }
{}

/// After the digits advanced, the choice is the one that was aimed at.
pub fn aim_is_the_next_choice()
    ensures { AimIsTheNextChoice }
{}

/// Where the piece that the digits name comes to a tape, the tree comes to it too, with the digits 0.
pub fn chosen_pieces_come()
    ensures { ChosenComes }
{}
