// What holds of the definitions.
ghost use Rattle.piet_back.specs.Laws.{BoardSimulates};

/// An image that runs the lanes of a program of size 4,096 at most does what the program does, within the bound.
pub fn board_simulates()
    ensures { BoardSimulates }
{}
