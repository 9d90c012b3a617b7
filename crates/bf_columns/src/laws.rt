// Laws of the definitions.

ghost use Rattle.bf_columns.specs.Columns.{ColumnsAreDone, GuidesLeadHome};
ghost use Rattle.bf_columns.specs.Text.{CalculationsHold};
ghost use Rattle.bf_columns.specs.Worked.{ColumnsAreWorked};
ghost use Rattle.bf_columns.specs.Board.{CopiesAreDone, ClearsAreDone, RegistersGoToY, RegistersGoToX, SumsAreDone, DifferencesAreDone, LaneSumsAreDone, LaneDifferencesAreDone};
ghost use Rattle.bf_columns.specs.Told.{ColumnsAreDoneBack, EqualsAreTold, LessAreTold, MoreAreTold, LaneEqualsAreTold, LaneLessAreTold, LaneMoreAreTold};
ghost use Rattle.bf_columns.specs.Number.{NumbersArePut, NumbersAreMoved, NumbersAreAdded, NumbersAreTaken, NumberEqualsAreTold, NumberLessAreTold, NumberMoreAreTold};
ghost use Rattle.bf_columns.specs.Bytes.{BytesAreWritten, BytesAreRead};
ghost use Rattle.bf_columns.specs.Rest.{WordsActAtRest};
ghost use Rattle.bf_columns.specs.Near.{NearIsFound};
ghost use Rattle.bf_columns.specs.Deal.{SplitDividesByFour, BytesAreDealt, UnitsGive};
ghost use Rattle.bf_columns.specs.Fork.{ForksChoose};

/// A loop over columns does its body at each of them, from the rightmost on.
pub fn columns_are_done()
    ensures { ColumnsAreDone }
{}

/// The guides lead home.
pub fn guides_lead_home()
    ensures { GuidesLeadHome }
{}

/// A byte is divided by four, with the head where something is over or at the free cell.
pub fn split_divides_by_four()
    ensures { SplitDividesByFour }
{}

/// A byte goes to four digits, by bodies that may give out far away.
pub fn bytes_are_dealt()
    ensures { BytesAreDealt }
{}

/// A fork runs the arm that a digit names, and none where there is none.
pub fn forks_choose()
    ensures { ForksChoose }
{}

/// Loops of units give digits out.
pub fn units_give()
    ensures { UnitsGive }
{}

/// What a calculation on the values of a row tells holds of the commands.
pub fn calculations_hold()
    ensures { CalculationsHold }
{}

/// A text that follows a rule does its work at each column, from any of them on.
pub fn columns_are_worked()
    ensures { ColumnsAreWorked }
{}

/// A register becomes another.
pub fn copies_are_done()
    ensures { CopiesAreDone }
{}

/// A register becomes 0.
pub fn clears_are_done()
    ensures { ClearsAreDone }
{}

/// A register goes to lane y and stays.
pub fn registers_go_to_y()
    ensures { RegistersGoToY }
{}

/// A register goes to lane x and stays.
pub fn registers_go_to_x()
    ensures { RegistersGoToX }
{}

/// A register is added to another.
pub fn sums_are_done()
    ensures { SumsAreDone }
{}

/// A register is taken from another.
pub fn differences_are_done()
    ensures { DifferencesAreDone }
{}

/// The word in lane y is added to a register, and goes.
pub fn lane_sums_are_done()
    ensures { LaneSumsAreDone }
{}

/// The word in lane y is taken from a register, and goes.
pub fn lane_differences_are_done()
    ensures { LaneDifferencesAreDone }
{}

/// A loop from the left does its body at each column.
pub fn columns_are_done_back()
    ensures { ColumnsAreDoneBack }
{}

/// The flag tells whether two registers are equal.
pub fn equals_are_told()
    ensures { EqualsAreTold }
{}

/// The flag tells whether a register is less than another.
pub fn less_are_told()
    ensures { LessAreTold }
{}

/// The flag tells whether a register is more than another.
pub fn more_are_told()
    ensures { MoreAreTold }
{}

/// The flag tells whether a register is the word in lane y, which goes.
pub fn lane_equals_are_told()
    ensures { LaneEqualsAreTold }
{}

/// The flag tells whether a register is less than the word in lane y, which goes.
pub fn lane_less_are_told()
    ensures { LaneLessAreTold }
{}

/// The flag tells whether a register is more than the word in lane y, which goes.
pub fn lane_more_are_told()
    ensures { LaneMoreAreTold }
{}

/// A number goes to a lane that has 0.
pub fn numbers_are_put()
    ensures { NumbersArePut }
{}

/// A register becomes a number.
pub fn numbers_are_moved()
    ensures { NumbersAreMoved }
{}

/// A number is added to a register.
pub fn numbers_are_added()
    ensures { NumbersAreAdded }
{}

/// A number is taken from a register.
pub fn numbers_are_taken()
    ensures { NumbersAreTaken }
{}

/// The flag tells whether a register is a number.
pub fn number_equals_are_told()
    ensures { NumberEqualsAreTold }
{}

/// The flag tells whether a register is less than a number.
pub fn number_less_are_told()
    ensures { NumberLessAreTold }
{}

/// The flag tells whether a register is more than a number.
pub fn number_more_are_told()
    ensures { NumberMoreAreTold }
{}

/// The lowest byte of a register is written.
pub fn bytes_are_written()
    ensures { BytesAreWritten }
{}

/// A register becomes the next byte of the input.
pub fn bytes_are_read()
    ensures { BytesAreRead }
{}

/// What acts on words leads from one whole tape to another.
pub fn words_act_at_rest()
    ensures { WordsActAtRest }
{}

/// An address becomes its record's number and the side.
pub fn near_is_found()
    ensures { NearIsFound }
{}
