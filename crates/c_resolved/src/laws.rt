//! The laws of instructions, and of what shows a memory.

ghost use Rattle.c_resolved.specs.Laws.{OperationsShow, WordsShow, FetchesShow, FollowsShow, ConversionsShow, AssignmentsShow};
ghost use Rattle.c_resolved.specs.ShownLaws.{SameStays, ReadsShow, WritesShow, BlocksShow, LeavingShows, LeavingKeepsLengths, MovesShow, MembersShow, OrdersShow, DifferencesShow, EqualityShows, UsesShow, TruthShows, PointersShow, KindsShow};

/// A binary operator gives what shows the value that the types give, or comes to the same act.
pub fn operations_show()
    ensures { OperationsShow }
{}

/// So does an operator on one word.
pub fn words_show()
    ensures { WordsShow }
{}

/// A place is worth what shows its value, or the same act comes.
pub fn fetches_show()
    ensures { FetchesShow }
{}

/// So is what a pointer points to.
pub fn follows_show()
    ensures { FollowsShow }
{}

/// A value that shows another shows it still when both are converted.
pub fn conversions_show()
    ensures { ConversionsShow }
{}

/// After an assignment the live memory shows the objects as they are then, or the same act comes.
pub fn assignments_show()
    ensures { AssignmentsShow }
{}

/// What shows a value shows it still where there are more objects.
pub fn same_stays()
    ensures { SameStays }
{}

/// A read of the live memory gives what shows the value read, or comes to the same act.
pub fn reads_show()
    ensures { ReadsShow }
{}

/// After a write the live memory shows the objects as they are then, or the write comes to the same act.
pub fn writes_show()
    ensures { WritesShow }
{}

/// After the entry of a block the live memory shows the objects, the new ones among them.
pub fn blocks_show()
    ensures { BlocksShow }
{}

/// After the end of a block it shows the objects, of which those of the block are dead.
pub fn leaving_shows()
    ensures { LeavingShows }
{}

/// The end of a block changes no object's number of cells.
pub fn leaving_keeps_lengths()
    ensures { LeavingKeepsLengths }
{}

/// Pointer arithmetic agrees.
pub fn moves_show()
    ensures { MovesShow }
{}

/// The place of a member agrees.
pub fn members_show()
    ensures { MembersShow }
{}

/// The order of pointers agrees, where no two functions have one name.
pub fn orders_show()
    ensures { OrdersShow }
{}

/// The difference of pointers agrees.
pub fn differences_show()
    ensures { DifferencesShow }
{}

/// The equality of pointers agrees.
pub fn equality_shows()
    ensures { EqualityShows }
{}

/// The use of a value agrees.
pub fn uses_show()
    ensures { UsesShow }
{}

/// What shows a value is true where the value is.
pub fn truth_shows()
    ensures { TruthShows }
{}

/// What is used as a pointer is shown by what shows it, used so.
pub fn pointers_show()
    ensures { PointersShow }
{}

/// What shows a value is of the same kinds.
pub fn kinds_show()
    ensures { KindsShow }
{}
