// The instructions.
use c_store::Kind;
use c_syntax::tree::{BinOp, UnOp};
use word24::Word;

/// So many entries of a table, from one on.
#[derive(Clone, Copy)]
pub struct Span {
    pub first: u32,
    pub count: u32,
}

/// What a place is worth.
#[derive(Clone, Copy)]
pub enum Fetch {
    /// Its own pointer, as of an array or of a function.
    Place,
    /// Nothing, as a struct.
    Nothing,
    /// What its cell holds, which is of this kind.
    Cell(Kind),
    /// It can't be fetched.
    Refused,
}

/// What is done to the value on top.
#[derive(Clone, Copy)]
pub enum Unary {
    /// A function that gave no result has no value to use.
    Use,
    /// It becomes no value.
    Forget,
    /// It becomes 1 where it is true, else 0.
    Truth,
    /// It becomes 0 where it is true, else 1.
    Negate,
    /// The word 0 becomes null where the kind is one of pointers.
    Convert(Kind),
    /// It has to be a word.
    CheckWord,
    /// The pointer becomes what its place is worth.
    Fetch(Fetch),
    /// The pointer to a struct becomes one to its member so many cells behind the start.
    Member(u32),
    /// An operator on one word.
    OneWord(UnOp),
}

/// A binary operator, with what it has to know of the types of its sides.
#[derive(Clone, Copy)]
pub enum Operation {
    /// On two words: whether the left one is unsigned, and whether one of both is.
    Words(BinOp, bool, bool),
    /// A pointer, and behind it the number of elements of so many words that it moves; whether the number is unsigned.
    PointerPlus(bool, u32),
    /// The number, and behind it the pointer.
    PlusPointer(bool, u32),
    /// A pointer, and the number of elements that it moves back.
    PointerLess(bool, u32),
    /// How many elements of so many words lie between two pointers.
    Difference(u32),
    /// Whether two pointers of a kind are equal, or else whether they are not.
    Equal(Kind, bool),
    /// Whether the left of two pointers lies before the right one, or the right one before the left; or else whether it doesn't.
    Before(bool, bool),
}

/// A step of a place: the kind of its cell, what is done with its value and 1, and whether the value before is given.
#[derive(Clone, Copy)]
pub struct Step {
    pub kind: Kind,
    pub operation: Operation,
    pub gives_old: bool,
}

/// The arguments of a call: how many there are, and the kinds to which they convert.
#[derive(Clone, Copy)]
pub struct Arguments {
    pub count: u32,
    pub kinds: Span,
}

/// A function that is always known.
#[derive(Clone, Copy)]
pub enum BuiltIn {
    /// The next byte, or -1 where it is 0.
    GetChar,
    /// The next byte.
    GetByte,
    /// Writes its argument, which it gives.
    PutChar,
    /// Ends the run.
    Exit,
    /// It can't be called.
    Other,
}

/// The cells of the object in a slot, from an offset on.
#[derive(Clone, Copy)]
pub struct First {
    pub slot: u32,
    pub offset: u32,
}

/// An instruction. Distances of jumps count from the next instruction.
#[derive(Clone, Copy)]
pub enum Instruction {
    /// Pushes a word.
    PushWord(Word),
    /// Pushes a constant, which has this number.
    Push(u32),
    /// Drops the value on top.
    Pop,
    /// Pushes a pointer to the object in a slot.
    Slot(u32),
    /// There is no such place.
    Nowhere,
    Unary(Unary),
    /// The two values on top become what the operator gives.
    Operate(Operation),
    /// Steps the place on top.
    Step(Step),
    /// Writes the value on top to the place below it.
    Assign(Kind),
    /// Writes what the operator gives of the place's value and the one on top.
    Update(Kind, Operation),
    /// Jumps so far where the value on top isn't true.
    JumpUnless(u32),
    Jump(u32),
    Back(u32),
    /// Jumps where the value on top is this word, which is then dropped.
    JumpAt(Word, u32),
    /// Spends a unit of fuel.
    Pay,
    BuiltIn(BuiltIn, Arguments),
    /// Spends a unit, and calls the function of this number.
    Call(u32, Arguments),
    /// Spends a unit, and calls the function to which the value below the arguments points.
    CallThrough(Arguments),
    /// Returns the value on top.
    Return,
    /// Writes a byte.
    Put(u8),
    /// Writes the word on top as an int.
    Decimal,
    /// Writes the word on top as unsigned.
    Unsigned,
    /// Writes the word on top as a character.
    Character,
    /// The word on top becomes its digits in hex, the first one on top.
    Hex,
    /// Writes such digits, one each time.
    Digits,
    /// Writes the string on top, a character each time, of which each costs a unit.
    Text,
    /// So many values on top come to stand the other way round.
    Turn(u32),
    /// So many values are dropped; the call gave none.
    Printed(u32),
    /// There is no value of the wanted kind.
    Stuck,
    /// Writes the value on top to a cell of the object in a slot.
    First(First, Kind),
    /// Writes the zeros of these kinds.
    Clear(First, Span),
    /// Writes these bytes as words.
    Spell(First, Span),
    /// Enters a block with unset objects of these lengths, which get the next slots.
    Enter(Span),
    /// Leaves a block.
    Leave,
    /// Opens a loop: so far away a `continue` and a `break` go.
    Loop(u32, u32),
    /// Opens a `switch`: so far away a `break` goes.
    Switch(u32),
    /// Closes a loop or a `switch`.
    Done,
    Break,
    Continue,
    /// Ends the run.
    End,
}
