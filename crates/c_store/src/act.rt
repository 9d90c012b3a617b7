// The acts whose effect C doesn't define.

ghost use Rattle.std.specs.Prelude.{◌≡◌};
ghost use Rattle.c_store.specs.Acts.{number_of_act};

/// An act whose effect C doesn't define.
#[derive(Clone, Copy)]
pub enum Act {
    ZeroDivisor,
    /// An access outside a live object, or through null.
    OutsideObject,
    /// An access of a cell that holds another kind.
    OtherKind,
    /// A read of an unset cell.
    UnsetCell,
    /// A write to a string literal.
    LiteralWrite,
    /// Arithmetic on null, or that leaves the object and its end.
    PointerArithmetic,
    /// Order or difference of what doesn't point into one object, or a difference that is no whole number of elements.
    PointerOrder,
    /// Equality with a pointer to a dead object, or between one object's end and a pointer into another.
    PointerEquality,
    /// A shift count of 24 or more.
    ShiftCount,
    /// The use of the result of a function that gave none.
    NoResult,
    /// A charge above the limit.
    ChargeLimit,
    /// A call through null.
    NullCall,
    /// The code is none of a text.
    HelperLimit,
}

/// The number of an act, from 1 on.
pub fn number_of_act(act: Act) -> u8
    ensures { result ≡ number_of_act act }
{
    match act {
        Act::ZeroDivisor => 1,
        Act::OutsideObject => 2,
        Act::OtherKind => 3,
        Act::UnsetCell => 4,
        Act::LiteralWrite => 5,
        Act::PointerArithmetic => 6,
        Act::PointerOrder => 7,
        Act::PointerEquality => 8,
        Act::ShiftCount => 9,
        Act::NoResult => 10,
        Act::ChargeLimit => 11,
        Act::NullCall => 12,
        Act::HelperLimit => 13,
    }
}
