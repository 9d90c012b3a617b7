// The signs of operators for which helper functions stand.

ghost use Rattle.std.specs.Prelude.{◌≡◌, ◌++◌, ◌||◌, option_map, codes, if◌then◌else◌};
ghost use Rattle.c_types.specs.Types.{CType, is_unsigned};
ghost use Rattle.c_helpers.specs.Fewer as fewer;

use c_syntax::tree::BinOp;

/// One of two names.
pub fn name_by(first: bool, one: &'static [u8], other: &'static [u8]) -> &'static [u8]
    ensures { result.now ≡ (if first then one.now else other.now) }
{
    if first { one } else { other }
}

/// Whether one of two is so.
pub fn either(first: bool, second: bool) -> bool
    ensures { result ≡ (first || second) }
{
    first || second
}

/// Whether the operands of an operator count without sign, by whether its sides have one.
pub fn counts_unsigned(op: BinOp, first: bool, second: bool) -> bool
    ensures { (t u : CType) → first ≡ is_unsigned t → second ≡ is_unsigned u → result ≡ fewer.counts_unsigned op t u }
{
    match op {
        BinOp::Shr => first,
        _ => either(first, second),
    }
}

/// The sign of an operator for which a helper function stands.
pub fn sign_of(op: BinOp, unsigned: bool) -> Option<&'static [u8]>
    ensures { option_map (λ n. n.now) result ≡ fewer.sign_of op unsigned }
{
    match op {
        BinOp::Mul => Some(b"*"),
        BinOp::Div => Some(name_by(unsigned, b"unsigned /", b"int /")),
        BinOp::Mod => Some(name_by(unsigned, b"unsigned %", b"int %")),
        BinOp::BitAnd => Some(b"&"),
        BinOp::BitOr => Some(b"|"),
        BinOp::BitXor => Some(b"^"),
        BinOp::Shl => Some(b"<<"),
        BinOp::Shr => Some(name_by(unsigned, b"unsigned >>", b"int >>")),
        _ => None,
    }
}

/// That of its compound assignment.
pub fn compound_of(op: BinOp, unsigned: bool) -> Option<&'static [u8]>
    ensures { option_map (λ n. n.now) result ≡ option_map (λ n. n ++ codes "=") (fewer.sign_of op unsigned) }
{
    match op {
        BinOp::Mul => Some(b"*="),
        BinOp::Div => Some(name_by(unsigned, b"unsigned /=", b"int /=")),
        BinOp::Mod => Some(name_by(unsigned, b"unsigned %=", b"int %=")),
        BinOp::BitAnd => Some(b"&="),
        BinOp::BitOr => Some(b"|="),
        BinOp::BitXor => Some(b"^="),
        BinOp::Shl => Some(b"<<="),
        BinOp::Shr => Some(name_by(unsigned, b"unsigned >>=", b"int >>=")),
        _ => None,
    }
}
