// Instructions on numbers.

ghost use Rattle.std.specs.Prelude.{◌≡◌, ◌<◌};
ghost use Rattle.wasm_rule.specs.Number.{number_act as act_for, truth as truth_of, is_overflow, divided_signed, divided, remainder_signed, remainder};

use wasm_bin::Instr;
use wasm_rule::Act;

/// A value in the place of one.
#[inline(always)]
pub fn of_one(value: u32) -> Act
    ensures { result ≡ Act.Put 1 value }
{
    Act::Put { taken: 1, value }
}

/// A value in the place of two.
#[inline(always)]
fn of_two(value: u32) -> Act
    ensures { result ≡ Act.Put 2 value }
{
    Act::Put { taken: 2, value }
}

/// 1 where it holds, and 0 where not.
#[inline(always)]
fn truth(holds: bool) -> u32
    ensures { result ≡ truth_of holds }
{
    if holds { 1 } else { 0 }
}

/// The quotient is 2^31.
#[inline(always)]
fn overflows(x: u32, y: u32) -> bool
    ensures { result ≡ is_overflow x y }
{
    x == 0x8000_0000 && y == 0xFFFF_FFFF
}

/// The quotient of signed words, towards 0, or a fault.
#[inline(always)]
fn divide_signed(x: u32, y: u32) -> Act
    ensures { result ≡ divided_signed x y }
{
    if y == 0 {
        Act::Stop(3)
    } else if overflows(x, y) {
        Act::Stop(4)
    } else {
        of_two(
            x.cast_signed()
                .wrapping_div(y.cast_signed())
                .cast_unsigned(),
        )
    }
}

/// The quotient of unsigned words, or a fault.
#[inline(always)]
fn divide(x: u32, y: u32) -> Act
    ensures { result ≡ divided x y }
{
    if y == 0 { Act::Stop(3) } else { of_two(x / y) }
}

/// The remainder of signed words, with the sign of the dividend, or a fault.
#[inline(always)]
fn remain_signed(x: u32, y: u32) -> Act
    ensures { result ≡ remainder_signed x y }
{
    if y == 0 {
        Act::Stop(3)
    } else {
        of_two(
            x.cast_signed()
                .wrapping_rem(y.cast_signed())
                .cast_unsigned(),
        )
    }
}

/// The remainder of unsigned words, or a fault.
#[inline(always)]
fn remain(x: u32, y: u32) -> Act
    ensures { result ≡ remainder x y }
{
    if y == 0 { Act::Stop(3) } else { of_two(x % y) }
}

/// What an instruction on numbers does with the second value and the top.
#[inline(always)]
pub fn number_act(instr: &Instr, x: u32, y: u32) -> Act
    ensures { result ≡ act_for instr.now x y }
{
    match instr {
        Instr::Eqz => of_one(truth(y == 0)),
        Instr::Eq => of_two(truth(x == y)),
        Instr::Ne => of_two(truth(x != y)),
        Instr::LtS => of_two(truth(x.cast_signed() < y.cast_signed())),
        Instr::LtU => of_two(truth(x < y)),
        Instr::GtS => of_two(truth(x.cast_signed() > y.cast_signed())),
        Instr::GtU => of_two(truth(x > y)),
        Instr::LeS => of_two(truth(x.cast_signed() <= y.cast_signed())),
        Instr::LeU => of_two(truth(x <= y)),
        Instr::GeS => of_two(truth(x.cast_signed() >= y.cast_signed())),
        Instr::GeU => of_two(truth(x >= y)),
        Instr::Clz => of_one(y.leading_zeros()),
        Instr::Ctz => of_one(y.trailing_zeros()),
        Instr::Popcnt => of_one(y.count_ones()),
        Instr::Add => of_two(x.wrapping_add(y)),
        Instr::Sub => of_two(x.wrapping_sub(y)),
        Instr::Mul => of_two(x.wrapping_mul(y)),
        Instr::DivS => divide_signed(x, y),
        Instr::DivU => divide(x, y),
        Instr::RemS => remain_signed(x, y),
        Instr::RemU => remain(x, y),
        Instr::And => of_two(x & y),
        Instr::Or => of_two(x | y),
        Instr::Xor => of_two(x ^ y),
        Instr::Shl => of_two(x.wrapping_shl(y)),
        Instr::ShrS => of_two(x.cast_signed().wrapping_shr(y).cast_unsigned()),
        Instr::ShrU => of_two(x.wrapping_shr(y)),
        Instr::Rotl => of_two(x.rotate_left(y)),
        Instr::Rotr => of_two(x.rotate_right(y)),
        _ => Act::Take(0),
    }
}
