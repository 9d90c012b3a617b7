// What the arithmetic instructions compute.
ghost use Rattle.std.specs.Prelude.{◌≡◌};
ghost use Rattle.ws_lang.specs.Arithmetic.{answer_of};

use floor_division::{quotient, remainder};

/// An instruction that makes one value of two.
#[derive(Clone, Copy)]
pub enum Arithmetic {
    Add,
    Subtract,
    Multiply,
    Divide,
    Modulo,
}

/// The value that an instruction makes of two, or the fault.
pub fn compute(kind: Arithmetic, x: i64, y: i64) -> Result<i64, u8>
    ensures { result ≡ answer_of kind x y }
{
    match kind {
        Arithmetic::Add => x.checked_add(y).ok_or(2),
        Arithmetic::Subtract => x.checked_sub(y).ok_or(2),
        Arithmetic::Multiply => x.checked_mul(y).ok_or(2),
        Arithmetic::Divide => {
            if y == 0 {
                Err(3)
            } else {
                quotient(x, y).ok_or(2)
            }
        }
        Arithmetic::Modulo => { if y == 0 { Err(3) } else { Ok(remainder(x, y)) } }
    }
}
