// The quotient, and what is left.
ghost use Rattle.std.specs.Prelude.{◌≡◌, true, false, MatchOption};
ghost use Rattle.mach_core.specs.Integer.{is_in_range, floor_quotient, floor_remainder, is_zero};

/// The quotient of two numbers, rounded down, if it is within signed 64 bits.
pub fn quotient(x: i64, y: i64) -> Option<i64>
    requires { is_zero y ≡ false }
    ensures { MatchOption result (is_in_range (floor_quotient x y) ≡ false) (λ q. (q ≡ floor_quotient x y) × (is_in_range q ≡ true)) }
{
    if y > 0 {
        Some(x.div_euclid(y))
    } else if x > 0 {
        let below = (x.unsigned_abs() - 1) / y.unsigned_abs();
        Some(-1 - below as i64)
    } else {
        x.checked_div(y)
    }
}

/// What is left beside the quotient that is rounded down.
pub fn remainder(x: i64, y: i64) -> i64
    requires { is_zero y ≡ false }
    ensures { (result ≡ floor_remainder x y) × (is_in_range result ≡ true) }
{
    if y > 0 {
        x.rem_euclid(y)
    } else if x > 0 {
        let rest = (x.unsigned_abs() - 1) % y.unsigned_abs();
        -((y.unsigned_abs() - 1 - rest) as i64)
    } else if y == -1 {
        0
    } else {
        x % y
    }
}
