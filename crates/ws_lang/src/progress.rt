// How a number that is being read goes on with a byte.
ghost use Rattle.std.specs.Prelude.{◌≡◌, ◌+◌, ◌*◌, ◌<◌, true};
ghost use Rattle.mach_core.specs.Integer.{is_in_range};
ghost use Rattle.ws_lang.specs.Spelling.{signed};
ghost use Rattle.ws_lang.specs.Step.{in_digits as digits_in, is_blank as blank};
ghost use Rattle.ws_lang.specs.Laws.{SeenFits};
ghost use Rattle.ws_lang.specs.Progress.{after_digit as digit_after, after_blank as blank_after, ProgressFits};

use crate::number::with_sign;
use crate::reading::{Progress, Seen};

// One more digit behind a number, if that is within signed 64 bits.
#[tactic(auto, using(crate::proofs::NumberLemmas::digits_read))]
fn in_digits(negative: bool, size: u64, digit: u8) -> Seen
    requires { digit < 10 }
    ensures seen { result ≡ digits_in negative (10 * size + digit) }
    ensures fits { SeenFits result }
{
    if size > 922337203685477580 {
        return Seen::Outside;
    }
    let more = 10 * size + digit as u64;
    match with_sign(negative, more) {
        Some(_) => Seen::Digits(negative, more),
        None => Seen::Outside,
    }
}

/// What a byte after a sign or digits does.
pub fn after_digit(negative: bool, size: u64, byte: u8) -> Progress
    requires { is_in_range (signed negative size) ≡ true }
    ensures progress { result ≡ digit_after negative size byte }
    ensures fits { ProgressFits result }
{
    if byte >= 48 && byte <= 57 {
        return Progress::On(in_digits(negative, size, byte - 48));
    }
    let Some(value) = with_sign(negative, size) else {
        unreachable!();
    };
    Progress::Closed(value)
}

fn is_blank(byte: u8) -> bool
    ensures { result ≡ blank byte }
{
    byte == 32 || byte == 9 || byte == 10 || byte == 13
}

/// What a byte after blanks at most does.
pub fn after_blank(byte: u8) -> Progress
    ensures progress { result ≡ blank_after byte }
    ensures fits { ProgressFits result }
{
    if is_blank(byte) {
        Progress::On(Seen::Blanks)
    } else if byte == 43 {
        Progress::On(Seen::Digits(false, 0))
    } else if byte == 45 {
        Progress::On(Seen::Digits(true, 0))
    } else {
        after_digit(false, 0, byte)
    }
}
