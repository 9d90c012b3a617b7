// A number that is read byte by byte.
ghost use Rattle.std.specs.Prelude.{◌≡◌, ◌+◌, ◌*◌, ◌<◌, true, false, MatchOption};
ghost use Rattle.mach_core.specs.Integer.{is_in_range};
ghost use Rattle.piet_lang.specs.Number.{signed, in_digits as digits_in, is_blank as blank, after_digits as digits_after, after_blanks as blanks_after};
ghost use Rattle.piet_lang.specs.Seen.{SeenFits, ProgressFits};

/// What was seen of a number.
#[derive(Clone, Copy)]
pub enum Seen {
    /// Blanks at most.
    Blanks,
    /// A sign or digits: whether the number is below 0, and its size so far.
    Digits(bool, u64),
    /// A digit that led outside signed 64 bits.
    Outside,
}

/// How a number goes on with a byte.
#[derive(Clone, Copy)]
pub enum Progress {
    On(Seen),
    /// The byte closes the number.
    Closed(i64),
}

/// The size of the lowest number.
const HALF: u64 = 9223372036854775808;

// The number of this sign and size, if it is within signed 64 bits.
fn with_sign(negative: bool, size: u64) -> Option<i64>
    ensures { MatchOption result (is_in_range (signed negative size) ≡ false) (λ n. (n ≡ signed negative size) × (is_in_range n ≡ true)) }
{
    if !negative {
        if size < HALF { Some(size as i64) } else { None }
    } else if size == 0 {
        Some(0)
    } else if size <= HALF {
        Some(-1 - (size - 1) as i64)
    } else {
        None
    }
}

// One more digit behind a number, if that is within signed 64 bits.
#[tactic(auto, using(crate::proofs::NumberLemmas::digits_read))]
fn in_digits(negative: bool, size: u64, digit: u8) -> Seen
    requires { digit < 10 }
    ensures seen { result ≡ digits_in negative (10 * size + digit) }
    ensures fits { SeenFits result }
{
    if size > 922337203685477580 {
        return Seen::Outside;
    }
    let more = 10 * size + digit as u64;
    match with_sign(negative, more) {
        Some(_) => Seen::Digits(negative, more),
        None => Seen::Outside,
    }
}

/// What a byte behind a sign or digits does.
pub(crate) fn after_digits(negative: bool, size: u64, byte: u8) -> Progress
    requires { is_in_range (signed negative size) ≡ true }
    ensures progress { result ≡ digits_after negative size byte }
    ensures fits { ProgressFits result }
{
    if byte >= 48 && byte <= 57 {
        return Progress::On(in_digits(negative, size, byte - 48));
    }
    let Some(value) = with_sign(negative, size) else {
        unreachable!();
    };
    Progress::Closed(value)
}

fn is_blank(byte: u8) -> bool
    ensures { result ≡ blank byte }
{
    byte == 32 || byte == 9 || byte == 10 || byte == 13
}

/// What a byte behind blanks at most does.
pub(crate) fn after_blanks(byte: u8) -> Progress
    ensures progress { result ≡ blanks_after byte }
    ensures fits { ProgressFits result }
{
    if is_blank(byte) {
        Progress::On(Seen::Blanks)
    } else if byte == 43 {
        Progress::On(Seen::Digits(false, 0))
    } else if byte == 45 {
        Progress::On(Seen::Digits(true, 0))
    } else {
        after_digits(false, 0, byte)
    }
}
