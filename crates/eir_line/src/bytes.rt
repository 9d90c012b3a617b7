//! The runs of bytes at the front of a line.

ghost use Rattle.std.specs.Prelude.{◌≡◌, ℕ, ◌≤◌, List, length};
ghost use Rattle.std.specs.List.{prefix_len};
ghost use Rattle.std.specs.Char.{is_ascii_digit};
ghost use Rattle.eir_line.specs.Bytes.{is_blank, starts_name, goes_on_name, is_octal_digit, past_blanks, past_gap, past, past_comma, name_at, digits_at, ends};
ghost use Rattle.eir_line.specs.Reading.{Finds};

pub fn is_blank(b: u8) -> bool
    ensures { result ≡ is_blank b }
{
    b == b' ' || b == b'\t' || b == b'\r'
}

pub fn starts_name(b: u8) -> bool
    ensures { result ≡ starts_name b }
{
    b.is_ascii_alphabetic() || b == b'_' || b == b'.'
}

fn goes_on_name(b: u8) -> bool
    ensures { result ≡ goes_on_name b }
{
    b.is_ascii_alphanumeric() || b == b'_' || b == b'.' || b == b'$'
}

pub fn is_octal_digit(b: u8) -> bool
    ensures { result ≡ is_octal_digit b }
{
    48 <= b && b <= 55
}

// How many blanks stand at the front.
fn blank_len(bytes: &[u8]) -> usize
    ensures value { result ≡ prefix_len is_blank bytes.now }
    ensures within { result ≤ length bytes.now }
{
    bytes.iter().take_while(|b| is_blank(**b)).count()
}

// How long the run of a name's bytes at the front is.
fn name_len(bytes: &[u8]) -> usize
    ensures value { result ≡ prefix_len goes_on_name bytes.now }
    ensures within { result ≤ length bytes.now }
{
    bytes.iter().take_while(|b| goes_on_name(**b)).count()
}

// How many digits stand at the front.
fn digit_len(bytes: &[u8]) -> usize
    ensures value { result ≡ prefix_len is_ascii_digit bytes.now }
    ensures within { result ≤ length bytes.now }
{
    bytes.iter().take_while(|b| b.is_ascii_digit()).count()
}

// How many octal digits stand at the front.
pub fn octal_len(bytes: &[u8]) -> usize
    ensures value { result ≡ prefix_len is_octal_digit bytes.now }
    ensures within { result ≤ length bytes.now }
{
    bytes.iter().take_while(|b| is_octal_digit(**b)).count()
}

// What stands behind the blanks at the front.
pub fn past_blanks(bytes: &[u8]) -> &[u8]
    ensures { result.now ≡ past_blanks bytes.now }
{
    bytes.split_at(blank_len(bytes)).1
}

// Whether nothing more is said: the line's end, or a comment.
pub fn ends(bytes: &[u8]) -> bool
    ensures { result ≡ ends bytes.now }
{
    match past_blanks(bytes) {
        [] => true,
        [b, ..] => *b == b'#',
    }
}

// What stands behind one blank or more.
pub fn past_gap(bytes: &[u8]) -> Option<&[u8]>
    ensures { Finds (λ x. x.now) result (past_gap bytes.now) }
{
    match bytes {
        [b, ..] if is_blank(*b) => Some(past_blanks(bytes)),
        _ => None,
    }
}

// What stands behind this byte.
pub fn past(c: u8, bytes: &[u8]) -> Option<&[u8]>
    ensures { Finds (λ x. x.now) result (past c bytes.now) }
{
    match bytes {
        [b, rest @ ..] if *b == c => Some(rest),
        _ => None,
    }
}

// What stands behind a comma and the blanks around it.
pub fn past_comma(bytes: &[u8]) -> Option<&[u8]>
    ensures { Finds (λ x. x.now) result (past_comma bytes.now) }
{
    let rest = past(b',', past_blanks(bytes))?;
    Some(past_blanks(rest))
}

// The name at the front, and what follows it.
pub fn name_at(bytes: &[u8]) -> Option<(&[u8], &[u8])>
    ensures { Finds (λ x. (x.0.now, x.1.now)) result (name_at bytes.now) }
{
    match bytes {
        [b, ..] if starts_name(*b) => Some(bytes.split_at(name_len(bytes))),
        _ => None,
    }
}

// The digits at the front, one at least, and what follows them.
pub fn digits_at(bytes: &[u8]) -> Option<(&[u8], &[u8])>
    ensures { Finds (λ x. (x.0.now, x.1.now)) result (digits_at bytes.now) }
{
    match bytes {
        [b, ..] if b.is_ascii_digit() => Some(bytes.split_at(digit_len(bytes))),
        _ => None,
    }
}
