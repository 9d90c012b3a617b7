// The pieces of a text.
ghost use Rattle.std.specs.Prelude.{◌≡◌, ℕ, suc, List, length, take, drop, false, Bool, ◌≤◌, MatchOption, IfSome, ◌+◌, ◌&&◌, not, ◌==◌};
ghost use Rattle.std.specs.List.{prefix_len};
ghost use Rattle.piet_image.specs.Pieces.{is_separator, is_comment as comment_test, uncommented, places};
ghost use Rattle.piet_image.specs.Reading.{IsAt, IsFront, IsRead};

// Whether the byte is a space, a tab, a carriage return or a line feed.
#[inline]
fn separates(byte: u8) -> bool
    ensures { result ≡ is_separator byte }
{
    byte == b' ' || byte == b'\t' || byte == b'\r' || byte == b'\n'
}

// Whether a byte is part of a comment, where the one before is or isn't.
#[inline]
fn is_comment(before: bool, byte: u8) -> bool
    ensures { result ≡ comment_test before byte }
{
    if before { byte != b'\n' } else { byte == b'#' }
}

// What stands behind the separators and comments that come first.
fn past_gap(bytes: &[u8]) -> &[u8]
    ensures at { (text : List ℕ) (k : ℕ) → IsAt text k bytes.now → IsAt text k result.now }
    ensures front { IsFront result.now }
    ensures short { length result.now ≤ length bytes.now }
{
    let mut open = false;
    for i in 0..bytes.len() {
        let inside = is_comment(open, bytes[i]);
        if !inside && !separates(bytes[i]) {
            return &bytes[i..];
        }
        open = inside;
    }
    &bytes[bytes.len()..]
}

/// How many bytes come before the first separator or comment.
pub(crate) fn piece_len(bytes: &[u8]) -> usize
    ensures len { result ≡ prefix_len (λ byte. not (is_separator byte) && not (byte == 35)) bytes.now }
    ensures bound { result ≤ length bytes.now }
{
    bytes
        .iter()
        .take_while(|byte| !separates(**byte) && !(**byte == b'#'))
        .count()
}

/// The first piece and what is left behind it, if there is a piece.
pub(crate) fn next_piece(bytes: &[u8]) -> Option<(&[u8], &[u8])>
    ensures read { MatchOption result ((text : List ℕ) (k : ℕ) → IsAt text k bytes.now → length (places (uncommented text)) ≡ k)
        (λ r. (text : List ℕ) (k : ℕ) → IsAt text k bytes.now → IsRead text k r.0.now r.1.now) }
    ensures sizes { IfSome result (λ r. length r.1.now + length r.0.now ≤ length bytes.now) }
{
    let front = past_gap(bytes);
    if front.is_empty() {
        return None;
    }
    Some(front.split_at(piece_len(front)))
}
