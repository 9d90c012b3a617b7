// Numbers in LEB128.
ghost use Rattle.std.specs.Prelude.{◌≡◌, ◌<◌, ◌≤◌, length};
ghost use Rattle.wasm_write.specs.Leb.{low_bits, leb, number_bytes, integer_bytes};

use arrayvec::ArrayVec;

// The low seven bits of a number, or each of them turned over.
fn low_bits(turned: bool, n: u32) -> u8
    ensures value { result ≡ low_bits turned n }
    ensures bound { result < 128 }
{
    let low = (n % 128) as u8;
    if turned { 127 - low } else { low }
}

// Seven bits a byte, the lowest first.
fn leb(turned: bool, limit: u32, n: u32) -> ArrayVec<u8, 5>
    ensures { result.items ≡ leb turned limit 4 n }
{
    let mut bytes = ArrayVec::new();
    let mut rest = n;
    for _ in 0..4u32 {
        if rest < limit {
            bytes.push(low_bits(turned, rest));
            return bytes;
        }
        bytes.push(low_bits(turned, rest) + 128);
        rest /= 128;
    }
    bytes.push(low_bits(turned, rest));
    bytes
}

/// The bytes of an unsigned number.
#[tactic(auto, unfolding(crate::specs::Leb::number_bytes))]
pub fn number(n: u32) -> ArrayVec<u8, 5>
    ensures { result.items ≡ number_bytes n }
{
    leb(false, 128, n)
}

/// How many bytes an unsigned number has.
pub fn number_size(n: u32) -> u32
    ensures { result ≡ length (number_bytes n) }
{
    number(n).len() as u32
}

/// The bytes of a signed number.
#[tactic(auto, unfolding(crate::specs::Leb::integer_bytes))]
pub fn integer(z: i32) -> ArrayVec<u8, 5>
    ensures { result.items ≡ integer_bytes z }
{
    if z < 0 {
        leb(true, 64, z.unsigned_abs() - 1)
    } else {
        leb(false, 64, z.unsigned_abs())
    }
}

/// How many bytes a signed number has.
pub fn integer_size(z: i32) -> u32
    ensures { result ≡ length (integer_bytes z) }
{
    integer(z).len() as u32
}
