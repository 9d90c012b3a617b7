// Numbers of entries.

ghost use Rattle.std.specs.Prelude.{◌≡◌, IfOk};

use std::alloc::AllocError;

/// A number of entries, which memory doesn't hold where it is 2^32 or more.
pub fn number_of(count: usize) -> Result<u32, AllocError>
    ensures { IfOk result (λ n. n ≡ count) }
{
    if count < 4294967296 {
        Ok(count as u32)
    } else {
        Err(AllocError)
    }
}
