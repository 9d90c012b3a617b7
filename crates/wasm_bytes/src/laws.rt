// What follows from the definitions alone.
ghost use Rattle.wasm_bytes.specs.Laws.{SignedNumbersAreSpelled};

/// Signed numbers are spelled by the standard's rule, byte by byte.
pub fn signed_numbers_are_spelled()
    ensures { SignedNumbersAreSpelled }
{}
