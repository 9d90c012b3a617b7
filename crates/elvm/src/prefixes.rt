// Modules that end too early.

use crate::calls::{call, is_answer};
use crate::files::WRITES_H;
use std::alloc::AllocError;

// A front of a module is malformed at its end, but where a section ends: there nothing is exported yet.
#[test]
fn of_modules(rt: HostRuntime) -> Result<(), AllocError> {
    let alloc = rt.alloc();
    let words = ["run", "--target", "wasm", "a"];
    for length in 0..WRITES_H.len() {
        let answer = call(alloc, &words, &WRITES_H[..length], b"")?;
        let line = if matches!(length, 8 | 18 | 35) {
            format!(in alloc; "elvm: a: NoMain\n")?
        } else {
            format!(in alloc; "elvm: a: Malformed at {length}\n")?
        };
        assert!(rt; is_answer(&answer, 1, b"", line.as_bytes()), "{length}");
    }
    Ok(())
}
