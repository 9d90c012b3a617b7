// C texts that are built for each target, that have undefined acts, and that leave their input unread.

use crate::calls::{call, call_with, is_answer};
use crate::rows::first_failing;
use elvm_rows::c_texts::{BUILT, UNDEFINED};
use mach_core::MemSource;
use std::alloc::{AllocError, Global};

#[test]
fn on_targets(rt: HostRuntime) -> Result<(), AllocError> {
    assert_eq!(rt; first_failing(rt.alloc(), BUILT)?, None);
    Ok(())
}

// A text whose run has an undefined act is compiled, and its program writes what came before.
fn begins_alike(alloc: Global, text: &str) -> Result<bool, AllocError> {
    let made = call(alloc, &["compile", "a"], text.as_bytes(), b"")?;
    let words = ["eir", "--steps", "10000", "a"];
    let answer = call(alloc, &words, made.out.got(), b"")?;
    Ok(made.status == 0 && answer.out.got().starts_with(b"x"))
}

#[test]
fn before_undefined_acts(rt: HostRuntime) -> Result<(), AllocError> {
    for text in UNDEFINED.split("\n| ") {
        assert!(rt; begins_alike(rt.alloc(), text)?, "{text}");
    }
    Ok(())
}

// Over an input that gives nothing a text has this status and writes this.
fn alone(
    alloc: Global,
    words: &[&str],
    text: &[u8],
    status: u8,
    out: &[u8],
) -> Result<bool, AllocError> {
    let mut fails = Vec::new(alloc);
    fails.push(1)?;
    let input = MemSource::new(b"HAL".to_vec(alloc)?, 1, fails);
    let answer = call_with(alloc, words, text, input, 100)?;
    Ok(answer.status == status && answer.out.got() == out)
}

// The input is read only where a byte is wanted, and then all that was written before has come out.
#[test]
fn unread(rt: HostRuntime) -> Result<(), AllocError> {
    let alloc = rt.alloc();
    let writes = b"int main(void){putchar('x'); return 0;}";
    let divides = b"int main(void){int z=0; putchar('x'); z=1/z; return getchar();}";
    let reads = b"int main(void){putchar('x'); getchar(); return 0;}";
    assert!(rt; alone(alloc, &["c", "a"], writes, 0, b"x")?);
    assert!(rt; alone(alloc, &["c", "a"], divides, 4, b"x")?);
    assert!(rt; alone(alloc, &["c", "--steps", "1", "a"], reads, 3, b"x")?);
    assert!(rt; alone(alloc, &["c", "--steps", "2", "a"], reads, 6, b"x")?);
    Ok(())
}
