use eir_text::read_eir;
use mach_core::MemSink;
use sim_trait::emit_to;
use std::alloc::{AllocError, Global};
use wasm_back::WebAssembly;

/// The module of that program. In turn: the types of `main`, `getchar` and `putchar`, and the two functions of the host;
/// `main` with the first type, 1024 pages, and `main` shown; the code of `main`, with seven locals, where the start is
/// block 0, and a loop goes round a block out of which leads one table, before the three operations; the data word at
/// address 0.
const MODULE: &[u8] =
    b"\0asm\x01\0\0\0\x01\x0C\x03\x60\0\0\x60\0\x01\x7F\x60\x01\x7F\0\x02\x1D\x02\x03env\x07getchar\0\x01\x03env\x07putchar\0\x02\x03\x02\x01\0\x05\x06\x01\x01\x80\x08\x80\x08\x07\x08\x01\x04main\0\x02\x0A\x20\x01\x1E\x01\x07\x7F\x41\0\x21\x06\x03\x40\x02\x40\x20\x06\x0E\x01\0\x02\x0B\x41\xC8\0\x21\0\x20\0\x10\x01\x0F\x0B\x0B\x0B\x0A\x01\0\x41\0\x0B\x04\x05\0\0\0";

/// The program that writes `H` and has the data word 5.
const WRITES_H: &[u8] = b"mov A, 72\nputc A\nexit\n.data\n.long 5";

// A sink gets the module of the program of a text of EIR, and has room for it.
fn is_emitted(alloc: Global, text: &[u8], out: &mut MemSink) -> bool {
    if text.len() > 1000 {
        return false;
    }
    let Ok(program) = read_eir(alloc, text) else {
        return false;
    };
    emit_to::<WebAssembly, MemSink>(alloc, &program, out).is_ok()
}

#[test]
fn a_module_that_writes_one_byte(rt: HostRuntime) -> Result<(), AllocError> {
    let alloc = rt.alloc();
    let mut out = MemSink::new(alloc, 4096, 7, Vec::new(alloc))?;
    assert!(rt; is_emitted(alloc, WRITES_H, &mut out) && out.got() == MODULE);
    Ok(())
}
