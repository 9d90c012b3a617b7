// Files that several tests read, and the targets by name.

/// The targets by name.
pub(crate) const TARGETS: [&str; 5] = ["brainfuck", "whitespace", "subleq", "piet", "wasm"];

/// Copies the input to the output.
pub(crate) const COPY: &[u8] = b"l: getc A\njeq e, A, 0\nputc A\njmp l\ne: exit";

/// Writes `Hello`.
pub(crate) const HELLO: &[u8] = b"putc 72\nputc 101\nputc 108\nputc 108\nputc 111\nexit";

/// Writes the byte FF and asks nothing.
pub(crate) const WRITES_FF: &[u8] = b"sub A, 1\nputc A\nexit";

/// A module that writes `H`: `main` calls `putchar` with 72.
pub(crate) const WRITES_H: &[u8] =
    b"\0asm\x01\0\0\0\x01\x08\x02\x60\0\0\x60\x01\x7f\0\x02\x0f\x01\x03env\x07putchar\0\x01\x03\x02\x01\0\x07\x08\x01\x04main\0\x01\x0a\x09\x01\x07\0\x41\xc8\0\x10\0\x0b";

/// A C text that copies its input.
pub(crate) const COPY_IN_C: &[u8] = b"int main(void){int c; while((c=getchar())!=-1) putchar(c);}";
