//! EIR programs, by themselves and as a text in each target, and so what `opt` makes of them.

/// What programs write on the input `ab`. In turn: a program as compilers of C write it; none; a jump out of the program;
/// both ends of the memory; words are compared as unsigned; a jump to block 1, behind three operations; data in two
/// subsections; a word of data; the last addresses, and data that is read; a jump to the last block, and past it; a jump that
/// is never taken, of a register and itself; a jump past the blocks; a start past them; conditional jumps to blocks that a number or
/// a register names, by words near and far from 0, which pass blocks 1 and 5 over; a word that is stored and loaded; a data word; the
/// input is copied; each of its bytes is one more, where block 1 goes back to block 0 by a register.
pub const PROGRAMS: &str = "\
.text\nmain:\n#{push:main}\nmov D, SP\nadd D, -1\nstore BP, D\nmov SP, D\nmov BP, SP\nsub SP, 1\n.file 1 \"hi.c\"\n.loc 1 1 0\n# }\nmov A, 72\nputc A\nmov A, 105\nputc A\nexit\n => Hi
|  =>  =>  => 0
| mov A, 99\njmp A
| mov A, 65\nstore A, 0\nmov A, 66\nstore A, 16777215\nload B, 0\nputc B\nload B, 0\nputc B\nload B, 16777215\nputc B\nload B, 16777215\nputc B\nexit => AABB
| mov A, 8388608\nlt A, 1\nadd A, 48\nputc A\nexit => 0
| mov A, 3\neq A, 3\njmp A\nputc 88\nmov B, 89\nputc B\nexit => XY
| .data 1\nx: .long 7\n.data\ns: .string \"A\\n\"\n.loc 1 2 3\n.text\nmain: mov A, x\nadd A, 48\nputc A\nmov A, _edata\nadd A, 48\nputc A\nload A, s\nputc A\nexit => 34A
| mov A, 72\nputc A\nexit\n.data\n.long 5 => H
| mov A, 16777214\nstore A, 16777215\nload B, 16777215\nload C, 1\nadd B, C\nputc B\nlt B, A\nputc B\n.data\n.long 5\n.long 67 => A\x01
| mov A, 2\njmp A\nputc 88\nlast: putc 90\nmov A, 3\njne A, A, 2 => Z
| mov B, 2\nputc 90\njge B, B, 2\nputc 89 => Z
| putc 89\nmain: => 
| mov A, 300\nmov B, 2\nmov C, 70000\njlt B, A, C\nputc 48\nfar: jeq 1, A, 8421504\njgt 1, A, 300\nputc 49\njne 6, A, B\nputc 50\nlast: putc 51\njle 9, C, C => 13
| add A, 65\nstore A, 16777213\nload B, 16777213\nputc B => A
| load B, 1\nputc B\n.data\n.long 80\n.long 81 => Q
| l: getc A\njeq e, A, 0\nputc A\njmp l\ne: exit => ab
| getc A\njeq 2, A, 0\nadd A, 1\nputc A\njmp B\nload C, 1\nputc C\n.data\n.long 65\n.long 66\n.long 67 => bcB";

/// Programs on all machines, and what `opt` writes.
pub const ROWS: &str = "\
eir --steps 100000000 a ; opt a | eir --steps 100000000 a ; emit --target whitespace a | run --target whitespace --steps 100000000 a ; opt a | emit --target whitespace a | run --target whitespace --steps 100000000 a ; emit --target subleq a | run --target subleq --steps 100000000 a ; opt a | emit --target subleq a | run --target subleq --steps 100000000 a ; emit --target wasm a | run --target wasm --steps 100000000 a ; opt a | emit --target wasm a | run --target wasm --steps 100000000 a ; emit --target brainfuck a | run --target brainfuck --steps 100000000 a ; opt a | emit --target brainfuck a | run --target brainfuck --steps 100000000 a ; emit --target piet a | run --target piet --steps 100000000 a ; opt a | emit --target piet a | run --target piet --steps 100000000 a < a\0b # The input is copied up to the first zero.
| l: getc A\njeq e, A, 0\nputc A\njmp l\ne: exit => a
== eir --steps 1000 a ; opt a | eir --steps 1000 a ; emit --target whitespace a | run --target whitespace --steps 1000 a ; opt a | emit --target whitespace a | run --target whitespace --steps 1000 a ; emit --target subleq a | run --target subleq --steps 1000 a ; opt a | emit --target subleq a | run --target subleq --steps 1000 a ; emit --target wasm a | run --target wasm --steps 1000 a ; opt a | emit --target wasm a | run --target wasm --steps 1000 a ; emit --target brainfuck a | run --target brainfuck --steps 1000 a ; opt a | emit --target brainfuck a | run --target brainfuck --steps 1000 a ; emit --target piet a | run --target piet --steps 1000 a ; opt a | emit --target piet a | run --target piet --steps 1000 a # Loops without an end. The second moves twice what it needs once.
| l: jmp l =>  => step limit reached => 3
| l: mov A, 1\nmov A, 1\njmp l =>  => step limit reached => 3
== eir --steps 100000 a ; opt a | eir --steps 100000 a ; emit --target whitespace a | run --target whitespace --steps 100000 a ; opt a | emit --target whitespace a | run --target whitespace --steps 100000 a ; emit --target subleq a | run --target subleq --steps 100000 a ; opt a | emit --target subleq a | run --target subleq --steps 100000 a ; emit --target wasm a | run --target wasm --steps 100000 a ; opt a | emit --target wasm a | run --target wasm --steps 100000 a # Reach into the middle of the memory.
| mov A, 67\nstore A, 8388607\nmov A, 68\nstore A, 8388608\nload B, 8388607\nputc B\nload B, 8388608\nputc B\nexit => CD
| store A, 0\nstore A, 4095\nstore A, 4096\nstore A, 16777215\nload B, 16777215\nadd B, 48\nstore B, 16777215\nload C, 16777215\nputc C\nexit => 0
== opt a < ab # What `opt` makes of files, and one that it refuses as `eir` does. It takes no input.
| mov A, 2\nadd A, 3\nputc A\nmov A, 7\nputc A\nexit => .text\nmain:\nb0:\n\tputc 5\n\tmov A, 7\n\tputc 7\n\texit\n
| l: mov A, 1\nmov A, 1\njmp l => .text\nmain:\nb0:\n\tmov A, 1\n\tjmp 0\n
| l: getc A\njeq e, A, 0\nputc A\njmp l\ne: exit => .text\nmain:\nb0:\n\tgetc A\n\tjeq 2, A, 0\nb1:\n\tputc A\n\tjmp 0\nb2:\n\texit\n
| jmp nowhere =>  => a: UnknownLabel at 1 => 1";
