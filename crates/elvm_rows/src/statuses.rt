//! What each verb answers to files of its own, and to words that are no request.

/// What calls answer. The copy loop takes eleven steps on two bytes. The Whitespace of the program that writes a
/// letter and has a data word is, in turn: the word 5 at address 0, and to the first block; the dispatch, below 1 to the first block,
/// else to the end; the block with its three operations; the end. SUBLEQ makes five steps of each; the third word of the only
/// instruction of `3 3` is past the text, and reads as 0. In Brainfuck a cell becomes 0 past the end of the input. The first image
/// has three blocks, of which the first two push 2 and write it; others spell none.
pub const ROWS: &str = "\
eir --steps 11 a < ab
| l: getc A\njeq e, A, 0\nputc A\njmp l\ne: exit => ab
== eir --steps 10 a < ab
| l: getc A\njeq e, A, 0\nputc A\njmp l\ne: exit => ab => step limit reached => 3
== eir a
| jmp nowhere =>  => a: UnknownLabel at 1 => 1
| a:\na: =>  => a: DuplicateLabel at 2 => 1
| mov A, 16777216 =>  => a: NumberRange at 1 => 1
| exit\nmov A =>  => a: BadLine at 2 => 1
| jmp nowhere\n.globl x =>  => a: BadLine at 2 => 1
== eir b
| exit =>  => cannot read b => 5
== run --target whitespace a
| a\n \n \n =>  => a: UnknownLabel at 1 => 1
|    \t  \t   \n\t\n  \n\n\n => H
|    \t =>  => a: BadForm at 0 => 1
| \n   \n\n   \n =>  => a: DuplicateLabel at 5 => 1
| end:\n\n\n,push:  \n =>  => a: BadForm at 13 => 1
|    \t\t\t\t\t\t\t\t\t\t\t\t\t\t\t\t\t\t\t\t\t\t\t\t\t\t\t\t\t\t\t\t\t\t\t\t\t\t\t\t\t\t\t\t\t\t\t\t\t\t\t\t\t\t\t\t\t\t\t\t\t\t\t\t\t\t\t\n =>  => a: NumberRange at 0 => 1
|  =>  => a: run fault 4 => 4
== emit --target whitespace a
| mov A, 72\nputc A\nexit\n.data\n.long 5 =>    \n   \t \t\n\t\t \n \n\t \n\n  \t\n  \t\t\t\t\n\t\t\t   \t\n\t  \t\n\t\t\t\t\n\n \n\n\n  \t\t\n\n \n\t \n\n  \t \n  \t\t\n   \t  \t   \n\t\t   \t\t\n\t\t\t\t\n  \n \n\n\n  \n\n\n\n
== run --target subleq --steps 5 a
| 6 -1 0 7 7 -1 72 0 => H
| 3 3 =>  => step limit reached => 3
| -1 -1 =>  => a: run fault 1 => 4
| 9 20000000 3 20000000 -1 6 10 10 -1 -65 => A
| 1 x =>  => a: BadNumber at 2 => 1
| 7\n 1-2 x =>  => a: BadNumber at 3 => 1
| 1 9223372036854775808 =>  => a: NumberRange at 2 => 1
| -9223372036854775808 9223372036854775808 - =>  => a: NumberRange at 21 => 1
== run --target brainfuck a < ab
| ,.,. => ab
| < =>  => a: run fault 1 => 4
| [ =>  => a: Unclosed at 0 => 1
| +] =>  => a: Unopened at 1 => 1
| [][ [[] =>  => a: Unclosed at 2 => 1
| []][[ =>  => a: Unopened at 2 => 1
| ++[->++++<]>. => \x08
| -[>+<---]>. comment => U
== run --target brainfuck a < ab
| ,.,.,. => ab\0
== run --codel=1 a --target piet
| P3 4 2 255\n255 0 0 255 0 0 192 0 0 255 0 255\n0 0 0 255 0 255 255 0 255 255 0 255\n => \x02
| P3 1 1 255 255 0 0
| P3 2 1 255 255 0 0 =>  => a: Short => 1
| P3 1 1 255 255 0 =>  => a: Short => 1
| P3 1 1 255 255 256 0 0 =>  => a: BadNumber at 15 => 1
| P3 1 1 255 255 0 0 7 =>  => a: Extra at 19 => 1
| P3 65536 1025 255 =>  => a: too large => 8
| P6 1 1 255 255 0 0 =>  => a: BadHeader => 1
|  =>  => a: BadHeader => 1
|  P3 1 1 255 0 0 0 =>  => a: BadHeader => 1
| P3 0 1 255 0 0 0 =>  => a: BadHeader => 1
| P3 1 1 256 0 0 0 =>  => a: BadHeader => 1
| P3 1 2147483649 255 =>  => a: BadHeader => 1
| P3 1 1 255 0 # 7\n x 0 0 =>  => a: BadNumber at 18 => 1
| P3 1 1 255 0 0 0 # 7\n 8 =>  => a: Extra at 22 => 1
== run --target piet --steps 2 a
| P3 4 2 255\n255 0 0 255 0 0 192 0 0 255 0 255\n0 0 0 255 0 255 255 0 255 255 0 255\n => \x02 => step limit reached => 3
== run --target piet --codel 2 a
| P3 1 1 255 255 0 0 =>  => a: NotCodel => 1
== run --target piet --codel 2 --steps 9 a
| P3#a\n4 2#b\n0255\n255 0 0 1 1 1 0 0 255 9 9 9 1 1 1 1 1 1 2 2 2 3 3 3#end =>  => step limit reached => 3
== run --target whitespace a <  -12xy # A number is read and written.
|    \n\t\n\t\t   \n\t\t\t\t\n \t\n\n\n => -12";
