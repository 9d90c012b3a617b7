//! Files that end too early: every front of one valid file for each language.

/// What every front does of a file for each language but WebAssembly.
pub const ROWS: &str = "\
eir a
|  => 
| p =>  => a: BadLine at 1 => 1
| pu =>  => a: BadLine at 1 => 1
| put =>  => a: BadLine at 1 => 1
| putc =>  => a: BadLine at 1 => 1
| putc  =>  => a: BadLine at 1 => 1
| putc 7 => \x07
| putc 72 => H
| putc 72\n => H
| putc 72\ne =>  => a: BadLine at 2 => 1
| putc 72\nex =>  => a: BadLine at 2 => 1
| putc 72\nexi =>  => a: BadLine at 2 => 1
| putc 72\nexit => H
== run --target brainfuck a < ab
|  => 
| , => 
| ,[ =>  => a: Unclosed at 1 => 1
| ,[. =>  => a: Unclosed at 1 => 1
| ,[., =>  => a: Unclosed at 1 => 1
| ,[.,] => ab
== run --target whitespace a
|  =>  => a: run fault 4 => 4
|   =>  => a: BadForm at 0 => 1
|    =>  => a: BadForm at 0 => 1
|     =>  => a: BadForm at 0 => 1
|    \t =>  => a: BadForm at 0 => 1
|    \t  =>  => a: BadForm at 0 => 1
|    \t   =>  => a: BadForm at 0 => 1
|    \t  \t =>  => a: BadForm at 0 => 1
|    \t  \t  =>  => a: BadForm at 0 => 1
|    \t  \t   =>  => a: BadForm at 0 => 1
|    \t  \t    =>  => a: BadForm at 0 => 1
|    \t  \t   \n =>  => a: run fault 4 => 4
|    \t  \t   \n\t =>  => a: BadForm at 11 => 1
|    \t  \t   \n\t\n =>  => a: BadForm at 11 => 1
|    \t  \t   \n\t\n  =>  => a: BadForm at 11 => 1
|    \t  \t   \n\t\n   => H => a: run fault 4 => 4
|    \t  \t   \n\t\n  \n =>  => a: BadForm at 15 => 1
|    \t  \t   \n\t\n  \n\n =>  => a: BadForm at 15 => 1
|    \t  \t   \n\t\n  \n\n\n => H
== run --target piet a
|  =>  => a: BadHeader => 1
| P =>  => a: BadHeader => 1
| P3 =>  => a: BadHeader => 1
| P3  =>  => a: BadHeader => 1
| P3 1 =>  => a: BadHeader => 1
| P3 1  =>  => a: BadHeader => 1
| P3 1 1 =>  => a: BadHeader => 1
| P3 1 1  =>  => a: BadHeader => 1
| P3 1 1 2 =>  => a: BadHeader => 1
| P3 1 1 25 =>  => a: BadHeader => 1
| P3 1 1 255 =>  => a: Short => 1
| P3 1 1 255  =>  => a: Short => 1
| P3 1 1 255 2 =>  => a: Short => 1
| P3 1 1 255 25 =>  => a: Short => 1
| P3 1 1 255 255 =>  => a: Short => 1
| P3 1 1 255 255  =>  => a: Short => 1
| P3 1 1 255 255 0 =>  => a: Short => 1
| P3 1 1 255 255 0  =>  => a: Short => 1
| P3 1 1 255 255 0 0 => 
== run --target subleq --steps 5 a # A front whose cells run out reads zeros behind them.
|  =>  => step limit reached => 3
| 6 =>  => step limit reached => 3
| 6  =>  => step limit reached => 3
| 6 - =>  => a: BadNumber at 2 => 1
| 6 -1 => \0\0\0 => step limit reached => 3
| 6 -1  => \0\0\0 => step limit reached => 3
| 6 -1 0 => \0\0\0 => step limit reached => 3
| 6 -1 0  => \0\0\0 => step limit reached => 3
| 6 -1 0 7 => \0\0 => step limit reached => 3
| 6 -1 0 7  => \0\0 => step limit reached => 3
| 6 -1 0 7 7 => \0\0\0 => step limit reached => 3
| 6 -1 0 7 7  => \0\0\0 => step limit reached => 3
| 6 -1 0 7 7 - =>  => a: BadNumber at 11 => 1
| 6 -1 0 7 7 -1 => \0
| 6 -1 0 7 7 -1  => \0
| 6 -1 0 7 7 -1 7 => \x07
| 6 -1 0 7 7 -1 72 => H
| 6 -1 0 7 7 -1 72  => H
| 6 -1 0 7 7 -1 72 0 => H
== c a # What comes next lacks, but where the last word isn't whole: that one can't stand there.
|  =>  => a: NoMain at 0 => 1
| i =>  => a: Syntax at 0 => 1
| in =>  => a: Syntax at 0 => 1
| int =>  => a: Syntax at 3 => 1
| int  =>  => a: Syntax at 4 => 1
| int m =>  => a: Syntax at 5 => 1
| int ma =>  => a: Syntax at 6 => 1
| int mai =>  => a: Syntax at 7 => 1
| int main =>  => a: Syntax at 8 => 1
| int main( =>  => a: Syntax at 9 => 1
| int main(v =>  => a: Syntax at 9 => 1
| int main(vo =>  => a: Syntax at 9 => 1
| int main(voi =>  => a: Syntax at 9 => 1
| int main(void =>  => a: Syntax at 13 => 1
| int main(void) =>  => a: Syntax at 14 => 1
| int main(void){ =>  => a: Syntax at 15 => 1
| int main(void){r =>  => a: Syntax at 16 => 1
| int main(void){re =>  => a: Syntax at 17 => 1
| int main(void){ret =>  => a: Syntax at 18 => 1
| int main(void){retu =>  => a: Syntax at 19 => 1
| int main(void){retur =>  => a: Syntax at 20 => 1
| int main(void){return =>  => a: Syntax at 21 => 1
| int main(void){return  =>  => a: Syntax at 22 => 1
| int main(void){return 0 =>  => a: Syntax at 23 => 1
| int main(void){return 0; =>  => a: Syntax at 24 => 1
| int main(void){return 0;} => ";
