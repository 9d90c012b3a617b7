//! C texts that are run by themselves, compiled, and built for each target: their input, their fuel, and where they are refused.

/// C texts, by themselves and compiled.
pub const ROWS: &str = "\
c a ; compile a | eir a < HAL # By themselves, and compiled.
| int main(void){int c; while((c=getchar())!=-1) putchar(c+1); return 0;} => IBM
| int main(void){printf(\"%d %d %d %d\",-7/2,-7%2,(-8388607-1)/-1,-1<1);return 0;} => -3 -1 -8388608 1
| int f(int n){int a[3]; a[0]=n; if(n==0) return 0; return f(n-1)+a[0]-n+1;} int main(void){printf(\"%d\",f(1000)); if(1) if(0) putchar('a'); else putchar('b'); return 0;} => 1000b
| #include <string.h>\nint main(void){char s[6]; strcpy(s,\"hello\"); printf(\"%s %u\",s,strlen(s)); return 0;} => hello 5
| #include <stdio.h>\n#define N 3\n#define M N\n#ifdef N\nint main(void){printf(\"%d\",M+N);return 0;}\n#else\nint x y\n#endif => 6
| #define N 16777216\nint main(void){return 0;}
| int a=5;\n#define a b+1\n#define b a+2\nint main(void){printf(\"%d\",a);return 0;} => 8
| #ifdef A\n#ifndef B\nx\n#else\ny\n#endif\n#else\nint main(void){putchar(65);return 0;}\n#endif\n => A
| int main(void){int x=0x1fU+'\\x41'; x<<=1; printf(\"%d%s%d%d%u\",x,\"a\" /* */ \"b\",EOF,010,8388608);return 0;} => 192ab-188388608
| int main(void){unsigned x=16777215; int y=-1; printf(\"%u %x %d %d %d\",x*x,x^255,y<<3,x>>4,(y&6)|(~y^9)); puts(\"!\");} => 1 ffff00 -8 1048575 15!\n
| struct s{int x; int y[2];}; struct s t[3]={{1,{2,3}},{4,{5,6}}}; int main(void){struct s *p=t+2; char c=300; printf(\"%d %d %d\",p-t,t[1].y[1],c); p->y[1]=7; do {c-=p->y[1];} while(c>0); printf(\" %d\",c);} => 2 6 300 -1
| int n; int next(void){n+=1; return n;} int a[4]; int main(void){int i; a[next()]+=5; a[next()]++; for(i=0;i<4;i++){int k; if(i==0) k=9; else k=a[i]; printf(\"%d\",k);} i=0; while(1){if(i++==2) continue; if(i>4) break;} printf(\"%d%d\",i,n);} => 951052
| int add(int a,int b){return a+b;} int sub(int a,int b){return a-b;} int main(void){int (*t[2])(int,int)={add,sub}; int i; for(i=0;i<2;i++) printf(\"%d \",t[i](7,3)); return 0;} => 10 4 
== c a ; compile a | eir a < abc # A `switch` whose cases run on.
| int main(void){int c; while((c=getchar())!=-1){switch(c){case 'a': putchar('A'); break; case 'b': putchar('B'); default: putchar('.');}} return 0;} => AB..
== c a < ab # Bytes of the input, and past its end.
| int main(void){int c=getchar(); putchar(c+1); putchar(__builtin_getc()); printf(\"%d%d%d\",getchar(),__builtin_getc(),getchar());} => bb-10-1
== c a < a\0\0c # Zeros are bytes.
| int main(void){int c=getchar(); putchar(c+1); putchar(__builtin_getc()); printf(\"%d%d%d\",getchar(),__builtin_getc(),getchar());} => b\0-199-1
== c a # Undefined acts, with what is written before them.
| int main(void){int z; z=0; putchar('x'); return 1/z;} => x => a: run fault 1 => 4
| int f(int n){return f(n+1);} int main(void){putchar('x'); printf(\"%d\",f(1000)); return 0;} => x => a: run fault 11 => 4
| int main(void){int (*p)(void); p=NULL; putchar('x'); return p();} => x => a: run fault 12 => 4
== c --steps 0 a < HAL # So many units of fuel: the copying text takes a turn and two calls for each byte, and a call for the end.
| int main(void){return 0;}
| int main(void){switch(1){case 1: ;} if(1) {} 1+1;}
| int main(void){putchar(97);} =>  => step limit reached => 3
| int main(void){puts(\"ab\");} =>  => step limit reached => 3
| int main(void){exit(1);} =>  => step limit reached => 3
| int main(void){getchar();} =>  => step limit reached => 3
== c --steps 1 a
| int main(void){putchar(97);} => a
| int main(void){puts(\"ab\");} =>  => step limit reached => 3
| int main(void){exit(1);}
== c --steps 2 a
| int main(void){puts(\"ab\");} => a => step limit reached => 3
| int main(void){printf(\"x%s%d!\",\"ab\",12);} => xa => step limit reached => 3
| int main(void){int (*p)(int); p=NULL; putchar(97); return p(putchar(98));} => ab => step limit reached => 3
| int main(void){int i; for(i=0;i<3;i++);} =>  => step limit reached => 3
| int f(int n){if(n)return f(n-1); return 0;} int main(void){f(2);} =>  => step limit reached => 3
== c --steps 3 a
| int main(void){puts(\"ab\");} => ab\n
| int main(void){printf(\"x%s%d!\",\"ab\",12);} => xab12!
| int main(void){int i; for(i=0;i<3;i++);}
| int f(int n){if(n)return f(n-1); return 0;} int main(void){f(2);}
== c --steps 4 a
| int f(int n){int a[2000000]; putchar(97); if(n)f(n-1); return 1;} int main(void){f(2); return 0;} => aa => step limit reached => 3
| int main(void){int i=0; while(i<3)i++; do i++; while(i<5);} =>  => step limit reached => 3
== c --steps 5 a
| int main(void){int i=0; while(i<3)i++; do i++; while(i<5);}
== c --steps 8 a < HAL
| int main(void){int c; while((c=getchar())!=-1) putchar(c+1); return 0;} => IB => step limit reached => 3
== c --steps 9 a < HAL
| int main(void){int c; while((c=getchar())!=-1) putchar(c+1); return 0;} => IBM => step limit reached => 3
== c --steps 10 a < HAL
| int main(void){int c; while((c=getchar())!=-1) putchar(c+1); return 0;} => IBM
== c --steps 100 a
| int main(void){for(;;);} =>  => step limit reached => 3
| int main(void){for(int i=0,j;i<9;i++)for(;;)continue;} =>  => step limit reached => 3
== c a ; compile a ; build --target piet a # Each is refused for one reason and at its place.
| int main(void){return x;} =>  => a: Unknown at 22 => 1
| int main(void){return 0 =>  => a: Syntax at 23 => 1
| int a; int a; =>  => a: Twice at 11 => 1
| int f(void){return 0;} =>  => a: NoMain at 22 => 1
| int main(void){putchar('a);} =>  => a: Unclosed at 23 => 1
| int main(void){1=2;} =>  => a: NotLvalue at 15 => 1
| int main(void){getchar(1);} =>  => a: BadCall at 22 => 1
| int main(void){int *p; p=1;} =>  => a: Mismatch at 24 => 1
| int a=16777216; =>  => a: NumberRange at 6 => 1
| #define N 16777216\nint main(void){return N;} =>  => a: NumberRange at 41 => 1
| int $; =>  => a: BadChar at 4 => 1
| #include <stdio.h> x =>  => a: BadDirective at 19 => 1
| 0xg =>  => a: BadChar at 1 => 1
| \"a\\q\" =>  => a: BadChar at 2 => 1
| '\\400' =>  => a: BadChar at 1 => 1
| x\0 =>  => a: BadChar at 1 => 1
| #include <stdio.h>\n/*/ =>  => a: Unclosed at 19 => 1
| \"a\n\" =>  => a: Unclosed at 0 => 1
| int main(void){switch(1){case 1: case 1:;}} =>  => a: Twice at 33 => 1
| int main(void){case 1:;} =>  => a: Syntax at 15 => 1
| int main(void){int (*p)(void); p=putchar; return 0;} =>  => a: BadCall at 33 => 1
| int main(void){return 1(2);} =>  => a: BadCall at 23 => 1
| int 3; =>  => a: Syntax at 4 => 1
| #endif\n =>  => a: Unbalanced at 0 => 1
| #ifdef A =>  => a: Unbalanced at 0 => 1
| #if 1 =>  => a: BadDirective at 0 => 1
|  =>  => a: NoMain at 0 => 1
== compile a | eir --steps 0 a # The program of a text that is too large for Piet.
| int a[5000]; int b[20000]={1}; int main(void){return a[b[0]];} =>  => step limit reached => 3
== build --target piet a
| int a[5000]; int b[20000]={1}; int main(void){return a[b[0]];} =>  => a: too large => 8";

/// C texts that are built for each target.
pub const BUILT: &str = "\
build --target brainfuck a | run --target brainfuck a ; build --target whitespace a | run --target whitespace a ; build --target subleq a | run --target subleq a ; build --target piet a | run --target piet a ; build --target wasm a | run --target wasm a < HAL # Each byte is copied, and is one more.
| int main(void){int c; while((c=getchar())!=-1) putchar(c+1); return 0;} => IBM
== build --target brainfuck a | run --target brainfuck a ; build --target whitespace a | run --target whitespace a ; build --target subleq a | run --target subleq a ; build --target piet a | run --target piet a ; build --target wasm a | run --target wasm a < abc # A `switch` whose cases run on.
| int main(void){int c; while((c=getchar())!=-1){switch(c){case 'a': putchar('A'); break; case 'b': putchar('B'); default: putchar('.');}} return 0;} => AB..";

/// Texts that write `x` and then come to an undefined act.
pub const UNDEFINED: &str = "\
int main(void){int z; z=0; putchar('x'); return 1/z;}
| int f(int n){return f(n+1);} int main(void){putchar('x'); printf(\"%d\",f(1000)); return 0;}
| int main(void){int (*p)(void); p=NULL; putchar('x'); return p();}";
