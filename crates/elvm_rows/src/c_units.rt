//! What the grammar of C takes, and how far. The names of a text that is taken here aren't declared, so that its first name is told.

/// Texts that are taken or refused.
pub const ROWS: &str = "\
c a # Declarations, and tokens that stand for macros, which are refused at the macro's place.
| int a[2][3]={{1,2,3},{4,5,6},},*b; =>  => a: NoMain at 34 => 1
| static struct s{int a,*b;char c[2];}x={1,NULL,\"a\"};struct s; =>  => a: NoMain at 60 => 1
| unsigned const char const *const*f(int,char*,void(*)(int),int(*g[2])(void),int h[][3]); =>  => a: NoMain at 87 => 1
| int (*t[2])(int,int)={add,sub},u;signed v;unsigned int w;void g(); =>  => a: Unknown at 22 => 1
| int f(a b); =>  => a: Syntax at 6 => 1
| #define N 3\nint a[N]; =>  => a: NoMain at 21 => 1
| #define BEGIN {\n#define END }\nint main(void)BEGIN return 0;END
| #define N 3 4\nint a[N]; =>  => a: Syntax at 20 => 1
| #define E\nint E 3; =>  => a: Syntax at 16 => 1
== c a # Statements and expressions.
| int main(void){if(a)if(b)c;else d;else e;} =>  => a: Unknown at 18 => 1
| int main(void){while(a--)do{b();}while(0);} =>  => a: Unknown at 21 => 1
| int main(void){switch(a){case 1:int i;case 2?3:4:;default:break;{}}} =>  => a: Unknown at 22 => 1
| int main(void){a=b?c,d:e+=f,(int(*)(int))g,sizeof(int),sizeof h->i.j[k](l,m);} =>  => a: Unknown at 15 => 1
| int main(void){return-(-a)*+b%~!c<<d|e&&f;;return;} =>  => a: Unknown at 24 => 1
| int main(void){(int)a=b;int*c;d*e;a+b=c=d,e;a=b?c:d=e;} =>  => a: Unknown at 20 => 1
| int main(void){return 1 2;} =>  => a: Syntax at 24 => 1
| int main(void){else;} =>  => a: Syntax at 15 => 1
| int main(void){for(int i;;)int j;} =>  => a: Syntax at 27 => 1
| int main(void){if(1)if(0)putchar(97);else putchar(98);else putchar(99);} => b
| int main(void){int a=2;while(a--)do{putchar(97);}while(0);} => aa
| int main(void){switch(3){case 1:int i;case 2?3:4:putchar(97);default:break;{}}} => a
| int main(void){return-(-1)*+2%~!3<<1|4&&5;;return 0;}";

/// Texts in parts that nest, how often they may at most, and what is told then.
pub const NESTS: &str = "\
int main(void){return ~(~1~)~;} => 255
| int main(void){~(~1~)~;} => 255
| int main(void){~1-~1~~;} => 255
| int main(void){~if(1)~;~~} => 254
| int main(void){~(int)~1~~;} => 255
| int main(void)~{~~}~ => 256
| int a=~{~1~}~; => 256 => elvm: a: Mismatch at 4\n
| int ~*~a~~; => 256 => elvm: a: NoMain at 262\n";
