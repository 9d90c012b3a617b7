//! The undefined acts of C, by their numbers, and what was written before each.

/// Undefined acts of C, and what was written before each.
pub const ROWS: &str = "\
c a # 1: a zero divisor. 2: an access outside a live object or through null.
| int main(void){putchar(120); return 1/0;} => x => a: run fault 1 => 4
| int main(void){int a=5; a%=0; putchar(97);} =>  => a: run fault 1 => 4
| int main(void){return 5u%0u;} =>  => a: run fault 1 => 4
| int main(void){int a[2]; return a[2];} =>  => a: run fault 2 => 4
| int main(void){int *p=NULL; *p=1;} =>  => a: run fault 2 => 4
| int main(void){int *p; {int x=1; p=&x;} return *p;} =>  => a: run fault 2 => 4
| struct s{int x; int y;}; int main(void){struct s *p=NULL; int *q; putchar(97); q=&p->y; putchar(98); return 0;} => a => a: run fault 2 => 4
| struct s{int x; int y;}; int main(void){int a; void *v=&a; struct s *p=v; p->x=1; putchar(97); p->y=2; return 0;} => a => a: run fault 2 => 4
| int main(void){char a[2]=\"ab\"; puts(a);} => ab => a: run fault 2 => 4
| int main(void){char *p=NULL; printf(\"x%s\",p);} => x => a: run fault 2 => 4
| int main(void){char *s=\"ab\"; return s[3];} =>  => a: run fault 2 => 4
| int main(void){char *s=\"ab\"; *(s+3)=1;} =>  => a: run fault 2 => 4
| int main(void){int *p; int i; for(i=0;i<2;i++){int y; if(i==0)p=&y; else *p=1;}} =>  => a: run fault 2 => 4
| int f(int a){return a;} void g(int (*t[])(void)){t[0]();} int main(void){int (*h[1])(int)={f}; void *v=h; g(v); return 0;} =>  => a: run fault 2 => 4
== c a # 3: an access of a cell that holds another kind. 4: a read of an unset cell.
| int main(void){int x=1; void *v=&x; int **p=v; *p=&x;} =>  => a: run fault 3 => 4
| int main(void){int x=1; int *y=&x; void *v=&y; int *p=v; return *p;} =>  => a: run fault 3 => 4
| int main(void){int *y=NULL; void *v=&y; int *p=v; *p=5;} =>  => a: run fault 3 => 4
| int main(void){char *s=\"ab\"; void *v=s; int **p=v; *p=NULL;} =>  => a: run fault 3 => 4
| int f(void){return 1;} int main(void){int (*h)(void)=f; void *v=&h; int **p=v; return *p==NULL;} =>  => a: run fault 3 => 4
| int main(void){int a; return a;} =>  => a: run fault 4 => 4
| int main(void){int a; a;} =>  => a: run fault 4 => 4
| int main(void){int a=a;} =>  => a: run fault 4 => 4
| int main(void){int a; a++;} =>  => a: run fault 4 => 4
| int main(void){char a[2]; a[0]=97; puts(a);} => a => a: run fault 4 => 4
| int main(void){int a; int *p=&a; putchar(97); return *p;} => a => a: run fault 4 => 4
| int main(void){switch(1){int x=5; case 1: putchar(x);}} =>  => a: run fault 4 => 4
== c a # 5: a write to a string literal. 6: pointer arithmetic on null, or that leaves the object and its end.
| int main(void){char *s=\"ab\"; s[0]=99;} =>  => a: run fault 5 => 4
| int main(void){char *s=\"ab\"; s[2]=0;} =>  => a: run fault 5 => 4
| char *s=\"ab\"; int main(void){putchar(*s); *s=*s; return 0;} => a => a: run fault 5 => 4
| int main(void){int a[2]; int *p=a; p=p+2; putchar(97); p=p+1; putchar(98);} => a => a: run fault 6 => 4
| int main(void){int a[2]; int *p=a; p--;} =>  => a: run fault 6 => 4
| int main(void){int *p=NULL; p+0;} =>  => a: run fault 6 => 4
| int main(void){int *p=NULL; return p[0];} =>  => a: run fault 6 => 4
| int main(void){int a[2]; int *p=a+1; p=p+16777215u;} =>  => a: run fault 6 => 4
| int main(void){char *s=\"a\"; s+=2; putchar(65); s+=1;} => A => a: run fault 6 => 4
| int main(void){int *p; {int x[2]; p=x;} p=p+2; putchar(65); p-2; p+1;} => A => a: run fault 6 => 4
== c a # 7: order or difference of pointers with none in one object. 8: equality with a pointer to a dead object, or at an end.
| int main(void){int a; int b; return &a<&b;} =>  => a: run fault 7 => 4
| int main(void){int a; int *p=NULL; return &a>=p;} =>  => a: run fault 7 => 4
| int main(void){int *p=NULL; int *q=NULL; return p-q;} =>  => a: run fault 7 => 4
| int main(void){int a; int b; return &a-&b;} =>  => a: run fault 7 => 4
| int main(void){return \"a\"-\"a\";} =>  => a: run fault 7 => 4
| struct s{int x; int y;}; int main(void){struct s a[2]; void *v=&a[0].y; struct s *p=v; putchar(48+(&a[1]-a)); return p-a;} => 1 => a: run fault 7 => 4
| int main(void){int *p; {int x; p=&x;} putchar(p?97:98); return p==NULL;} => a => a: run fault 8 => 4
| int main(void){int *p; {int x; p=&x;} return NULL!=p;} =>  => a: run fault 8 => 4
| int main(void){int a[1]; int b[1]; return a+1==b;} =>  => a: run fault 8 => 4
| int main(void){int a[1]; int b[1]; return a!=b+1;} =>  => a: run fault 8 => 4
| int main(void){int a[1]; char *s=\"x\"; void *v=a+1; return v==s;} =>  => a: run fault 8 => 4
== c a # 9: a shift count of 24 or more. 10: the use of the result of a function that gave none. 11: a charge above the limit. 12: a call through null. Of several that apply the lowest is told.
| int main(void){int n=24; return 1<<n;} =>  => a: run fault 9 => 4
| int main(void){int n=-1; return 1>>n;} =>  => a: run fault 9 => 4
| int main(void){int a=1; a<<=23; printf(\"%d\",a); a>>=24;} => -8388608 => a: run fault 9 => 4
| int f(void){} int main(void){f(); (void)f(); f(),putchar(97); putchar(98); return f()+putchar(99);} => ab => a: run fault 10 => 4
| int f(void){} int main(void){int a=f(); return 0;} =>  => a: run fault 10 => 4
| int f(void){} int main(void){putchar(97); if(f())putchar(98); return 0;} => a => a: run fault 10 => 4
| int f(void){} int g(void){return f();} int main(void){g(); return 0;} =>  => a: run fault 10 => 4
| int f(int n){int a[2000000]; putchar(97); if(n)f(n-1); return 1;} int main(void){f(2); return 0;} => aa => a: run fault 11 => 4
| int main(void){int a[4193280]; putchar(97);} =>  => a: run fault 11 => 4
| int main(void){int (*p)(int); p=NULL; putchar(97); return p(putchar(98));} => ab => a: run fault 12 => 4
| int main(void){int a; int *p=NULL; putchar(97); a=1/0+*p;} => a => a: run fault 1 => 4
| int main(void){int a; int *p=NULL; putchar(97); a=*p+1/0;} => a => a: run fault 2 => 4
| int main(void){int *p; {int x; p=&x;} void *v=p; int **q=v; *q=NULL;} =>  => a: run fault 2 => 4
| int a=7; int *p=0; int *q[2]={0,&a}; int f(int a){return a;} void g(int (*t[])(void)){putchar(48+t[0]());} int main(void){int (*h[1])(int)={f}; void *v=h; if(p==q[0]&&q[1]!=NULL)putchar(97); g(v); return 0;} => a => a: run fault 2 => 4
| int main(void){int a; int *p=&a; putchar(97); return (0?p:0)<p;} => a => a: run fault 7 => 4";
