//! The rules of types, each by texts that keep it, and run, or break it, and are refused at a place. A comment in each text says
//! which rule it is.

/// C texts that keep a rule, or break it.
pub const ROWS: &str = "\
c a # Words, signs and the types of results.
| int a[sizeof(char)+sizeof(int)+sizeof(unsigned)+sizeof(int*)==4?1:0];int main(void){return 0;} /* each arithmetic type and pointer is one word */
| struct s{int a[3];char c;};int a[sizeof(struct s)==4?1:0];int main(void){return 0;} /* a struct and an array take the words of their parts */
| int a[(char)0-1<0&&0-1<0?1:0];int main(void){return 0;} /* char and int are signed */
| int a[(unsigned char)1-2>0?1:0];int main(void){return 0;} /* unsigned char is as unsigned */
| int a[0-1>0u?1:0];int main(void){return 0;} /* one unsigned operand makes both unsigned */
| int a[0-1>0?1:0];int main(void){return 0;} /* two ints stay signed */ =>  => a: Mismatch at 11 => 1
| int a[(0-8>>1u)<0?1:0];int main(void){return 0;} /* a shift has the type of its left operand */
| int a[(1u<2u)-2<0&&!0u-2<0&&(1u&&1u)-2<0&&(1u||0u)-2<0?1:0];int main(void){return 0;} /* comparisons, `!`, `&&` and `||` give int */
| int a[sizeof(int)-2>0?1:0];int main(void){return 0;} /* sizeof gives unsigned */
== c a # Arrays, which are used as pointers.
| int a[3];int*f(void){return a;}int main(void){return 0;} /* an array is used as a pointer to its first element */
| int a[3];int b[sizeof a==3?1:0];int main(void){return 0;} /* but not under sizeof */
| int a[3];int main(void){int*p;p=&a;return 0;} /* nor under `&` */ =>  => a: Mismatch at 31 => 1
| int f(int a[3]){int b[sizeof a];a=b;return 0;}int main(void){return 0;} /* an array parameter is a pointer */
== c a # Which values convert.
| int main(void){unsigned char c;unsigned u;c=1;u=c;return u;} /* among arithmetic types */
| int main(void){int*p;int*q;q=NULL;p=q;return 0;} /* between equal pointer types */
| int main(void){int*p;char*q;q=NULL;p=q;return 0;} /* not between others */ =>  => a: Mismatch at 36 => 1
| int main(void){int*p;void*q;q=NULL;p=q;q=p;return 0;} /* between `void *` and each other pointer type */
| int main(void){int*p;p=NULL;p=0;return 0;} /* from NULL and a literal 0 to each pointer type */
| int main(void){int*p;p=1;return 0;} /* no other number to a pointer */ =>  => a: Mismatch at 22 => 1
| int main(void){char*p;int*q;q=NULL;p=(char*)q;(void)p;return(char)1u;} /* a cast converts among arithmetic types, among pointer types and to void */
| int main(void){return (int*)1==NULL;} /* no number to a pointer by a cast */ =>  => a: Mismatch at 22 => 1
== c a # Pointers to functions.
| int f(void){return 1;}int main(void){int(*p)(void);p=f;p=NULL;p=0;p=&f;p=*p;return p();} /* a function pointer converts to an equal type and from NULL and a literal 0 */
| int main(void){int(*p)(void);void*q;q=NULL;p=q;return 0;} /* no `void *` to a function pointer */ =>  => a: Mismatch at 44 => 1
| int f(int a){return a;}int main(void){int(*p)(void);p=f;return 0;} /* not another function */ =>  => a: Mismatch at 53 => 1
| int f(void){return 1;}int main(void){int(*p)(void);p=(int(*)(void))f;return 0;} /* a cast to an equal type is allowed */
| int f(void){return 1;}int main(void){void*p;p=(void*)f;return 0;} /* no cast to another */ =>  => a: Mismatch at 46 => 1
| int f(void){return 1;}int main(void){int(*p)(void);p=f;if(p)return p==f;return !p&&p!=NULL;} /* equality takes equal types or a null, conditions and `!` take it */
| int main(void){int(*p)(void);p=NULL;return p<p;} /* order of it */ =>  => a: Mismatch at 44 => 1
| int main(void){int(*p)(void);p=NULL;p+1;return 0;} /* a sum of it */ =>  => a: Mismatch at 37 => 1
| int main(void){int(*p)(void);p=NULL;p++;return 0;} /* a step of it */ =>  => a: Mismatch at 37 => 1
| int f(void){return sizeof f;}int main(void){return 0;} /* sizeof of a function's name */ =>  => a: Mismatch at 19 => 1
| int main(void){int (*p)(void); p=putchar; return 0;} /* a built-in's name used as a value */ =>  => a: BadCall at 33 => 1
| int f(void);int main(void){int(*p)(void);p=f;return 0;} /* a function without a definition used as a value */ =>  => a: BadCall at 43 => 1
| int main(void){return 1(2);} /* a call of what is no function */ =>  => a: BadCall at 23 => 1
| int main(void){int a;a=0;return a();} /* a call of an object that is no function pointer */ =>  => a: BadCall at 33 => 1
| int f(void){return 1;}int(*p)(void)=f;int main(void){return 0;} /* a function's name as a first value at file scope */
== c a # What can be assigned, and has an address.
| struct s{int m;};int main(void){struct s s;struct s*p;int a[1];int*q;q=a;p=&s;s.m=1;p->m=2;a[0]=3;*q=4;return 0;} /* a name of an object, `*p`, `a[i]`, `s.m` and `p->m` are places */
| int main(void){1=2;} /* a number is none */ =>  => a: NotLvalue at 15 => 1
| int main(void){&1;return 0;} /* `&` needs a place */ =>  => a: NotLvalue at 16 => 1
| int f(void){return 1;}int main(void){int(*p)(void);p=f;*p=f;return 0;} /* `*p` of a function pointer is none */ =>  => a: NotLvalue at 55 => 1
| int main(void){int a[1];int b[1];a=b;return 0;} /* an array is no place of one word */ =>  => a: NotLvalue at 33 => 1
== c a # Lengths of arrays.
| int a[0];int main(void){return 0;} /* at least 1 */ =>  => a: Mismatch at 6 => 1
| int a[4194304];int main(void){return 0;} /* at most 2^22 */
| int a[4194305];int main(void){return 0;} /* no more */ =>  => a: Mismatch at 6 => 1
| int n;int a[n];int main(void){return 0;} /* a constant expression */ =>  => a: Mismatch at 12 => 1
| int a[-1+(2>1?3:0)+sizeof(int)];int main(void){return 0;} /* the operators without places, with sizeof */
| int a[1/0];int main(void){return 0;} /* a zero divisor in it */ =>  => a: Mismatch at 7 => 1
| int a[1<<24];int main(void){return 0;} /* a shift count of 24 or more in it */ =>  => a: Mismatch at 7 => 1
| int a[];int main(void){return 0;} /* an empty length needs a first value */ =>  => a: Mismatch at 4 => 1
| int a[]={1,2};int b[sizeof a==2?1:0];char s[]=\"ab\";int c[sizeof s==3?1:0];int main(void){return 0;} /* which tells it */
| int f(int a[]){return a[0];}int main(void){return 0;} /* or is a parameter's */
== c a # First values.
| int a[2][2]={{1,2},{3}};struct s{int x;int y[2];};struct s s={1,{2,3}};int main(void){return 0;} /* braces go level by level */
| int a[2]={1,2,3};int main(void){return 0;} /* no more values than objects */ =>  => a: Mismatch at 4 => 1
| int a={1};int main(void){return 0;} /* no braces for a number */ =>  => a: Mismatch at 4 => 1
| int a[2][2]={1,2};int main(void){return 0;} /* no number for an array */ =>  => a: Mismatch at 13 => 1
| char s[3]=\"abc\";unsigned char t[5]=\"abc\";int main(void){return 0;} /* a char array takes a string, with its zero if there is room */
| char s[2]=\"abc\";int main(void){return 0;} /* no longer one */ =>  => a: Mismatch at 10 => 1
| int x=1+2;char*s=\"a\";int*n=NULL;int*p=&x;int a[2];int*q=a;int main(void){return 0;} /* at file scope constant expressions, strings, NULL, `&name` and names of arrays */
| int x;int y=x;int main(void){return 0;} /* no other names */ =>  => a: Mismatch at 12 => 1
| int a[2];int*p=&a[1];int main(void){return 0;} /* no place within an object */ =>  => a: Mismatch at 15 => 1
| int main(void){int x=1;int y=x+1;return y;} /* within a function any expression */
| int main(void){void*p=&p;return 0;} /* a name is known in its own first value */
== c a # Names and scopes.
| int main(void){return x;} /* a name that is not declared before */ =>  => a: Unknown at 22 => 1
| int main(void){return x();} /* a called name */ =>  => a: Unknown at 23 => 1
| struct s a;int main(void){return 0;} /* a tag */ =>  => a: Unknown at 9 => 1
| struct s{int m;};int main(void){struct s s;s.n=1;return 0;} /* a member */ =>  => a: Unknown at 44 => 1
| int a; int a; /* a second declaration in a scope */ =>  => a: Twice at 11 => 1
| struct s{int a;};struct s{int a;};int main(void){return 0;} /* a second tag */ =>  => a: Twice at 24 => 1
| struct s{int a;int a;};int main(void){return 0;} /* a second member */ =>  => a: Twice at 19 => 1
| int a;int main(void){char*a;a=\"b\";{int a;a=1;}return 0;} /* an inner declaration hides */
| int f(int a);int f(int b);int f(int c){return c;}int f(int d);int main(void){return 0;} /* prototypes and the definition agree */
| int f(int a);int f(char a){return a;}int main(void){return 0;} /* or don't */ =>  => a: Twice at 17 => 1
| int f(void){return 1;}int f(void){return 1;}int main(void){return 0;} /* one definition */ =>  => a: Twice at 26 => 1
| int f(int a){int a;return 0;}int main(void){return 0;} /* parameters share the scope of the body */ =>  => a: Twice at 17 => 1
| int f(int a,int a){return 0;}int main(void){return 0;} /* two parameters of one name */ =>  => a: Twice at 16 => 1
| int puts;int main(void){return 0;} /* a built-in is declared before */ =>  => a: Twice at 4 => 1
== c a # Calls and formats.
| int main(void){getchar(1);} /* a wrong number of arguments */ =>  => a: BadCall at 22 => 1
| int f(int*a){return *a;}int main(void){return f(1);} /* an argument that does not convert */ =>  => a: Mismatch at 48 => 1
| int f(void);int main(void){return f();} /* a function without a definition */ =>  => a: BadCall at 35 => 1
| int f(void);int main(void){return f();}int f(void){return 1;} /* a function that is defined further down */
| int main(void){printf(\"%d %u %x %c %s %%\",1,2u,3,4,\"a\");return 0;} /* a format with its arguments */ => 1 2 3 \x04 a %
| int main(void){printf(\"%q\",1);return 0;} /* a letter that is none */ =>  => a: BadCall at 21 => 1
| int main(void){printf(\"%d\");return 0;} /* an argument too few */ =>  => a: BadCall at 21 => 1
| int main(void){char*s;s=\"a\";printf(s);return 0;} /* a format that is no literal */ =>  => a: BadCall at 34 => 1
== c a # Statements.
| int main(void){break;} /* break outside a loop and a switch */ =>  => a: Mismatch at 15 => 1
| int main(void){switch(1){default:continue;}} /* continue outside a loop */ =>  => a: Mismatch at 33 => 1
| int main(void){while(1){if(0)continue;break;}return 0;} /* both in a loop */
| void f(void){}int main(void){int a;a=f();return 0;} /* a void value */ =>  => a: Mismatch at 36 => 1
| struct s{int a;};int main(void){struct s s;if(s)return 1;return 0;} /* a condition */ =>  => a: Mismatch at 46 => 1
| void f(void){return 1;}int main(void){return 0;} /* a value where none is due */ =>  => a: Mismatch at 13 => 1
| int f(void){return;}int main(void){return 0;} /* none where one is due */ =>  => a: Mismatch at 12 => 1
| int main(void){switch(1){case 1: case 1:;}} /* a case twice */ =>  => a: Twice at 33 => 1
| int main(void){switch(1){default:default:;}} /* a default twice */ =>  => a: Twice at 33 => 1
| int main(void){int a;a=1;switch(1){case a:;}return 0;} /* a case that is no constant */ =>  => a: Mismatch at 40 => 1
| int main(void){switch(\"a\"){default:;}return 0;} /* a switch by what is no number */ =>  => a: Mismatch at 22 => 1
== c a # Structs by their tags.
| struct s{struct s*p;};int main(void){return 0;} /* a tag may stand under a pointer in its own members */
| struct s{struct s p;};int main(void){return 0;} /* but not by itself */ =>  => a: Mismatch at 18 => 1
| struct s{};int main(void){return 0;} /* a struct without members */ =>  => a: Mismatch at 7 => 1
== c a # Which refusal comes.
| int main(void){return x+y;} /* the lowest place comes */ =>  => a: Unknown at 22 => 1
| int a;int a[x];int main(void){return 0;} /* a tree with a refused part has no refusal of its own */ =>  => a: Unknown at 12 => 1
| int f(void){return 0;} /* `main` is wanted */ =>  => a: NoMain at 45 => 1
| int main(int a){return a;} /* without parameters */ =>  => a: NoMain at 51 => 1
| int a;int a;int f(void){return 0;} /* after all with a place */ =>  => a: Twice at 10 => 1
| int a[4194304];int b;int main(void){return 0;} /* too many words at file scope */ =>  => a: too large => 8
| int main(void){int a[2048][2049];return 0;} /* too many words of one type */ =>  => a: too large => 8
| struct s{int a[4194304];int b;};int main(void){return 0;} /* too many words of a struct */ =>  => a: too large => 8
| int a[65536]={0};int main(void){return 0;} /* too great a weight */ =>  => a: too large => 8
| int a[4194304];int b; /* after NoMain */ =>  => a: NoMain at 40 => 1";
