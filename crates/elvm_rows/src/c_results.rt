//! What C texts write: the rows that the definitions compute, and others.

/// What C texts write.
pub const ROWS: &str = "\
c a # Arithmetic wraps, division truncates toward zero, a negative int is shifted with its sign, and with one unsigned operand both count as unsigned.
| int main(void){printf(\"%d %d %d\",8388607+1,-8388607-2,4096*4096);} => -8388608 8388607 0
| int main(void){int a=8388607; a++; printf(\"%d\",a);} => -8388608
| int main(void){unsigned u=0; u--; printf(\"%u %x\",u,u);} => 16777215 ffffff
| int main(void){printf(\"%d %d %d\",-(-8388607-1),~0,!5);} => -8388608 -1 0
| int main(void){char c=300; printf(\"%d\",c);} => 300
| int main(void){printf(\"%d %d %d %d\",-7/2,-7%2,7/-2,7%-2);} => -3 -1 -3 1
| int main(void){printf(\"%d %d\",(-8388607-1)/-1,(-8388607-1)%-1);} => -8388608 0
| int main(void){printf(\"%u %u\",-1/2u,-1%10u);} => 8388607 5
| int main(void){int a=17; a/=5; a%=2; a*=9; printf(\"%d\",a);} => 9
| int main(void){printf(\"%d %d %u\",-8>>1,-1>>23,16777208u>>1);} => -4 -1 8388604
| int main(void){printf(\"%d %d\",1<<23,3<<23);} => -8388608 -8388608
| int main(void){printf(\"%d\",-8>>1u);} => -4
| int main(void){printf(\"%d%d%d%d\",-1<0,-1<0u,-1>1u,1<=1);} => 1011
| int main(void){char c=-1; unsigned char d=-1; printf(\"%d%d\",c<0,d<0);} => 10
| int main(void){printf(\"%d%d%d%d\",2==2,2!=2,3>=4,5&&0||7);} => 1001
| int main(void){printf(\"%d %d %d\",12&10,12|10,12^10);} => 8 14 6
== c a # Operands, arguments and both sides of an assignment go from left to right; `&&`, `||` and `?:` evaluate what they choose.
| int p(int c){putchar(c);return c;} int f(int a,int b,int c){return 0;} int main(void){p(97)+p(98)*p(99); f(p(100),p(101),p(102)); return 0;} => abcdef
| int a[2]; int p(int c){putchar(c);return 0;} int main(void){a[p(97)]=p(98); a[p(99)]+=p(100); return 0;} => abcd
| int main(void){int a=1; a=a+(a=5); printf(\"%d \",a); a=1; a+=(a=5); printf(\"%d \",a); a=1; (a+=1,a=a*a); printf(\"%d\",a);} => 6 10 4
| int main(void){int i=0; int a[3]={0,0,0}; a[i++]=i; a[i++]=i; printf(\"%d%d%d %d\",a[0],a[1],a[2],i);} => 120 2
| int main(void){int i=5; printf(\"%d%d%d%d%d\",i++,++i,i--,--i,i);} => 57755
| int p(int c){putchar(c);return c-97;} int main(void){p(97)&&p(98); p(99)||p(100); p(97)||p(101); p(98)&&p(102); p(103)?p(104):p(105); return 0;} => acaebfgh
| int main(void){int x=3; int *p=&x; int *q=NULL; if(p)putchar(97); if(!q)putchar(98); while(q)putchar(99); putchar(q?100:101); q=1?p:0; putchar(*q+99); q=0?p:0; if(q==NULL&&q==0)putchar(103);} => abefg
== c a # Objects of file scope start as 0 or null; a struct has its members one behind the other; pointers move by elements.
| int a; int b[2]; char *p; int (*f)(void); struct s{int x; char *y; int z[2];}; struct s t; int main(void){printf(\"%d%d%d%d%d\",a,b[1],p==NULL,f==NULL,t.y==NULL&&t.z[1]==0); return 0;} => 00111
| struct s{int x; char *y; int z[2];}; struct s t[2]={{1,\"ab\",{2}},{3}}; int n=sizeof t; int *p=&n; int *q[2]={&n}; char w[5]=\"hi\"; int b[]={4,5,6}; int main(void){printf(\"%d%s%d%d %d%d%d %d %d%d %s%d %u%d\",t[0].x,t[0].y,t[0].z[0],t[0].z[1],t[1].x,t[1].y==NULL,t[1].z[1],n,*p,q[1]==NULL,w,w[4],sizeof b,b[2]); return 0;} => 1ab20 310 8 81 hi0 36
| int main(void){int a[2][2]={{1},{2,3}}; int *p[2]={a[0]}; char c[3]=\"x\"; printf(\"%d%d%d%d %d %d%d%d\",a[0][0],a[0][1],a[1][0],a[1][1],p[1]==NULL,c[0],c[1],c[2]);} => 1023 1 12000
| int main(void){int a[3]={1,a[0]+1,a[1]+1}; printf(\"%d\",a[2]);} => 3
| int f(void){return 7;} int (*g[2])(void)={f}; int main(void){printf(\"%d%d\",g[0](),g[1]==NULL); return 0;} => 71
| struct p{int x; int y;}; struct q{struct p a[2]; int z;}; struct q v; int main(void){struct q *r=&v; struct p *s=r->a; s[1].y=5; (*r).z=6; r->a[0].x=7; printf(\"%d%d%d%u%u\",v.a[1].y,v.z,v.a[0].x,sizeof(struct q),sizeof v.a); return 0;} => 56754
| int main(void){int a[4]={1,2,3,4}; int *p=a; p++; p+=2; printf(\"%d%d%d\",*p,p[-3],*(p-1)); p=&a[4]; printf(\"%d%d%d\",p-a,a<p,p[-1]);} => 413414
| int main(void){int a[2][3]; int i; for(i=0;i<6;i++)a[0][i]=i; printf(\"%d%d%d\",a[1][2],&a[1]-&a[0],&a[1][0]-&a[0][0]);} => 513
| int main(void){int a; int b; int *p=&a; int *q=&b; void *v=p; printf(\"%d%d%d%d\",p==q,p!=q,p==v,p==&a);} => 0111
| int main(void){char *p=\"ab\"; char *q=\"ab\"; printf(\"%d%d%s\",p==q,p==p,p+1);} => 01b
| int main(void){int a[1]; int b[1]; printf(\"%d\",a+1==b+1);} => 0
| int main(void){int *p=NULL; printf(\"%d%d%d%d%d\",NULL==0,0!=NULL,NULL==NULL,0==p,p!=0);} => 10110
== c a # A local lives from its block's entry to its end, a name is what the innermost declaration says, and each literal is an object.
| int f(int n){int x=n; if(n)f(n-1); return x;} int main(void){printf(\"%d\",f(3)); return 0;} => 3
| int main(void){int x=1; {int x=2; putchar(96+x);} putchar(96+x); for(int x=3;x<4;x++)putchar(96+x); putchar(96+x);} => baca
| int main(void){int *p; int i; for(i=0;i<2;i++){int y; if(i==0){y=5;p=&y;} else putchar(97);}} => a
| int x=1; int f(void){return x;} int main(void){int x=2; {int y=x; int x=3; putchar(48+y+x);} putchar(48+f()); putchar(48+x); return 0;} => 512
| int id(int x){return x;} int main(void){int (*putchar)(int)=id; int n=putchar(65); printf(\"%d\",n); return 0;} => 65
| int p(const char *s){while(*s){putchar(*s+1);s++;} return 0;} int main(void){int (*printf)(const char*)=p; printf(\"ab\"); puts(\"c\"); return 0;} => bcc\n
| int x=7; int f(int x){int y=x; {int x=y+1; y=x;} return x*10+y;} int main(void){printf(\"%d\",f(2)); return 0;} => 23
| char *f(int n){printf(\"%s\",\"q\"); return n?\"ab\":\"cd\";} int main(void){char *p=f(1); printf(\"%d%d%s%s\",f(1)==p,f(0)==p,p,f(0)); return 0;} => qqqq10abcd
| char *s=\"x\"; char *t[2]={\"y\",\"z\"}; int n[sizeof \"abc\"]; int main(void){char *p; for(p=\"uv\";*p;p++)putchar(*p); printf(\"%s%s%s%u%u\",s,t[0],t[1],sizeof n,sizeof \"ab\"); return 0;} => uvxyz43
== c a # Loops, `switch`, and calls through pointers to functions.
| int main(void){int i=0; while(1){i++; if(i==2)continue; if(i==4)break; putchar(96+i);} do{putchar(48+i);}while(i++<5); do{if(i)continue;putchar(97);}while(0);} => ac45
| int main(void){int i; for(i=0;i<5;i++){if(i==1)continue; if(i==3)break; putchar(97+i);} if(i==3)putchar(65); else putchar(66); for(;;){return 0;} putchar(67);} => acA
| int main(void){switch(3){case 1: putchar(97);} switch(3){default: putchar(98); case 1: putchar(99);} switch(2){int x; case 1+1: x=7; putchar(100); case 3: putchar(x+94); break; putchar(102);}} => bcde
| int main(void){int i; for(i=0;i<3;i++){switch(i){case 1: continue; case 2: break; default: putchar(97);} putchar(98);}} => abb
| int main(void){int n=0; switch(n++,n++,n){case 2: putchar(48+n);}} => 2
| int p(int c){putchar(c);return 0;} int f(int a){putchar(99);return 1;} int main(void){int (*t[1])(int); t[0]=f; t[p(97)](p(98)); printf(\"%d%d%d\",t[0]==f,t[0]!=&f,(*f)(1)); return 0;} => abcc101
| char *f(int n){if(n)return \"x\"; return 0;} int main(void){printf(\"%s%d\",f(1),f(0)==NULL); return 0;} => x1
| int f(int a){a=a+1;return a;} int main(void){int a=5; f(a); putchar(48+a); return 0;} => 5
| int f(int a){return a;} void g(int (*t[])(int,int)){putchar(t[0](65,66));} int main(void){int (*h[1])(int)={f}; void *v=h; g(v); return 0;} => A
| int f(int a){putchar(65);return 1;} void g(int (*t[])(void)){putchar(65+t[0]());} int main(void){int (*h[1])(int)={f}; void *v=h; g(v); return 0;} => AB
== c a # What is close to an undefined act, and is none.
| int main(void){int (*h)(void)=NULL; void *v=&h; int **p=v; printf(\"%d\",*p==NULL); *p=NULL; return 0;} => 1
| int main(void){int a[2]; int *p=a+1; p=p+-1; *p=65; putchar(a[0]);} => A
| int main(void){int *p; int *q; {int a[2]; p=a; q=a+1;} printf(\"%d%d%d\",p<q,q-p,p>q);} => 110
| int main(void){int a[1]; int *p=NULL; putchar(48+(a+1==p)); putchar(48+(a+1==a));} => 00
| int f(void){} void v(void){return;} int main(void){putchar(97); 1?f():0; v(); putchar(98); f(); return 0;} => ab
| int f(void){int a[4000000]; return 1;} int main(void){putchar(97); f(); putchar(98); return f();} => ab
== c a # What is always known, and the texts of the headers.
| int main(void){putchar(putchar(321)); puts(\"hi\"); putchar(48+puts(\"\")); exit(3); putchar(99);} => AAhi\n\n0
| int main(void){printf(\"%d %u %x %c %s %%|\",-5,-5,255,353,\"st\");} => -5 16777211 ff a st %|
| int main(void){char a[3]=\"ab\"; a[1]=99; printf(\"%s\",a); puts(a); a[0]=353; puts(a);} => acac\nac\n
| int f(void){exit(0);return 1;} int main(void){putchar(97);f();putchar(98);return 0;} => a
| int f(int n){int a[3]; a[0]=n; if(n==0) return 0; return f(n-1)+a[0]-n+1;} int main(void){printf(\"%d\",f(20)); if(1) if(0) putchar('a'); else putchar('b'); return 0;} => 20b
| #include <stdlib.h>\n#include <string.h>\nint main(void){char s[4]; strcpy(s,\"abc\"); printf(\"%d%d%d%d\",strcmp(s,\"abd\"),strcmp(\"b\",s),strcmp(s,\"abc\"),abs(-3)); memset(s,120,2); puts(s); memcpy(s,\"yz\",2); puts(s); return 0;} => -1103xxc\nyzc\n
| int f(int); void set(int *p){*p=5;} struct s{int (*g)(int); int x;}; int main(void){int a; struct s t; struct s *q=&t; set(&a); t.g=f; q->x=a=3; putchar(60+t.g(a)); putchar(60+q->g(q->x)+sizeof(putchar(97))); return 0;} int f(int a){return a+1;} => @A
| int main(void){int x; int y=x=5; x+=y*=2; printf(\"%d %d %u\",x,y,sizeof x+sizeof(char*));} => 15 10 2
== c a # Each form of a declaration, an assignment and a statement once, also within others.
| int main(void){int a=7; a+=3; a-=1; a*=2; a/=3; a%=4; a<<=4; a|=3; a^=1; a&=62; a>>=1; printf(\"%d\",a); return 0;} => 17
| struct n{int v; struct n *next;}; struct n a={1,NULL}; struct n b={2,&a}; int main(void){struct n c={3,&b}; struct n *p; for(p=&c;p;p=p->next) printf(\"%d\",p->v); return 0;} => 321
| struct p{char *name; int (*f)(int); int at[2];}; int twice(int n){return n+n;} struct p t[2]={{\"a\",twice,{1,2}},{\"b\"}}; int main(void){struct p l[2]={{\"c\",twice,{3}}}; printf(\"%s%d%d%s%d%s%d%d%d\",t[0].name,t[0].f(4),t[0].at[1],t[1].name,t[1].f==NULL,l[0].name,l[0].at[0],l[0].at[1],l[1].name==NULL); return 0;} => a82b1c301
| int main(void){char s[5]=\"ab\"; char u[2]=\"cd\"; char w[]=\"ef\"; printf(\"%s%d%c%c%s%u\",s,s[4],u[0],u[1],w,sizeof w); return 0;} => ab0cdef3
| int f(int n){switch(n){case -1: return 1; case 'a': {int i; for(i=0;;i++) switch(i){case 3: return i; default: ;}} case 2: n=9; default: return n;}} int main(void){printf(\"%d%d%d%d\",f(-1),f('a'),f(2),f(7)); return 0;} => 1397
| int even(int n); int odd(int n){return n?even(n-1):0;} int even(int n){return n?odd(n-1):1;} int main(void){printf(\"%d%d\",even(10),odd(7)); return 0;} => 11
| int apply(int (*f)(int,int),int a,int b){return f?f(a,b):-1;} int less(int a,int b){return a-b;} int main(void){printf(\"%d %d\",apply(less,9,4),apply(NULL,1,2)); return 0;} => 5 -1
| #define N 3\n#ifdef N\nint a[N*2];\n#else\nint a[1];\n#endif\nint main(void){printf(\"%u%u\",sizeof a,sizeof(int*)); return 0;} => 61
| int main(void){puts(\"\\x41\\102\" \"C\\t\\\"\\\\\"); return 0;} => ABC\t\"\\\n
| int main(void){int m[2][3]={{1,2,3},{4,5,6}}; int (*none)(void)=NULL; int i,j,n=0; for(i=0;i<2;i++) for(j=0;j<3;j++) n+=m[i][j]*(i?10:1); do n--; while(n>150); printf(\"%d%d\",n,!none); return 0;} => 1501
| static unsigned char c=200; static const int k[3]={1,-2}; int main(void){const unsigned char *p=&c; signed char d=-1; printf(\"%u %d %d %d\",*p+d,k[1],k[2],(int)*p); return 0;} => 199 -2 0 200
| int main(void){int i; for(i=0;i<3;i++){if(i==1) continue; {int j=i; while(j<5){if(j==4) break; j++;} printf(\"%d\",j);}} return 0;} => 44
| void swap(int *a,int *b){int t=*a; *a=*b; *b=t;} int main(void){int x[2]={1,2}; swap(x,x+1); swap(&x[0],&x[0]); printf(\"%d%d\",x[0],x[1]); return 0;} => 21
| int a=1; int main(void){a=(a=2,a+1)?a:0; printf(\"%d\",a); {;} if(a==2) ; else a=0; return a;} => 2
| struct s{struct s *me; int x[2];} g; int main(void){struct s l[2]; struct s *p=l; p->me=p+1; p->me->x[1]=5; (*p).x[0]=l[1].x[1]+g.x[0]; printf(\"%d%d\",p[0].x[0],&p[1]==p->me); return 0;} => 51";
