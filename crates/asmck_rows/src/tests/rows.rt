// Expected lines are those of the rules, worked out by hand.

/// What a file with this statement leads to.
pub struct Row {
    pub statement: &'static str,
    pub printed: &'static str,
    pub code: u8,
}

pub static JUDGED: [Row; 17] = [
    Row {
        statement: "__asm__(\"movl %1,%0\":\"=r\"(y):\"r\"(x))",
        printed: "a.c:1:20: ok\n",
        code: 0,
    },
    Row {
        statement: "__asm__(\"addl %1,%0\":\"+r\"(y):\"r\"(x))",
        printed: "a.c:1:20: ok\n",
        code: 0,
    },
    Row {
        statement: "__asm__(\"addl %1,%0\":\"+r\"(y):\"r\"(x):\"cc\")",
        printed: "a.c:1:20: ok\n",
        code: 0,
    },
    Row {
        statement: "__asm__(\"movl %1,%0; addl $3,%0\":\"=r\"(y):\"r\"(x):\"cc\")",
        printed: "a.c:1:20: ok\n",
        code: 0,
    },
    Row {
        statement: "__asm__(\"addl $1,%0\"::\"r\"(x))",
        printed: "a.c:1:20: broken W2 at end: %0 -: an input is changed\n",
        code: 1,
    },
    Row {
        statement: "__asm__(\"addl $1,%0\"::\"r\"(x):\"cc\")",
        printed: "a.c:1:20: broken W2 at end: %0 -: an input is changed\n",
        code: 1,
    },
    Row {
        statement: "__asm__(\"movl $1,%0\"::\"r\"(x))",
        printed: "a.c:1:20: broken W2 at end: %0 -: an input is changed\n",
        code: 1,
    },
    Row {
        statement: "__asm__(\"movl %0,%0\"::\"r\"(x))",
        printed: "a.c:1:20: ok\n",
        code: 0,
    },
    Row {
        statement: "__asm__(\"movl %0,%0; movl $0,%0; movl %0,%0\"::\"r\"(x))",
        printed: "a.c:1:20: broken W2 at end: %0 -: an input is changed\n",
        code: 1,
    },
    Row {
        statement: "__asm__(\"movl $2147483647,%0\":\"=r\"(y):\"r\"(x))",
        printed: "a.c:1:20: ok\n",
        code: 0,
    },
    Row {
        statement: "__asm__(\"movl %1,%0; movl %0,%0; addl %0,%0\":\"=r\"(y):\"r\"(x):\"cc\")",
        printed: "a.c:1:20: ok\n",
        code: 0,
    },
    Row {
        statement: "__asm__ ( \"movl %1,%0\" : \"=r\" (y) : \"r\" (x) )",
        printed: "a.c:1:20: ok\n",
        code: 0,
    },
    Row {
        statement: "__asm__(\"movl %1,%0\":[to]\"=r\"(y):[from]\"r\"(x))",
        printed: "a.c:1:20: ok\n",
        code: 0,
    },
    Row {
        statement: "__asm__(\"movl %1,%0\":[to]\"=r\"(y):\"r\"(x+1))",
        printed: "a.c:1:20: ok\n",
        code: 0,
    },
    Row {
        statement: "__asm__(\"movl %1,%0\":\"=r\"(y):\"r\"(&x))",
        printed: "a.c:1:20: ok\n",
        code: 0,
    },
    Row {
        statement: "__asm__(\"movl %1\" \",%0\":\"=r\"(y):\"r\"(x))",
        printed: "a.c:1:20: ok\n",
        code: 0,
    },
    Row {
        statement: "__asm__(\"movl %1,%0\":\"=\" \"r\"(y):\"r\"(x))",
        printed: "a.c:1:20: ok\n",
        code: 0,
    },
];

// What a statement tells the compiler: malformed, without room, or outside the tables.
pub static INTERFACES: [Row; 15] = [
    Row {
        statement: "__asm__(\"\":\"r\"(y))",
        printed: "a.c:1:20: broken K2 at -: %0 -: the interface is malformed\n",
        code: 1,
    },
    Row {
        statement: "__asm__(\"\":\"=a\"(y):\"m\"(x):\"eax\")",
        printed: "a.c:1:20: broken K2 at -: %0 -: the interface is malformed\n",
        code: 1,
    },
    Row {
        statement: "__asm__(\"movl %1,%0\"::\"r\"(x))",
        printed: "a.c:1:20: broken K2 at -: - -: the interface is malformed\n",
        code: 1,
    },
    Row {
        statement: "__asm__(\"movl %1,%0\":[x]\"=r\"(y):[x]\"r\"(x))",
        printed: "a.c:1:20: broken K2 at -: %1 -: the interface is malformed\n",
        code: 1,
    },
    Row {
        statement: "__asm__(\"# %3\":\"r\"(y):\"=r\"(x))",
        printed: "a.c:1:20: broken K2 at -: %0 -: the interface is malformed\na.c:1:20: broken K2 at -: %1 -: the interface is malformed\na.c:1:20: broken K2 at -: - -: the interface is malformed\n",
        code: 1,
    },
    Row {
        statement: "__asm__(\"sete %0\":\"=@cce\"(y):\"r\"(x))",
        printed: "a.c:1:20: broken K2 at -: %0 -: the interface is malformed\n",
        code: 1,
    },
    Row {
        statement: "__asm__(\"\":\"=a\"(y):\"b\"(x),\"b\"(x))",
        printed: "a.c:1:20: broken K1 at -: - -: no placement has room\n",
        code: 1,
    },
    Row {
        statement: "__asm__(\"\":\"=a\"(y):\"a\"(x):\"edx\")",
        printed: "a.c:1:20: ok\n",
        code: 0,
    },
    Row {
        statement: "__asm__(\"\":\"=&a\"(y):\"a\"(x))",
        printed: "a.c:1:20: broken K1 at -: - -: no placement has room\n",
        code: 1,
    },
    Row {
        statement: "__asm__(\"nop\"::\"r\"(x):\"st\")",
        printed: "a.c:1:20: undecided clobber name at 1:42\n",
        code: 3,
    },
    Row {
        statement: "__asm__(\"nop\"::\"A\"(x))",
        printed: "a.c:1:20: undecided operand type at 1:39\n",
        code: 3,
    },
    Row {
        statement: "__asm__(\"nop\":\"=x\"(y))",
        printed: "a.c:1:20: undecided constraint at 1:34\n",
        code: 3,
    },
    Row {
        statement: "__asm__(\"nop\":\"=@ccpe\"(y))",
        printed: "a.c:1:20: undecided constraint at 1:34\n",
        code: 3,
    },
    Row {
        statement: "__asm__(\"a %q0\"::\"r\"(x))",
        printed: "a.c:1:20: undecided template form at 1:31\n",
        code: 3,
    },
    Row {
        statement: "__asm__(\"a %q0\":\"=x\"(y):\"A\"(x))",
        printed: "a.c:1:20: undecided operand type at 1:48\n",
        code: 3,
    },
];

// What the instructions of a template are read as, and whether the shapes agree on it.
pub static INSTRUCTIONS: [Row; 9] = [
    Row {
        statement: "__asm__(\"fsin\"::)",
        printed: "a.c:1:20: undecided instruction at 1:29\n",
        code: 3,
    },
    Row {
        statement: "__asm__(\"movl $,%0\":\"=r\"(y):\"r\"(x))",
        printed: "a.c:1:20: undecided instruction at 1:29\n",
        code: 3,
    },
    Row {
        statement: "__asm__(\"nop; lock; nop\"::)",
        printed: "a.c:1:20: undecided instruction at 1:34\n",
        code: 3,
    },
    Row {
        statement: "__asm__(\"btsl %1,%0\":\"+m\"(y):\"Ir\"(x):\"cc\")",
        printed: "a.c:1:20: undecided instruction at 1:29\n",
        code: 3,
    },
    Row {
        statement: "__asm__(\"movl %1,%0\":\"=m\"(y):\"g\"(x))",
        printed: "a.c:1:20: broken U1 at 1: - -: the shapes differ here\n",
        code: 1,
    },
    Row {
        statement: "__asm__(\"movl %%eax,%0\":\"=r,r\"(y):\"a,b\"(x),\"b,a\"(y))",
        printed: "a.c:1:20: broken U1 at 1: - -: the shapes differ here\n",
        code: 1,
    },
    Row {
        statement: "__asm__(\"cmp %2,%1; sete %b0\":\"=q,q\"(y):\"m,r\"(x),\"r,i\"((short)5):\"cc\")",
        printed: "a.c:1:20: broken U1 at 1: - -: the shapes differ here\n",
        code: 1,
    },
    Row {
        statement: "__asm__(\"jmp 1f\"::)",
        printed: "a.c:1:20: broken J1 at 1: - -: a jump leaves the block\n",
        code: 1,
    },
    Row {
        statement: "__asm__(\"1: movl %%eax,%0; jnz 1b; jz 2f\":\"=r,r\"(y):\"a,b\"(x),\"b,a\"(y))",
        printed: "a.c:1:20: broken U1 at 1: - -: the shapes differ here\na.c:1:20: broken J1 at 3: - -: a jump leaves the block\n",
        code: 1,
    },
];

// Whole files: no text of C tokens, without a statement, with statements outside the tables.
pub static FILES: [Row; 13] = [
    Row {
        statement: "char*s=\"ab",
        printed: "a.c:1:8: bad text: open string at 7\n",
        code: 6,
    },
    Row {
        statement: "\n\n /* no end",
        printed: "a.c:3:2: bad text: open comment at 3\n",
        code: 6,
    },
    Row {
        statement: "int a;\n  @",
        printed: "a.c:2:3: bad text: bad byte at 9\n",
        code: 6,
    },
    Row {
        statement: ")\n",
        printed: "a.c:1:1: bad text: unbalanced bracket at 0\n",
        code: 6,
    },
    Row {
        statement: "",
        printed: "",
        code: 0,
    },
    Row {
        statement: "char*s=\"ab\";",
        printed: "",
        code: 0,
    },
    Row {
        statement: "extern int g(void) __asm__(\"h\");\n",
        printed: "",
        code: 0,
    },
    Row {
        statement: "void f(void){__asm__(\"nop\");}\n",
        printed: "a.c:1:14: undecided statement form at 1:14\n",
        code: 3,
    },
    Row {
        statement: "__asm__(\"nop\"::);\n",
        printed: "a.c:1:1: undecided statement form at 1:1\n",
        code: 3,
    },
    Row {
        statement: "int f(void){\n  asm goto(\"jmp %l0\"::::out);\nout:return 0;}\n",
        printed: "a.c:2:3: undecided statement form at 2:3\n",
        code: 3,
    },
    Row {
        statement: "void f(void){asm(\"a\");asm(\"b\");}\n",
        printed: "a.c:1:14: undecided statement form at 1:14\na.c:1:23: undecided statement form at 1:23\n",
        code: 3,
    },
    Row {
        statement: "void f(int x){asm(\"a\");asm(\"b\"::\"r\"(x));}\n",
        printed: "a.c:1:15: undecided statement form at 1:15\na.c:1:24: undecided instruction at 1:29\n",
        code: 3,
    },
    Row {
        statement: "int f(int x,int y){__asm__(\"movl %1,%0\":\"=r\"(y):\"r\"(x));return y;}\n\n",
        printed: "a.c:1:20: ok\n",
        code: 0,
    },
];

// Whole files whose statements are judged by what their operands are.
pub static OPERANDS: [Row; 9] = [
    Row {
        statement: "typedef struct{int a;unsigned b;}t;void h(t*p){__asm__(\"movl %1,%0\":\"=r\"(p->b):\"r\"(p->a));}",
        printed: "a.c:1:48: ok\n",
        code: 0,
    },
    Row {
        statement: "typedef struct{short a;unsigned b;}t;void h(t*p){__asm__(\"movl %1,%0\":\"=r\"(p->b):\"r\"(p->a));}",
        printed: "a.c:1:50: undecided instruction at 1:59\n",
        code: 3,
    },
    Row {
        statement: "void f(int x){\n__asm__(\"movl %0,%0\"::\"r\"(x));\n}\nvoid g(int x){\n__asm__(\"movl $1,%0\"::\"r\"(x));\n}\n",
        printed: "a.c:2:1: ok\na.c:5:1: broken W2 at end: %0 -: an input is changed\n",
        code: 1,
    },
    Row {
        statement: "void f(int x){\n__asm__(\"movl %0,%0\"::\"r\"(x));\n}\nvoid g(void){\n__asm__(\"nop\");\n}\n",
        printed: "a.c:2:1: ok\na.c:5:1: undecided statement form at 5:1\n",
        code: 3,
    },
    Row {
        statement: "void f(int x){\n__asm__(\"movl $1,%0\"::\"r\"(x));\n__asm__(\"nop\");\n}\n",
        printed: "a.c:2:1: broken W2 at end: %0 -: an input is changed\na.c:3:1: undecided statement form at 3:1\n",
        code: 1,
    },
    Row {
        statement: "void f(int x,short s){\n__asm__(\"movl $1,%0\"::\"r\"(x));\n__asm__(\"movl %0,%0\"::\"r\"(s));\n}\n",
        printed: "a.c:2:1: broken W2 at end: %0 -: an input is changed\na.c:3:1: undecided instruction at 3:10\n",
        code: 1,
    },
    Row {
        statement: "short v;\nvoid f(void){int v;__asm__(\"movl %0,%0\"::\"r\"(v));}\n",
        printed: "a.c:2:20: ok\n",
        code: 0,
    },
    Row {
        statement: "int v;\nvoid f(void){short v;__asm__(\"movl %0,%0\"::\"r\"(v));}\n",
        printed: "a.c:2:22: undecided instruction at 2:31\n",
        code: 3,
    },
    Row {
        statement: "void f(void){__asm__(\"movl %0,%0\"::\"r\"(unknown));}\n",
        printed: "a.c:1:14: undecided operand type at 1:40\n",
        code: 3,
    },
];
