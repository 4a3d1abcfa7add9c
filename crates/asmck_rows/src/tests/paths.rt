// What instructions do, worked out by hand.
use super::rows::Row;

// What the instructions do along the paths of a template.
pub static PATHS: [Row; 11] = [
    Row {
        statement: "__asm__(\"xorl %%eax,%%eax; movl %%eax,%0\":\"=r\"(y))",
        printed: "a.c:1:20: broken W1 at end: eax -: a register is not as at entry\n",
        code: 1,
    },
    Row {
        statement: "__asm__(\"movl $2147483648,%0\":\"=r\"(y):\"r\"(x))",
        printed: "a.c:1:20: ok\n",
        code: 0,
    },
    Row {
        statement: "__asm__(\"movl $01,%0\":\"=r\"(y):\"r\"(x))",
        printed: "a.c:1:20: ok\n",
        code: 0,
    },
    Row {
        statement: "__asm__(\"movl %0,%0\":\"=r\"(y):\"r\"(x))",
        printed: "a.c:1:20: broken R2 at end: %0 -: the old value of an output is used\n",
        code: 1,
    },
    Row {
        statement: "__asm__(\"addl %1,%0\":\"=r\"(y):\"r\"(x))",
        printed: "a.c:1:20: broken R2 at end: %0 -: the old value of an output is used\n",
        code: 1,
    },
    Row {
        statement: "__asm__(\"movl $1,%0; movl %1,%0\":\"=r\"(y):\"r\"(x))",
        printed: "a.c:1:20: broken U3 at end: %0 %1: a place is overwritten before it is used\n",
        code: 1,
    },
    Row {
        statement: "__asm__(\"movl %1,%0;\":\"=r\"(y):\"r\"(x))",
        printed: "a.c:1:20: ok\n",
        code: 0,
    },
    Row {
        statement: "__asm__(\"movl %1,%0;movl %0,%0\":\"=r\"(y):\"r\"(x))",
        printed: "a.c:1:20: ok\n",
        code: 0,
    },
    Row {
        statement: "__asm__(\"movl %1, %0\":\"=r\"(y):\"r\"(x))",
        printed: "a.c:1:20: ok\n",
        code: 0,
    },
    Row {
        statement: "__asm__(\"\":\"=r\"(y):\"r\"(x))",
        printed: "a.c:1:20: broken R2 at end: %0 -: the old value of an output is used\n",
        code: 1,
    },
    Row {
        statement: "__asm__(\"movl %1,%0\":\"=r\"(y):\"r\"(x):\"memory\")",
        printed: "a.c:1:20: ok\n",
        code: 0,
    },
];

// Statements that change flags without `cc`, by the strict rule.
pub static STRICT: [Row; 4] = [
    Row {
        statement: "__asm__(\"addl %1,%0\":\"+r\"(y):\"r\"(x))",
        printed: "a.c:1:20: broken W3 at end: cc -: the flags are not as at entry\n",
        code: 1,
    },
    Row {
        statement: "__asm__(\"addl %1,%0\":\"+r\"(y):\"r\"(x):\"cc\")",
        printed: "a.c:1:20: ok\n",
        code: 0,
    },
    Row {
        statement: "__asm__(\"addl $1,%0\"::\"r\"(x))",
        printed: "a.c:1:20: broken W2 at end: %0 -: an input is changed\na.c:1:20: broken W3 at end: cc -: the flags are not as at entry\n",
        code: 1,
    },
    Row {
        statement: "__asm__(\"xorl %%eax,%%eax; movl %%eax,%0\":\"=r\"(y))",
        printed: "a.c:1:20: broken W1 at end: eax -: a register is not as at entry\na.c:1:20: broken W3 at end: cc -: the flags are not as at entry\n",
        code: 1,
    },
];
