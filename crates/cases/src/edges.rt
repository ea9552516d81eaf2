// The edges of the text.
use crate::Case;

// How lines are parted and ended, and which words stand in them.
pub(crate) const FORMS: [Case; 13] = [
    ("empty text", b""),
    ("blank line", b"yes\n\n"),
    ("blank line first", b"\nyes\n"),
    ("no final line feed", b"yes\nno"),
    ("CR before line feed", b"yes\r\n"),
    ("tab at the end", b"is\t1\t\n"),
    ("two tabs", b"is\t\t1\n"),
    ("blank for a tab", b"is 1\n"),
    ("NUL byte", b"yes\0\n"),
    ("upper case", b"Yes\n"),
    ("a field too few", b"any\t0\n"),
    ("a field too many", b"yes\t0\n"),
    ("word run on", b"isnt\t1\n"),
];

// Numbers: how they are written, how large they may be, and what is refused first.
pub(crate) const NUMBERS: [Case; 12] = [
    ("is 100", b"is\t100\n"),
    ("is 00", b"is\t00\n"),
    ("any 99 0", b"any\t99\t0\n"),
    ("any 99 99", b"yes\nany\t99\t99\n"),
    ("go 10 0", b"go\t10\t0\n"),
    ("go 10 x", b"go\t10\tx\n"),
    ("stop 0", b"stop\t0\n"),
    ("stop 4", b"stop\t4\n"),
    ("isnot 15", b"isnot\t15\n"),
    ("isnot 0", b"isnot\t0\n"),
    ("4 on line 1, 2 on line 2", b"yes\nis\t16\nnope\n"),
    ("2 on line 1, 4 on line 2", b"yes\nnope\nis\t16\n"),
];

// How many rows a table may have, and how large it may grow.
pub(crate) const LENGTHS: [Case; 4] = [
    (
        "48 rows",
        b"no\nno\nno\nno\nno\nno\nno\nno\nno\nno\nno\nno\nno\nno\nno\nno\nno\nno\nno\nno\nno\nno\nno\nno\nno\nno\nno\nno\nno\nno\nno\nno\nno\nno\nno\nno\nno\nno\nno\nno\nno\nno\nno\nno\nno\nno\nno\nno\n",
    ),
    (
        "49 rows",
        b"no\nno\nno\nno\nno\nno\nno\nno\nno\nno\nno\nno\nno\nno\nno\nno\nno\nno\nno\nno\nno\nno\nno\nno\nno\nno\nno\nno\nno\nno\nno\nno\nno\nno\nno\nno\nno\nno\nno\nno\nno\nno\nno\nno\nno\nno\nno\nno\nno\n",
    ),
    (
        "a 49th line of wrong form",
        b"no\nno\nno\nno\nno\nno\nno\nno\nno\nno\nno\nno\nno\nno\nno\nno\nno\nno\nno\nno\nno\nno\nno\nno\nno\nno\nno\nno\nno\nno\nno\nno\nno\nno\nno\nno\nno\nno\nno\nno\nno\nno\nno\nno\nno\nno\nno\nno\n?",
    ),
    (
        "47 rows that double",
        b"any\t1\t1\nany\t2\t2\nany\t3\t3\nany\t4\t4\nany\t5\t5\nany\t6\t6\nany\t7\t7\nany\t8\t8\nany\t9\t9\nany\t10\t10\nany\t11\t11\nany\t12\t12\nany\t13\t13\nany\t14\t14\nany\t15\t15\nany\t16\t16\nany\t17\t17\nany\t18\t18\nany\t19\t19\nany\t20\t20\nany\t21\t21\nany\t22\t22\nany\t23\t23\nany\t24\t24\nany\t25\t25\nany\t26\t26\nany\t27\t27\nany\t28\t28\nany\t29\t29\nany\t30\t30\nany\t31\t31\nany\t32\t32\nany\t33\t33\nany\t34\t34\nany\t35\t35\nany\t36\t36\nany\t37\t37\nany\t38\t38\nany\t39\t39\nany\t40\t40\nany\t41\t41\nany\t42\t42\nany\t43\t43\nany\t44\t44\nany\t45\t45\nany\t46\t46\nany\t47\t47\nno\n",
    ),
];

// Rows that need each other.
pub(crate) const LOOPS: [Case; 5] = [
    (
        "a loop of four directions",
        b"go\t1\t1\ngo\t2\t2\ngo\t4\t3\ngo\t3\t0\n",
    ),
    (
        "a loop that needs two turns",
        b"any\t1\t3\ngo\t1\t2\ngo\t1\t0\ngo\t3\t0\n",
    ),
    (
        "a near-loop that is accepted",
        b"go\t1\t1\ngo\t4\t2\ngo\t3\t0\n",
    ),
    (
        "a loop in rows that nothing uses",
        b"yes\nall\t2\t2\nall\t1\t1\n",
    ),
    ("5 before 6", b"any\t0\t0\ngo\t1\t9\n"),
];
