// The reference tables of the specification, each with its number there.
use crate::Case;

// Tables that have an answer.
pub(crate) const ANSWERED: [Case; 11] = [
    ("1", b"yes\n"),
    ("2", b"no\n"),
    ("3", b"is\t1\n"),
    ("4", b"all\t1\t2\nis\t1\nis\t2\n"),
    ("5", b"go\t1\t1\nis\t1\n"),
    ("6", b"go\t3\t1\nyes\n"),
    ("7", b"any\t1\t2\nis\t1\ngo\t1\t0\n"),
    ("8", b"go\t1\t0\n"),
    ("9", b"go\t1\t1\nall\t2\t3\nis\t1\ngo\t3\t4\nis\t2\n"),
    ("10", b"all\t1\t2\ngo\t1\t3\ngo\t2\t3\nyes\n"),
    ("11", b"go\t1\t1\ngo\t4\t0\n"),
];

// Tables that are refused.
pub(crate) const REFUSED: [Case; 7] = [
    ("12", b"any\t0\t0\n"),
    ("12", b"go\t1\t1\ngo\t3\t0\n"),
    ("13", b"go\t1\t5\n"),
    ("13", b"is\t16\n"),
    ("13", b"go\t5\t0\n"),
    ("13", b"yes"),
    ("13", b"is\t01\n"),
];

// The most look rows that a table may have, and one more.
pub(crate) const MOST_LOOKS: [Case; 2] = [
    (
        "14, twelve",
        b"go\t1\t0\ngo\t1\t0\ngo\t1\t0\ngo\t1\t0\ngo\t1\t0\ngo\t1\t0\ngo\t1\t0\ngo\t1\t0\ngo\t1\t0\ngo\t1\t0\ngo\t1\t0\ngo\t1\t0\n",
    ),
    (
        "14, thirteen",
        b"go\t1\t0\ngo\t1\t0\ngo\t1\t0\ngo\t1\t0\ngo\t1\t0\ngo\t1\t0\ngo\t1\t0\ngo\t1\t0\ngo\t1\t0\ngo\t1\t0\ngo\t1\t0\ngo\t1\t0\ngo\t1\t0\n",
    ),
];

// The most look rows that the memory of `sheetsat` has room for, and one more.
pub(crate) const MOST_LOOKS_IN_ROOM: [Case; 2] = [
    (
        "14, eight",
        b"go\t1\t0\ngo\t1\t0\ngo\t1\t0\ngo\t1\t0\ngo\t1\t0\ngo\t1\t0\ngo\t1\t0\ngo\t1\t0\n",
    ),
    (
        "14, nine",
        b"go\t1\t0\ngo\t1\t0\ngo\t1\t0\ngo\t1\t0\ngo\t1\t0\ngo\t1\t0\ngo\t1\t0\ngo\t1\t0\ngo\t1\t0\n",
    ),
];
