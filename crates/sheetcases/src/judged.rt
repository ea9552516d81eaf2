// Sheets that are judged.
use crate::Case;

// Where row 0 is true.
pub(crate) const TRUTHS: [Case; 9] = [
    ("a sheet of one line", b"yes\n", b"0\t-\t-\n"),
    ("a name", b"is\t1\n", b"1\t1\t2\n0\t-\t-\n1\t-\t-\n"),
    (
        "a name that the table does not know counts as 0",
        b"is\t0\n",
        b"15\t-\t-\n",
    ),
    (
        "and one that it knows does not",
        b"any\t1\t2\nis\t0\nis\t15\n",
        b"15\t1\t-\n14\t-\t-\n",
    ),
    (
        "up from the first child only",
        b"go\t3\t1\nis\t1\n",
        b"1\t1\t-\n0\t-\t2\n0\t-\t-\n",
    ),
    (
        "back from the one after",
        b"go\t4\t1\nis\t0\n",
        b"1\t1\t-\n0\t-\t2\n0\t-\t-\n",
    ),
    (
        "down to where nothing follows",
        b"any\t1\t2\nall\t3\t4\ngo\t1\t0\nis\t1\nstop\t1\n",
        b"0\t1\t4\n0\t2\t3\n1\t-\t-\n0\t-\t-\n0\t-\t-\n",
    ),
    (
        "no end, and so never true",
        b"go\t3\t0\n",
        b"0\t1\t-\n0\t-\t-\n",
    ),
    (
        "thirteen looks",
        b"go\t1\t0\ngo\t1\t0\ngo\t1\t0\ngo\t1\t0\ngo\t1\t0\ngo\t1\t0\ngo\t1\t0\ngo\t1\t0\ngo\t1\t0\ngo\t1\t0\ngo\t1\t0\ngo\t1\t0\ngo\t1\t0\n",
        b"0\t-\t-\n",
    ),
];
