// Tables and sheets that are refused: the label begins with the number.
use crate::Case;

// Refused for how the table or the sheet is written.
pub(crate) const BY_FORM: [Case; 10] = [
    ("the table's 1 before the sheet's 9", b"", b""),
    ("2", b"yes", b"0\t-\t-\n"),
    ("5", b"go\t1\t5\n", b"0\t-\t-\n"),
    ("6", b"yes\nany\t1\t1\n", b"0\t-\t-\n"),
    ("9: no lines", b"yes\n", b""),
    ("9: name 16", b"yes\n", b"0\t1\t-\n16\t-\t-\n"),
    ("9: leading zero", b"yes\n", b"0\t01\t-\n0\t-\t-\n"),
    ("9: four digits", b"yes\n", b"0\t1000\t-\n"),
    ("9: no line feed", b"yes\n", b"0\t1\t-\n0\t-\t-"),
    ("9: two fields", b"yes\n", b"0\t-\n"),
];

// Refused for what the lines of the sheet name.
pub(crate) const BY_TREE: [Case; 7] = [
    ("10: itself", b"yes\n", b"0\t0\t-\n"),
    ("10: not there", b"yes\n", b"0\t999\t-\n"),
    ("10: a smaller one", b"yes\n", b"0\t1\t-\n0\t0\t-\n"),
    ("10: named never", b"yes\n", b"0\t-\t-\n0\t-\t-\n"),
    ("10: named by two", b"yes\n", b"0\t1\t2\n0\t-\t2\n0\t-\t-\n"),
    ("10: named by one twice", b"yes\n", b"0\t1\t1\n0\t-\t-\n"),
    ("9 before 10", b"yes\n", b"0\t0\t-\n0\t-\t-"),
];
