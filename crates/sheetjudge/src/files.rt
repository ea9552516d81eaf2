// The files that the arguments name.
use std::rt::{Env, Files};
use std::{fs, io};

// The longest name that is taken.
pub(crate) const NAME: usize = 4096;

// Why an argument names no file that can be read.
#[derive(Clone, Copy)]
pub(crate) enum Fault<'a> {
    NameTooLong,
    NameNotUtf8,
    NotOpened(&'a str, io::Error),
}

// The table and the sheet, in this order. The names are read into lent memory, so that a fault can say which it is.
pub(crate) fn open_both<'a, R: Env + Files>(
    rt: &R,
    table: &'a mut [u8; NAME],
    sheet: &'a mut [u8; NAME],
) -> Result<(R::File, R::File), Fault<'a>> {
    Ok((open(rt, 1, table)?, open(rt, 2, sheet)?))
}

fn open<'a, R: Env + Files>(
    rt: &R,
    i: usize,
    name: &'a mut [u8; NAME],
) -> Result<R::File, Fault<'a>> {
    let n = rt.arg(i, name).map_err(|_| Fault::NameTooLong)?;
    let path = str::from_utf8(&name[..n]).map_err(|_| Fault::NameNotUtf8)?;
    fs::open(rt, path).map_err(|error| Fault::NotOpened(path, error))
}

impl Fault<'_> {
    // No Display: the system's words are formatted before their number can be cut off, and a Display has no memory for that.
    pub(crate) fn say<R: Eprint + Alloc>(self, rt: &R) -> io::Result<()> {
        match self {
            Fault::NameTooLong => eprintln!(rt; "sheetjudge: File name too long"),
            Fault::NameNotUtf8 => eprintln!(rt; "sheetjudge: File name not in UTF-8"),
            Fault::NotOpened(name, error) => {
                let text = format!(in rt.alloc(); "{error}")?;
                eprintln!(rt; "{name}: {}", reason(text.as_str()))
            }
        }
    }
}

// The words of an error, without its number.
fn reason(error: &str) -> &str {
    error
        .split_once(" (os error ")
        .map_or(error, |(words, _)| words)
}
