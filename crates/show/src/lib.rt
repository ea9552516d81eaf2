#![tactic(auto)]

// What the programs read and print: `sheetsat` for a table, `sheetjudge` for a table and a sheet. Every number and every verdict comes from the
// library; here it is only put into words. The words before the first tab are byte strings: the specification names this form.
mod listing;
mod reading;
mod refused;

use listing::Listing;
pub use reading::read_full;
use refused::Refused;
use rounds::Found;
use std::io;
use std::io::Write;
use std::num::NonZeroUsize;
use table::refusal::Refusal;

// Solves the text in the memory that is lent, four slices as C lends them, and prints the answer.
pub fn show<W: Write>(
    out: &mut W,
    text: &[u8],
    round: &mut [u16],
    first: &mut [u16],
    next: &mut [u16],
    used: &mut [u8],
) -> io::Result<()> {
    match solver::reply(text, round, first, next, used) {
        Ok(Found::Sat { height, top }) => {
            out.write_all(b"sat")?;
            writeln!(out, "\t{height}\t{top}")?;
            // A text that has an answer has names; a width of 0 is for one that is refused.
            let Some(width) = NonZeroUsize::new(solver::name_width(text)) else {
                return Ok(());
            };
            let listing = Listing {
                round,
                first,
                next,
                used,
                width,
            };
            listing.write(out, height)
        }
        Ok(Found::Unsat { rounds }) => {
            out.write_all(b"unsat")?;
            writeln!(out, "\t{rounds}")
        }
        Err(refusal) => show_refused(out, refusal),
    }
}

// Judges the sheet by the table, and prints a line for each of its lines.
pub fn show_judged<W: Write>(out: &mut W, table: &[u8], sheet: &[u8]) -> io::Result<()> {
    let mut bytes = [0u8; judge::OUTPUT];
    match judge::judge_texts(table, sheet, &mut bytes) {
        Ok(n) => out.write_all(&bytes[..n]),
        Err(refusal) => show_refused(out, refusal),
    }
}

fn show_refused<W: Write>(out: &mut W, refusal: Refusal) -> io::Result<()> {
    let refused = Refused(refusal);
    out.write_all(b"refused")?;
    writeln!(out, "\t{refused}")
}
