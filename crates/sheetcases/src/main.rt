#![tactic(auto)]

// Sheets held against tables, as `sheetjudge` shows them. The cases are worked out by hand.
mod judged;
mod refused;

use std::io;
use std::io::Write;

// A label, the text of a table and that of a sheet.
pub(crate) type Case = (&'static str, &'static [u8], &'static [u8]);

fn show_case<W: Write>(out: &mut W, case: &Case) -> io::Result<()> {
    let (label, table, sheet) = *case;
    writeln!(out, "{label}")?;
    show::show_judged(out, table, sheet)
}

// The chain of `cases` over other cases: one for both would be handed what shows a case, and is no plainer.
fn show_cases<W: Write>(out: &mut W, cases: &[Case]) -> io::Result<()> {
    cases.iter().try_for_each(|case| show_case(out, case))
}

fn main(rt: HostRuntime) -> io::Result<()> {
    let mut out = rt.stdout();
    show_cases(&mut out, &judged::TRUTHS)?;
    show_cases(&mut out, &refused::BY_FORM)?;
    show_cases(&mut out, &refused::BY_TREE)
}
