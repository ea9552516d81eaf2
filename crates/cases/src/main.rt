#![tactic(auto)]

// The reference tables of the specification and the edges of the text, each shown as `sheetsat` shows it.
mod edges;
mod reference;

use std::io;
use std::io::Write;
use table::Table;

// A label, and the text of a table.
pub(crate) type Case = (&'static str, &'static [u8]);

// How many codes `sheetsat` has room for.
const USUAL: usize = 4096;

// Lends as many places as are asked for, of arrays that have one for each code of the largest table.
fn show_case<W: Write>(out: &mut W, places: usize, case: &Case) -> io::Result<()> {
    let (label, text) = *case;
    writeln!(out, "{label}")?;
    let mut round = [0u16; Table::CODES];
    let mut first = [0u16; Table::CODES];
    let mut next = [0u16; Table::CODES];
    let mut used = [0u8; Table::CODES];
    let n = places.min(Table::CODES);
    show::show(
        out,
        text,
        &mut round[..n],
        &mut first[..n],
        &mut next[..n],
        &mut used[..n],
    )
}

fn show_cases<W: Write>(out: &mut W, places: usize, cases: &[Case]) -> io::Result<()> {
    cases
        .iter()
        .try_for_each(|case| show_case(out, places, case))
}

fn main(rt: HostRuntime) -> io::Result<()> {
    let mut out = rt.stdout();
    show_cases(&mut out, USUAL, &reference::ANSWERED)?;
    show_cases(&mut out, USUAL, &reference::REFUSED)?;
    show_cases(&mut out, Table::CODES, &reference::MOST_LOOKS)?;
    show_cases(&mut out, USUAL, &reference::MOST_LOOKS_IN_ROOM)?;
    show_cases(&mut out, USUAL, &edges::FORMS)?;
    show_cases(&mut out, USUAL, &edges::NUMBERS)?;
    show_cases(&mut out, USUAL, &edges::LENGTHS)?;
    show_cases(&mut out, USUAL, &edges::LOOPS)
}
