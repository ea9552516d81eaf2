#![tactic(auto)]

// Reads a table from standard input and prints whether some finite sheet satisfies its row 0.
use std::io;
use table::Table;

fn main(rt: HostRuntime) -> io::Result<()> {
    let mut text = [0u8; Table::TEXT];
    let n = show::read_full(&mut rt.stdin(), &mut text)?;
    // Arrays of 4096 places each: the specification names this form.
    let mut round = [0u16; 4096];
    let mut first = [0u16; 4096];
    let mut next = [0u16; 4096];
    let mut used = [0u8; 4096];
    show::show(
        &mut rt.stdout(),
        &text[..n],
        &mut round,
        &mut first,
        &mut next,
        &mut used,
    )
}
