#![tactic(auto)]

// A text turned into a table, or refused with 1 to 4.
ghost use Rattle.reader.specs.Reading.{Answers};

use rest::Rest;
use table::Table;
use table::refusal::Refusal;

mod lines;
pub mod rest;

// Each line is read where the one before it ended; the first faulty one ends the reading.
// Not one loop with that of a sheet's lines: blank, limit, what reads one, what is refused and where all differ, and here rows have a further test.
#[tactic(auto, using(crate::proofs::Tables::steps))]
pub fn read_text(text: &[u8]) -> Result<Table, Refusal>
    ensures { Answers text.now result }
{
    let mut rest = Rest::of(text);
    if rest.is_empty() {
        return Err(Refusal::Empty);
    }
    let mut t = Table::new();
    while !rest.is_empty() {
        let n = t.rows.len;
        if n == Table::ROWS {
            return Err(Refusal::TooMany);
        }
        let row = lines::read_row(&mut rest).ok_or(Refusal::Malformed(n))?;
        if !lines::exists(row) {
            return Err(Refusal::NotThere(n));
        }
        t.add_row(row);
    }
    Ok(t)
}
