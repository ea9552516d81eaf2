// A text turned into a sheet, or refused with 9.
ghost use Rattle.sheets.specs.Reading.{Answers};

use crate::{Sheet, lines};
use reader::rest::Rest;
use table::refusal::Refusal;

// Each line is read where the one before it ended; the first faulty one ends the reading.
// Not one loop with the reader's of rows: blank, limit, what reads one, what is refused and where all differ, and a row has a further test.
#[tactic(auto, using(crate::proofs::Sheets::steps))]
pub(crate) fn read_text(text: &[u8]) -> Result<Sheet, Refusal>
    ensures { Answers text.now result }
{
    let mut rest = Rest::of(text);
    if rest.is_empty() {
        return Err(Refusal::MalformedLine(0));
    }
    let mut sheet = Sheet::new();
    while !rest.is_empty() {
        let n = sheet.lines.len;
        if n == Sheet::LINES {
            return Err(Refusal::MalformedLine(Sheet::LINES));
        }
        let line = lines::read_line(&mut rest).ok_or(Refusal::MalformedLine(n))?;
        sheet.add_line(line);
    }
    Ok(sheet)
}
