#![tactic(auto)]

// Where a rule holds on a sheet: the truth of row 0 at each of its lines.
mod output;
mod writer;

ghost use Rattle.table.specs.Rows.{table_in};
ghost use Rattle.judge.specs.Judging.{judged_of, JudgesLines, Judges, Small};
ghost use Rattle.judge.specs.Ready.{Ready};

use sheets::Line;
use table::Row;
use table::refusal::Refusal;

// What crosses to another language: how many bytes were written, or a refusal and its place.
#[repr(C)]
#[derive(Clone, Copy)]
pub struct Judged {
    pub written: u32,
    pub refusal: u32,
    pub place: u32,
}

// The most bytes that are written: 10 lines of 4 bytes, 90 of 5 and 155 of 6.
pub const OUTPUT: usize = 1420;

pub fn judge(table: &[u8], sheet: &[u8], out: &mut [u8]) -> Judged
    ensures { Judges table.now sheet.now out.old out.new result }
{
    match judge_texts(table, sheet, out) {
        Ok(bytes) => Judged {
            written: bytes as u32,
            refusal: 0,
            place: 0,
        },
        // No From: a place is a usize, which any caller may have made large. Those of `judge_texts` are small.
        Err(refusal) => Judged {
            written: 0,
            refusal: refusal.number(),
            place: refusal.place() as u32,
        },
    }
}

// How many bytes are written, or why none are. The sheet is looked at once the table is admitted.
pub fn judge_texts(table: &[u8], sheet: &[u8], out: &mut [u8]) -> Result<usize, Refusal>
    ensures judges { Judges table.now sheet.now out.old out.new (judged_of result) }
    ensures small { Small result }
{
    let loaded = intake::admit(table)?;
    let sheet = sheets::load(sheet)?;
    judge_lines(loaded.table.rows(), sheet.lines(), out)
}

// The memory is tested before anything is worked out, so that a refusal costs nothing. `Ready` is asked here alone, so no struct holds it.
fn judge_lines(rows: &[Row], lines: &[Line], out: &mut [u8]) -> Result<usize, Refusal>
    requires { Ready rows.now lines.now }
    ensures judges { JudgesLines (table_in rows.now) lines.now out.old out.new (judged_of result) }
    ensures small { Small result }
{
    if out.len() < output::length_of(lines.len()) {
        return Err(Refusal::NoRoom);
    }
    let truth = truths::truths_of(rows, lines);
    Ok(output::write(&truth, lines.len(), out))
}
