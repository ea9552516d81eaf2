#![tactic(auto)]

// The judge for C and for Rust: `judge` of the library, under the name that they link.
ghost use Rattle.judge.specs.Judging.{Judges};

use judge::Judged;

#[unsafe(no_mangle)]
pub extern "C" fn judge(table: &[u8], sheet: &[u8], out: &mut [u8]) -> Judged
    ensures { Judges table.now sheet.now out.old out.new result }
{
    judge::judge(table, sheet, out)
}
