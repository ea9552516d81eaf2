// What is written of a judged sheet: how long it is, and its lines into lent bytes.
ghost use Rattle.std.specs.Prelude.{◌≡◌, ◌≤◌, length};
ghost use Rattle.sheets.specs.Lines.{line_limit};
ghost use Rattle.judge.specs.Output.{verdict_lines};
ghost use Rattle.judge.specs.Writing.{digits_of, OutputLength, Written, output_limit};

use crate::OUTPUT;
use crate::writer::Writer;
use sheets::Sheet;
use table::Table;

// Each line has four bytes, one more from line 10 on and again one more from line 100 on.
#[tactic(auto, using(crate::proofs::Verdicts::output_length_lem))]
pub(crate) fn length_of(n: usize) -> usize
    requires { n ≤ line_limit }
    ensures output_length { OutputLength n result }
    ensures limit { OUTPUT ≡ output_limit }
{
    4 * n + n.saturating_sub(10) + n.saturating_sub(100)
}

// n stands beside the whole array: what is promised of it (`Decided`) would have to be carried over to a part.
pub(crate) fn write(truth: &[[bool; Table::ROWS]; Sheet::LINES], n: usize, out: &mut [u8]) -> usize
    requires { (n ≤ line_limit) × (length (verdict_lines 0 (digits_of truth.now 0 n)) ≤ length out.old) }
    ensures { Written truth.now n out.old out.new result }
{
    let mut writer = Writer::new(out);
    for (i, rows) in truth[..n].iter().enumerate() {
        writer.line(i, rows[0]);
    }
    writer.written()
}
