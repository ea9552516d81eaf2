#![tactic(auto)]

// The truth of each row of a table at each line of a sheet.
mod asked;
mod cell;
mod found;
mod search;
mod spots;

ghost use Rattle.std.specs.Prelude.{◌≤◌, length};
ghost use Rattle.meaning.specs.Table.{row_limit, InRange};
ghost use Rattle.table.specs.Rows.{table_in};
ghost use Rattle.sheets.specs.Lines.{line_limit};
ghost use Rattle.sheets.specs.Links.{FaultFree};
ghost use Rattle.truths.specs.Decided.{Decided};

use asked::Asked;
use found::Found;
use sheets::{Line, Sheet};
use table::{Row, Table};

// One for each line and row.
pub const CELLS: usize = Sheet::LINES * Table::ROWS;

// Whether each row is true at each line: a line's rows stand together, in a whole square, as no heap is allowed. What is asked here is what `Asked` holds from then on.
pub fn truths_of(rows: &[Row], lines: &[Line]) -> [[bool; Table::ROWS]; Sheet::LINES]
    requires { (length rows.now ≤ row_limit) × InRange (table_in rows.now) × (length lines.now ≤ line_limit) × FaultFree lines.now }
    ensures { Decided (table_in rows.now) lines.now result }
{
    let spots = spots::spots_of(rows, lines);
    let asked = Asked {
        rows,
        spots: &spots[..lines.len()],
    };
    let mut found = Found::new();
    asked.settle(&mut found);
    found.truth
}
