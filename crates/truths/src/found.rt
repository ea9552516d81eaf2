// What is found true so far, and in which order it was found.
ghost use Rattle.std.specs.Prelude.{◌≡◌, false, replicate};
ghost use Rattle.truths.specs.Found.{FoundAt, Grid, Queued, Entered};
ghost use Rattle.table.specs.Decides.{Decides};
ghost use Rattle.meaning.specs.Table.{row_limit};
ghost use Rattle.sheets.specs.Lines.{line_limit};

use crate::CELLS;
use crate::cell::Cell;
use sheets::Sheet;
use table::Table;
use table::at_most::AtMost;

// The queue has each cell found once.
#[derive(Drop)]
pub(crate) struct Found {
    pub truth: [[bool; Table::ROWS]; Sheet::LINES],
    pub queue: AtMost<Cell, CELLS>,
    ghost grid: { Grid truth },
    ghost queued: { Queued truth queue.items queue.len },
}

impl Found {
    pub(crate) fn new() -> Found
        ensures { (result.truth ≡ replicate line_limit (replicate row_limit false)) × (result.queue.len ≡ 0) }
    {
        Found {
            truth: [[false; Table::ROWS]; Sheet::LINES],
            queue: AtMost::new(Cell { line: 0, row: 0 }),
        }
    }

    // Nothing is found at a line or of a row that there can't be.
    pub(crate) fn has(&self, cell: Cell) -> bool
        ensures { Decides result (FoundAt self.now.truth cell.line cell.row) }
    {
        self.truth
            .get(usize::from(cell.line))
            .and_then(|rows| rows.get(usize::from(cell.row)))
            .copied()
            .unwrap_or(false)
    }

    // The cell is found, if it is one and was not found before.
    pub(crate) fn enter(&mut self, cell: Cell)
        ensures { Entered cell self.old.truth self.old.queue.items self.old.queue.len self.new.truth self.new.queue.items self.new.queue.len }
    {
        let line = usize::from(cell.line);
        let row = usize::from(cell.row);
        if line < Sheet::LINES && row < Table::ROWS && !self.has(cell) {
            self.truth[line][row] = true;
            self.queue.push(cell);
        }
    }
}
