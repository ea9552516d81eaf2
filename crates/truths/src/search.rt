// The truth of each row at each line: each cell found true is handed on once to the cells that rest on it.
ghost use Rattle.std.specs.Prelude.{◌≡◌};
ghost use Rattle.table.specs.Decides.{Decides};
ghost use Rattle.table.specs.Rows.{meant, table_in};
ghost use Rattle.truths.specs.Found.{FoundAt};
ghost use Rattle.truths.specs.Search.{Says, SaidAt, AllTrue, RestsAt, Handled, OnLine, AnyCell, Only, Resting, Settled};

use crate::asked::Asked;
use crate::cell::Cell;
use crate::found::Found;
use crate::spots::Spot;
use loops::rules::refers_to;
use table::Row;
use table::direction::Direction;

impl Asked<'_> {
    // All that is true is found, where nothing else was.
    #[tactic(auto, using(crate::proofs::Handing::all_settled, counts::proofs::Laws::table_long))]
    pub(crate) fn settle(&self, found: &mut Found)
        ensures { AllTrue (table_in self.now.rows.now) self.now.spots.now found.old.truth → Settled (table_in self.now.rows.now) self.now.spots.now found.new.truth }
    {
        self.seed(found);
        // An index by hand: the queue grows while it is read, so no iterator can go over it.
        let mut head: usize = 0;
        while head < found.queue.len {
            let cell = found.queue.items[head];
            self.hand_on(found, cell);
            head += 1;
        }
    }

    // Finds what is true by itself.
    fn seed(&self, found: &mut Found)
        ensures { Handled (table_in self.now.rows.now) self.now.spots.now AnyCell found.old found.new }
    {
        for line in 0..self.spots.len() as u8 {
            self.seed_line(found, line);
        }
    }

    fn seed_line(&self, found: &mut Found, line: u8)
        ensures { Handled (table_in self.now.rows.now) self.now.spots.now (OnLine line) found.old found.new }
    {
        for row in 0..self.rows.len() as u8 {
            self.visit(found, Cell { line, row });
        }
    }

    // Visits each row where it rests on the cell.
    fn hand_on(&self, found: &mut Found, cell: Cell)
        ensures { Handled (table_in self.now.rows.now) self.now.spots.now (Resting (table_in self.now.rows.now) self.now.spots.now cell) found.old found.new }
    {
        for (i, row) in self.rows.iter().enumerate() {
            if let Some(line) = self.rests_at(*row, cell) {
                self.visit(found, Cell { line, row: i as u8 });
            }
        }
    }

    // A cell that is true by what is found is found.
    #[tactic(auto, using(crate::proofs::Handled::handled_new, counts::proofs::Laws::table_long))]
    fn visit(&self, found: &mut Found, cell: Cell)
        ensures { Handled (table_in self.now.rows.now) self.now.spots.now (Only cell) found.old found.new }
    {
        if self.is_said(found, cell) {
            found.enter(cell);
        }
    }

    // A cell of no row or of no line is never true.
    fn is_said(&self, found: &Found, cell: Cell) -> bool
        ensures { Decides result (SaidAt (table_in self.now.rows.now) self.now.spots.now found.now.truth cell.line cell.row) }
    {
        match (
            self.rows.get(usize::from(cell.row)),
            self.spots.get(usize::from(cell.line)),
        ) {
            (Some(row), Some(spot)) => says(*row, spot, found, cell.line),
            _ => false,
        }
    }

    // The line at which what a row says rests on a cell, if there is one.
    fn rests_at(&self, row: Row, cell: Cell) -> Option<u8>
        ensures { RestsAt self.now.spots.now (meant row) cell result }
    {
        if refers_to(row, usize::from(cell.row)) {
            return Some(cell.line);
        }
        match row {
            Row::Go(d, i) if i == cell.row => self
                .spots
                .get(usize::from(cell.line))?
                .near(Direction::of(d).converse()),
            _ => None,
        }
    }
}

// Whether a row is true by what is found, at a line of which the spot tells.
fn says(row: Row, spot: &Spot, found: &Found, line: u8) -> bool
    ensures { Decides result (Says spot.now (FoundAt found.now.truth) (meant row) line) }
{
    match row {
        Row::Yes => true,
        Row::No => false,
        Row::Is(n) => spot.name == n,
        Row::Isnot(n) => spot.name != n,
        Row::Any(i, j) => found.has(Cell { line, row: i }) || found.has(Cell { line, row: j }),
        Row::All(i, j) => found.has(Cell { line, row: i }) && found.has(Cell { line, row: j }),
        Row::Go(d, row) => spot
            .near(Direction::of(d))
            .is_some_and(|line| found.has(Cell { line, row })),
        Row::Stop(d) => spot.near(Direction::of(d)).is_none(),
    }
}
