// Refusal 6: pairs of joined rows are found until no rule gives another, and then a row on a loop is one that is joined to itself.
ghost use Rattle.std.specs.Prelude.{◌≡◌, ◌<◌, ◌≤◌, Bool, true, false, length};
ghost use Rattle.meaning.specs.Table.{row_limit, InRange};
ghost use Rattle.table.specs.Rows.{table_in};
ghost use Rattle.loops.specs.Closing.{marked, given, Square, Sound, Settled, AllDone, Passed, first_marked};

use table::{Row, Table};

// The pairs of rows that are found so far. Nothing but joined pairs is found.
#[derive(Drop)]
pub(crate) struct Pairs<'a> {
    pub(crate) rows: &'a [Row],
    pub(crate) found: [[bool; Table::ROWS]; Table::ROWS],
    ghost few: { length rows.now ≤ row_limit },
    ghost square: { Square row_limit found },
    ghost in_range: { InRange (table_in rows.now) },
    ghost sound: { Sound (table_in rows.now) found },
}

impl<'a> Pairs<'a> {
    // All the pairs that the rules give. What is asked here is what `Pairs` holds from then on.
    pub(crate) fn closed(rows: &'a [Row]) -> Pairs<'a>
        requires { (length rows.now ≤ row_limit) × InRange (table_in rows.now) }
        ensures { (result.rows.now ≡ rows.now) × AllDone (table_in rows.now) result.found }
    {
        let mut pairs = Pairs {
            rows,
            found: [[false; Table::ROWS]; Table::ROWS],
        };
        // It ends when a pass finds nothing new.
        while pairs.pass() {}
        pairs
    }

    // Goes through all pairs once, and says whether one was new.
    fn pass(&mut self) -> bool
        ensures { (self.new.rows.now ≡ self.old.rows.now) × Passed (AllDone (table_in self.old.rows.now)) self.old.found self.new.found result }
    {
        let mut more = false;
        // By index: a pair is two row numbers, and settling it writes.
        for i in 0..self.rows.len() {
            for j in 0..self.rows.len() {
                more |= self.settle(i, j);
            }
        }
        more
    }

    // Joins the pair if a rule gives it, and says whether it is new.
    fn settle(&mut self, i: usize, j: usize) -> bool
        requires { (i < length self.old.rows.now) × (j < length self.old.rows.now) }
        ensures { (self.new.rows.now ≡ self.old.rows.now) × Passed (Settled (table_in self.old.rows.now) i j) self.old.found self.new.found result }
    {
        if self.joined(i, j) || !self.given(i, j) {
            return false;
        }
        self.found[i][j] = true;
        true
    }

    // A row beyond the 48 that there may be is joined to none.
    pub(crate) fn joined(&self, i: usize, j: usize) -> bool
        requires { j < row_limit }
        ensures { result ≡ marked self.now.found i j }
    {
        i < Table::ROWS && self.found[i][j]
    }

    // The smallest row on a loop, once all pairs are found.
    pub(crate) fn first_looping(&self) -> Option<usize>
        ensures { result ≡ first_marked (length self.now.rows.now) self.now.found }
    {
        // By index: what is looked at is the diagonal of the square.
        (0..self.rows.len()).find(|i| self.joined(*i, *i))
    }
}
