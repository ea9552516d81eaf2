// The truths of a code's rows, worked out in one pass: the order of the rows is fixed beforehand, so that what an `any` or `all` row names is
// there when the row has its turn. A handheld has too little stack to follow the references down a long table.
ghost use Rattle.std.specs.Prelude.{◌≡◌, ◌<◌, length};
ghost use Rattle.table.specs.Rows.{table_in};
ghost use Rattle.codes.specs.Layout.{Laid, InOrder};
ghost use Rattle.codes.specs.Sighted.{SeesIn, subject_in, sight_in};
ghost use Rattle.codes.specs.Truths.{true_by, Follows, AllWorked};

use crate::looks::Looks;
use crate::parts::has_bit;
use table::direction::Direction;
use table::{Row, Table};

// Row 0 is the question.
const ASKED: usize = 0;

// A table's look rows, the bit place of each row, and the rows in the order of one pass.
#[derive(Clone, Copy)]
pub struct Layout<'a> {
    pub looks: Looks<'a>,
    // No part of the rows: those are the table's own slice, and a struct of both would be a second table.
    pub places: &'a [u8],
    pub order: &'a [u8],
    pub ghost laid: { Laid looks.rows.now places.now looks.parts.m },
    pub ghost in_order: { ∥ InOrder looks.rows.now order.now ∥₁ },
}

impl<'a> Layout<'a> {
    // Whether a row is true, by the truths of the rows that it names.
    #[tactic(auto, using(crate::proofs::Telling::place_small, crate::proofs::Telling::tells_is, crate::proofs::Telling::tells_isnot, crate::proofs::Telling::tells_stop))]
    fn truth(&self, truths: &[bool], row: usize, code: usize) -> bool
        requires { row < length self.now.looks.rows.now }
        ensures { Follows (table_in self.now.looks.rows.now) code truths.now row result }
    {
        let parts = self.looks.parts;
        match self.looks.rows[row] {
            Row::Yes => true,
            Row::No => false,
            Row::Is(n) => parts.name_of(code) == usize::from(n),
            Row::Isnot(n) => parts.name_of(code) != usize::from(n),
            Row::Any(i, j) => is_true(truths, usize::from(i)) || is_true(truths, usize::from(j)),
            Row::All(i, j) => is_true(truths, usize::from(i)) && is_true(truths, usize::from(j)),
            Row::Go(_, _) => has_bit(code, usize::from(self.places[row])),
            Row::Stop(d) => !parts.has_flag(code, Direction::of(d)),
        }
    }

    fn truths_in(&self, code: usize) -> [bool; Table::ROWS]
        ensures { AllWorked (table_in self.now.looks.rows.now) code result }
    {
        let mut truths = [false; Table::ROWS];
        for row in &self.order[..self.looks.rows.len()] {
            let row = usize::from(*row);
            truths[row] = self.truth(&truths, row, code);
        }
        truths
    }

    // The row whose truth is bit j of a sight: the one that the look row of bit j names, and above them the question.
    fn subject_of(&self, j: usize) -> usize
        ensures { result ≡ subject_in self.now.looks j }
    {
        if j < self.looks.parts.m {
            if let Row::Go(_, i) = self.looks.look_row(j) {
                return usize::from(i);
            }
        }
        ASKED
    }

    // Bit 0 is the lowest, and so the question goes first.
    fn pack(&self, truths: &[bool]) -> u16
        ensures { result ≡ sight_in self.now.looks truths.now }
    {
        let mut sight: u16 = 0;
        for j in (0..=self.looks.parts.m).rev() {
            sight = sight * 2 + u16::from(is_true(truths, self.subject_of(j)));
        }
        sight
    }

    // What is asked of a code's truths, in one number, so that it is worked out once and kept: bit j is the truth of the row that the look row
    // of bit j names, and bit m that of the question.
    pub fn sight_of(&self, code: usize) -> u16
        ensures { SeesIn self.now.looks code result }
    {
        self.pack(&self.truths_in(code))
    }
}

// A row that is not there is true nowhere.
fn is_true(truths: &[bool], i: usize) -> bool
    ensures { result ≡ true_by truths.now i }
{
    truths.get(i).copied().unwrap_or(false)
}
