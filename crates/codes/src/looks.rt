// The look rows, and what each asks of a code and of its neighbour.
ghost use Rattle.std.specs.Prelude.{◌≡◌, ◌<◌, get_or};
ghost use Rattle.meaning.specs.Code.{Proper};
ghost use Rattle.table.specs.Decides.{Decides};
ghost use Rattle.table.specs.Directions.{side as side_of};
ghost use Rattle.table.specs.Rows.{table_in};
ghost use Rattle.table.specs.declared.Row.TheVariants.{No};
ghost use Rattle.codes.specs.Fits.{FitsRow, Flagged};
ghost use Rattle.codes.specs.Layout.{Looking};

use crate::parts::{Parts, has_bit};
use table::Row;
use table::direction::{Direction, Side};

// A table's rows, and which of them is the look row of each bit.
#[derive(Clone, Copy)]
pub struct Looks<'a> {
    pub rows: &'a [Row],
    // May be longer than m. Were m its length, more would be asked of whoever makes a Looks, and m would stay: `parts` takes codes apart at it.
    pub look: &'a [u8],
    pub parts: Parts,
    pub ghost looking: { Looking rows.now look.now parts.m },
}

// A code, and its truths that are asked for. That they are its own stays a clause: no ghost field can say it without the Looks that ask.
#[derive(Clone, Copy)]
pub struct Sighted {
    pub code: usize,
    pub sight: usize,
}

impl<'a> Looks<'a> {
    ghost use Rattle.codes.specs.Sighted.{SeesIn};

    // The row whose bit has place j. That j is a bit stays a clause: it is of a parameter.
    pub(crate) fn look_row(&self, j: usize) -> Row
        requires { j < self.now.parts.m }
        ensures { result ≡ get_or self.now.rows.now (get_or self.now.look.now j 0) No }
    {
        self.rows[usize::from(self.look[j])]
    }

    // Whether the look row of bit j lets code t take u at a side. Rows of the converse direction look from u at t.
    pub fn fits_row(&self, side: Side, t: Sighted, u: Sighted, j: usize) -> bool
        requires { (j < self.now.parts.m) × SeesIn self.now t.code t.sight × SeesIn self.now u.code u.sight }
        ensures { Decides result (FitsRow (table_in self.now.rows.now) (side_of side) t.code u.code (get_or self.now.look.now j 0)) }
    {
        let Row::Go(number, _) = self.look_row(j) else {
            return true;
        };
        let d = Direction::of(number);
        if d == Direction::Down(side) {
            return has_bit(t.code, j) == has_bit(u.sight, j);
        }
        if d == Direction::Up(side) {
            return has_bit(u.code, j) == has_bit(t.sight, j);
        }
        true
    }

    // Whether the look row of bit j lets a code be proper.
    fn flagged(&self, code: usize, j: usize) -> bool
        requires { j < self.now.parts.m }
        ensures { Decides result (Flagged (table_in self.now.rows.now) code (get_or self.now.look.now j 0)) }
    {
        let Row::Go(number, _) = self.look_row(j) else {
            return true;
        };
        !has_bit(code, j) || self.parts.has_flag(code, Direction::of(number))
    }

    pub fn proper(&self, code: usize) -> bool
        ensures { Decides result (Proper (table_in self.now.rows.now) code) }
    {
        !self.parts.two_parents(code) && (0..self.parts.m).all(|j| self.flagged(code, j))
    }
}
