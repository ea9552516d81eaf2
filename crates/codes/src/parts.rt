// A code's parts. Its bits go by a shift, since 2^m is no constant; of what is above them each flag has a constant worth, to divide by.
ghost use Rattle.std.specs.Prelude.{◌&&◌, ◌≡◌, ◌<◌};
ghost use Rattle.meaning.specs.Table.{up, first, next};
ghost use Rattle.table.specs.Directions.{dir};
ghost use Rattle.codes.specs.Parts.{name_by, flag_by, bit_by};

use table::direction::{Direction, Side};

// How codes are made up in a table with m look rows: m bits, above them the four flags, and above those the name.
#[derive(Clone, Copy)]
pub struct Parts {
    pub m: usize,
    pub ghost fits: { m < 64 },
}

impl Parts {
    pub fn name_of(self, code: usize) -> usize
        ensures { result ≡ name_by self.m code }
    {
        (code >> self.m) / 16
    }

    pub fn has_flag(self, code: usize, d: Direction) -> bool
        ensures { result ≡ flag_by self.m code (dir d) }
    {
        let above = code >> self.m;
        match d {
            Direction::Down(Side::First) => above % 2 == 1,
            Direction::Down(Side::Next) => above / 2 % 2 == 1,
            Direction::Up(Side::First) => above / 4 % 2 == 1,
            Direction::Up(Side::Next) => above / 8 % 2 == 1,
        }
    }

    // Whether the code has both flags of the ways up.
    pub(crate) fn two_parents(self, code: usize) -> bool
        ensures { result ≡ (flag_by self.m code (up first) && flag_by self.m code (up next)) }
    {
        self.has_flag(code, Direction::Up(Side::First))
            && self.has_flag(code, Direction::Up(Side::Next))
    }
}

pub fn has_bit(code: usize, place: usize) -> bool
    requires { place < 64 }
    ensures { result ≡ bit_by code place }
{
    (code >> place) % 2 == 1
}
