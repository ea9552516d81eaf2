// Sights that are kept, so that they are not worked out again.
ghost use Rattle.std.specs.Prelude.{◌≡◌, ◌<◌};
ghost use Rattle.meaning.specs.Code.{Good};
ghost use Rattle.table.specs.Decides.{Decides};
ghost use Rattle.table.specs.Rows.{table_in};
ghost use Rattle.codes.specs.Sighted.{SeesIn, SightsIn};

use crate::layout::Layout;
use crate::looks::Sighted;
use crate::parts::has_bit;
use table::direction::{Direction, Side};

// What stands for a code of which nothing is kept: a sight has 13 bits at the most. An `Option<u16>` for each code would take twice the memory,
// of which a handheld has too little.
pub const UNSEEN: u16 = 65535;

#[derive(Clone, Copy)]
pub struct Seen<'a> {
    pub layout: Layout<'a>,
    pub sights: &'a [u16],
    pub ghost right: { ∥ SightsIn layout.looks sights.now ∥₁ },
}

impl<'a> Seen<'a> {
    // What is kept of a code, or else worked out.
    fn sight(&self, code: usize) -> u16
        ensures { SeesIn self.now.layout.looks code result }
    {
        match self.sights.get(code).copied() {
            Some(kept) if kept != UNSEEN => kept,
            _ => self.layout.sight_of(code),
        }
    }

    pub fn sighted(&self, code: usize) -> Sighted
        ensures { (result.code ≡ code) × SeesIn self.now.layout.looks result.code result.sight }
    {
        let sight = usize::from(self.sight(code));
        Sighted { code, sight }
    }

    pub fn good(&self, code: usize) -> bool
        ensures { Decides result (Good (table_in self.now.layout.looks.rows.now) code) }
    {
        let parts = self.layout.looks.parts;
        if parts.has_flag(code, Direction::Up(Side::First)) {
            return false;
        }
        if parts.has_flag(code, Direction::Up(Side::Next)) {
            return false;
        }
        has_bit(self.sighted(code).sight, parts.m)
    }
}
