// What a code takes at a side: its neighbour there, the first that fits among the codes of earlier rounds.
ghost use Rattle.std.specs.Prelude.{◌≡◌, ◌<◌, length};
ghost use Rattle.table.specs.Decides.{Decides};
ghost use Rattle.table.specs.Directions.{side as side_of};
ghost use Rattle.meaning.specs.Code.{codes, HasFlag};
ghost use Rattle.meaning.specs.Table.{down};
ghost use Rattle.rounds.specs.Round.{Candidate, Taken, Least, SideIs};
ghost use Rattle.rounds.specs.Tables.{table_given};

use crate::given::Given;
use crate::lent::Lent;
use codes::parts::Parts;
use table::direction::{Direction, Side};

// The round is looked at first: most codes have none for most of the time. Each test returns by itself, since in one `&&` the flag is worked out
// for every code: a quarter more time for the whole search.
fn candidate(round: &[u16], parts: Parts, k: u16, side: Side, u: usize) -> bool
    requires { u < length round.now }
    ensures { Decides result (Candidate round.now parts.m k (side_of side) u) }
{
    let at = round[u];
    if at == 0 {
        return false;
    }
    if k <= at {
        return false;
    }
    parts.has_flag(u, Direction::Up(side))
}

impl Given<'_> {
    // The smallest code of a round before k that t takes at a side.
    #[tactic(auto, using(crate::proofs::Neighbours::few_codes, crate::proofs::Neighbours::least_none, crate::proofs::Neighbours::no_fit))]
    fn neighbour(&self, memory: &Lent, k: u16, side: Side, t: usize) -> Option<u16>
        requires { (memory.now.codes ≡ codes (table_given self.now)) × HasFlag (table_given self.now) t (down (side_of side)) }
        ensures { Least (Taken (table_given self.now) memory.now.round.now k (side_of side) t) result }
    {
        let looks = self.seen.layout.looks;
        let own = self.seen.sighted(t);
        // The specification names this form: a nested scan, with a labelled `continue` and a `break` at the first code that fits.
        let mut found = None;
        'codes: for u in 0..memory.codes {
            if !candidate(memory.round, looks.parts, k, side, u) {
                continue 'codes;
            }
            let other = self.seen.sighted(u);
            for j in 0..looks.parts.m {
                if !looks.fits_row(side, own, other, j) {
                    continue 'codes;
                }
            }
            found = Some(u as u16);
            break;
        }
        found
    }

    // The neighbour that a code is entered with at a side, which is none where it has no flag there. None at all where the code cannot be entered:
    // the side is flagged and there is nothing to take.
    pub(crate) fn settle(&self, memory: &Lent, k: u16, side: Side, t: usize) -> Option<Option<u16>>
        requires { memory.now.codes ≡ codes (table_given self.now) }
        ensures { SideIs (table_given self.now) memory.now.round.now k (side_of side) t result }
    {
        let parts = self.seen.layout.looks.parts;
        if !parts.has_flag(t, Direction::Down(side)) {
            return Some(None);
        }
        Some(Some(self.neighbour(memory, k, side, t)?))
    }
}
