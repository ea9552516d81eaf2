// One round: each code that can be entered is, with its neighbours of the rounds before.
ghost use Rattle.std.specs.Prelude.{◌≡◌, ◌-◌, ◌<◌};
ghost use Rattle.meaning.specs.Code.{codes};
ghost use Rattle.meaning.specs.Outcome.{Searched};
ghost use Rattle.rounds.specs.Kept.{SameLent};
ghost use Rattle.rounds.specs.Round.{run, Halfway, Visited, Over};
ghost use Rattle.rounds.specs.Tables.{table_given};

use crate::NONE;
use crate::given::Given;
use crate::lent::Lent;
use table::direction::Side;

impl Given<'_> {
    // Enters code t in round k, if it is not entered yet and can be.
    fn enter_one(&self, lent: &mut Lent, k: u16, t: usize) -> bool
        requires { (lent.old.codes ≡ codes (table_given self.now)) × (t < lent.old.codes) × Halfway (table_given self.now) k t (run lent.old) }
        ensures { Visited (table_given self.now) k t result (run lent.old) (run lent.new) × SameLent lent.old lent.new }
    {
        if lent.round[t] != 0 || !self.seen.layout.looks.proper(t) {
            return false;
        }
        let Some(first) = self.settle(lent, k, Side::First, t) else {
            return false;
        };
        let Some(next) = self.settle(lent, k, Side::Next, t) else {
            return false;
        };
        lent.round[t] = k;
        lent.first[t] = first.unwrap_or(NONE);
        lent.next[t] = next.unwrap_or(NONE);
        true
    }

    // Round k: whether it enters a code.
    pub(crate) fn one_round(&self, lent: &mut Lent, k: u16) -> bool
        requires { (lent.old.codes ≡ codes (table_given self.now)) × (0 < k) × Searched (table_given self.now) (k - 1) (run lent.old) }
        ensures { Over (table_given self.now) k result (run lent.old) (run lent.new) × SameLent lent.old lent.new }
    {
        let mut any = false;
        // By number: a code is its place in all three slices, and entering one reads the others.
        for t in 0..lent.codes {
            any |= self.enter_one(lent, k, t);
        }
        any
    }
}
