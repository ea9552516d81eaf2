#![tactic(auto)]

// The search: codes are entered round after round, and the first round with a good code, or with none at all, gives the answer.
mod enter;
mod fill;
mod given;
mod lent;
pub mod memory;
mod scan;
mod see;
mod tree;
mod used;

ghost use Rattle.std.specs.Prelude.{◌≡◌};
ghost use Rattle.meaning.specs.Code.{codes};
ghost use Rattle.meaning.specs.Outcome.{Accepted};
ghost use Rattle.table.specs.Rows.{table_in};
ghost use Rattle.rounds.specs.Kept.{held, SameLent, SameMemory};
ghost use Rattle.rounds.specs.Round.{run};
ghost use Rattle.rounds.specs.Ended.{TopIs, Before, Ended};
ghost use Rattle.rounds.specs.Found.{Answered};
ghost use Rattle.rounds.specs.Tables.{table_given};

use codes::layout::Layout;
use codes::seen::{Seen, UNSEEN};
use given::Given;
use lent::Lent;
use memory::Memory;
use tree::Tree;

// What stands where there is no neighbour: this is never a proper code. It is no Option, since first and next are lent by C as numbers.
pub const NONE: u16 = 65535;

// The codes whose truths are kept, two bytes each. The largest table has four times as many, and a handheld no stack for them: those beyond
// are worked out when they are asked for.
const KEPT: usize = 16384;

// The domain's answer. It is no Result: neither case is a failure.
#[derive(Clone, Copy)]
pub enum Found {
    Sat { height: u16, top: u16 },
    Unsat { rounds: u16 },
}

impl Given<'_> {
    // The smallest good code of a round, if there is one. By number: a code is its place in round, and `good` asks for the code.
    fn top_of(&self, lent: &Lent, k: u16) -> Option<usize>
        ensures { TopIs (table_given self.now) lent.now.codes lent.now.round.now k result }
    {
        (0..lent.codes).find(|t| lent.round[*t] == k && self.seen.good(*t))
    }

    // Round after round, to the first that enters a good code or that enters nothing.
    #[tactic(auto, using(crate::proofs::Whole::few, crate::proofs::Whole::ends, crate::proofs::Whole::exhausted, crate::proofs::Places::all_then, crate::proofs::Places::same_then, crate::proofs::Neighbours::few_codes))]
    fn all_rounds(&self, lent: &mut Lent) -> Found
        requires { (lent.old.codes ≡ codes (table_given self.now)) × Before (table_given self.now) 1 (run lent.old) }
        ensures { Ended (table_given self.now) result (run lent.old) (run lent.new) × SameLent lent.old lent.new }
    {
        // No range: which round is the last is known only when it is over.
        let mut k: u16 = 1;
        while self.one_round(lent, k) {
            if let Some(t) = self.top_of(lent, k) {
                return Found::Sat {
                    height: k,
                    top: t as u16,
                };
            }
            k += 1;
        }
        Found::Unsat { rounds: k - 1 }
    }
}

// The truths that are asked for are worked out before the first round, once for each code that there is memory for.
fn seen_rounds(layout: Layout, lent: &mut Lent) -> Found
    requires { Accepted (table_in layout.looks.rows.now) × (lent.old.codes ≡ codes (table_in layout.looks.rows.now)) × Before (table_in layout.looks.rows.now) 1 (run lent.old) }
    ensures { Ended (table_in layout.entry.looks.rows.now) result (run lent.old) (run lent.new) × SameLent lent.old lent.new }
{
    let mut kept = [UNSEEN; KEPT];
    let sights = &mut kept[..lent.codes.min(KEPT)];
    see::see_all(&layout, sights);
    let seen = Seen { layout, sights };
    Given { seen }.all_rounds(lent)
}

// Fills the four slices for an accepted table, and answers. That it is accepted stays a clause: Given, which holds the fact, is made only when
// the truths are kept, and a caller has none.
pub fn search(layout: Layout, memory: &mut Memory) -> Found
    requires { Accepted (table_in layout.looks.rows.now) × (memory.old.codes ≡ codes (table_in layout.looks.rows.now)) }
    ensures { Answered (table_in layout.entry.looks.rows.now) result (held memory.old) (held memory.new) × SameMemory memory.old memory.new }
{
    memory.clear();
    let codes = memory.codes;
    let round = &mut *memory.round;
    let first = &mut *memory.first;
    let next = &mut *memory.next;
    let used = &mut *memory.used;
    let mut lent = Lent {
        round: &mut *round,
        first: &mut *first,
        next: &mut *next,
        codes,
    };
    let found = seen_rounds(layout, &mut lent);
    if let Found::Sat { height, top } = found {
        let tree = Tree {
            round,
            first,
            next,
            codes,
        };
        tree.mark_used(used, height, top);
    }
    found
}
