// The codes met from the top through first and next, marked.
ghost use Rattle.std.specs.Prelude.{◌≡◌, ◌≢◌, ℕ, ◌+◌, ◌<◌, ◌≤◌, length, get_or};
ghost use Rattle.meaning.specs.Outcome.{absent};
ghost use Rattle.rounds.specs.Trees.{links};
ghost use Rattle.rounds.specs.Used.{code_in, marked, Handed, Used};

use crate::NONE;
use crate::tree::Tree;

impl Tree<'_> {
    // Marks the codes met from the top, round by round downwards, since a neighbour is of an earlier round than its code. That `used` has a place
    // for each code stays a clause: it is written, and what is shared can't hold it.
    pub(crate) fn mark_used(&self, used: &mut [u8], height: u16, top: u16)
        requires room { self.now.codes ≤ length used.old }
        requires from_top { (top < self.now.codes) × (get_or self.now.round.now top 0 ≡ height) × (0 < height) × ((u : ℕ) → u < self.now.codes → get_or used.old u 0 ≡ 0) }
        ensures { Used self.now.codes (links self.now) top used.old used.new }
    {
        used[usize::from(top)] = 1;
        for r in (1..=height).rev() {
            self.mark_round(used, r);
        }
    }

    // Each marked code of round r hands its mark on.
    fn mark_round(&self, used: &mut [u8], r: u16)
        requires { self.now.codes ≤ length used.old }
        ensures { Handed self.now.codes (links self.now) r 0 self.now.codes used.old used.new }
    {
        // By number: a code is its place in all three slices and in `used`, which is written elsewhere than it is read.
        for t in 0..self.codes {
            self.hand_on(used, r, t);
        }
    }

    fn hand_on(&self, used: &mut [u8], r: u16, t: usize)
        requires { (self.now.codes ≤ length used.old) × (t < self.now.codes) }
        ensures { Handed self.now.codes (links self.now) r t (t + 1) used.old used.new }
    {
        if self.round[t] != r || used[t] != 1 {
            return;
        }
        mark(used, self.first[t]);
        mark(used, self.next[t]);
    }
}

// The code that first or next holds, if it holds one.
fn code_at(u: u16) -> Option<usize>
    ensures { result ≡ code_in u }
{
    if u == NONE {
        None
    } else {
        Some(usize::from(u))
    }
}

#[tactic(auto, unfolding(crate::specs::Used::marked))]
fn mark(used: &mut [u8], u: u16)
    requires { u ≢ absent → u < length used.old }
    ensures { used.new ≡ marked u used.old }
{
    if let Some(code) = code_at(u) {
        used[code] = 1;
    }
}
