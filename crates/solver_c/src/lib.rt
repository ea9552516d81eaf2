#![tactic(auto)]

// The solver for C and for Rust: `solve` of the library, under the name that they link.
ghost use Rattle.rounds.specs.Kept.{lent};
ghost use Rattle.solver.specs.Solved.{Solved};

use solver::Answer;

#[unsafe(no_mangle)]
pub extern "C" fn solve(
    text: &[u8],
    round: &mut [u16],
    first: &mut [u16],
    next: &mut [u16],
    used: &mut [u8],
) -> Answer
    ensures { Solved text.now (lent round.old first.old next.old used.old) (lent round.new first.new next.new used.new) result }
{
    solver::solve(text, round, first, next, used)
}
