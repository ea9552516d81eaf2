#![tactic(auto)]

// The solver: a text and four lent slices in, the answer's five numbers out.
mod search;

ghost use Rattle.rounds.specs.Found.{verdict_of};
ghost use Rattle.rounds.specs.Kept.{lent};
ghost use Rattle.solver.specs.Solved.{Says, numbered, reply_of, answer_of, Replies, Solved, NameWidth};

use rounds::Found;
use rounds::memory::Memory;
use table::refusal::Refusal;

// What crosses to another language: verdict 0 refused, 1 SAT, 2 UNSAT; with UNSAT `height` holds the rounds.
#[repr(C)]
#[derive(Clone, Copy)]
pub struct Answer {
    pub verdict: u32,
    pub height: u32,
    pub top: u32,
    pub refusal: u32,
    pub place: u32,
}

impl From<Found> for Answer {
    ghost from_gives = { λ found answer. Says answer (numbered (verdict_of found)) };

    fn from(found: Found) -> Answer {
        match found {
            Found::Sat { height, top } => Answer {
                verdict: 1,
                height: u32::from(height),
                top: u32::from(top),
                refusal: 0,
                place: 0,
            },
            Found::Unsat { rounds } => Answer {
                verdict: 2,
                height: u32::from(rounds),
                top: 0,
                refusal: 0,
                place: 0,
            },
        }
    }
}

// The four slices are parameters of their own, since C lends them so.
pub fn solve(
    text: &[u8],
    round: &mut [u16],
    first: &mut [u16],
    next: &mut [u16],
    used: &mut [u8],
) -> Answer
    ensures { Solved text.now (lent round.old first.old next.old used.old) (lent round.new first.new next.new used.new) result }
{
    match reply(text, round, first, next, used) {
        Ok(found) => Answer::from(found),
        // No From: a place is a usize, which any caller may have made large. Those of a reply are small.
        Err(refusal) => Answer {
            verdict: 0,
            height: 0,
            top: 0,
            refusal: refusal.number(),
            place: refusal.place() as u32,
        },
    }
}

// For whoever asks in Rust, without the numbers; the slices stay as C lends them. A text is read, and then solved where each of the four has a
// place for every code.
pub fn reply(
    text: &[u8],
    round: &mut [u16],
    first: &mut [u16],
    next: &mut [u16],
    used: &mut [u8],
) -> Result<Found, Refusal>
    ensures replies { Replies text.now (lent round.old first.old next.old used.old) (lent round.new first.new next.new used.new) (reply_of result) }
    ensures solved { Solved text.now (lent round.old first.old next.old used.old) (lent round.new first.new next.new used.new) (answer_of result) }
{
    let loaded = intake::load(text)?;
    let rows = loaded.table.rows();
    let codes = counts::size_of(rows) * 16;
    let shortest = round.len().min(first.len()).min(next.len()).min(used.len());
    if shortest < codes {
        return Err(Refusal::NoRoom);
    }
    let mut memory = Memory {
        round,
        first,
        next,
        used,
        codes,
    };
    Ok(search::search_rows(rows, &loaded.order, &mut memory))
}

// How many codes a name has: a code's name is the code divided by it. 0 where the text is refused, and no Option: the promise NameWidth, which
// may not change, says that number.
pub fn name_width(text: &[u8]) -> usize
    ensures { NameWidth text.now result }
{
    match intake::load(text) {
        Ok(loaded) => 16 << counts::looks_of(loaded.table.rows()),
        Err(_) => 0,
    }
}
