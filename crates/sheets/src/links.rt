// Refusal 10: the lines that fields name, and how often.
ghost use Rattle.std.specs.Prelude.{◌≡◌, not, ◌≤◌, eqb, MatchOption};
ghost use Rattle.table.specs.Decides.{Decides};
ghost use Rattle.sheets.specs.Links.{Faulty, FaultFree, SmallestFaulty};
ghost use Rattle.sheets.specs.Counting.{wrong, wrong_in, names_by, names_in, times_named, faulty_at};

use crate::Line;

// The smallest faulty line, where there is one. By index: a test of line i reads all the lines and i, so `position` over `enumerate` would ask for no less.
pub(crate) fn first_faulty(lines: &[Line]) -> Option<usize>
    ensures { MatchOption result (FaultFree lines.now) (SmallestFaulty lines.now) }
{
    (0..lines.len()).find(|i| is_faulty(lines, *i))
}

fn is_faulty(lines: &[Line], i: usize) -> bool
    ensures decides { Decides result (Faulty lines.now i) }
    ensures by_tests { result ≡ faulty_at lines.now i }
{
    lines.get(i).is_some_and(|line| wrong_here(*line, i, lines.len())
        || 0 < i && misnamed(lines, i))
}

fn wrong_here(line: Line, i: usize, n: usize) -> bool
    ensures { result ≡ wrong_in i n line }
{
    wrong_link(line.first, i, n) || wrong_link(line.next, i, n)
}

fn wrong_link(link: Option<u16>, i: usize, n: usize) -> bool
    ensures { result ≡ wrong i n link }
{
    link.is_some_and(|j| usize::from(j) <= i || n <= usize::from(j))
}

// Whether line j is named never or more than once. The count ends at the second name, so it can't overflow; a chain would go on.
#[tactic(auto, using(crate::proofs::Counting::times_next, crate::proofs::Counting::times_end))]
fn misnamed(lines: &[Line], j: usize) -> bool
    ensures { result ≡ not (eqb (times_named j lines.now) 1) }
{
    let mut found = 0;
    for line in lines {
        found += names_here(*line, j);
        if 1 < found {
            return true;
        }
    }
    found != 1
}

fn names_here(line: Line, j: usize) -> usize
    ensures { (result ≡ names_in j line) × (result ≤ 2) }
{
    names_by(line.first, j) + names_by(line.next, j)
}

fn names_by(link: Option<u16>, j: usize) -> usize
    ensures { (result ≡ names_by j link) × (result ≤ 1) }
{
    usize::from(link.is_some_and(|k| usize::from(k) == j))
}
