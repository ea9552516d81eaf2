// What a sheet's lines are to a search for truths: each line's counted name, and its neighbours.
ghost use Rattle.std.specs.Prelude.{◌≡◌, ◌<◌, ◌≤◌, length, take};
ghost use Rattle.std.proofs.Math.Logic.{ite};
ghost use Rattle.std.proofs.Math.Decide.{dec_lt};
ghost use Rattle.table.specs.Directions.{dir, side};
ghost use Rattle.table.specs.Rows.{table_in};
ghost use Rattle.sheets.specs.Lines.{line_limit};
ghost use Rattle.sheets.specs.Links.{FaultFree};
ghost use Rattle.truths.specs.Spots.{near, Spots};
ghost use Rattle.truths.specs.Placing.{Within, with_near, linked, placed};

use sheets::{Line, Sheet};
use table::Row;
use table::direction::{Direction, Side};

// A line, by its name and the lines in directions 1 to 4 from it: its first child and next sibling, and the lines that have it for theirs.
#[derive(Clone, Copy)]
pub(crate) struct Spot {
    pub name: u8,
    pub first: Option<u8>,
    pub next: Option<u8>,
    pub first_of: Option<u8>,
    pub next_of: Option<u8>,
}

impl Spot {
    // A line that has no neighbour.
    const ALONE: Spot = Spot {
        name: 0,
        first: None,
        next: None,
        first_of: None,
        next_of: None,
    };

    pub(crate) fn near(&self, d: Direction) -> Option<u8>
        ensures { result ≡ near self.now (dir d) }
    {
        match d {
            Direction::Down(Side::First) => self.first,
            Direction::Down(Side::Next) => self.next,
            Direction::Up(Side::First) => self.first_of,
            Direction::Up(Side::Next) => self.next_of,
        }
    }

    // The arms stand twice, since `near` reads a field and this writes it.
    fn set_near(&mut self, d: Direction, line: u8)
        ensures { self.new ≡ with_near (dir d) line self.old }
    {
        match d {
            Direction::Down(Side::First) => self.first = Some(line),
            Direction::Down(Side::Next) => self.next = Some(line),
            Direction::Up(Side::First) => self.first_of = Some(line),
            Direction::Up(Side::Next) => self.next_of = Some(line),
        }
    }
}

// One for each line, and none of any meaning after them: a whole array, as no heap is allowed. What is asked of the lines is held by the spots from here on (`Asked`).
#[tactic(auto, using(crate::proofs::Placing::line_more, crate::proofs::Inside::line_within))]
pub(crate) fn spots_of(rows: &[Row], lines: &[Line]) -> [Spot; Sheet::LINES]
    requires { (length lines.now ≤ line_limit) × FaultFree lines.now }
    ensures { Spots (table_in rows.now) lines.now (take (length lines.now) result) }
{
    let n = counts::names_of(rows);
    let mut spots = [Spot::ALONE; Sheet::LINES];
    for (p, line) in lines.iter().enumerate() {
        put_line(&mut spots, p, n, *line);
    }
    spots
}

fn put_line(spots: &mut [Spot; Sheet::LINES], p: usize, n: usize, line: Line)
    requires { (p < line_limit) × Within line.first × Within line.next }
    ensures { spots.new ≡ placed n p line spots.old }
{
    spots[p].name = counted_name(line.name, n);
    put_link(spots, p, Side::First, line.first);
    put_link(spots, p, Side::Next, line.next);
}

// A real name of N or above counts as 0.
fn counted_name(name: u8, n: usize) -> u8
    ensures { result ≡ ite (dec_lt name n) name 0 }
{
    if usize::from(name) < n { name } else { 0 }
}

// A step down is a step up from where it leads.
fn put_link(spots: &mut [Spot; Sheet::LINES], p: usize, s: Side, link: Option<u16>)
    requires { (p < line_limit) × Within link }
    ensures { spots.new ≡ linked (side s) p link spots.old }
{
    if let Some(q) = link {
        let q = usize::from(q);
        spots[p].set_near(Direction::Down(s), q as u8);
        spots[q].set_near(Direction::Up(s), p as u8);
    }
}
