// The rules by which a pair of rows is joined: a reference, a `go` and a `go` back, and two pairs that meet.
ghost use Rattle.std.specs.Prelude.{◌≡◌, ◌<◌, length};
ghost use Rattle.meaning.specs.Table.{row_limit, converse, row_at};
ghost use Rattle.table.specs.Rows.{meant, table_in};
ghost use Rattle.table.specs.Directions.{dir};
ghost use Rattle.loops.specs.Closing.{refers_to, back_to, wraps, meets, given};

use crate::pairs::Pairs;
use table::Row;
use table::direction::Direction;

impl Pairs<'_> {
    // Whether a rule gives the pair of rows i and j.
    #[tactic(auto, using(crate::proofs::Rows::row_told), unfolding(crate::specs::Closing::given))]
    pub(crate) fn given(&self, i: usize, j: usize) -> bool
        requires { (i < length self.now.rows.now) × (j < length self.now.rows.now) }
        ensures { result ≡ given (table_in self.now.rows.now) self.now.found i j }
    {
        refers_to(self.rows[i], j) || self.wrapped(i, j) || self.met(i, j)
    }

    // Row i goes to k, and some row that k is or is joined to goes back to j.
    fn wrapped(&self, i: usize, j: usize) -> bool
        requires { i < length self.now.rows.now }
        ensures { result ≡ wraps (table_in self.now.rows.now) self.now.found (row_at (table_in self.now.rows.now) i) j }
    {
        let Row::Go(d, k) = self.rows[i] else {
            return false;
        };
        let k = usize::from(k);
        let direction = Direction::of(d);
        self.rows.iter().enumerate().any(|(l, row)| (k == l || self.joined(k, l))
            && goes_back(*row, direction, j))
    }

    // Row i is joined to some row that is joined to j.
    fn met(&self, i: usize, j: usize) -> bool
        requires { (i < length self.now.rows.now) × (j < length self.now.rows.now) }
        ensures { result ≡ meets (length self.now.rows.now) self.now.found i j }
    {
        // By index: a row of the square is held against a column.
        (0..self.rows.len()).any(|k| self.found[i][k] && self.found[k][j])
    }
}

pub fn refers_to(row: Row, j: usize) -> bool
    ensures { result ≡ refers_to j (meant row) }
{
    match row {
        Row::Any(i, k) | Row::All(i, k) => usize::from(i) == j || usize::from(k) == j,
        _ => false,
    }
}

fn goes_back(row: Row, direction: Direction, j: usize) -> bool
    ensures { result ≡ back_to (dir direction) j (meant row) }
{
    match row {
        // The row first: it is seldom j, and directions are the dearer to compare.
        Row::Go(e, k) => usize::from(k) == j && Direction::of(e) == direction.converse(),
        _ => false,
    }
}
