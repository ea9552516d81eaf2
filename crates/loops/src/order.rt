// An order of the rows for one pass through them. A row is joined to every row that it refers to and to all that these are joined to, and
// without a loop none of these is joined to itself: so it is joined to more rows than each of them.
ghost use Rattle.std.specs.Prelude.{◌≡◌, ◌≤◌, length};
ghost use Rattle.meaning.specs.Loop.{LoopFree};
ghost use Rattle.table.specs.Rows.{table_in};
ghost use Rattle.counts.specs.Order.{Ordered};
ghost use Rattle.loops.specs.Arranging.{reach};
ghost use Rattle.loops.specs.Closing.{AllDone};

use crate::pairs::Pairs;
use table::Table;

// A whole array, as no heap is allowed: `Ordered` says what stands beyond the rows too.
pub(crate) fn order_of(pairs: &Pairs) -> [u8; Table::ROWS]
    requires { LoopFree (table_in pairs.now.rows.now) × AllDone (table_in pairs.now.rows.now) pairs.now.found }
    ensures { Ordered (table_in pairs.now.rows.now) result }
{
    let n = pairs.rows.len();
    let mut order = [0u8; Table::ROWS];
    // From the last row on: by hand a rule is written before the rows that it names, so that there is little for the sort to move. It works
    // out two reaches for each comparison.
    for (i, place) in order[..n].iter_mut().enumerate() {
        *place = (n - 1 - i) as u8;
    }
    order[..n].sort_unstable_by_key(|i| pairs.reach(usize::from(*i)));
    order
}

impl Pairs<'_> {
    // How many rows row i is joined to.
    fn reach(&self, i: usize) -> usize
        ensures { result ≡ reach (length self.now.rows.now) self.now.found i }
    {
        let n = self.rows.len();
        self.found
            .get(i)
            .map_or(0, |row| row[..n].iter().filter(|joined| **joined).count())
    }
}
