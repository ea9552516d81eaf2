// Refusal 5: a reference to a row that isn't there.
ghost use Rattle.std.specs.Prelude.{◌≡◌};
ghost use Rattle.table.specs.Rows.{meant, table_in};
ghost use Rattle.loops.specs.Missing.{misses, first_missing};

use table::Row;

// The first row with such a reference.
pub(crate) fn first_missing(rows: &[Row]) -> Option<usize>
    ensures { result ≡ first_missing (table_in rows.now) }
{
    rows.iter().position(|row| misses(*row, rows.len()))
}

fn misses(row: Row, n: usize) -> bool
    ensures { result ≡ misses n (meant row) }
{
    match row {
        Row::Any(i, j) | Row::All(i, j) => n <= usize::from(i) || n <= usize::from(j),
        Row::Go(_, i) => n <= usize::from(i),
        _ => false,
    }
}
