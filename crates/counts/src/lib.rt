#![tactic(auto)]

// What is counted in a table: N, m, and which bit is which `go` row's.
// At most 48 rows is what three functions ask, and no struct's fact, which would put a field's name into every clause over rows here and above.
ghost use Rattle.std.specs.Prelude.{◌≡◌, suc, ◌<◌, ◌≤◌, length};
ghost use Rattle.meaning.specs.Table.{row_limit, names, looks, size, mentioned, look};
ghost use Rattle.table.specs.Rows.{meant, table_in};
ghost use Rattle.counts.specs.Counts.{is_look, Places, LookRows};

use table::{Row, Table};

// N: one more than the largest name mentioned, in used rows and in others, and 1 if there is none.
pub fn names_of(rows: &[Row]) -> usize
    ensures { (result ≡ names (table_in rows.now)) × (result ≤ 256) }
{
    rows.iter()
        .fold(1, |most, row| most.max(mentioned_in(*row)))
}

// N of a table that mentions no name but this row's.
fn mentioned_in(row: Row) -> usize
    ensures { (result ≡ mentioned (meant row)) × (result ≤ 256) }
{
    match row {
        Row::Is(n) | Row::Isnot(n) => usize::from(n) + 1,
        _ => 1,
    }
}

// m: how many `go` rows there are.
#[tactic(auto, using(crate::proofs::Laws::looks_counted))]
pub fn looks_of(rows: &[Row]) -> usize
    ensures { (result ≡ looks (table_in rows.now)) × (result ≤ length rows.now) }
{
    rows.iter().filter(|row| is_look(**row)).count()
}

fn is_look(row: Row) -> bool
    ensures { result ≡ is_look row }
{
    matches!(row, Row::Go(_, _))
}

// N × 2^m, which at 48 rows is at most 256 × 2^48.
pub fn size_of(rows: &[Row]) -> usize
    requires { length rows.now ≤ row_limit }
    ensures { result ≡ size (table_in rows.now) }
{
    names_of(rows) << looks_of(rows)
}

// The bit place of each row, if it is a `go` row: how many `go` rows stand before it. The promise says what stands at every place, also beyond the
// last row, and so the whole array is given.
pub fn places_of(rows: &[Row]) -> [u8; Table::ROWS]
    requires { length rows.now ≤ row_limit }
    ensures { Places (table_in rows.now) result }
{
    let mut places = [0u8; Table::ROWS];
    let mut passed: u8 = 0;
    // By index: after a `zip` of `places.iter_mut()` a proof knows nothing of what was written.
    for (i, row) in rows.iter().enumerate() {
        places[i] = passed;
        if is_look(*row) {
            passed += 1;
        }
    }
    places
}

// The rows of the bits: where each `go` row stands, in order. This promise too says what stands at every place.
pub fn look_rows_of(rows: &[Row]) -> [u8; Table::ROWS]
    requires { length rows.now ≤ row_limit }
    ensures { LookRows (table_in rows.now) result }
{
    let mut look_rows = [0u8; Table::ROWS];
    // m by hand: a `zip` says nothing of what was written, as above, and `AtMost::push` nothing of the places beyond, of which the promise speaks.
    let mut m: usize = 0;
    for (i, row) in rows.iter().enumerate() {
        if is_look(*row) {
            look_rows[m] = i as u8;
            m += 1;
        }
    }
    look_rows
}
