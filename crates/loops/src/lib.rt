#![tactic(auto)]

// Refusals 5, 6 and 7: whether a table's rows are there, loop-free and few enough to be searched.
mod missing;
mod order;
mod pairs;
pub mod rules;

ghost use Rattle.std.specs.Prelude.{◌≡◌, ◌≤◌, length};
ghost use Rattle.meaning.specs.Table.{row_limit, InRange};
ghost use Rattle.table.specs.Rows.{table_in, table_of};
ghost use Rattle.loops.specs.Faults.{as_refusal};
ghost use Rattle.loops.specs.Handed.{Handed};

use pairs::Pairs;
use table::refusal::Refusal;
use table::{Row, Table};

// A row is a place for refusals 5 and 6. A table that is merely too large to be searched still has an order of its rows.
#[derive(Clone, Copy)]
pub enum Fault {
    Missing(usize),
    Looping(usize),
    Large([u8; Table::ROWS]),
}

impl From<Fault> for Refusal {
    ghost from_gives = { λ fault refusal. refusal ≡ as_refusal fault };

    fn from(fault: Fault) -> Refusal {
        match fault {
            Fault::Missing(i) => Refusal::Missing(i),
            Fault::Looping(i) => Refusal::Looping(i),
            Fault::Large(_) => Refusal::Large,
        }
    }
}

// The order of the rows comes with the verdict, since both are read off the same pairs.
pub fn check(table: Table) -> Result<[u8; Table::ROWS], Fault>
    ensures { Handed (table_of table) result }
{
    check_rows(table.rows())
}

fn check_rows(rows: &[Row]) -> Result<[u8; Table::ROWS], Fault>
    requires { length rows.now ≤ row_limit }
    ensures { Handed (table_in rows.now) result }
{
    match missing::first_missing(rows) {
        Some(i) => Err(Fault::Missing(i)),
        None => check_present(rows),
    }
}

// Refusals 6 and 7, once every row that is named is there.
fn check_present(rows: &[Row]) -> Result<[u8; Table::ROWS], Fault>
    requires { (length rows.now ≤ row_limit) × InRange (table_in rows.now) }
    ensures { Handed (table_in rows.now) result }
{
    let pairs = Pairs::closed(rows);
    if let Some(i) = pairs.first_looping() {
        return Err(Fault::Looping(i));
    }
    let order = order::order_of(&pairs);
    if Table::SIZE < counts::size_of(rows) {
        return Err(Fault::Large(order));
    }
    Ok(order)
}
