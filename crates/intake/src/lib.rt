#![tactic(auto)]

// Refusals 1 to 7, or 1 to 6 for whoever does not search: from a text to a table.
ghost use Rattle.counts.specs.Order.{Ordered};
ghost use Rattle.intake.specs.Loading.{Answered};
ghost use Rattle.std.specs.Prelude.{true, false, IfOk};
ghost use Rattle.table.specs.Rows.{table_of};

use loops::Fault;
use table::Table;
use table::refusal::Refusal;

// An accepted table. In the order every row comes after those that it names as `any` or `all`.
#[derive(Clone, Copy)]
pub struct Loaded {
    pub table: Table,
    pub order: [u8; Table::ROWS],
}

// The text is read downwards first, and the table that it gives is judged as a whole.
pub fn load(text: &[u8]) -> Result<Loaded, Refusal>
    ensures answered { Answered true text.now result }
    ensures order { IfOk result (λ l. Ordered (table_of l.table) l.order) }
{
    let table: Table = reader::read_text(text)?;
    let order = loops::check(table)?;
    Ok(Loaded { table, order })
}

// Refusals 1 to 6 alone, for whoever does not search: a table of any size.
pub fn admit(text: &[u8]) -> Result<Loaded, Refusal>
    ensures answered { Answered false text.now result }
    ensures order { IfOk result (λ l. Ordered (table_of l.table) l.order) }
{
    let table = reader::read_text(text)?;
    match loops::check(table) {
        Ok(order) => Ok(Loaded { table, order }),
        // A `match` of its own: after `Err(Fault::Large(order))` above, a proof would not know that this fault is another.
        Err(fault) => match fault {
            Fault::Large(order) => Ok(Loaded { table, order }),
            _ => Err(fault.into()),
        },
    }
}
