// What every part of the search is given.
ghost use Rattle.meaning.specs.Outcome.{Accepted};
ghost use Rattle.table.specs.Rows.{table_in};

use codes::seen::Seen;

// An accepted table, laid out, with what is kept of its codes. That the memory lent is for as many codes as it has stays a clause: the fact is
// of two structs, and one of them is written to. A struct of both, lent as `&mut self`, would be no plainer: each step had to ensure that the
// table stays, which the shared Given says by itself.
#[derive(Clone, Copy)]
pub struct Given<'a> {
    pub seen: Seen<'a>,
    pub ghost accepted: { Accepted (table_in seen.layout.looks.rows.now) },
}
