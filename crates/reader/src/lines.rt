// One line: its kind word, its fields and its line feed.
ghost use Rattle.std.specs.Prelude.{◌≡◌};
ghost use Rattle.table.specs.Written.{Exists, Direction};
ghost use Rattle.reader.specs.Theorems.{line_limit};
ghost use Rattle.reader.specs.Parts.{Takes, fields_of, closed, line_in};
ghost use Rattle.table.specs.Decides.{Decides};

use crate::rest::Rest;
use table::{Kind, Row, Table};

// Each field has a `let .. else` of its own: a form that the specification names.
#[tactic(auto, unfolding(crate::specs::Parts::line_in, crate::specs::Parts::fields_in))]
pub fn read_row(rest: &mut Rest<'_>) -> Option<Row>
    ensures takes { Takes rest.old rest.new result (line_in rest.old) }
    ensures limit { Table.LINE ≡ line_limit }
{
    let Some(kind) = rest.kind() else {
        return None;
    };
    let count = fields(kind);
    if count == 0 {
        return close(rest, Row::of(kind, 0, 0));
    }
    let Some(i) = rest.field() else {
        return None;
    };
    if count == 1 {
        return close(rest, Row::of(kind, i, 0));
    }
    let Some(j) = rest.field() else {
        return None;
    };
    close(rest, Row::of(kind, i, j))
}

// How many numbers follow the kind's word.
fn fields(kind: Kind) -> u8
    ensures { result ≡ fields_of kind }
{
    match kind {
        Kind::Yes | Kind::No => 0,
        Kind::Is | Kind::Isnot | Kind::Stop => 1,
        Kind::Any | Kind::All | Kind::Go => 2,
    }
}

fn close(rest: &mut Rest<'_>, row: Row) -> Option<Row>
    ensures { Takes rest.old rest.new result (closed row rest.old) }
{
    rest.byte(b'\n')?;
    Some(row)
}

// Whether the row's name or direction exists.
pub fn exists(row: Row) -> bool
    ensures { Decides result (Exists row) }
{
    match row {
        Row::Is(n) | Row::Isnot(n) => n < Table::NAMES,
        Row::Go(d, _) | Row::Stop(d) => direction(d),
        Row::Yes | Row::No | Row::Any(_, _) | Row::All(_, _) => true,
    }
}

// Of a number and not of a `Direction`: a row is read as it is written, also with a direction that does not exist.
fn direction(d: u8) -> bool
    ensures { Decides result (Direction d) }
{
    matches!(d, 1..=4)
}
