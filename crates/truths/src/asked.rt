// The rows that are asked, and the lines at which they are.
ghost use Rattle.std.specs.Prelude.{◌≤◌, length};
ghost use Rattle.meaning.specs.Table.{row_limit, InRange};
ghost use Rattle.table.specs.Rows.{table_in};
ghost use Rattle.truths.specs.Spots.{Laid};

use crate::spots::Spot;
use table::Row;

#[derive(Drop)]
pub(crate) struct Asked<'a> {
    pub rows: &'a [Row],
    pub spots: &'a [Spot],
    ghost few: { length rows.now ≤ row_limit },
    ghost in_range: { InRange (table_in rows.now) },
    ghost laid: { Laid spots.now },
}
