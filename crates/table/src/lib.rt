#![tactic(auto)]

// A table's rows, and what all who read, search or judge say of a table.
pub mod at_most;
pub mod direction;
pub mod refusal;

ghost use Rattle.std.specs.Prelude.{◌≡◌, [], ◌<◌};
ghost use Rattle.table.specs.Rows.{row_by, rows_of, row_in, Extended};

use at_most::AtMost;

// What a row says, without the numbers that follow its word.
#[derive(Clone, Copy, PartialEq, Eq)]
pub enum Kind {
    Yes,
    No,
    Is,
    Isnot,
    Any,
    All,
    Go,
    Stop,
}

// A row as it is written: numbers are kept as they stand in the text, also a name or a direction that does not exist.
#[derive(Clone, Copy, PartialEq, Eq)]
pub enum Row {
    Yes,
    No,
    Is(u8),
    Isnot(u8),
    Any(u8, u8),
    All(u8, u8),
    // A number and no `Direction`: refusal 4 speaks of rows as written, and a second type of rows would say the eight kinds twice.
    Go(u8, u8),
    Stop(u8),
}

impl Row {
    // The row of a kind, with what it needs of two fields.
    pub fn of(kind: Kind, a: u8, b: u8) -> Row
        ensures { result ≡ row_by kind a b }
    {
        match kind {
            Kind::Yes => Row::Yes,
            Kind::No => Row::No,
            Kind::Is => Row::Is(a),
            Kind::Isnot => Row::Isnot(a),
            Kind::Any => Row::Any(a, b),
            Kind::All => Row::All(a, b),
            Kind::Go => Row::Go(a, b),
            Kind::Stop => Row::Stop(a),
        }
    }
}

#[derive(Clone, Copy)]
pub struct Table {
    pub rows: AtMost<Row, { Table::ROWS }>,
}

impl Table {
    pub const ROWS: usize = 48;

    // Names are 0 to 15.
    pub const NAMES: u8 = 16;

    // The most that N × 2^m may be.
    pub const SIZE: usize = 4096;

    pub const CODES: usize = 65536;

    // The bytes of a line, with its line feed.
    pub const LINE: usize = 10;

    // What the program reads of its input: a good table has at most ROWS × LINE bytes.
    pub const TEXT: usize = 512;

    pub fn new() -> Table
        ensures { (result.rows.len ≡ 0) × (rows_of result ≡ []) }
    {
        Table {
            rows: AtMost::new(Row::No),
        }
    }

    // One row more, or as it is where it is full. In place: a table that is built row by row is not copied for each.
    pub fn add_row(&mut self, row: Row)
        ensures { Extended self.old row self.new }
    {
        self.rows.push(row);
    }

    // The same as a new value.
    pub fn with_row(self, row: Row) -> Table
        ensures { Extended self row result }
    {
        Table {
            rows: self.rows.with(row),
        }
    }

    // Row i; beyond the last row it is `no`.
    pub fn row(self, i: usize) -> Row
        ensures { result ≡ row_in self i }
    {
        self.rows().get(i).copied().unwrap_or(Row::No)
    }

    pub fn rows(&self) -> &[Row]
        ensures { result.now ≡ rows_of self.now }
    {
        self.rows.as_slice()
    }
}
