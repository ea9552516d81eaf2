// Why a text, a table, a sheet or memory is refused, and where.
ghost use Rattle.std.specs.Prelude.{◌≡◌};
ghost use Rattle.table.specs.Refusals.{number_of, place_of};

use crate::Table;

// A place is a row's or a line's number.
#[derive(Clone, Copy, PartialEq, Eq)]
pub enum Refusal {
    Empty,
    Malformed(usize),
    TooMany,
    NotThere(usize),
    Missing(usize),
    Looping(usize),
    Large,
    NoRoom,
    MalformedLine(usize),
    FaultyLine(usize),
}

impl Refusal {
    pub fn number(self) -> u32
        ensures { result ≡ number_of self }
    {
        match self {
            Refusal::Empty => 1,
            Refusal::Malformed(_) => 2,
            Refusal::TooMany => 3,
            Refusal::NotThere(_) => 4,
            Refusal::Missing(_) => 5,
            Refusal::Looping(_) => 6,
            Refusal::Large => 7,
            Refusal::NoRoom => 8,
            Refusal::MalformedLine(_) => 9,
            Refusal::FaultyLine(_) => 10,
        }
    }

    // 0 where the number alone says it, and no Option: the promise `place_of` says that number.
    pub fn place(self) -> usize
        ensures { result ≡ place_of self }
    {
        match self {
            Refusal::Malformed(i)
            | Refusal::NotThere(i)
            | Refusal::Missing(i)
            | Refusal::Looping(i)
            | Refusal::MalformedLine(i)
            | Refusal::FaultyLine(i) => i,
            Refusal::TooMany => Table::ROWS,
            Refusal::Empty | Refusal::Large | Refusal::NoRoom => 0,
        }
    }
}
