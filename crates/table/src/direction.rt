// The four directions: down to the first child or the next sibling, and back up each.
ghost use Rattle.std.specs.Prelude.{◌≡◌};
ghost use Rattle.meaning.specs.Table.{converse};
ghost use Rattle.table.specs.Rows.{dir_of};
ghost use Rattle.table.specs.Directions.{dir};

#[derive(Clone, Copy, PartialEq, Eq)]
pub enum Side {
    First,
    Next,
}

#[derive(Clone, Copy, PartialEq, Eq)]
pub enum Direction {
    Down(Side),
    Up(Side),
}

impl Direction {
    // The direction of a number in a table. One that is written there is 1 to 4.
    pub fn of(number: u8) -> Direction
        ensures { dir result ≡ dir_of number }
    {
        match number {
            1 => Direction::Down(Side::First),
            2 => Direction::Down(Side::Next),
            3 => Direction::Up(Side::First),
            _ => Direction::Up(Side::Next),
        }
    }

    pub fn converse(self) -> Direction
        ensures { dir result ≡ converse (dir self) }
    {
        match self {
            Direction::Down(side) => Direction::Up(side),
            Direction::Up(side) => Direction::Down(side),
        }
    }
}
