// One row at one line of a sheet.
#[derive(Clone, Copy)]
pub(crate) struct Cell {
    pub line: u8,
    pub row: u8,
}
