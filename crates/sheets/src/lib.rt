#![tactic(auto)]

// A sheet as text: its lines, refusals 9 and 10, and the tree that it is.
mod lines;
mod links;
mod reading;

ghost use Rattle.std.specs.Prelude.{◌≡◌, []};
ghost use Rattle.sheets.specs.Links.{Loaded};
ghost use Rattle.sheets.specs.Lines.{lines_of, Extended};

use table::at_most::AtMost;
use table::refusal::Refusal;

// A node: its name, and the lines of its first child and its next sibling, where it has them.
#[derive(Clone, Copy, PartialEq, Eq)]
pub struct Line {
    pub name: u8,
    pub first: Option<u16>,
    pub next: Option<u16>,
}

impl Line {
    const BLANK: Line = Line {
        name: 0,
        first: None,
        next: None,
    };
}

// A type of its own beside `Table`, since its limit and what is promised of it are its own: what is the same is `AtMost`.
#[derive(Clone, Copy)]
pub struct Sheet {
    pub lines: AtMost<Line, { Sheet::LINES }>,
}

impl Sheet {
    pub const LINES: usize = 255;

    // What the program reads of a sheet: a good one has at most 11 bytes a line.
    pub const TEXT: usize = 3072;

    pub fn new() -> Sheet
        ensures { (result.lines.len ≡ 0) × (lines_of result ≡ []) }
    {
        Sheet {
            lines: AtMost::new(Line::BLANK),
        }
    }

    // One line more, or as it is where it is full. In place: a sheet is 2,560 bytes, and is not copied for each line.
    pub(crate) fn add_line(&mut self, line: Line)
        ensures { Extended self.old line self.new }
    {
        self.lines.push(line);
    }

    pub fn lines(&self) -> &[Line]
        ensures { result.now ≡ lines_of self.now }
    {
        self.lines.as_slice()
    }
}

// First 9, then 10: a text that is refused with 9 has no lines, so none of them is faulty.
#[tactic(auto, using(crate::proofs::Loading::steps))]
pub fn load(text: &[u8]) -> Result<Sheet, Refusal>
    ensures { Loaded text.now result }
{
    let sheet = reading::read_text(text)?;
    if let Some(i) = links::first_faulty(sheet.lines()) {
        return Err(Refusal::FaultyLine(i));
    }
    Ok(sheet)
}
